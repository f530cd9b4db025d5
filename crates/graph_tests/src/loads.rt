use graph::Graph;
use refusals::{LoadRefusal, Refusal};

// Words that are no file are refused as said, and the graph stays.
#[test]
fn words_out_of_place(rt: HostRuntime) {
    let rows: [(&[u32], Refusal); 6] = [
        (&[0x3000_00FF], Refusal::NotNext(0)),
        (&[0x9000_0000], Refusal::NotNext(0)),
        (&[0x2000_0000, 0x1000_0001], Refusal::NotNext(1)),
        (
            &[0x2000_0000, 0x3000_00FF, 0x3000_00FF],
            Refusal::NotNext(2),
        ),
        (&[0x4000_0001, 0x4000_0001], Refusal::NotNext(1)),
        (&[0x4000_0001, 1, 1], Refusal::AfterEnd(2)),
    ];
    let mut g = Graph::new();
    let _ = g.gate(7);
    for (words, refusal) in rows {
        assert_eq!(rt; g.load(words), Err(LoadRefusal::Call(refusal)));
    }
    assert_eq!(rt; (g.gates(), g.measure()), (2, Ok(7)));
}

#[test]
fn stray_bits_and_ends(rt: HostRuntime) {
    let rows: [(&[u32], Refusal); 6] = [
        (&[0x1001_0000], Refusal::StrayBit(0)),
        (&[0x2000_4000], Refusal::StrayBit(0)),
        (&[0x4100_0000], Refusal::StrayBit(0)),
        (&[], Refusal::BadEnd(0)),
        (&[0x4000_0001], Refusal::BadEnd(1)),
        (&[0x4000_0001, 2], Refusal::BadEnd(1)),
    ];
    let mut g = Graph::new();
    for (words, refusal) in rows {
        assert_eq!(rt; g.load(words), Err(LoadRefusal::Call(refusal)));
    }
    assert_eq!(rt; (g.gates(), g.ticks()), (1, None));
}

#[test]
fn calls_refused(rt: HostRuntime) {
    let rows: [(&[u32], u32, Refusal); 6] = [
        (&[0x2000_0080], 0, Refusal::NoGate(0)),
        (&[0x1000_0001, 0x2000_0002], 1, Refusal::NoGate(1)),
        (&[0x2000_0000, 0x3000_0100], 1, Refusal::Reversed(4)),
        (&[0x4000_0000], 0, Refusal::Range(0)),
        (&[0x1000_0000; 128], 127, Refusal::Full(0)),
        (&[0x2000_0000; 513], 512, Refusal::WiresUsed),
    ];
    let mut g = Graph::new();
    for (words, index, refusal) in rows {
        assert_eq!(rt; g.load(words), Err(LoadRefusal::Word { index, refusal }));
    }
    assert_eq!(rt; g.numbers(), 0);
}

// Two gates fed by the host join a third, which feeds the host.
#[test]
fn a_join(rt: HostRuntime) {
    let words = [
        0x1000_0001,
        0x1000_0001,
        0x1000_0001,
        0x2000_0001,
        0x3001_00FF,
        0x2000_0002,
        0x3001_00FF,
        0x2000_0083,
        0x2000_0103,
        0x2000_0180,
        0x4000_0003,
        0x0000_000B,
    ];
    let mut g = Graph::new();
    assert_eq!(rt; g.load(&words), Ok(()));
    assert_eq!(rt; (g.gates(), g.wires(), g.ticks()), (4, 5, Some(3)));
    assert_eq!(rt; g.measure(), Ok(2));
}
