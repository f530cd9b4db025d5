use graph::Graph;
use refusals::Refusal;

// A join of two gates at a third is written with one of its five wires dropped, and loaded again: the wires are counted anew.
#[test]
fn written_and_loaded(rt: HostRuntime) {
    for (dropped, period) in [(0, 2), (1, 2), (2, 2), (3, 2), (4, 2)] {
        let mut g = Graph::new();
        for delay in [1, 1, 1] {
            let _ = g.gate(delay);
        }
        for (from, to, registers) in [(0, 1, 1), (0, 2, 1), (1, 3, 0), (2, 3, 0), (3, 0, 0)] {
            let _ = g.wire(from, to, registers, 16, 0, 3);
        }
        assert_eq!(rt; g.drop_wire(dropped), Ok(()));
        assert_eq!(rt; g.clock(3), Ok(()));
        let mut words = [0xFFFF_FFFFu32; 14];
        assert_eq!(rt; g.write(&mut words), Ok(13));
        assert_eq!(rt;
            (words[11], words[12], words[13]),
            (0x4000_0003, 12, 0xFFFF_FFFF)
        );
        let mut h = Graph::new();
        assert_eq!(rt; h.load(&words[0..13]), Ok(()));
        assert_eq!(rt;
            (h.gates(), h.wires(), h.numbers(), h.ticks()),
            (4, 4, 4, Some(3))
        );
        assert_eq!(rt; h.measure(), Ok(period));
    }
}

#[test]
fn writes_refused(rt: HostRuntime) {
    let mut g = Graph::new();
    let mut words = [7u32; 2];
    assert_eq!(rt; g.write(&mut words[0..1]), Err(Refusal::Memory(5)));
    assert_eq!(rt; g.write(&mut words), Err(Refusal::NoClock));
    assert_eq!(rt; g.clock(9), Ok(()));
    assert_eq!(rt; g.write(&mut words), Ok(2));
    assert_eq!(rt; (words[0], words[1]), (0x4000_0009, 1));
}
