use graph::Graph;
use refusals::Refusal;

#[test]
fn delays_up_to_65535(rt: HostRuntime) {
    let mut g = Graph::new();
    assert_eq!(rt; g.gate(65_535), Ok(1));
    assert_eq!(rt; g.gate(65_536), Err(Refusal::Range(0)));
    assert_eq!(rt; g.gates(), 2);
}

#[test]
fn gates_up_to_128(rt: HostRuntime) {
    let mut g = Graph::new();
    for n in 1..128u32 {
        assert_eq!(rt; g.gate(0), Ok(n));
    }
    assert_eq!(rt; g.gate(0), Err(Refusal::Full(0)));
}

#[test]
fn an_empty_wire_to_itself(rt: HostRuntime) {
    let mut g = Graph::new();
    assert_eq!(rt; g.gate(1), Ok(1));
    assert_eq!(rt; g.wire(1, 1, 0, 1, 0, 255), Ok(0));
    assert_eq!(rt; g.measure(), Err(Refusal::Loop(1)));
    assert_eq!(rt; g.trial(0, 1), Ok(1));
    assert_eq!(rt; g.measure(), Err(Refusal::Loop(1)));
}

#[test]
fn numbers_after_a_drop(rt: HostRuntime) {
    let mut g = Graph::new();
    assert_eq!(rt; g.wire(0, 0, 1, 1, 0, 255), Ok(0));
    assert_eq!(rt; g.wire(0, 0, 2, 1, 0, 255), Ok(1));
    assert_eq!(rt; g.drop_wire(0), Ok(()));
    assert_eq!(rt; g.drop_wire(0), Err(Refusal::NoWire(0)));
    assert_eq!(rt; g.set(0, 1), Err(Refusal::NoWire(0)));
    assert_eq!(rt; g.wire(0, 0, 3, 1, 0, 255), Ok(2));
    assert_eq!(rt; (g.wires(), g.numbers()), (2, 3));
}

#[test]
fn wires_refused(rt: HostRuntime) {
    let rows = [
        ([1, 9, 0, 1, 0, 255], Refusal::NoGate(0)),
        ([0, 9, 999, 1, 0, 255], Refusal::NoGate(1)),
        ([0, 0, 256, 0, 0, 255], Refusal::Range(2)),
        ([0, 0, 255, 0, 0, 255], Refusal::Range(3)),
        ([0, 0, 255, 17, 256, 255], Refusal::Range(3)),
        ([0, 0, 255, 16, 256, 256], Refusal::Range(4)),
        ([0, 0, 255, 16, 255, 256], Refusal::Range(5)),
        ([0, 0, 255, 16, 255, 254], Refusal::Reversed(4)),
    ];
    let mut g = Graph::new();
    for ([from, to, registers, price, floor, ceiling], refusal) in rows {
        assert_eq!(rt;
            g.wire(from, to, registers, price, floor, ceiling),
            Err(refusal)
        );
    }
    assert_eq!(rt; g.numbers(), 0);
}

#[test]
fn clocks_from_1_to_16777215(rt: HostRuntime) {
    let mut g = Graph::new();
    assert_eq!(rt; g.clock(0), Err(Refusal::Range(0)));
    assert_eq!(rt; g.clock(16_777_216), Err(Refusal::Range(0)));
    assert_eq!(rt; g.ticks(), None);
    assert_eq!(rt; g.clock(16_777_215), Ok(()));
    assert_eq!(rt; g.ticks(), Some(16_777_215));
}

// Gates of delay 3, 4 and 2 in a row from the host and back, a register at either end.
#[test]
fn a_row_of_three(rt: HostRuntime) {
    let mut g = Graph::new();
    for delay in [3, 4, 2] {
        let _ = g.gate(delay);
    }
    for (from, to, registers) in [(0, 1, 1), (1, 2, 0), (2, 3, 0), (3, 0, 1)] {
        let _ = g.wire(from, to, registers, 1, 0, 255);
    }
    assert_eq!(rt; g.measure(), Ok(9));
    assert_eq!(rt; g.trial(1, 1), Ok(6));
    assert_eq!(rt; g.trial(4, 1), Err(Refusal::NoWire(4)));
    assert_eq!(rt; g.trial(1, 256), Err(Refusal::Range(1)));
    assert_eq!(rt; g.measure(), Ok(9));
}
