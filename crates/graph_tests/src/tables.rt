use graph::Graph;
use refusals::Refusal;

// No path.
const NONE: u32 = 4_294_967_295;

// Gates of delay 3, 4 and 2 in a row from the host and back, a register at either end.
#[test]
fn a_row_of_three(rt: HostRuntime) {
    let mut g = Graph::new();
    for delay in [3, 4, 2] {
        let _ = g.gate(delay);
    }
    for (from, to, registers) in [(0, 1, 1), (1, 2, 0), (2, 3, 0), (3, 0, 1)] {
        let _ = g.wire(from, to, registers, 1, 0, 255);
    }
    let mut least = [7u32; 17];
    let mut most = [7u32; 17];
    assert_eq!(rt; g.paths(&mut least, &mut most), Ok(()));
    let rows = [
        (0, NONE, 0),
        (4, NONE, 0),
        (5, 0, 3),
        (6, 0, 7),
        (7, 0, 9),
        (9, NONE, 0),
        (10, 0, 4),
        (11, 0, 6),
        (15, 0, 2),
        (16, 7, 7),
    ];
    for (i, w, d) in rows {
        assert!(rt; i < 17);
        assert_eq!(rt; (least[i], most[i]), (w, d));
    }
}

// Two gates fed by the host through a register each join a third, which feeds the host.
#[test]
fn a_join(rt: HostRuntime) {
    let mut g = Graph::new();
    for delay in [1, 1, 1] {
        let _ = g.gate(delay);
    }
    for (from, to, registers) in [(0, 1, 1), (0, 2, 1), (1, 3, 0), (2, 3, 0), (3, 0, 0)] {
        let _ = g.wire(from, to, registers, 1, 0, 255);
    }
    let mut least = [0u32; 16];
    let mut most = [0u32; 16];
    assert_eq!(rt; g.paths(&mut least, &mut most), Ok(()));
    assert_eq!(rt; (least[5], most[5]), (0, 1));
    assert_eq!(rt; (least[6], most[6]), (NONE, 0));
    assert_eq!(rt; (least[7], most[7]), (0, 2));
    assert_eq!(rt; (g.measure(), g.trial(2, 1)), (Ok(2), Ok(2)));
    assert_eq!(rt; g.set(3, 1), Ok(()));
    assert_eq!(rt; (g.measure(), g.trial(2, 1)), (Ok(2), Ok(1)));
}

// Of two paths from 1 to 3 without registers the slower one counts, and none through the host.
#[test]
fn the_slowest_of_the_lightest(rt: HostRuntime) {
    let mut g = Graph::new();
    for delay in [1, 5, 1] {
        let _ = g.gate(delay);
    }
    for (from, to, registers) in [
        (1, 3, 0),
        (1, 2, 0),
        (2, 3, 0),
        (3, 1, 2),
        (3, 0, 0),
        (0, 1, 0),
    ] {
        let _ = g.wire(from, to, registers, 1, 0, 255);
    }
    let mut least = [0u32; 16];
    let mut most = [0u32; 16];
    assert_eq!(rt; g.paths(&mut least, &mut most), Ok(()));
    assert_eq!(rt; (least[7], most[7]), (0, 7));
    assert_eq!(rt; (least[13], most[13]), (2, 2));
}

#[test]
fn tables_refused(rt: HostRuntime) {
    let mut g = Graph::new();
    assert_eq!(rt; g.gate(1), Ok(1));
    let mut few = [9u32; 3];
    let mut four = [9u32; 4];
    assert_eq!(rt; g.paths(&mut few, &mut four), Err(Refusal::Memory(0)));
    assert_eq!(rt; g.paths(&mut four, &mut few), Err(Refusal::Memory(1)));
    assert_eq!(rt; g.wire(1, 1, 0, 1, 0, 255), Ok(0));
    let mut more = [9u32; 4];
    assert_eq!(rt; g.paths(&mut four, &mut more), Err(Refusal::Loop(1)));
    assert_eq!(rt; (four[0], more[3]), (9, 9));
}
