ghost use Rattle.std.specs.Prelude.{◌≡◌, ◌<◌, ◌≤◌, length};
ghost use Rattle.graph.specs.Tables.{Inside};

use super::{Ends, Graph};

// The gates' delays, and the wires by number with the registers of each.
#[derive(Clone, Copy)]
pub struct Rows<'a> {
    pub delays: &'a [u16],
    pub wires: &'a [Option<Ends>],
    pub registers: &'a [u8],
    ghost some: { 0 < length delays.now },
    ghost few: { (length delays.now ≤ 128) × (length wires.now ≤ 512) },
    ghost paired: { length registers.now ≡ length wires.now },
    ghost inside: { Inside wires.now (length delays.now) },
}

impl Graph {
    ghost use Rattle.graph.specs.Reads.{circuit, circuit_in};

    // What it holds, as rows.
    pub(super) fn rows(&self) -> Rows<'_>
        ensures { circuit_in result ≡ circuit self.now }
    {
        Rows {
            delays: self.delays.as_slice(),
            wires: self.wires.as_slice(),
            registers: self.registers.as_slice(),
        }
    }
}
