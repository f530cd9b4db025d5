ghost use Rattle.std.specs.Prelude.{length};
ghost use Rattle.graph.specs.Reads.{circuit, circuit_in};
ghost use Rattle.graph.specs.Measures.{Gathered, Measured};

use super::Graph;
use super::rows::Rows;
use arrayvec::ArrayVec;
use refusals::Refusal;
use timing::{Arc, period};

impl Rows<'_> {
    // The wires without registers between gates that are not the host.
    fn gather(&self) -> ArrayVec<Arc, 512>
        ensures { Gathered self.now.wires.now self.now.registers.now (length self.now.wires.now) result.items }
    {
        let mut arcs = ArrayVec::new();
        for (wire, held) in self.wires.iter().zip(self.registers) {
            if let Some(e) = wire
                && *held == 0
                && e.from != 0
                && e.to != 0
            {
                arcs.push(Arc {
                    from: e.from,
                    to: e.to,
                });
            }
        }
        arcs
    }

    // The period of the circuit that the rows hold.
    pub fn measure(&self) -> Result<u32, Refusal>
        ensures { Measured (circuit_in self.now) result }
    {
        period(self.delays, self.gather().as_slice()).map_err(|found| Refusal::Loop(found.gate))
    }
}

impl Graph {
    pub fn measure(&self) -> Result<u32, Refusal>
        ensures { Measured (circuit self.now) result }
    {
        self.rows().measure()
    }
}
