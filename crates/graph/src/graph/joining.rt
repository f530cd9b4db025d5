ghost use Rattle.std.specs.Prelude.{◌≡◌};
ghost use Rattle.graph.specs.Reads.{circuit, circuit_in};
ghost use Rattle.graph.specs.Joins.{both_ways, Spans};

use super::Graph;
use super::rows::Rows;
use arrayvec::ArrayVec;
use refusals::Refusal;
use timing::{Arc, unreached};

impl Rows<'_> {
    // Each wire in both directions.
    fn double(&self) -> ArrayVec<Arc, 1024>
        ensures { result.items ≡ both_ways self.now.wires.now }
    {
        let mut arcs = ArrayVec::new();
        for e in self.wires.iter().flatten() {
            arcs.push(Arc {
                from: e.from,
                to: e.to,
            });
            arcs.push(Arc {
                from: e.to,
                to: e.from,
            });
        }
        arcs
    }

    // Refused with the lowest gate that wires do not join to the host.
    fn joined(&self) -> Result<(), Refusal>
        ensures { Spans (circuit_in self.now) result }
    {
        // None is the good answer here: `ok_or` does not serve, and `map_or` is no plainer.
        match unreached(self.double().as_slice(), self.delays.len()) {
            None => Ok(()),
            Some(gate) => Err(Refusal::Apart(gate)),
        }
    }
}

impl Graph {
    // Refused where a gate is not joined to the host by wires, in either direction.
    pub fn joined(&self) -> Result<(), Refusal>
        ensures { Spans (circuit self.now) result }
    {
        self.rows().joined()
    }
}
