ghost use Rattle.graph.specs.Reads.{circuit};
ghost use Rattle.graph.specs.Critical.{Critical};

use super::Graph;
use super::run::Run;
use paths::Paths;
use refusals::Refusal;

impl Graph {
    // A slowest path without registers: registers moved onto it make the graph faster.
    pub fn critical(&self) -> Result<Run, Refusal>
        ensures { Critical (circuit self.now) result }
    {
        self.measure()?;
        let wires = self.listing();
        let paths = Paths {
            delays: self.delays.as_slice(),
            wires: wires.as_slice(),
        };
        let gates = paths.slowest();
        Ok(Run { gates })
    }
}
