ghost use Rattle.graph.specs.Reads.{circuit};
ghost use Rattle.graph.specs.Tabling.{Tables};

use super::Graph;
use paths::Paths;
use refusals::Refusal;

impl Graph {
    // Fills W and D: the cell u·n + v of n gates has the fewest registers of a path from u to v, and the greatest delay of the paths with so few.
    pub fn paths(&self, least: &mut [u32], most: &mut [u32]) -> Result<(), Refusal>
        ensures { Tables (circuit self.now) least.old most.old result least.new most.new }
    {
        let cells = self.gates() * self.gates();
        if least.len() < cells {
            return Err(Refusal::Memory(0));
        }
        if most.len() < cells {
            return Err(Refusal::Memory(1));
        }
        self.measure()?;
        let wires = self.listing();
        let paths = Paths {
            delays: self.delays.as_slice(),
            wires: wires.as_slice(),
        };
        paths.fill_tables(least, most);
        Ok(())
    }
}
