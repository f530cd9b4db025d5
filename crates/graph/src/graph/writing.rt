ghost use Rattle.graph.specs.Writing.{Writes, Again};

use super::Graph;
use refusals::Refusal;
use writer::put_file;

impl Graph {
    // Writes the file of the graph and its clock, without the dropped wires and with every fill; answers its length.
    pub fn write(&self, out: &mut [u32]) -> Result<usize, Refusal>
        ensures { Writes self.now out.old result out.new }
    {
        let long = self.gates() - 1 + 2 * self.wires() + 2;
        if out.len() < long {
            return Err(Refusal::Memory(5));
        }
        let clock = self.clock.ok_or(Refusal::NoClock)?;
        let wires = self.listing();
        Ok(put_file(&self.delays.as_slice()[1..], wires.as_slice(), clock, out))
    }
}

// What is written loads as the same graph, its wires numbered anew.
#[tactic(auto, using(crate::proofs::Writing::again))]
pub fn written_again()
    ensures { Again }
{}
