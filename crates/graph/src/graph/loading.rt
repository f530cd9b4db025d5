ghost use Rattle.std.specs.Prelude.{◌≡◌};
ghost use Rattle.words.specs.Netlist.{Netlist, Spells};
ghost use Rattle.graph.specs.Reads.{circuit};
ghost use Rattle.graph.specs.Loading.{Loads, Replaced, circuit_with, clock_with};

use super::Graph;
use file::machine::judge;
use refusals::LoadRefusal;
use words::reader::{Record, clock_in, gate_in, records, wire_in};

// Makes the call that a record stands for.
fn add(graph: &mut Graph, item: Record<'_>)
    ensures circuit { circuit graph.new ≡ circuit_with (circuit graph.old) item.entry }
    ensures clock { graph.new.clock ≡ clock_with graph.old.clock item.entry }
{
    match item {
        Record::Gate(part, _) => {
            let _ = graph.gate(u32::from(gate_in(part)));
        }
        Record::Wire(part, _) => {
            let wire = wire_in(part);
            let _ = graph.wire(
                u32::from(wire.from),
                u32::from(wire.to),
                u32::from(wire.registers),
                u32::from(wire.price),
                u32::from(wire.floor),
                u32::from(wire.ceiling),
            );
        }
        Record::Clock(part, _) => {
            let _ = graph.clock(clock_in(part));
        }
    }
}

// The graph of a file: no call is refused that its records stand for.
fn read(words: &[u32]) -> Graph
    requires { (n : Netlist) × Spells words.now n }
    ensures { Replaced words.now result }
{
    let mut graph = Graph::new();
    for item in records(words) {
        add(&mut graph, item);
    }
    graph
}

impl Graph {
    // Puts a file's graph and clock in place of the old, or names the file's first fault.
    pub fn load(&mut self, words: &[u32]) -> Result<(), LoadRefusal>
        ensures { Loads words.now self.old result self.new }
    {
        judge(words)?;
        *self = read(words);
        Ok(())
    }
}
