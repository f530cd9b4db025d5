ghost use Rattle.bench.specs.Findings.{Inspected};

use graph::{Graph, Run};
use refusals::{LoadRefusal, Refusal};
use std::fmt;

// What a file holds: its gates, the host counted, its wires, its clock, and the period with a path that takes so long, or why there is none.
#[derive(Drop)]
pub struct Finding {
    pub gates: usize,
    pub wires: usize,
    pub clock: u32,
    pub period: Result<u32, Refusal>,
    pub slowest: Result<Run, Refusal>,
}

impl fmt::Display for Finding {
    fn fmt<W: fmt::Write>(&self, f: &mut fmt::Formatter<W>) -> fmt::Result {
        let gates = self.gates;
        let wires = self.wires;
        let clock = self.clock;
        writeln!(f, "gates {gates}, the host counted")?;
        writeln!(f, "wires {wires}")?;
        writeln!(f, "clock {clock}")?;
        match &self.period {
            Ok(period) => {
                let met = if *period <= clock {
                    "is met"
                } else {
                    "is not met"
                };
                write!(f, "period {period}\nthe clock {met} as the registers stand")?;
            }
            Err(refusal) => write!(f, "no period: {refusal}")?,
        }
        match &self.slowest {
            Ok(run) if !run.gates.is_empty() => write!(f, "\nslowest path without registers:{run}"),
            _ => Ok(()),
        }
    }
}

// What the words hold, or why they are no file; `spare` where bytes are left over beyond whole words.
pub fn inspect(words: &[u32], spare: bool) -> Result<Finding, LoadRefusal>
    ensures { Inspected words.now spare result }
{
    let mut graph = Graph::new();
    graph.load(words)?;
    if spare {
        return Err(Refusal::BadEnd(words.len() as u32).into());
    }
    Ok(Finding {
        gates: graph.gates(),
        wires: graph.wires(),
        clock: graph.ticks().unwrap(),
        period: graph.measure(),
        slowest: graph.critical(),
    })
}
