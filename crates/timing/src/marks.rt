ghost use Rattle.std.specs.Prelude.{ℕ, ◌≤◌, length};
ghost use Rattle.timing.specs.Arcs.{Within, Walk};
ghost use Rattle.timing.specs.Marks.{Next, Spread, Reached, Loops, Lowest};

use crate::{Arc, OnLoop};

// There is a mark for each number that an arc can name, so none is out of range.

// Marks just the gates that an arc from the gate enters.
fn next(arcs: &[Arc], gate: u8) -> [bool; 256]
    ensures { Next arcs.now (length arcs.now) gate result }
{
    let mut marks = [false; 256];
    for arc in arcs {
        if arc.from == gate {
            marks[arc.to as usize] = true;
        }
    }
    marks
}

// Marks the gates that arcs from marked gates enter; whether there is a new mark.
fn spread(arcs: &[Arc], marks: &mut [bool; 256]) -> bool
    ensures { Spread arcs.now (length arcs.now) marks.old marks.new result }
{
    let mut changed = false;
    for arc in arcs {
        let from = arc.from as usize;
        let to = arc.to as usize;
        if marks[from] && !marks[to] {
            marks[to] = true;
            changed = true;
        }
    }
    changed
}

// Marks just the gates that a walk along arcs from the gate leads to.
pub(crate) fn reached(arcs: &[Arc], gate: u8) -> [bool; 256]
    ensures { Reached arcs.now gate result }
{
    let mut marks = next(arcs, gate);
    while spread(arcs, &mut marks) {}
    marks
}

// Whether a walk along arcs leads from the gate back to it.
fn on_loop(arcs: &[Arc], gate: u8) -> bool
    ensures { Loops arcs.now gate result }
{
    reached(arcs, gate)[gate as usize]
}

// The least gate on a loop, where there is one.
pub(crate) fn lowest(arcs: &[Arc], gates: usize) -> OnLoop
    requires within { Within gates arcs.now }
    requires few { gates ≤ 128 }
    ensures { (v : ℕ) × Walk arcs.now v v → Lowest arcs.now result.gate }
{
    // 0 only where there is no loop, of which nothing is said.
    let gate = (1..gates as u32)
        .find(|gate| on_loop(arcs, *gate as u8))
        .unwrap_or(0);
    OnLoop { gate }
}
