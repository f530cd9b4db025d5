ghost use Rattle.std.specs.Prelude.{◌≡◌, ◌<◌, ◌≤◌, length, slice_index};
ghost use Rattle.graph.specs.Tables.{Inside, Ceilings, Ticks};

mod calls;
mod critical;
mod ends;
mod joining;
mod listing;
mod loading;
mod measuring;
mod reads;
mod rows;
mod run;
mod tabling;
mod trying;
mod writing;

use arrayvec::ArrayVec;
pub use ends::Ends;
pub use run::Run;
pub use writing::written_again;

// The gates and wires of a circuit, and its clock where it has one. Gate 0 is the host.
#[derive(Drop)]
pub struct Graph {
    delays: ArrayVec<u16, 128>,
    // by number; None where the wire was dropped
    wires: ArrayVec<Option<Ends>, 512>,
    // by wire number; a list of their own, since a trial lends just these to its guard
    registers: ArrayVec<u8, 512>,
    clock: Option<u32>,
    ghost some: { 0 < length delays.items },
    ghost small: { length delays.items ≤ 128 },
    ghost short: { length wires.items ≤ 512 },
    ghost idle: { slice_index delays.items 0 ≡ 0 },
    ghost paired: { length registers.items ≡ length wires.items },
    ghost inside: { Inside wires.items (length delays.items) },
    ghost capped: { Ceilings wires.items },
    ghost ticks: { Ticks clock },
}
