ghost use Rattle.std.specs.Prelude.{◌≡◌, ℕ, ◌<◌, ◌≤◌, length, count_by, slice_index};
ghost use Rattle.timing.specs.Arcs.{Within, into};
ghost use Rattle.timing.specs.Groups.{heads};
ghost use Rattle.timing.specs.Lowered.{Lowerable, Lowered, Raised};

use crate::Arc;
use ring::ring::Ring;
use std::marker::Model;

// The arcs, and the groups of those that leave the same gate: the last one of each gate, and for each arc the one before it in its group.
// There is a last one for each number that an arc can name.
// The groups are linked in fixed arrays, since nothing may be allocated and a gate's arcs are to be found without going over all.
#[derive(Drop)]
pub(crate) struct Fanout<'a> {
    arcs: &'a [Arc],
    last: [Option<u16>; 256],
    earlier: [Option<u16>; 512],
}

// A clause sees the arcs.
impl<'a> Model for Fanout<'a> {
    ghost use Rattle.std.specs.Prelude.{List, length};
    ghost use Rattle.timing.specs.declared.Arc.{Arc};
    ghost use Rattle.timing.specs.Groups.{Grouping};

    ghost Value = { List Arc };

    ghost view = { λ f. f.arcs.now };

    ghost invariant = { λ f. Grouping f.arcs.now f.last f.earlier };
}

impl<'a> Fanout<'a> {
    pub(crate) fn new(arcs: &'a [Arc]) -> Fanout<'a>
        requires { (length arcs.now ≤ 512) × (Within 128 arcs.now) }
        ensures { result ≡ arcs.now }
    {
        let mut last = [None; 256];
        let mut earlier = [None; 512];
        for (i, arc) in arcs.iter().enumerate() {
            let tail = arc.from as usize;
            earlier[i] = last[tail];
            last[tail] = Some(i as u16);
        }
        Fanout {
            arcs,
            last,
            earlier,
        }
    }

    // How many arcs enter each gate.
    pub(crate) fn tally(&self) -> [u16; 128]
        ensures { (v : ℕ) → slice_index result v ≡ count_by (into v) self.now }
    {
        let mut counts = [0; 128];
        for arc in self.arcs {
            counts[arc.to as usize] += 1;
        }
        counts
    }

    // The gates that the arcs from the gate enter, last arc first.
    fn heads(&self, gate: u8) -> Heads<'_, 'a>
        ensures heads { result ≡ heads self.now gate }
        ensures within { Within 128 self.now }
    {
        Heads {
            fanout: self,
            gate,
            at: self.last[gate as usize],
        }
    }

    // Lets no gate that an arc from the gate enters start before the time.
    pub(crate) fn raise(&self, gate: u8, time: u32, times: &mut [u32; 128])
        ensures { Raised self.now gate time times.old times.new }
    {
        for head in self.heads(gate) {
            let start = &mut times[head as usize];
            *start = (*start).max(time);
        }
    }

    // Takes the arcs that leave the gate off the counts; a gate whose count falls to 0 is ready.
    pub(crate) fn lower(&self, gate: u8, counts: &mut [u16; 128], ready: &mut Ring<'_, u8>)
        requires enough_room { 128 ≤ ready.old.room }
        requires lowerable { Lowerable self.now 128 gate counts.old ready.old.held }
        ensures room { ready.new.room ≡ ready.old.room }
        ensures lowered { Lowered self.now 128 gate counts.old counts.new ready.old.held ready.new.held }
    {
        for head in self.heads(gate) {
            let at = head as usize;
            counts[at] -= 1;
            if counts[at] == 0 {
                let _ = ready.push(head);
            }
        }
    }
}

// The gates that are still to come of those that a gate's arcs enter.
#[derive(Drop)]
struct Heads<'f, 'a> {
    fanout: &'f Fanout<'a>,
    gate: u8,
    at: Option<u16>,
}

impl<'f, 'a> Model for Heads<'f, 'a> {
    ghost use Rattle.std.specs.Prelude.{ℕ, List, take};
    ghost use Rattle.timing.specs.Groups.{heads, past, Leaves};

    ghost Value = { List ℕ };

    ghost view = { λ h. heads (take (past h.at) h.fanout.now) h.gate };

    ghost invariant = { λ h. Leaves h.fanout.now h.gate h.at };
}

impl<'f, 'a> Iterator for Heads<'f, 'a> {
    ghost use Rattle.std.specs.Prelude.{length};
    ghost use Rattle.std.specs.Iterator.{YieldsFirst, item_count};

    type Item = u8;

    ghost next_gives = { YieldsFirst (λ rest. rest) };

    ghost remaining = { item_count (λ rest. rest) };

    fn next(&mut self) -> Option<u8> {
        let at = self.at? as usize;
        let fanout = self.fanout;
        self.at = fanout.earlier[at];
        Some(fanout.arcs[at].to)
    }
}
