#![tactic(auto)]

mod fanout;
mod marks;

ghost use Rattle.std.specs.Prelude.{◌≡◌, ◌≤◌, ◌<◌, [], length};
ghost use Rattle.timing.specs.Arcs.{Within, Timed};
ghost use Rattle.timing.specs.Marks.{Spanned, Measured};
ghost use Rattle.timing.specs.Lowered.{Seeded};

use fanout::Fanout;
use marks::{lowest, reached};
use ring::ring::Ring;

// A wire without registers between two gates, neither the host.
#[derive(Clone, Copy, PartialEq, Eq, Debug, Default)]
pub struct Arc {
    pub from: u8,
    pub to: u8,
}

// The lowest gate on a loop.
#[derive(Clone, Copy, PartialEq, Eq, Debug)]
pub struct OnLoop {
    pub gate: u32,
}

// Each gate but the host with the count 0 is ready.
fn seed(counts: &[u16], ready: &mut Ring<'_, u8>)
    requires sizes { (length counts.now ≤ 128) × (0 < length counts.now) }
    requires empty_with_room { (length counts.now ≤ ready.old.room) × (ready.old.held ≡ []) }
    ensures room { ready.new.room ≡ ready.old.room }
    ensures seeded { Seeded counts.now (length counts.now) ready.new.held }
{
    for (gate, count) in counts.iter().enumerate().skip(1) {
        if *count == 0 {
            let _ = ready.push(gate as u8);
        }
    }
}

// Takes the gates in an order that goes along the arcs. The greatest time of a gate, or none where a loop holds some back.
fn settle(delays: &[u16], arcs: &[Arc]) -> Option<u32>
    requires sizes { (0 < length delays.now) × (length delays.now ≤ 128) × (length arcs.now ≤ 512) }
    requires within { Within (length delays.now) arcs.now }
    ensures { Timed delays.now arcs.now result }
{
    let fanout = Fanout::new(arcs);
    // Apart, since `raise` goes by the times alone and `lower` by the counts alone.
    let mut counts = fanout.tally();
    let mut times = [0; 128];
    let mut slots = [0; 128];
    let mut ready = Ring::new(&mut slots);
    seed(&counts[..delays.len()], &mut ready);
    let mut left = delays.len() - 1;
    let mut period = 0u32;
    while let Some(gate) = ready.take() {
        let time = times[gate as usize] + u32::from(delays[gate as usize]);
        period = period.max(time);
        left -= 1;
        fanout.raise(gate, time, &mut times);
        fanout.lower(gate, &mut counts, &mut ready);
    }
    (left == 0).then_some(period)
}

// The greatest delay of a run along arcs, or the least gate on a loop.
pub fn period(delays: &[u16], arcs: &[Arc]) -> Result<u32, OnLoop>
    requires sizes { (0 < length delays.now) × (length delays.now ≤ 128) × (length arcs.now ≤ 512) }
    requires within { Within (length delays.now) arcs.now }
    ensures { Measured delays.now arcs.now result }
{
    settle(delays, arcs).ok_or_else(|| lowest(arcs, delays.len()))
}

// The least gate but the host that no walk from the host leads to.
pub fn unreached(arcs: &[Arc], gates: usize) -> Option<u32>
    requires { gates ≤ 128 }
    ensures { Spanned arcs.now gates result }
{
    let marks = reached(arcs, 0);
    (1..gates as u32).find(|gate| !marks[*gate as usize])
}
