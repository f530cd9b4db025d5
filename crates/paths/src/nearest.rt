// The least distances from a gate, with their ways.
ghost use Rattle.std.specs.Prelude.{◌≡◌, ℕ, ◌<◌, ◌≤◌, length, slice_index};
ghost use Rattle.paths.specs.Arcs.{Nearest};

use crate::net::Paths;
use ways::{Way, ways};

// What the type of the delays says of each.
fn fit(delays: &[u16])
    ensures { (g : ℕ) → slice_index delays.now g ≤ 65535 }
{}

impl Paths<'_, '_> {
    // The least distances from the gate u, which is not the host, and their ways.
    pub(crate) fn settle(&self, u: usize, found: &mut [Way<(u32, u32)>])
        requires gate { (0 < u) × (u < length self.now.delays.now) }
        requires room { length found.old ≡ length self.now.delays.now }
        ensures { Nearest self.now.delays.now self.now.wires.now u found.new }
    {
        fit(self.delays);
        // A copy of its own: through `self` each arc would look up anew where the delays and the wires lie, since the search writes in between.
        let net = *self;
        ways(&net, u, found).unwrap();
    }
}
