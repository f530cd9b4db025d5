// The slowest path without registers, gate by gate.
ghost use Rattle.std.specs.Prelude.{◌≡◌, ◌<◌, length, reverse, Some, None, slice_index_or};
ghost use Rattle.ways.specs.Walks.{known};
ghost use Rattle.paths.specs.Arcs.{circuit};
ghost use Rattle.paths.specs.Slowest.{Slowest, entered_of, stations, Free, Top};

use crate::net::Paths;
use arrayvec::ArrayVec;
use ways::Way;

// The delay of a distance without registers, and 0 of any other: it is never the greater.
fn free_delay(found: Option<(u32, u32)>) -> u32
    ensures { Free found result }
{
    match found {
        Some((0, delay)) => delay,
        _ => 0,
    }
}

// A vertex of the greatest delay without registers, and that delay.
fn farthest(start: usize, found: &[Way<(u32, u32)>]) -> (usize, u32)
    requires { (start < length found.now) × ((known found.now start).distance ≡ Some (0, 0)) }
    ensures { Top found.now result.0 result.1 }
{
    let mut last = start;
    let mut most = 0;
    for (v, way) in found.iter().enumerate() {
        let d = free_delay(way.distance);
        if most < d {
            last = v;
            most = d;
        }
    }
    (last, most)
}

impl Paths<'_, '_> {
    // The gate that the wire at the place a enters; 0 where none is, since the wires of a way are all there.
    fn entered(&self, a: u16) -> u8
        ensures { result ≡ entered_of (slice_index_or self.now.wires.now a None) }
    {
        self.wires
            .get(usize::from(a))
            .copied()
            .flatten()
            .map_or(0, |w| w.to)
    }

    // The gates of the way from u over those wires.
    fn stations(&self, u: u8, arcs: &[u16]) -> ArrayVec<u8, 128>
        requires { length arcs.now < 128 }
        ensures { result.items ≡ stations self.now.wires.now u (reverse arcs.now) }
    {
        let mut gates = ArrayVec::new();
        gates.push(u);
        for a in arcs {
            gates.push(self.entered(*a));
        }
        gates
    }

    // The gates of a slowest path without registers, in their order: none where the host is the only gate.
    pub fn slowest(&self) -> ArrayVec<u8, 128>
        ensures { Slowest (circuit self.now.delays.now self.now.wires.now) result.items }
    {
        let mut found: [Way<(u32, u32)>; 128] = Default::default();
        let found = &mut found[..self.delays.len()];
        let mut gates = ArrayVec::new();
        let mut best = 0;
        // By number: a search begins at a gate's number.
        for u in 1..self.delays.len() {
            self.settle(u, found);
            let (v, most) = farthest(u, found);
            let d = most + u32::from(self.delays[u]);
            if best <= d {
                best = d;
                gates = self.stations(u as u8, &found[v].arcs);
            }
        }
        gates
    }
}
