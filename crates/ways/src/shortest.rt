// The least distances from a vertex to all others, with their ways, or a loop below zero.
ghost use Rattle.std.specs.Prelude.{◌≡◌, ◌<◌, ◌≤◌, not, length, Some};
ghost use Rattle.ways.specs.Walks.{near, known, Sound, Answered};
ghost use Rattle.ways.specs.Keeps.{Kept, Better, Improved, Relaxed, Rounded, Begun};

use crate::distance::Distance;
use crate::net::{Arc, Net};
use crate::walk::{Loop, Way, closed, lead, met};
use arrayvec::ArrayVec;

// Whether a sum is less than what has been found so far.
fn beats<L: Distance>(sum: L, so_far: Option<L>) -> bool
    ensures { result ≡ not (near L.Distance.kind so_far (Some sum)) }
{
    so_far.is_none_or(|x| !x.at_most(sum))
}

// These stay parameters: a ghost field takes a fact with at most one proof, which `sound` and `kept` need not have, and truncated they could not give an answer.

// The arc at i leads on to `sum`, which is less than the distance to its head: the distance falls, or the arc closes a loop.
fn improve<N: Net>(
    net: &N,
    start: usize,
    i: usize,
    arc: Arc<N::Length>,
    sum: N::Length,
    found: &mut [Way<N::Length>],
) -> Result<(), Loop>
    requires sound { Sound N.Length.Distance.kind (N.arcs net.now) (N.many net.now) (length found.old) }
    requires kept { Kept N.Length.Distance.kind (N.arcs net.now) start found.old }
    requires better { Better N.Length.Distance.kind (N.arcs net.now) i found.old arc sum }
    requires within { (arc.tail < length found.old) × (arc.head < length found.old) × (length found.old ≤ 128) × (i < 65536) × (length (known found.old arc.tail).arcs.items < length found.old) }
    ensures { Improved N.Length.Distance.kind (N.arcs net.now) start i found.old found.new result }
{
    let arcs = found[arc.tail].arcs.as_slice();
    if let Some(p) = met(net, arc.tail, arc.head, arcs) {
        return Err(closed(arcs, p, i as u16));
    }
    lead(found, arc.tail, arc.head, i as u16, sum);
    Ok(())
}

// Tries the arc at i, and answers whether a distance fell.
fn relax<N: Net>(
    net: &N,
    start: usize,
    i: usize,
    found: &mut [Way<N::Length>],
) -> Result<bool, Loop>
    requires sound { Sound N.Length.Distance.kind (N.arcs net.now) (N.many net.now) (length found.old) }
    requires kept { Kept N.Length.Distance.kind (N.arcs net.now) start found.old }
    ensures { Relaxed N.Length.Distance.kind (N.arcs net.now) start i found.old found.new result }
{
    let Some(arc) = net.arc(i) else {
        return Ok(false);
    };
    let Some(far) = found[arc.tail].distance else {
        return Ok(false);
    };
    let sum = far.plus(arc.length);
    if !beats(sum, found[arc.head].distance) {
        return Ok(false);
    }
    improve(net, start, i, arc, sum, found)?;
    Ok(true)
}

// Tries each arc once, and answers whether a distance fell.
fn round<N: Net>(net: &N, start: usize, found: &mut [Way<N::Length>]) -> Result<bool, Loop>
    requires sound { Sound N.Length.Distance.kind (N.arcs net.now) (N.many net.now) (length found.old) }
    requires kept { Kept N.Length.Distance.kind (N.arcs net.now) start found.old }
    ensures { Rounded N.Length.Distance.kind (N.arcs net.now) start (N.many net.now) found.old found.new result }
{
    let mut changed = false;
    // By place: a net answers by place, and a way keeps its arcs' places.
    for i in 0..net.count() {
        changed |= relax(net, start, i, found)?;
    }
    Ok(changed)
}

// The distances before the first round: zero to the start, and no way to any other vertex.
fn begin<L: Distance>(start: usize, found: &mut [Way<L>])
    requires { start < length found.old }
    ensures { Begun L.Distance.kind start found.new }
{
    for way in found.iter_mut() {
        way.distance = None;
    }
    found[start] = Way {
        distance: Some(L::zero()),
        arcs: ArrayVec::new(),
    };
}

// The least distances from the start to each vertex, with their ways. Or a loop below zero that a way from the start comes to.
pub fn ways<N: Net>(net: &N, start: usize, found: &mut [Way<N::Length>]) -> Result<(), Loop>
    requires sound { Sound N.Length.Distance.kind (N.arcs net.now) (N.many net.now) (length found.old) }
    requires start { start < length found.old }
    ensures { Answered N.Length.Distance.kind (N.arcs net.now) start found.new result }
{
    begin(start, found);
    for _ in 0..found.len() {
        if !round(net, start, found)? {
            return Ok(());
        }
    }
    unreachable()
}
