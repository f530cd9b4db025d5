// Ways and loops as lists of arcs.
ghost use Rattle.std.specs.Prelude.{◌≡◌, ◌<◌, ◌≤◌, ◌∷◌, [], ◌++◌, length, reverse, take, drop, Decides, MatchOption, ◌≢◌, slice_index, slice_set};
ghost use Rattle.ways.specs.Walks.{Clear, known, led};
ghost use Rattle.ways.specs.Keeps.{Leaves, Meets};

use crate::net::Net;
use arrayvec::ArrayVec;

// What a search knows of a vertex: its distance, if a way to it was found, and the arcs of that way in their order.
#[derive(Default, Drop, Clone, PartialEq, Eq, Debug)]
pub struct Way<L> {
    pub distance: Option<L>,
    pub arcs: ArrayVec<u16, 128>,
}

// The arcs of a loop below zero, in their order.
#[derive(Drop, Clone, PartialEq, Eq, Debug)]
pub struct Loop {
    pub arcs: ArrayVec<u16, 128>,
}

// Whether the arc at the place a leaves `to`.
fn leaves<N: Net>(net: &N, to: usize, a: u16) -> bool
    ensures { Decides result (Leaves (N.arcs net.now) to a) }
{
    net.arc(usize::from(a)).is_some_and(|arc| arc.tail == to)
}

// Where an arc first leaves `to`.
fn leaving<N: Net>(net: &N, to: usize, arcs: &[u16]) -> Option<usize>
    ensures { MatchOption result (Clear (N.arcs net.now) to (reverse arcs.now)) (λ p. (p < length arcs.now) × Leaves (N.arcs net.now) to (slice_index arcs.now p) × Clear (N.arcs net.now) to (reverse (take p arcs.now))) }
{
    arcs.iter().position(|a| leaves(net, to, *a))
}

// Where the vertex `to` stands in a way of `from`.
pub fn met<N: Net>(net: &N, from: usize, to: usize, arcs: &[u16]) -> Option<usize>
    ensures { MatchOption result ((from ≢ to) × Clear (N.arcs net.now) to (reverse arcs.now)) (λ p. Meets (N.arcs net.now) arcs.now from to p) }
{
    if from == to {
        return Some(arcs.len());
    }
    leaving(net, to, arcs)
}

impl<L> Way<L> {
    // Becomes a way over those arcs and then the arc i. Written in place, since a new list fills its room for 128 arcs, and a way has few.
    fn follow(&mut self, arcs: &[u16], i: u16, distance: L)
    where
        L: Drop,
        requires { length arcs.now < 128 }
        ensures { self.new ≡ led arcs.now i distance }
    {
        self.distance = Some(distance);
        self.arcs.clear();
        let _ = self.arcs.try_extend_from_slice(arcs);
        self.arcs.push(i);
    }
}

// The way of `to` becomes the way of `from` and then the arc i.
pub fn lead<L: Drop>(found: &mut [Way<L>], from: usize, to: usize, i: u16, distance: L)
    requires ends { (from < length found.old) × (to < length found.old) × (from ≢ to) }
    requires room { length (known found.old from).arcs.items < 128 }
    ensures { found.new ≡ slice_set found.old to (led (known found.old from).arcs.items i distance) }
{
    if from < to {
        let (low, high) = found.split_at_mut(to);
        high[0].follow(low[from].arcs.as_slice(), i, distance);
    } else {
        let (low, high) = found.split_at_mut(from);
        low[to].follow(high[0].arcs.as_slice(), i, distance);
    }
}

// The loop of the arcs from p on and the arc i.
pub fn closed(arcs: &[u16], p: usize, i: u16) -> Loop
    requires { (p ≤ length arcs.now) × (length arcs.now < 128) }
    ensures { result.arcs.items ≡ drop p arcs.now ++ i ∷ [] }
{
    let mut around = ArrayVec::new();
    let _ = around.try_extend_from_slice(&arcs[p..]);
    around.push(i);
    Loop { arcs: around }
}
