// What ways go over: a net answers what stands at a place, an arc or nothing.
ghost use Rattle.std.specs.Prelude.{◌≡◌, ℕ, ◌<◌, length, Some, None, Decides, Option, slice_index_or};
ghost use Rattle.ways.specs.Places.{listed_places};
ghost use Rattle.ways.specs.Walks.{Sound, Fair};
ghost use Rattle.ways.specs.declared.net.Arc.{Arc};

use crate::distance::Distance;

// An arc from the vertex `tail` to the vertex `head`.
#[derive(Clone, Copy, PartialEq, Eq, Debug)]
pub struct Arc<L> {
    pub tail: usize,
    pub head: usize,
    pub length: L,
}

// Arcs by place.
pub trait Net {
    // What the lengths of its arcs are.
    type Length: Distance;

    // What stands at each place: an arc, or nothing.
    ghost arcs: { Self → ℕ → Option (Arc Self.Length) };

    // How many places there are.
    ghost many: { Self → ℕ };

    // No arc stands at or past `many`.
    ghost places: { (s : Self) (a : ℕ) (x : Arc Self.Length) → arcs s a ≡ Some x → a < many s };

    // That many.
    fn count(&self) -> usize
        ensures { result ≡ many self.now };

    // The arc at the place i.
    fn arc(&self, i: usize) -> Option<Arc<Self::Length>>
        ensures { result ≡ arcs self.now i };
}

// The arcs of a slice.
#[derive(Clone, Copy)]
pub struct Listed<'a, L> {
    pub arcs: &'a [Option<Arc<L>>],
}

// An arc stands at the place of its index.
impl<'a, L: Distance> Net for Listed<'a, L> {
    type Length = L;

    ghost arcs = { λ s i. slice_index_or s.arcs.now i None };

    ghost many = { λ s. length s.arcs.now };

    ghost places = { λ s. listed_places s.arcs.now };

    fn count(&self) -> usize {
        self.arcs.len()
    }

    fn arc(&self, i: usize) -> Option<Arc<L>> {
        self.arcs.get(i).copied().flatten()
    }
}

// Whether what stands at the place i joins vertices below n, and is short enough.
fn fair<N: Net>(net: &N, n: usize, i: usize) -> bool
    ensures { Decides result (Fair N.Length.Distance.kind n (N.arcs net.now i)) }
{
    net.arc(i).is_none_or(|arc| arc.tail < n && arc.head < n && arc.length.one_step())
}

// Whether each place is fair.
fn all_fair<N: Net>(net: &N, n: usize) -> bool
    ensures { Decides result ((a : ℕ) → a < N.many net.now → Fair N.Length.Distance.kind n (N.arcs net.now a)) }
{
    (0..net.count()).all(|i| fair(net, n, i))
}

// Whether `ways` can go over the net with n vertices: n is at most 128, there are at most 65536 places, and each is fair.
pub fn sound<N: Net>(net: &N, n: usize) -> bool
    ensures { Decides result (Sound N.Length.Distance.kind (N.arcs net.now) (N.many net.now) n) }
{
    n <= 128 && net.count() <= 65536 && all_fair(net, n)
}
