ghost use Rattle.std.specs.Prelude.{◌≡◌, ℕ, ◌≤◌, length, take, None, slice_index_or};
ghost use Rattle.graph.specs.Reads.{circuit};
ghost use Rattle.model.specs.Circuit.{gates, live, Sound, Ranged, ◌∈◌};

use super::Graph;
use super::listing::listed;
use arrayvec::ArrayVec;
use model::Wire;

impl Graph {
    // How many gates there are, the host counted; and the circuit is sound.
    #[tactic(auto, using(crate::proofs::Holds::circuit_sound))]
    pub fn gates(&self) -> usize
        ensures count { result ≡ gates (circuit self.now) }
        ensures few { result ≤ 128 }
        ensures sound { Sound (circuit self.now) }
    {
        self.delays.len()
    }

    // How many wire numbers are given, dropped ones counted.
    #[tactic(auto, using(crate::proofs::Rows::rows))]
    pub fn numbers(&self) -> usize
        ensures count { result ≡ length (circuit self.now).wires }
        ensures few { result ≤ 512 }
    {
        self.wires.len()
    }

    // The wires by number, none where a number's wire was dropped or the number was not given; each wire's numbers are in their ranges.
    pub fn wiring(&self) -> [Option<Wire>; 512]
        ensures long { length result ≡ 512 }
        ensures wires { take (length (circuit self.now).wires) result ≡ (circuit self.now).wires }
        ensures beyond { (k : ℕ) → length (circuit self.now).wires ≤ k → slice_index_or result k None ≡ None }
        ensures ranged { (w : Wire) → w ∈ live (circuit self.now) → Ranged w }
    {
        let list = self.listing();
        let mut slots = [None; 512];
        slots[..list.len()].copy_from_slice(list.as_slice());
        slots
    }

    // The same as a list, for each number that was given.
    pub(super) fn listing(&self) -> ArrayVec<Option<Wire>, 512>
        ensures wires { result.items ≡ (circuit self.now).wires }
        ensures ranged { (w : Wire) → w ∈ live (circuit self.now) → Ranged w }
    {
        listed(self.wires.as_slice(), self.registers.as_slice())
    }

    // How many wires there are, dropped ones left out.
    pub fn wires(&self) -> usize
        ensures count { result ≡ length (live (circuit self.now)) }
        ensures few { result ≤ 512 }
    {
        let slots = self.wires.as_slice();
        let mut n = 0;
        // Not `flatten().count()`, which takes four times as long.
        for slot in slots {
            if slot.is_some() {
                n += 1;
            }
        }
        n
    }

    // The clock, where one is set.
    pub fn ticks(&self) -> Option<u32>
        ensures { result ≡ self.now.clock }
    {
        self.clock
    }
}
