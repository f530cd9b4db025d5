ghost use Rattle.std.specs.Prelude.{◌≡◌, ℕ, ◌<◌, ◌≤◌, length, slice_index};
ghost use Rattle.graph.specs.Reads.{wire_of, wires_of};

use super::Ends;
use arrayvec::ArrayVec;
use model::Wire;

// The wire of a slot with that many registers, or none where it was dropped. No `From`: the registers come from another list.
fn wire_in(slot: Option<Ends>, registers: u8) -> Option<Wire>
    ensures { result ≡ wire_of slot registers }
{
    slot.map(|e| Wire {
        from: e.from,
        to: e.to,
        registers,
        price: e.price,
        floor: e.floor,
        ceiling: e.ceiling,
    })
}

// The wires by number, as one list; and each register count is a byte.
pub fn listed(slots: &[Option<Ends>], registers: &[u8]) -> ArrayVec<Option<Wire>, 512>
    requires { (length registers.now ≡ length slots.now) × (length slots.now ≤ 512) }
    ensures wires { result.items ≡ wires_of slots.now registers.now }
    ensures bytes { (k : ℕ) → slice_index registers.now k < 0x100 }
{
    let mut list = ArrayVec::new();
    for (slot, held) in slots.iter().zip(registers) {
        list.push(wire_in(*slot, *held));
    }
    list
}
