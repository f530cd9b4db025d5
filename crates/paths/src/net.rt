// The wires between gates as a net, whose ways are the circuit's paths.
ghost use Rattle.std.specs.Prelude.{◌≡◌, ℕ, ◌<◌, ◌≤◌, length, None, slice_index_or};
ghost use Rattle.model.specs.Circuit.{NoFreeLoop};
ghost use Rattle.paths.specs.Arcs.{circuit, registers_of, wire_arc, wire_arcs, wire_places};

use model::Wire;
use ways::{Arc, Net};

// The delay of each gate, the host's first, and the wires by number. A path whose wires have no registers never comes back to its gate.
#[derive(Clone, Copy)]
pub struct Paths<'a, 'b> {
    pub delays: &'a [u16],
    pub wires: &'b [Option<Wire>],
    pub ghost gates: { (0 < length delays.now) × (length delays.now ≤ 128) },
    pub ghost few: { length wires.now ≤ 512 },
    pub ghost deep: { (i : ℕ) → registers_of (slice_index_or wires.now i None) ≤ 255 },
    pub ghost free: { NoFreeLoop (circuit delays.now wires.now) },
}

// The arc of a wire, unless an end is the host or a gate that is not there. Its length is the registers of the wire and the delay of the gate that it comes to.
fn link(w: &Wire, delays: &[u16]) -> Option<Arc<(u32, u32)>>
    ensures { result ≡ wire_arc delays.now w.now }
{
    let tail = usize::from(w.from);
    let head = usize::from(w.to);
    // Not `then`: its closure does not know the bounds.
    if 0 < tail && tail < delays.len() && 0 < head && head < delays.len() {
        Some(Arc {
            tail,
            head,
            length: (u32::from(w.registers), u32::from(delays[head])),
        })
    } else {
        None
    }
}

impl<'a, 'b> Net for Paths<'a, 'b> {
    type Length = (u32, u32);

    ghost arcs = { λ s. wire_arcs s.delays.now s.wires.now };

    ghost many = { λ s. length s.wires.now };

    ghost places = { λ s. wire_places s.delays.now s.wires.now };

    fn count(&self) -> usize {
        self.wires.len()
    }

    fn arc(&self, i: usize) -> Option<Arc<(u32, u32)>> {
        self.wires
            .get(i)?
            .as_ref()
            .and_then(|w| link(w, self.delays))
    }
}
