ghost use Rattle.std.specs.Prelude.{◌≡◌, ◌<◌, length, slice_set};
ghost use Rattle.graph.specs.Reads.{circuit};
ghost use Rattle.graph.specs.Tries.{Tried};

use super::Graph;
use super::rows::Rows;
use arrayvec::ArrayVec;
use refusals::Refusal;

// A wire that has another number of registers until this is dropped.
struct Held<'a> {
    registers: &'a mut ArrayVec<u8, 512>,
    wire: usize,
    old: u8,
}

impl Drop for Held<'_> {
    fn drop(self)
        requires { self.wire < length self.registers.now.items }
        ensures { self.exit.0.now.items ≡ slice_set self.entry.registers.now.items self.entry.wire self.entry.old }
    {
        let Held {
            registers,
            wire,
            old,
        } = self;
        registers[wire] = old;
    }
}

impl Graph {
    // The period with that number of registers on the wire; the registers are as they were however it ends.
    pub fn trial(&mut self, wire: u32, registers: u32) -> Result<u32, Refusal>
        ensures answer { Tried (circuit self.old) wire registers result }
        ensures same { self.new ≡ self.old }
    {
        let at = self.wire_at(wire)?;
        let registers = u8::try_from(registers).map_err(|_| Refusal::Range(1))?;
        let old = self.registers[at];
        self.registers[at] = registers;
        let held = Held {
            registers: &mut self.registers,
            wire: at,
            old,
        };
        let rows = Rows {
            delays: self.delays.as_slice(),
            wires: self.wires.as_slice(),
            registers: held.registers.as_slice(),
        };
        rows.measure()
    }
}
