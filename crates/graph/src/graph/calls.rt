ghost use Rattle.std.specs.Prelude.{◌≡◌, ◌<◌, length, Some, None, IfOk, nat_lt, if◌then◌else◌};
ghost use Rattle.model.specs.Circuit.{gates};
ghost use Rattle.graph.specs.Reads.{circuit};
ghost use Rattle.graph.specs.Calls.{host_alone, after, gate_answer, with_gate, wire_answer, with_wire, there, set_answer, with_set, drop_answer, with_drop, clock_answer, with_clock};

use super::{Ends, Graph};
use arrayvec::ArrayVec;
use refusals::Refusal;

// Each call has a clause for the clock, since a circuit, of which the others speak, has none.
impl Graph {
    // The host alone, without a clock.
    pub fn new() -> Graph
        ensures circuit { circuit result ≡ host_alone }
        ensures clock { result.clock ≡ None }
    {
        let mut delays = ArrayVec::new();
        delays.push(0);
        Graph {
            delays,
            wires: ArrayVec::new(),
            registers: ArrayVec::new(),
            clock: None,
        }
    }

    // Adds a gate, and answers its number.
    pub fn gate(&mut self, delay: u32) -> Result<u32, Refusal>
        ensures answer { result ≡ gate_answer (circuit self.old) delay }
        ensures next { circuit self.new ≡ after result (circuit self.old) (with_gate (circuit self.old) delay) }
        ensures clock { self.new.clock ≡ self.old.clock }
    {
        let delay = u16::try_from(delay).map_err(|_| Refusal::Range(0))?;
        let at = self.delays.len();
        self.delays.try_push(delay).map_err(|_| Refusal::Full(0))?;
        Ok(at as u32)
    }

    // The gate of that number, if it is there.
    fn gate_at(&self, gate: u32) -> Option<u8>
        ensures { result ≡ (if nat_lt gate (gates (circuit self.now)) then Some gate else None) }
    {
        let gates = self.delays.len();
        let gate = u8::try_from(gate).ok()?;
        (usize::from(gate) < gates).then_some(gate)
    }

    // Adds a wire, and answers its number.
    #[tactic(auto, using(crate::proofs::Rows::rows))]
    pub fn wire(
        &mut self,
        from: u32,
        to: u32,
        registers: u32,
        price: u32,
        floor: u32,
        ceiling: u32,
    ) -> Result<u32, Refusal>
        ensures answer { result ≡ wire_answer (circuit self.old) from to registers price floor ceiling }
        ensures next { circuit self.new ≡ after result (circuit self.old) (with_wire (circuit self.old) from to registers price floor ceiling) }
        ensures clock { self.new.clock ≡ self.old.clock }
    {
        let from = self.gate_at(from).ok_or(Refusal::NoGate(0))?;
        let to = self.gate_at(to).ok_or(Refusal::NoGate(1))?;
        let registers = u8::try_from(registers).map_err(|_| Refusal::Range(2))?;
        if price < 1 || price > 16 {
            return Err(Refusal::Range(3));
        }
        let floor = u8::try_from(floor).map_err(|_| Refusal::Range(4))?;
        let ceiling = u8::try_from(ceiling).map_err(|_| Refusal::Range(5))?;
        if floor > ceiling {
            return Err(Refusal::Reversed(4));
        }
        if self.wires.is_full() {
            return Err(Refusal::WiresUsed);
        }
        let at = self.wires.len();
        self.wires.push(Some(Ends {
            from,
            to,
            // Between 1 and 16, as was asked above: no `try_from` can fail here.
            price: price as u8,
            floor,
            ceiling,
        }));
        self.registers.push(registers);
        Ok(at as u32)
    }

    // The place of a wire that is there.
    #[tactic(auto, using(crate::proofs::Rows::rows))]
    pub(super) fn wire_at(&self, wire: u32) -> Result<usize, Refusal>
        ensures answer { result ≡ there (circuit self.now) wire }
        ensures within { IfOk result (λ at. (at ≡ wire) × (at < length self.now.wires.items)) }
    {
        let at = wire as usize;
        match self.wires.get(at) {
            Some(Some(_)) => Ok(at),
            _ => Err(Refusal::NoWire(wire)),
        }
    }

    // Gives a wire that number of registers.
    #[tactic(auto, using(crate::proofs::Rows::rows))]
    pub fn set(&mut self, wire: u32, registers: u32) -> Result<(), Refusal>
        ensures answer { result ≡ set_answer (circuit self.old) wire registers }
        ensures next { circuit self.new ≡ after result (circuit self.old) (with_set (circuit self.old) wire registers) }
        ensures clock { self.new.clock ≡ self.old.clock }
    {
        let at = self.wire_at(wire)?;
        let registers = u8::try_from(registers).map_err(|_| Refusal::Range(1))?;
        self.registers[at] = registers;
        Ok(())
    }

    // Drops a wire; its number is not given again.
    #[tactic(auto, using(crate::proofs::Rows::rows))]
    pub fn drop_wire(&mut self, wire: u32) -> Result<(), Refusal>
        ensures answer { result ≡ drop_answer (circuit self.old) wire }
        ensures next { circuit self.new ≡ after result (circuit self.old) (with_drop (circuit self.old) wire) }
        ensures clock { self.new.clock ≡ self.old.clock }
    {
        let at = self.wire_at(wire)?;
        self.wires[at] = None;
        Ok(())
    }

    // Sets the clock.
    pub fn clock(&mut self, clock: u32) -> Result<(), Refusal>
        ensures answer { result ≡ clock_answer clock }
        ensures next { self.new.clock ≡ after result self.old.clock (with_clock clock) }
        ensures circuit { circuit self.new ≡ circuit self.old }
    {
        if clock < 1 || clock > 16777215 {
            return Err(Refusal::Range(0));
        }
        self.clock = Some(clock);
        Ok(())
    }
}
