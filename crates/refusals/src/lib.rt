// Why a call is refused, and why a load is: each refusal has a number and a place.
#![tactic(auto)]

ghost use Rattle.std.specs.Prelude.{◌≡◌, ◌==◌, Decides};
ghost use Rattle.refusals.specs.Refusals.{number_of, place_of, load_number_of, load_place_of};
ghost use Rattle.std.specs.Cmp.Rules.{comparing};
ghost use Rattle.std.proofs.Common.{rules};
ghost use Rattle.std.specs.Ordering.{on, eq_of_both};

use std::fmt;

pub mod shown;

// Why a call is refused. The number in a case is its place; a case without one has place 0.
#[derive(Clone, Copy)]
pub enum Refusal {
    // 1: the argument at that position is out of range.
    Range(u32),
    // 2: the argument at that position names no gate.
    NoGate(u32),
    // 3: no wire has that number, or it was dropped.
    NoWire(u32),
    // 4: a floor above its ceiling, or a least above its most; the position of the first of the two.
    Reversed(u32),
    // 5: the memory at that place is too short.
    Memory(u32),
    // 6: the rule lists over 1,024 limits.
    RuleTooLong,
    // 7: the word at that index may not stand there.
    NotNext(u32),
    // 8: the word at that index has a bit set that its kind does not name.
    StrayBit(u32),
    // 9: the end at that index has a wrong count; or that many words stand there, and no end.
    BadEnd(u32),
    // 10: the word at that index follows the end.
    AfterEnd(u32),
    // 11: a table is full: the gates' is 0, a hold rule's 1, a together rule's 2.
    Full(u32),
    // 12: every wire number is given.
    WiresUsed,
    // 13: no clock is set.
    NoClock,
    // 14: a loop without registers; the lowest gate on one.
    Loop(u32),
    // 15: the log is full.
    LogFull,
    // 16: no labelling keeps all; the length of the chain that shows it.
    NoLabelling(u32),
    // 17: the lowest gate that no run of wires joins to the host.
    Apart(u32),
    // 18: the log is empty.
    LogEmpty,
    // 19: an answer waits.
    Waiting,
    // 20: the slip is another session's, or no answer waits.
    WrongSlip,
}

impl Refusal {
    pub fn number(self) -> u8
        ensures { result ≡ number_of self }
    {
        match self {
            Refusal::Range(_) => 1,
            Refusal::NoGate(_) => 2,
            Refusal::NoWire(_) => 3,
            Refusal::Reversed(_) => 4,
            Refusal::Memory(_) => 5,
            Refusal::RuleTooLong => 6,
            Refusal::NotNext(_) => 7,
            Refusal::StrayBit(_) => 8,
            Refusal::BadEnd(_) => 9,
            Refusal::AfterEnd(_) => 10,
            Refusal::Full(_) => 11,
            Refusal::WiresUsed => 12,
            Refusal::NoClock => 13,
            Refusal::Loop(_) => 14,
            Refusal::LogFull => 15,
            Refusal::NoLabelling(_) => 16,
            Refusal::Apart(_) => 17,
            Refusal::LogEmpty => 18,
            Refusal::Waiting => 19,
            Refusal::WrongSlip => 20,
        }
    }

    // The number that the refusal holds, or 0 where it holds none.
    pub fn place(self) -> u32
        ensures { result ≡ place_of self }
    {
        match self {
            Refusal::Range(at)
            | Refusal::NoGate(at)
            | Refusal::NoWire(at)
            | Refusal::Reversed(at)
            | Refusal::Memory(at)
            | Refusal::NotNext(at)
            | Refusal::StrayBit(at)
            | Refusal::BadEnd(at)
            | Refusal::AfterEnd(at)
            | Refusal::Full(at)
            | Refusal::Loop(at)
            | Refusal::NoLabelling(at)
            | Refusal::Apart(at) => at,
            Refusal::RuleTooLong
            | Refusal::WiresUsed
            | Refusal::NoClock
            | Refusal::LogFull
            | Refusal::LogEmpty
            | Refusal::Waiting
            | Refusal::WrongSlip => 0,
        }
    }
}

// By hand, since the clauses promise that number and place alone tell which refusal it is: a derive's say only what is equal.
impl PartialEq for Refusal {
    ghost eq = { eq_of_both (on number_of ◌==◌) (on place_of ◌==◌) };

    ghost laws = { Prim.search (comparing, rules) };

    #[tactic(auto, using(crate::proofs::Told::told_apart))]
    fn eq(&self, other: &Refusal) -> bool
        ensures computed { result ≡ eq_of_both (on number_of ◌==◌) (on place_of ◌==◌) self.now other.now }
        ensures same { Decides result (self.now ≡ other.now) }
    {
        self.number() == other.number() && self.place() == other.place()
    }
}

impl Eq for Refusal {
    ghost laws = { Prim.search (comparing, rules) };
}

// By hand, since it prints number and place, by which users know a refusal: a derive would print the case's name.
impl fmt::Debug for Refusal {
    fn fmt<W: fmt::Write>(&self, f: &mut fmt::Formatter<W>) -> fmt::Result {
        let number = self.number();
        let place = self.place();
        write!(f, "refusal {number} at {place}")
    }
}

// A load is refused as a call, or at a word, with what the call refuses that the word stands for.
#[derive(Clone, Copy, PartialEq, Eq, Debug)]
pub enum LoadRefusal {
    Call(Refusal),
    Word { index: u32, refusal: Refusal },
}

impl LoadRefusal {
    pub fn number(self) -> u8
        ensures { result ≡ load_number_of self }
    {
        match self {
            LoadRefusal::Call(refusal) | LoadRefusal::Word { refusal, .. } => refusal.number(),
        }
    }

    pub fn place(self) -> u32
        ensures { result ≡ load_place_of self }
    {
        match self {
            LoadRefusal::Call(refusal) => refusal.place(),
            LoadRefusal::Word { index, .. } => index,
        }
    }
}

// A refusal of the call itself.
impl From<Refusal> for LoadRefusal {
    ghost use Rattle.std.specs.Prelude.{◌≡◌};
    ghost use Rattle.refusals.specs.declared.LoadRefusal.TheVariants.{Call};

    ghost from_gives = { λ why e. e ≡ Call why };

    fn from(why: Refusal) -> LoadRefusal {
        LoadRefusal::Call(why)
    }
}
