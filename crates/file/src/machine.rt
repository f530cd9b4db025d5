ghost use Rattle.file.specs.Theorems.{OneMeaning};
ghost use Rattle.file.specs.Faults.{Judged};

use refusals::{LoadRefusal, Refusal};
use words::Kind;

// How far the words have come.
#[derive(Clone, Copy, PartialEq, Eq, Debug)]
enum State {
    Gates,
    Wires,
    Clock,
    End,
}

// What the words so far come to; `unfilled` where the last is a wire word, so that a fill word may follow.
// It stands beside the state, since the machine has these four states and no fifth.
#[derive(Clone, Copy, PartialEq, Eq, Debug)]
struct Seen {
    state: State,
    unfilled: bool,
    gates: u32,
    wires: u32,
    words: u32,
}

impl Seen {
    ghost use Rattle.std.specs.Prelude.{◌≡◌, ◌≤◌, IfOk};
    ghost use Rattle.std.specs.Result.{result_err};
    ghost use Rattle.words.specs.Layout.{kind_of};
    ghost use Rattle.file.specs.Faults.{called, wrong};
    ghost use Rattle.file.specs.Stepping.{shown, barred, state_of, more};

    // The state after a word of the kind, if it may stand next.
    fn next_state(self, kind: Kind) -> Result<State, Refusal>
        ensures barred { result_err result ≡ barred (shown self) kind }
        ensures state { IfOk result (λ state. state ≡ state_of kind) }
    {
        match (self.state, kind) {
            (State::Gates, Kind::Gate) => Ok(State::Gates),
            (State::Gates | State::Wires, Kind::Wire) => Ok(State::Wires),
            (State::Wires, Kind::Fill) if self.unfilled => Ok(State::Wires),
            (State::Gates | State::Wires, Kind::Clock) => Ok(State::Clock),
            (State::Clock, Kind::End) => Ok(State::End),
            (State::End, _) => Err(Refusal::AfterEnd(self.words)),
            _ => Err(Refusal::NotNext(self.words)),
        }
    }

    // Refuses what the call refuses that the word stands for, and an end's wrong count.
    fn check_call(self, kind: Kind, word: u32) -> Result<(), LoadRefusal>
        requires { kind ≡ kind_of word }
        ensures { result_err result ≡ called kind (shown self) word }
    {
        let index = self.words;
        let refusal = match kind {
            Kind::Gate if self.gates >= 127 => Refusal::Full(0),
            Kind::Wire if u32::from(words::from(word)) > self.gates => Refusal::NoGate(0),
            Kind::Wire if u32::from(words::to(word)) > self.gates => Refusal::NoGate(1),
            Kind::Wire if self.wires >= 512 => Refusal::WiresUsed,
            Kind::Fill if words::floor(word) > words::ceiling(word) => Refusal::Reversed(4),
            Kind::Clock if words::clock(word) == 0 => Refusal::Range(0),
            Kind::End if words::count(word) != index => return Err(Refusal::BadEnd(index).into()),
            _ => return Ok(()),
        };
        Err(LoadRefusal::Word { index, refusal })
    }

    // One word more, or what is wrong with it.
    fn step(self, word: u32) -> Result<Seen, LoadRefusal>
        requires { self.words ≤ 1153 }
        ensures wrong { result_err result ≡ wrong (shown self) word }
        ensures more { IfOk result (λ seen. shown seen ≡ more (kind_of word) (shown self)) }
    {
        let kind = words::kind_of(word);
        let state = self.next_state(kind)?;
        if words::has_stray(word) {
            return Err(Refusal::StrayBit(self.words).into());
        }
        self.check_call(kind, word)?;
        Ok(Seen {
            state,
            unfilled: kind == Kind::Wire,
            gates: self.gates + u32::from(kind == Kind::Gate),
            wires: self.wires + u32::from(kind == Kind::Wire),
            words: self.words + 1,
        })
    }
}

// Whether the words are a file; if not, its first fault.
#[tactic(auto, using(crate::proofs::Turns::turns))]
pub fn judge(file: &[u32]) -> Result<(), LoadRefusal>
    ensures { Judged file.now result }
{
    let mut seen = Seen {
        state: State::Gates,
        unfilled: false,
        gates: 0,
        wires: 0,
        words: 0,
    };
    for word in file {
        seen = seen.step(*word)?;
    }
    match seen.state {
        State::End => Ok(()),
        _ => Err(Refusal::BadEnd(seen.words).into()),
    }
}

// Words are one file or have one fault, never both.
pub fn one_meaning()
    ensures { OneMeaning }
{}
