// What a refusal says in print: its number, its place, and what it means.
use crate::{LoadRefusal, Refusal};
use std::fmt;

impl fmt::Display for Refusal {
    fn fmt<W: fmt::Write>(&self, f: &mut fmt::Formatter<W>) -> fmt::Result {
        let number = self.number();
        let place = self.place();
        write!(f, "refusal {number} at {place}: ")?;
        match self {
            Refusal::Range(_) => f.write_str("the argument at that position is out of range"),
            Refusal::NoGate(_) => f.write_str("the argument at that position names no gate"),
            Refusal::NoWire(_) => f.write_str("no wire has that number, or it was dropped"),
            Refusal::Reversed(_) => f.write_str("the argument at that position is above the next"),
            Refusal::Memory(_) => f.write_str("the memory at that place is too short"),
            Refusal::RuleTooLong => f.write_str("the rule lists over 1,024 limits"),
            Refusal::NotNext(_) => f.write_str("the word at that index may not stand there"),
            Refusal::StrayBit(_) => f.write_str("the word at that index has a stray bit"),
            Refusal::BadEnd(_) => f.write_str("the end is missing there or has a wrong count"),
            Refusal::AfterEnd(_) => f.write_str("the word at that index follows the end"),
            Refusal::Full(_) => f.write_str("that table is full"),
            Refusal::WiresUsed => f.write_str("every wire number is given"),
            Refusal::NoClock => f.write_str("no clock is set"),
            Refusal::Loop(_) => f.write_str("the lowest gate on a loop without registers"),
            Refusal::LogFull => f.write_str("the log is full"),
            Refusal::NoLabelling(_) => f.write_str("no labelling keeps all, chain of that length"),
            Refusal::Apart(_) => f.write_str("the lowest gate that no wires join to the host"),
            Refusal::LogEmpty => f.write_str("the log is empty"),
            Refusal::Waiting => f.write_str("an answer waits"),
            Refusal::WrongSlip => f.write_str("another session's slip, or no answer waits"),
        }
    }
}

impl fmt::Display for LoadRefusal {
    fn fmt<W: fmt::Write>(&self, f: &mut fmt::Formatter<W>) -> fmt::Result {
        match self {
            LoadRefusal::Call(refusal) => write!(f, "{refusal}"),
            LoadRefusal::Word { index, refusal } => {
                let number = refusal.number();
                write!(
                    f,
                    "refusal {number} at {index}: the word there stands for a call that meets {refusal}"
                )
            }
        }
    }
}
