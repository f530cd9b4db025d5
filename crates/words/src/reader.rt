// A file's words taken as records: a gate's word, a wire's one or two, a clock's.
ghost use Rattle.std.specs.Prelude.{◌≡◌};
ghost use Rattle.words.specs.Netlist.{bare};
ghost use Rattle.words.specs.Records.{Starts, part_of, read, reached, gate_in, clock_in, wire_in, fills_at};

use crate::Kind;
use model::Wire;

// Part of a file's words, with the index of its first.
#[derive(Drop)]
pub enum Record<'a> {
    Gate(&'a [u32], usize),
    Wire(&'a [u32], usize),
    Clock(&'a [u32], usize),
}

impl<'a> Record<'a> {
    // The words that the record holds.
    pub fn part(&self) -> &'a [u32]
        ensures { result.now ≡ part_of self.now }
    {
        match self {
            Record::Gate(part, _) | Record::Wire(part, _) | Record::Clock(part, _) => part,
        }
    }
}

// A fill word stands at `at`.
fn fills(words: &[u32], at: usize) -> bool
    ensures { result ≡ fills_at words.now at }
{
    words
        .get(at)
        .is_some_and(|word| crate::kind_of(*word) == Kind::Fill)
}

// The record that starts at `at`, if one does.
pub fn record_at<'a>(words: &'a [u32], at: usize) -> Option<Record<'a>>
    ensures { Starts words.now at result }
{
    match crate::kind_of(*words.get(at)?) {
        Kind::Gate => Some(Record::Gate(&words[at..at + 1], at)),
        Kind::Wire if fills(words, at + 1) => Some(Record::Wire(&words[at..at + 2], at)),
        Kind::Wire => Some(Record::Wire(&words[at..at + 1], at)),
        Kind::Clock => Some(Record::Clock(&words[at..at + 1], at)),
        _ => None,
    }
}

// The records of a file's words, one after another.
#[derive(Drop)]
pub struct RecordIter<'a> {
    words: &'a [u32],
    at: usize,
}

// The records from the first word on, up to a word that starts none.
pub fn records<'a>(words: &'a [u32]) -> RecordIter<'a>
    ensures words { read result ≡ words.now }
    ensures start { reached result ≡ 0 }
{
    RecordIter { words, at: 0 }
}

impl<'a> Iterator for RecordIter<'a> {
    ghost use Rattle.std.specs.Prelude.{◌-◌, length};
    ghost use Rattle.std.specs.Iterator.{at_most};
    ghost use Rattle.words.specs.Records.{GivesRecord};

    type Item = Record<'a>;

    ghost next_gives = { GivesRecord };

    ghost remaining = { λ s. at_most (length (read s) - reached s) };

    fn next(&mut self) -> Option<Record<'a>> {
        let record = record_at(self.words, self.at)?;
        self.at += record.part().len();
        Some(record)
    }
}

// The delay that a gate's word gives.
pub fn gate_in(part: &[u32]) -> u16
    ensures { result ≡ gate_in part.now }
{
    match part {
        [] => 0,
        [word, ..] => crate::delay(*word),
    }
}

// The clock that a clock's word gives. Beside `gate_in`, since one text for both would take the reader as an argument and be no shorter.
pub fn clock_in(part: &[u32]) -> u32
    ensures { result ≡ clock_in part.now }
{
    match part {
        [] => 0,
        [word, ..] => crate::clock(*word),
    }
}

// A wire that has no fill word.
fn unfilled(from: u8, to: u8) -> Wire
    ensures { result ≡ bare from to }
{
    Wire {
        from,
        to,
        registers: 0,
        price: 1,
        floor: 0,
        ceiling: 255,
    }
}

// The wire that its words give.
pub fn wire_in(part: &[u32]) -> Wire
    ensures { result ≡ wire_in part.now }
{
    match part {
        [] => unfilled(0, 0),
        [wire] => unfilled(crate::from(*wire), crate::to(*wire)),
        [wire, fill, ..] => Wire {
            from: crate::from(*wire),
            to: crate::to(*wire),
            registers: crate::registers(*fill),
            price: crate::price(*fill),
            floor: crate::floor(*fill),
            ceiling: crate::ceiling(*fill),
        },
    }
}
