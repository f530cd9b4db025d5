// The words of a reply: a cost, a gate's label, a refusal, and a limit of a chain.
#![tactic(auto)]

ghost use Rattle.std.specs.Prelude.{◌≡◌, ◌<◌, pos, negsuc, ◌≤ℤ◌};
ghost use Rattle.words.specs.Layout.{Makes};
ghost use Rattle.replies.specs.Trips.{ReplyTrips};
ghost use Rattle.replies.specs.Replies.{cost_of, gate_of, label_of, refusal_number_of, refusal_place_of, limit_of, cost_word, label_word, refusal_word, limit_word, InFields};

mod fields;

use words::LimitKind;
use words::fields::{FROM, TO};

// A limit: a wire's floor or ceiling, by the wire's number; the clock's, from one gate to another; a rule, by its index.
#[derive(Clone, Copy, PartialEq, Eq, Debug)]
pub enum LimitWord {
    Floor(u16),
    Ceiling(u16),
    Clock(u8, u8),
    Rule(u16),
}

pub fn cost(word: u32) -> u32
    ensures { result ≡ cost_of word }
{
    fields::COST.of(word)
}

pub fn gate(word: u32) -> u8
    ensures { result ≡ gate_of word }
{
    fields::GATE.of(word) as u8
}

// The label, in two's complement of 16 bits.
pub fn label(word: u32) -> i32
    ensures { result ≡ label_of word }
{
    i32::from((fields::LABEL.of(word) as u16).cast_signed())
}

pub fn number(word: u32) -> u8
    ensures { result ≡ refusal_number_of word }
{
    fields::NUMBER.of(word) as u8
}

pub fn place(word: u32) -> u32
    ensures { result ≡ refusal_place_of word }
{
    fields::PLACE.of(word)
}

// A function, as `words::kind_of` is: a word is more than its limit.
pub fn limit(word: u32) -> LimitWord
    ensures { result ≡ limit_of word }
{
    match words::limit_kind(word) {
        LimitKind::Floor => LimitWord::Floor(fields::WIRE.of(word) as u16),
        LimitKind::Ceiling => LimitWord::Ceiling(fields::WIRE.of(word) as u16),
        LimitKind::Clock => LimitWord::Clock(words::from(word), words::to(word)),
        LimitKind::Rule => LimitWord::Rule(fields::RULE.of(word) as u16),
    }
}

// None where the cost has more than 28 bits.
pub fn cost_word(cost: u32) -> Option<u32>
    ensures { Makes (cost < 0x1000_0000) (cost_word cost) result }
{
    Some(0x5000_0000 + fields::COST.put(cost)?)
}

// None where the gate is above 127, or the label outside -32,768 to 32,767.
pub fn label_word(gate: u8, label: i32) -> Option<u32>
    ensures { Makes ((gate < 0x80) × (negsuc 0x7FFF ≤ℤ label) × (label ≤ℤ pos 0x7FFF)) (label_word gate label) result }
{
    let low = i16::try_from(label).ok()?.cast_unsigned();
    Some(0x6000_0000 + fields::GATE.put(u32::from(gate))? + u32::from(low))
}

// None where the place has more than 20 bits.
pub fn refusal_word(number: u8, place: u32) -> Option<u32>
    ensures { Makes (place < 0x10_0000) (refusal_word number place) result }
{
    Some(0x7000_0000 + fields::NUMBER.put(u32::from(number))? + fields::PLACE.put(place)?)
}

// None where a number has more bits than its field. No `TryFrom`: the other makers answer an Option too.
pub fn limit_word(limit: LimitWord) -> Option<u32>
    ensures { Makes (InFields limit) (limit_word limit) result }
{
    match limit {
        LimitWord::Floor(wire) => Some(0x8000_0000 + fields::WIRE.put(u32::from(wire))?),
        LimitWord::Ceiling(wire) => Some(0x8400_0000 + fields::WIRE.put(u32::from(wire))?),
        LimitWord::Clock(from, to) => {
            Some(0x8800_0000 + FROM.put(u32::from(from))? + TO.put(u32::from(to))?)
        }
        LimitWord::Rule(rule) => Some(0x8C00_0000 + fields::RULE.put(u32::from(rule))?),
    }
}

// Made and taken apart, both ways: see specs/Trips.antt.
pub fn reply_trips()
    ensures { ReplyTrips }
{}

#[cfg(test)]
mod tests {
    use super::*;

    #[test]
    fn made_words(rt: HostRuntime) {
        let rows = [
            (cost_word(9), Some(0x5000_0009)),
            (label_word(1, -1), Some(0x6001_FFFF)),
            (refusal_word(16, 3), Some(0x7100_0003)),
            (limit_word(LimitWord::Clock(1, 3)), Some(0x8800_0083)),
            (limit_word(LimitWord::Ceiling(512)), None),
        ];
        for (made, word) in rows {
            assert_eq!(rt; made, word);
        }
    }
}
