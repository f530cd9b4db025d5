// The 32-bit words of a file: the top four bits are a word's kind, and each kind lays out its fields below them.
#![tactic(auto)]

ghost use Rattle.std.specs.Prelude.{◌≡◌, ◌<◌, ◌≤◌};
ghost use Rattle.words.specs.Trips.{Trips};
ghost use Rattle.words.specs.Layout.{kind_of, stray, limit_kind_of, limit_room, delay_of, from_of, to_of, price_of, registers_of, floor_of, ceiling_of, clock_of, count_of, gate_word, wire_word, fill_word, clock_word, end_word, Makes};

pub mod fields;
pub mod reader;
#[cfg(test)]
mod tests;

#[derive(Clone, Copy, PartialEq, Eq, Debug)]
pub enum Kind {
    End,
    Gate,
    Wire,
    Fill,
    Clock,
    Cost,
    Label,
    Refused,
    Limited,
    Other,
}

// Which limit a limit's word states: a wire's floor or ceiling, the clock's between two gates, or a rule's.
#[derive(Clone, Copy, PartialEq, Eq, Debug)]
pub enum LimitKind {
    Floor,
    Ceiling,
    Clock,
    Rule,
}

impl LimitKind {
    // What the fields of such a limit are below: a wire's number, two gates, or a rule's index.
    fn room(self) -> u32
        ensures { result ≡ limit_room self }
    {
        match self {
            LimitKind::Floor | LimitKind::Ceiling => 0x200,
            LimitKind::Clock => 0x4000,
            LimitKind::Rule => 0x400,
        }
    }
}

// A function and no `From<u32>`: the kind is one field of a word among others, and not what the word is.
pub fn kind_of(word: u32) -> Kind
    ensures { result ≡ kind_of word }
{
    match word >> 28 {
        0 => Kind::End,
        1 => Kind::Gate,
        2 => Kind::Wire,
        3 => Kind::Fill,
        4 => Kind::Clock,
        5 => Kind::Cost,
        6 => Kind::Label,
        7 => Kind::Refused,
        8 => Kind::Limited,
        _ => Kind::Other,
    }
}

// A bit that the word's kind has no name for is set.
pub fn has_stray(word: u32) -> bool
    ensures { result ≡ stray word }
{
    let low = word % 0x1000_0000;
    match kind_of(word) {
        Kind::Gate => low >= 0x1_0000,
        Kind::Wire => low >= 0x4000,
        Kind::Clock => low >= 0x100_0000,
        Kind::Label => low >= 0x80_0000,
        Kind::Limited => low % 0x400_0000 >= limit_kind(low).room(),
        _ => false,
    }
}

pub fn limit_kind(word: u32) -> LimitKind
    ensures { result ≡ limit_kind_of word }
{
    match fields::LIMIT.of(word) {
        0 => LimitKind::Floor,
        1 => LimitKind::Ceiling,
        2 => LimitKind::Clock,
        _ => LimitKind::Rule,
    }
}

pub fn delay(word: u32) -> u16
    ensures { result ≡ delay_of word }
{
    fields::DELAY.of(word) as u16
}

pub fn from(word: u32) -> u8
    ensures { result ≡ from_of word }
{
    fields::FROM.of(word) as u8
}

pub fn to(word: u32) -> u8
    ensures { result ≡ to_of word }
{
    fields::TO.of(word) as u8
}

// A fill gives the price less 1.
pub fn price(word: u32) -> u8
    ensures { result ≡ price_of word }
{
    fields::PRICE.of(word) as u8 + 1
}

pub fn registers(word: u32) -> u8
    ensures { result ≡ registers_of word }
{
    fields::REGISTERS.of(word) as u8
}

pub fn floor(word: u32) -> u8
    ensures { result ≡ floor_of word }
{
    fields::FLOOR.of(word) as u8
}

pub fn ceiling(word: u32) -> u8
    ensures { result ≡ ceiling_of word }
{
    fields::CEILING.of(word) as u8
}

pub fn clock(word: u32) -> u32
    ensures { result ≡ clock_of word }
{
    fields::CLOCK.of(word)
}

// How many words stand before an end.
pub fn count(word: u32) -> u32
    ensures { result ≡ count_of word }
{
    fields::COUNT.of(word)
}

pub fn gate_word(delay: u16) -> u32
    ensures { result ≡ gate_word delay }
{
    0x1000_0000 + u32::from(delay)
}

// None where a gate is above 127.
pub fn wire_word(from: u8, to: u8) -> Option<u32>
    ensures { Makes ((from < 0x80) × (to < 0x80)) (wire_word from to) result }
{
    let ends = fields::FROM.put(u32::from(from))? + fields::TO.put(u32::from(to))?;
    Some(0x2000_0000 + ends)
}

// None where the price is not 1 to 16.
pub fn fill_word(price: u8, registers: u8, floor: u8, ceiling: u8) -> Option<u32>
    ensures { Makes ((1 ≤ price) × (price ≤ 16)) (fill_word price registers floor ceiling) result }
{
    let above = fields::PRICE.put(u32::from(price).checked_sub(1)?)?;
    let bounds = fields::FLOOR.put(u32::from(floor))? + fields::CEILING.put(u32::from(ceiling))?;
    Some(0x3000_0000 + above + fields::REGISTERS.put(u32::from(registers))? + bounds)
}

// None where the clock is above 16,777,215.
pub fn clock_word(clock: u32) -> Option<u32>
    ensures { Makes (clock < 0x100_0000) (clock_word clock) result }
{
    Some(0x4000_0000 + fields::CLOCK.put(clock)?)
}

// None where the count has more than 28 bits.
pub fn end_word(count: u32) -> Option<u32>
    ensures { Makes (count < 0x1000_0000) (end_word count) result }
{
    fields::COUNT.put(count)
}

// Made and taken apart, both ways: see specs/Trips.antt.
pub fn round_trips()
    ensures { Trips }
{}
