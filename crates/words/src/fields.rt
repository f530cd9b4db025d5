// The runs of bits that the fields of a word stand in.
ghost use Rattle.std.specs.Prelude.{◌≡◌, ◌*◌, ◌/◌, ◌%◌, ◌^◌, ◌<◌, ◌≤◌};
ghost use Rattle.words.specs.Layout.{Makes};

// How much the lowest bit of a run counts, and how many values the run has.
#[derive(Clone, Copy)]
pub struct Field {
    pub low: u32,
    pub size: u32,
    ghost begins: { 0 < low },
    ghost holds: { 0 < size },
    ghost within: { low * size ≤ 2 ^ 32 },
}

impl Field {
    // The value that a word has there.
    pub fn of(self, word: u32) -> u32
        ensures { result ≡ word / self.low % self.size }
    {
        word / self.low % self.size
    }

    // A word that has this value there and 0 elsewhere; None where the run has no such value.
    pub fn put(self, value: u32) -> Option<u32>
        ensures { Makes (value < self.size) (value * self.low) result }
    {
        // Not `then`: its closure does not know the bound.
        if value < self.size {
            Some(value * self.low)
        } else {
            None
        }
    }
}

// A gate's delay; a wire's ends; what a fill gives a wire; the clock; the count of an end.
pub const DELAY: Field = Field {
    low: 1,
    size: 0x1_0000,
};

pub const FROM: Field = Field {
    low: 0x80,
    size: 0x80,
};

pub const TO: Field = Field { low: 1, size: 0x80 };

pub const PRICE: Field = Field {
    low: 0x100_0000,
    size: 16,
};

pub const REGISTERS: Field = Field {
    low: 0x1_0000,
    size: 0x100,
};

pub const FLOOR: Field = Field {
    low: 0x100,
    size: 0x100,
};

pub const CEILING: Field = Field {
    low: 1,
    size: 0x100,
};

pub const CLOCK: Field = Field {
    low: 1,
    size: 0x100_0000,
};

pub const COUNT: Field = Field {
    low: 1,
    size: 0x1000_0000,
};

// The two bits below the kind.
pub const LIMIT: Field = Field {
    low: 0x400_0000,
    size: 4,
};
