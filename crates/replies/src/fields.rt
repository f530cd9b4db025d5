// The runs of bits that the fields of a reply's word stand in.
use words::fields::Field;

pub const COST: Field = Field {
    low: 1,
    size: 0x1000_0000,
};

pub const GATE: Field = Field {
    low: 0x1_0000,
    size: 0x80,
};

pub const LABEL: Field = Field {
    low: 1,
    size: 0x1_0000,
};

pub const NUMBER: Field = Field {
    low: 0x10_0000,
    size: 0x100,
};

pub const PLACE: Field = Field {
    low: 1,
    size: 0x10_0000,
};

// The number of the wire that a limit names.
pub const WIRE: Field = Field {
    low: 1,
    size: 0x200,
};

pub const RULE: Field = Field {
    low: 1,
    size: 0x400,
};
