// Kinds of distance: what lengths sum to, and which sum is less.
ghost use Rattle.std.specs.Prelude.{◌≡◌, ℕ, ◌<◌, Decides};
ghost use Rattle.ways.specs.Laws.{Kind, Laws};
ghost use Rattle.ways.specs.Kinds.{delays, shifts};
ghost use Rattle.ways.specs.KindLaws.{delay_laws, shift_laws};

// Values that can be lengths of arcs, and whose sums are compared.
pub trait Distance: Copy {
    // What zero, the sum and the order are, over unbounded numbers, and which values are a sum of at most k steps.
    ghost kind: { Kind Self };

    // The distance of a vertex from itself.
    fn zero() -> Self
        ensures { result ≡ kind.zero };

    // The sum, which is exact for one step after fewer than 128 others.
    fn plus(self, other: Self) -> Self
        requires { (k : ℕ) × (k < 128) × kind.fits k self × kind.fits 1 other }
        ensures { result ≡ kind.sum self other };

    // Whether `other` is no less.
    fn at_most(self, other: Self) -> bool
        ensures { result ≡ kind.upto self other };

    // Whether the value is short enough for an arc.
    fn one_step(self) -> bool
        ensures { Decides result (kind.fits 1 self) };

    // What shortest ways rest on.
    ghost distances: { Laws kind };
}

// Registers and delay: fewer registers is less, and then more delay is less.
impl Distance for (u32, u32) {
    ghost kind = { delays };

    ghost distances = { delay_laws };

    fn zero() -> (u32, u32) {
        (0, 0)
    }

    fn plus(self, other: (u32, u32)) -> (u32, u32) {
        (self.0 + other.0, self.1 + other.1)
    }

    fn at_most(self, other: (u32, u32)) -> bool {
        self.0 < other.0 || (self.0 == other.0 && other.1 <= self.1)
    }

    fn one_step(self) -> bool {
        self.0 < 0x100_0000 && self.1 < 0x100_0000
    }
}

// Whole numbers in their order.
impl Distance for i32 {
    ghost kind = { shifts };

    ghost distances = { shift_laws };

    fn zero() -> i32 {
        0i32
    }

    fn plus(self, other: i32) -> i32 {
        self + other
    }

    fn at_most(self, other: i32) -> bool {
        self <= other
    }

    fn one_step(self) -> bool {
        -0x100_0000 < self && self < 0x100_0000
    }
}
