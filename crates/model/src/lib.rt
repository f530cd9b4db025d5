// Leiserson and Saxe's retiming: its definitions are in specs/, and each theorem here is a function's contract.
#![tactic(auto)]

ghost use Rattle.model.specs.Examples.{Worked};
ghost use Rattle.model.specs.Theorems.{PathSum, ClockByLimits, ValuesStay, RetimedMoves, StandsBelow, LeastByAmounts, NoneByChain, MovesAdd, OneEach, Applied, PlacesAreLimits, PlacesSuffice};

// A wire from gate to gate: its registers, what each costs, and how few and how many it may have.
#[derive(Clone, Copy, PartialEq, Eq, Debug)]
pub struct Wire {
    pub from: u8,
    pub to: u8,
    pub registers: u8,
    pub price: u8,
    pub floor: u8,
    pub ceiling: u8,
}

pub fn path_sum()
    ensures { PathSum }
{}

pub fn clock_by_limits()
    ensures { ClockByLimits }
{}

pub fn values_stay<V>()
    ensures { ValuesStay V }
{}

pub fn retimed_moves()
    ensures { RetimedMoves }
{}

pub fn stands_below()
    ensures { StandsBelow }
{}

pub fn least_by_amounts()
    ensures { LeastByAmounts }
{}

pub fn none_by_chain()
    ensures { NoneByChain }
{}

pub fn worked_examples()
    ensures { Worked }
{}

pub fn moves_add()
    ensures { MovesAdd }
{}

pub fn one_each()
    ensures { OneEach }
{}

pub fn applied()
    ensures { Applied }
{}

pub fn places_are_limits()
    ensures { PlacesAreLimits }
{}

pub fn places_suffice()
    ensures { PlacesSuffice }
{}
