// W and D of a circuit: for every two gates the fewest registers on a path, and the greatest delay of the paths with so few.
// And the slowest path without registers, gate by gate.
#![tactic(auto)]

mod critical;
mod nearest;
mod net;
mod tables;

pub use net::Paths;
