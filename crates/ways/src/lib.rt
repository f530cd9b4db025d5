// Shortest ways over any kind of distance, each kept as a walk that comes to no vertex twice.
#![tactic(auto)]

mod distance;
mod net;
mod shortest;
mod walk;

pub use distance::Distance;
pub use net::{Arc, Listed, Net, sound};
pub use shortest::ways;
pub use walk::{Loop, Way};
