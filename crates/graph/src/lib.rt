#![tactic(auto)]

mod graph;

pub use graph::{Graph, Run, written_again};
