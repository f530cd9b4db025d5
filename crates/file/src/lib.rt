// Which words are a file: the machine that a load goes by.
#![tactic(auto)]

pub mod machine;
