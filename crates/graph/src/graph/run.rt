use arrayvec::ArrayVec;
use std::fmt;

// The gates of a path in their order.
#[derive(Drop)]
pub struct Run {
    pub gates: ArrayVec<u8, 128>,
}

impl fmt::Display for Run {
    fn fmt<W: fmt::Write>(&self, f: &mut fmt::Formatter<W>) -> fmt::Result {
        for gate in &self.gates {
            write!(f, " {gate}")?;
        }
        Ok(())
    }
}
