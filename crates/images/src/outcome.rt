// What a step comes to, and how it is printed.
use std::fmt;

/// What a step comes to that is not refused.
#[derive(Clone, Copy)]
pub enum Outcome {
    /// a change landed after so many ticks
    Took { ticks: u32 },
    /// a byte was read
    Holds { byte: u8 },
    /// whether a sector is protected
    Marked { protected: bool },
}

impl fmt::Display for Outcome {
    fn fmt<W: fmt::Write>(&self, f: &mut fmt::Formatter<W>) -> fmt::Result {
        match *self {
            Outcome::Took { ticks } => write!(f, "took {ticks}"),
            Outcome::Holds { byte } => write!(f, "byte {byte:02x}"),
            Outcome::Marked { protected } => write!(f, "protected {protected}"),
        }
    }
}
