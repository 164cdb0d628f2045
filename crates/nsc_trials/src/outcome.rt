// The outcome of a trial of a database, and its text.
use std::fmt;
use std::fmt::{Display, Formatter, Write};

/// What a trial came to.
#[derive(Clone, Copy, Debug, PartialEq, Eq)]
pub enum Outcome {
    /// All came to what it must.
    Right,
    /// Something did not: the number of the step, from 1 on, or of the interleaving, from 0 on.
    Wrong(usize),
    /// Memory was short.
    NoMemory,
}

impl Outcome {
    /// That of a trial which has one step.
    pub fn of(is_right: bool) -> Outcome {
        if is_right {
            Outcome::Right
        } else {
            Outcome::Wrong(1)
        }
    }
}

impl Display for Outcome {
    fn fmt<W: Write>(&self, f: &mut Formatter<W>) -> fmt::Result {
        match self {
            Outcome::Right => f.write_str("ok"),
            Outcome::Wrong(place) => write!(f, "wrong at {place}"),
            Outcome::NoMemory => f.write_str("out of memory"),
        }
    }
}
