// The outcome of a trial of connections, and its text.
use std::fmt;
use std::fmt::{Display, Formatter, Write};

/// What a trial came to.
#[derive(Clone, Copy, Debug, PartialEq, Eq)]
pub enum Outcome {
    /// Each connection came to what it must.
    Right,
    /// One did not: its number in the trial, from 1 on.
    Wrong(usize),
}

impl Display for Outcome {
    fn fmt<W: Write>(&self, f: &mut Formatter<W>) -> fmt::Result {
        match self {
            Outcome::Right => f.write_str("ok"),
            Outcome::Wrong(place) => write!(f, "wrong at {place}"),
        }
    }
}
