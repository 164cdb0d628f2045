//! A table of values under tokens: a token names a seat and its generation, so that one that outlives its value finds nobody else's.
#![tactic(auto)]

mod tokens;

pub use tokens::{SEATS, Tokens};
