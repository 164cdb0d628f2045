//! The expiry of a database: which of its live entries are over, and their ends.
#![tactic(auto)]

mod due;

pub use due::{Due, expired, prune_ends};
