//! Searches in the words of a database that take no lock, no memory and no runtime: a walk along a bucket's chain, step by step, while
//! the one who writes goes on.
#![tactic(auto)]

mod chain;
mod ends;
mod key;
mod reply;
mod searching;
mod stage;
mod walk;

pub use searching::{search, seek};
pub use walk::Walk;
