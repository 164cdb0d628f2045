//! Lines for standard error: a bounded list, and the thread that writes them, so that no other thread waits for a reader.
#![tactic(auto)]

mod backlog;
mod lines;

pub use lines::Lines;
