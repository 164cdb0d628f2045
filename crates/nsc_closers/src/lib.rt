//! Threads that close what may take a while to close, so that no other thread waits for it.
#![tactic(auto)]

mod closers;
mod closing;
mod queue;
mod threads;

pub use closers::{Bounds, Closers, Crew};
pub use closing::Closing;
