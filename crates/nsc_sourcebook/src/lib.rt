//! The versions of a database's files: its files are read whole, and a content that is new is prepared for answers once.
#![tactic(auto)]

mod book;
mod comparing;
mod fault;
mod reading;

pub use book::{Fetched, Polled, SourceBook};
pub use fault::PollFault;
