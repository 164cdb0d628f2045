//! The one writer of a database: its live entries, and the pen that writes their history.
#![tactic(auto)]

mod changes;
mod former;
mod growth;
mod loaded;
mod lookups;
mod sliding;
mod writer;

pub use former::Former;
pub use loaded::{Inserted, Loaded, Stamp};
pub use writer::{Cause, Writer};
