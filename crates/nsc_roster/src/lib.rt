//! Who accepts connections: the first thread, and helpers that are called while it has more than it can do.
#![tactic(auto)]

mod roster;
mod watch;

pub use roster::{Charge, HELPERS, HelperState, Lent, Roster};
pub use watch::Watch;
