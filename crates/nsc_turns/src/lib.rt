//! The turns of a cache over its one writer: lookups, ticks and invalidations do what the machine does.
#![tactic(auto)]

mod answering;
mod entries;
mod ticks;

pub use answering::{Answering, load, load_beside, loads};
pub use entries::{HitOrMiss, insert, insert_beside, invalidate, look};
pub use ticks::{Checked, check, renew};
