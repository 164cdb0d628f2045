//! One database for many threads: its source book and its writer behind locks, and the passes of its callers.
#![tactic(auto)]

mod base;
mod database;
mod desk;
mod growing;
mod in_place;
mod lookup;
mod made;
mod opened;
mod pass;
mod room;
mod shelved;
mod tick;

pub use database::Database;
pub use opened::Opened;
pub use pass::DbPass;
pub use room::Room;
