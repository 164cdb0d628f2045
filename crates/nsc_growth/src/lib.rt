//! How the table of a database grows: by doubling, up to max-db-size.
#![tactic(auto)]

mod doubling;

pub use doubling::Doubling;
