//! The compaction of a database: its live entries slide together over the words of its table, and those of the ended ones are free.
#![tactic(auto)]

mod compacting;

pub use compacting::compact;
