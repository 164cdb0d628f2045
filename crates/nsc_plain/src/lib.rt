//! A cache of one database as a list of entries: the machine of the model, call by call.
#![tactic(auto)]

mod cache;
mod db_files;
mod entries;
mod insertion;
mod kept;
mod table;

pub use cache::PlainCache;
pub use db_files::DbFiles;
pub use entries::{find_entry, words_of};
pub use kept::Kept;
