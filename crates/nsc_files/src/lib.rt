//! The services `files` and `extrausers`: what a database's own file, or the extra one, answers, whichever way its entries are found.
#![tactic(auto)]

mod finder;
mod groups;
mod hosts;
mod lookup;
mod search;
mod services;
mod users;

pub use finder::Finder;
pub use lookup::{extra_lookup, files_lookup};
pub use search::text_in;
