//! The entries of a database as nodes in the words of a table: found by the hash of their requests, and by their numbers; and the words
//! as the one pen writes them.
#![tactic(auto)]

mod copying;
mod entry;
mod finding;
mod hints;
mod sheet;
mod texts;

pub use entry::{EntryAt, Hit};
pub use finding::{Found, Mark, find_from};
pub use hints::{find, forget, no_hints, note};
pub use sheet::Sheet;
pub use texts::{read_key, read_reply};
