//! The answers of a name service over a content: the switch looks the request up, and its outcome is written as a reply.
#![tactic(auto)]

mod listed;
mod plain;

pub use listed::Listed;
pub use plain::{Plain, answer_with};
