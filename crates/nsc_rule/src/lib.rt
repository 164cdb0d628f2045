//! The words that the threads of a database share, the rule that ties them to its history and its entries, and the seats at them: the
//! one that writes, and those that have seen a beginning of the history.
#![tactic(auto)]

mod map;
mod pass;
mod pen;
mod plays;
mod steps;
mod succession;
mod view;
mod writing;

pub use map::{Map, start};
pub use pass::Pass;
pub use pen::Pen;
pub use succession::{carry, succeed};
