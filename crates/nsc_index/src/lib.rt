//! Answers of a name service over a content: at first by a search through its files, and once it is prepared further by indexes of their
//! lines, where a lookup finds its line by the number of its key or by a search in the order of the keys.
#![tactic(auto)]

mod chains;
mod finder;
mod fronts;
mod groups;
mod hosts;
mod indexed;
mod indexed_content;
mod lines;
mod looks;
mod names;
mod numbers;
mod places;
mod services;
mod signs;
mod users;
mod words;

pub use indexed::{Indexed, ReadyContent};
pub use indexed_content::IndexedContent;
