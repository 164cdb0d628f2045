//! The image of a database: its entries as bytes, which outlive the process. They are written behind a head, in the order of their
//! numbers, and SHA-256 of all that stands at the end; what is read back is checked whole first. A new database takes those entries
//! that still are the answers to their requests. Version 3 is written, and versions 2 and 3 are read.
#![tactic(auto)]

mod builder;
mod fault;
mod image;
mod layout;
mod restoring;
mod room;
mod saved;
mod saving;
mod verification;
mod version;

pub use builder::ImageBuilder;
pub use fault::ImageFault;
pub use image::{Entries, Image};
pub use restoring::{Kept, restore};
pub use saved::Saved;
pub use saving::save;
pub use verification::verify;

#[cfg(test)]
mod tests;
