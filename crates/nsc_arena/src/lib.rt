//! The nodes of a cache in the words of its table: placed one after the other, chained by the hash of their requests, found, ended,
//! and slid together. What is known of the memory is a trait.
#![tactic(auto)]

mod chaining;
mod copying;
mod laws;
mod memory;
mod numbers;
mod placing;
mod reading;
mod sliding;
mod walking;
mod writing;

pub use chaining::{chain, lead};
pub use copying::copy_nodes;
pub use laws::nodes_are_read_back;
pub use memory::{VecWords, Words};
pub use numbers::first_from;
pub use placing::{Fixed, place_bytes};
pub use reading::{Head, head_at, read_bytes};
pub use sliding::{clear, slide};
pub use walking::{answers_at, walk};
