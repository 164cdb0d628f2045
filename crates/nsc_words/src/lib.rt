//! The words of a cache's table: how it is laid out, what the words of a node hold, and how numbers and bytes become words.
#![tactic(auto)]

mod bytes;
mod hashing;
mod layout;
mod node;
mod packing;

pub use bytes::word_of;
pub use hashing::{hash, hash_kind, hash_word};
pub use layout::{
    ADD_FAILED, CYCLE, EPOCH, FIRST_FREE, HEAD_WORDS, HITS, LOADS, Layout, MISSES, NEGATIVE_HITS,
    NEGATIVE_MISSES, SOURCE,
};
pub use node::{
    KEY, NEXT, NUMBER, Node, Placed, RELOADS, SHAPE, SIZE, STATE, TIMEOUT, VERSION, node_words,
};
pub use packing::{shape, shape_kind, shape_len, size_len, size_not_found, size_word};
