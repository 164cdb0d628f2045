//! The replay of frames through the caches of the four databases.
#![tactic(auto)]

mod cached;
mod frame;
mod halt;
mod machine;
mod pieces;
mod prepared;
mod reading;
mod reply;
mod rounds;
mod sources;

pub use rounds::replay;
