//! Commands to a running daemon, over one connection to its admin socket.
#![tactic(auto)]

mod ask;
mod commands;
mod reading;

pub use ask::AdminAsk;
pub use commands::command;
