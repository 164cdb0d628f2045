//! The daemon: its databases, its sockets, the thread that accepts and its workers.
#![tactic(auto)]

mod acceptor;
mod fast_path;
mod gate;
mod helping;
mod hold;
mod images;
mod intake;
mod latch;
mod means;
mod moment;
mod opening;
mod service;
mod tally;
mod terms;
mod threads;
mod ticker;
mod worker;

pub use opening::Openings;
pub use service::daemon;
pub use terms::Terms;
