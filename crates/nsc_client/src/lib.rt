//! A client's call: a search in place first, and a link to whoever can answer where that finds nothing.
#![tactic(auto)]

mod answers;
mod asking;
mod exchange;
mod gate;
mod hits;
mod lent;
mod line;
mod link;
mod pending;
mod reading;
mod replies;
mod serving;
mod socket_link;
mod spelled;
mod store_link;
mod texts;

pub use asking::{Asked, ask};
pub use gate::{Gated, serve_gate};
pub use link::{Link, LinkFault};
pub use socket_link::SocketLink;
pub use store_link::StoreLink;
