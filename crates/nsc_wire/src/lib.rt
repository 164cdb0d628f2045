//! Requests and replies as bytes: protocol version 2 of glibc's nscd-client.h, little-endian.
//!
//! A request is read with no memory, and each of its bytes is looked at once; a reply is written into memory that is taken once, and read
//! back into memory for its row alone.
#![tactic(auto)]

mod addresses;
mod decode;
mod fault;
mod groups;
mod head;
mod hosts;
mod netgroups;
mod reading;
mod reply;
mod request;
mod services;
mod texts;
mod users;

pub use decode::decode_reply;
pub use fault::ReplyFault;
pub use head::{HEAD, LONGEST, is_settled, key_wanted};
pub use nsc_model::Reply;
pub use reply::encode;
pub use request::{Wire, read_request};
