//! Internet addresses read from texts and printed: IPv4 in dotted decimal, IPv6 as RFC 4291 and RFC 5952 write it. No call takes
//! memory.
#![tactic(auto)]

mod print;
mod read;

pub use print::{print_v4, print_v6};
pub use read::{read_v4, read_v6};
