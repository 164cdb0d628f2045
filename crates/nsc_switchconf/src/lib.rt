//! The service lists of nsswitch.conf(5).
#![tactic(auto)]

mod line;
mod list;
mod names;
mod place;
mod rule;
mod token;

pub use list::service_list;
