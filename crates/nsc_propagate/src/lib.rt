//! The request by id that goes with a request by name, for `auto-propagate` of nscd.conf(5).
#![tactic(auto)]

mod ids;

pub use ids::id_request;
