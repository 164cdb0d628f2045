//! The settings of nscd.conf(5), and the reader of its lines.
#![tactic(auto)]

mod attributes;
mod lines;
mod values;
mod words;

pub use lines::read_conf;
pub use nsc_model::ConfFault;
