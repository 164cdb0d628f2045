//! The program: its command words, the configuration, and how it ends.
#![tactic(auto)]

mod actions;
mod command;
mod config;
mod form;
mod lists;
mod words;

pub use command::{replay, run};
pub use nsc_model::Exit;
pub use nsc_workload::{Worked, workload};
