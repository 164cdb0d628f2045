//! A workload that is made from a number: users, requests over them, and workers and readers that ask a database for them in threads.
#![tactic(auto)]

mod asked;
mod assignment;
mod fixed_files;
mod lines;
mod lookups;
mod outcome;
mod readers;
mod replies;
mod room;
mod run;
mod users;
mod workers;

pub use fixed_files::{FixedFiles, OfContent};
pub use run::{Worked, workload};
