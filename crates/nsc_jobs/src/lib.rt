//! A list of jobs, between one thread that finds them and others that do them.
#![tactic(auto)]

mod job_list;
mod queue;

pub use job_list::JobList;
