//! The tests of links over sockets, and of the list of jobs.
#![tactic(auto)]

#[cfg(test)]
mod jobs;
#[cfg(test)]
mod links;
