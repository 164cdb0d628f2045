//! The tests of replays over streams that fail, and of the readers of a workload.
#![tactic(auto)]

#[cfg(test)]
mod runs;
