//! The tests of files and streams. Tests of the edges stand in crates of their own, so that each waits for no more than it tries.
#![tactic(auto)]

#[cfg(test)]
mod files;
#[cfg(test)]
mod streams;
