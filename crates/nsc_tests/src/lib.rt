//! The tests of the calls that answer, keep and encode with ample memory, and of what no run of the built program shows. Those of files,
//! streams and sockets stand in crates of their own; replays of the built program, which are most tests, in `tests/replays`.
#![tactic(auto)]

#[cfg(test)]
mod answers;
#[cfg(test)]
mod caches;
#[cfg(test)]
mod indexes;
#[cfg(test)]
mod memory;
#[cfg(test)]
mod settings;
#[cfg(test)]
mod texts;
#[cfg(test)]
mod wire;
