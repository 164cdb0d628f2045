//! Trials of a database that many threads call, over a file that changes while they run. Each prints a line.
#![tactic(auto)]

mod asked;
mod dice;
mod discarded;
mod growing;
mod kept;
mod opening;
mod outcome;
mod script;
mod scripts;
mod task;
mod texts;
mod trials;
mod wanted;
mod workers;

use std::io;
use trials::run_trials;

fn main(rt: HostRuntime) -> io::Result<()> {
    run_trials(&rt, rt.alloc())
}
