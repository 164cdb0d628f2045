//! Calls of a database of users by many threads, for their time: `hits THREADS ENTRIES COUNT [ASKED]`, `misses USERS COUNT`,
//! `ticks ENTRIES COUNT SECONDS`, `compactions ENTRIES COUNT`; or searches in place, which tell their time: `reads THREADS ENTRIES COUNT
//! [RATE]`, and by a client `asks THREADS ENTRIES COUNT [RATE]`.
#![tactic(auto)]

mod loads;
mod mode;
mod opening;
mod reads;
mod timing;

use mode::Mode;
use std::alloc::AllocError;
use std::process::ExitCode;
use std::{env, io};
use timing::timed;

fn main(rt: HostRuntime) -> io::Result<ExitCode> {
    let words = words(&rt)?;
    let Some(mode) = Mode::of(words.as_slice()) else {
        return Ok(ExitCode::from(1));
    };
    let Ok(took) = timed(&rt, rt.alloc(), mode) else {
        return Ok(ExitCode::from(1));
    };
    if let Mode::Reads(_) = mode {
        println!(rt; "{took}")?;
    }
    Ok(ExitCode::from(if took.is_right { 0 } else { 1 }))
}

// The words of the command without the program's own name.
fn words(rt: &HostRuntime) -> io::Result<Vec<String>> {
    let mut words = Vec::new(rt.alloc());
    for word in env::args(rt)?.skip(1) {
        words.push(word).map_err(AllocError::from)?;
    }
    Ok(words)
}
