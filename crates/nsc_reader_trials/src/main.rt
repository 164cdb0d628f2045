//! Readers that take no lock, beside a writer: searches whose steps stand at chosen places between those of the writer, and then at all places
//! between its stores; and callers beside a writer whose table grows. Or, with a number of seconds as its word, threads that search while another
//! one writes for so long.
#![tactic(auto)]

mod bench;
mod caller;
mod crowd;
mod files;
mod grower;
mod growing;
mod interleavings;
mod leap;
mod loading;
mod lookout;
mod names;
mod reader;
mod replies;
mod roomier;
mod rows;
mod stage;
mod threads;
mod told;
mod truth;

use growing::show_growth;
use interleavings::show_interleavings;
use rows::{show_rows, wanting};
use std::alloc::AllocError;
use std::process::ExitCode;
use std::{env, io};
use threads::run_threads;

fn main(rt: HostRuntime) -> io::Result<ExitCode> {
    let mut words = Vec::new(rt.alloc());
    for word in env::args(&rt)?.skip(1) {
        words.push(word).map_err(AllocError::from)?;
    }
    match words.as_slice() {
        [] => {
            show_rows(&rt, rt.alloc())?;
            show_interleavings(&rt, rt.alloc())?;
            show_growth(&rt, rt.alloc())?;
        }
        [seconds] => {
            let Ok(seconds) = seconds.as_str().parse::<u32>() else {
                return Ok(ExitCode::from(1));
            };
            let done = run_threads(&rt, rt.alloc(), seconds).map_err(wanting)?;
            println!(rt; "{done:?}")?;
        }
        _ => return Ok(ExitCode::from(1)),
    }
    Ok(ExitCode::from(0))
}
