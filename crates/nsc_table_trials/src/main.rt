//! Calls of a writer by chance, each of which is told in a line, and then the words of its table; and as many events of a replay, beside
//! a cache that is a list of entries: `nsc_table_trials SEED CALLS`.
#![tactic(auto)]

mod calls;
mod dice;
mod files;
mod twin;
mod words;

use calls::Calls;
use nsc_base::NoMemory;
use std::alloc::{AllocError, Global};
use std::io::Print;
use std::process::ExitCode;
use std::{env, io};
use twin::are_same;
use words::show_words;

// What is tried where no words say it.
const SEED: u32 = 1;

const CALLS: u32 = 100;

fn main(rt: HostRuntime) -> io::Result<ExitCode> {
    let mut numbers = Vec::new(rt.alloc());
    for word in env::args(&rt)?.skip(1) {
        match word.as_str().parse::<u32>() {
            Ok(number) => numbers.push(number).map_err(AllocError::from)?,
            Err(_) => return Ok(ExitCode::from(1)),
        }
    }
    let (seed, calls, is_told) = match numbers.as_slice() {
        [] => (SEED, CALLS, false),
        [seed, calls] => (*seed, *calls, true),
        _ => return Ok(ExitCode::from(1)),
    };
    make_calls(&rt, rt.alloc(), seed, calls, is_told)?;
    make_events(&rt, rt.alloc(), seed, calls)?;
    Ok(ExitCode::from(0))
}

// Makes `calls` calls, and tells each and then the words, where it is to.
fn make_calls<R: Print>(
    rt: &R,
    alloc: Global,
    seed: u32,
    calls: u32,
    is_told: bool,
) -> io::Result<()> {
    let mut trial = Calls::new(alloc, seed).map_err(wanting)?;
    for now in 0..calls {
        let said = trial.make(alloc, now).map_err(wanting)?;
        if is_told {
            println!(rt; "{}", said.as_str())?;
        }
    }
    if is_told {
        return show_words(rt, trial.into_writer());
    }
    println!(rt; "{calls} calls")
}

// Makes `events` events, and tells whether the replay and the list replied the same.
fn make_events<R: Print>(rt: &R, alloc: Global, seed: u32, events: u32) -> io::Result<()> {
    match are_same(alloc, seed, events) {
        Ok(true) => println!(rt; "{events} events: same"),
        Ok(false) => println!(rt; "{events} events: other replies"),
        Err(_) => Err(wanting(NoMemory)),
    }
}

// Want of memory, as an error of output.
fn wanting(_e: NoMemory) -> io::Error {
    io::Error::from(io::ErrorKind::OutOfMemory)
}
