// `run_trials`: all trials, each with the line that is printed.
use crate::discarded::Gates;
use crate::growing::growing;
use crate::kept::{Beginning, TRUE, UNTRUE, persistent};
use crate::opening::done;
use crate::outcome::Outcome;
use crate::script::Script;
use crate::scripts::SCRIPTS;
use crate::task::Task;
use crate::texts::{BASH, BOTH, MOVED, SH};
use nsc_base::NoMemory;
use nsc_caller::users_of;
use nsc_model::Conf;
use nsc_outside::{HeldFiles, Release};
use std::alloc::Global;
use std::io;
use std::io::Print;
use std::sync::Wait;
use std::thread::Threads;
use std::time::Clock;

// How many interleavings are tried.
const INTERLEAVINGS: u64 = 1000;

/// Runs every trial, and prints a line for each.
pub fn run_trials<R: AllocGlobal + Threads + Wait + Clock + Print + Clone + Drop + Send + Sync>(
    rt: &R,
    alloc: Global,
) -> io::Result<()> {
    for script in &SCRIPTS {
        let outcome = run_script(rt, alloc, script).unwrap_or(Outcome::NoMemory);
        println!(rt; "{}: {outcome}", script.name)?;
    }
    let outcome = run_discarded(rt, alloc).unwrap_or(Outcome::NoMemory);
    println!(rt; "a lookup during an invalidation: {outcome}")?;
    let outcome = run_growing(rt, alloc).unwrap_or(Outcome::NoMemory);
    println!(rt; "a table that grows: {outcome}")?;
    let outcome = run_kept(rt, alloc, TRUE).unwrap_or(Outcome::NoMemory);
    println!(rt; "an image that is true: {outcome}")?;
    let outcome = run_kept(rt, alloc, UNTRUE).unwrap_or(Outcome::NoMemory);
    println!(rt; "an image that is not: {outcome}")?;
    let outcome = run_interleavings(rt, alloc).unwrap_or(Outcome::NoMemory);
    println!(rt; "{INTERLEAVINGS} interleavings: {outcome}")
}

// A file set in which passwd has these bytes, and those once the flag is set.
fn changing<R: Clock + Clone + Drop>(
    rt: &R,
    alloc: Global,
    first: &[u8],
    second: &[u8],
    changed: &Release,
) -> Result<HeldFiles<R>, NoMemory> {
    let first = users_of(alloc, first)?;
    let second = users_of(alloc, second)?;
    HeldFiles::new(rt.clone()?, alloc, first)?.changing(alloc, second, changed.share()?)
}

fn run_script<R: Threads + Wait + Clock + Clone + Drop + Send + Sync>(
    rt: &R,
    alloc: Global,
    script: &Script,
) -> Result<Outcome, NoMemory> {
    let changed = Release::new(alloc)?;
    let files = changing(rt, alloc, BASH, SH, &changed)?;
    let task = Task::Script(*script, changed);
    Ok(done(rt, alloc, &script.conf(), files, task))
}

fn run_discarded<R: Threads + Wait + Clock + Clone + Drop + Send + Sync>(
    rt: &R,
    alloc: Global,
) -> Result<Outcome, NoMemory> {
    let changed = Release::new(alloc)?;
    let gates = Gates::new(alloc)?;
    let files = changing(rt, alloc, BASH, SH, &changed)?.holding(alloc, gates.hold()?)?;
    let task = Task::Discarded(gates, changed);
    Ok(done(rt, alloc, &Conf::defaults(), files, task))
}

fn run_growing<R: Threads + Wait + Clock + Clone + Drop + Send + Sync>(
    rt: &R,
    alloc: Global,
) -> Result<Outcome, NoMemory> {
    let files = HeldFiles::new(rt.clone()?, alloc, users_of(alloc, BASH)?)?;
    Ok(done(rt, alloc, &growing(), files, Task::Growing))
}

fn run_kept<R: Threads + Wait + Clock + Clone + Drop + Send + Sync>(
    rt: &R,
    alloc: Global,
    beginning: Beginning,
) -> Result<Outcome, NoMemory> {
    let files = HeldFiles::new(rt.clone()?, alloc, users_of(alloc, BASH)?)?;
    Ok(done(rt, alloc, &persistent(), files, Task::Kept(beginning)))
}

// Up to the first whose outcome is not the right one.
fn run_interleavings<R: Threads + Wait + Clock + Clone + Drop + Send + Sync>(
    rt: &R,
    alloc: Global,
) -> Result<Outcome, NoMemory> {
    for seed in 0..INTERLEAVINGS {
        if run_interleaving(rt, alloc, seed)? != Outcome::Right {
            return Ok(Outcome::Wrong(seed as usize));
        }
    }
    Ok(Outcome::Right)
}

fn run_interleaving<R: Threads + Wait + Clock + Clone + Drop + Send + Sync>(
    rt: &R,
    alloc: Global,
    seed: u64,
) -> Result<Outcome, NoMemory> {
    let changed = Release::new(alloc)?;
    let files = changing(rt, alloc, BOTH, MOVED, &changed)?;
    let task = Task::Interleaving(seed, changed);
    Ok(done(rt, alloc, &Conf::defaults(), files, task))
}
