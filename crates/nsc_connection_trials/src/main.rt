//! Trials of connections, one after another, over four databases in memory: to the sockets, with the outcome of each and what it is sent,
//! and to the gate. Each trial prints a line.
#![tactic(auto)]

mod connection;
mod four;
mod growing;
mod lines;
mod outcome;
mod rows;
mod tables;
mod texts;

use four::{Task, over};
use nsc_base::{Bytes, NoMemory};
use nsc_model::FileId;
use nsc_outside::MemFiles;
use outcome::Outcome;
use std::alloc::Global;
use std::io;
use std::io::Print;
use std::sync::Wait;
use texts::ROOT_LINE;

fn main(rt: HostRuntime) -> io::Result<()> {
    tell(&rt, "a read that fails", tables::failing_reads(&rt))?;
    tell(&rt, "a request that is cut", tables::cut_requests(&rt))?;
    tell(&rt, "a write that fails", tables::failing_writes(&rt))?;
    tell(&rt, "a file that fails", tables::failing_files(&rt))?;
    tell(&rt, "the longest file", tables::longest_file(&rt))?;
    tell(
        &rt,
        "a file that becomes too long",
        tables::growing_file(&rt),
    )?;
    tell(&rt, "requests and orders", rows::requests(&rt))?;
    tell(&rt, "the longest key", rows::longest_key(&rt))?;
    tell(&rt, "lines of users", rows::lines(&rt))?;
    tell(&rt, "connections to the gate", gate(&rt))
}

// Prints the line of a trial.
fn tell<R: Print>(rt: &R, name: &str, outcome: Result<Outcome, NoMemory>) -> io::Result<()> {
    match outcome {
        Ok(outcome) => println!(rt; "{name}: {outcome}"),
        Err(_) => println!(rt; "{name}: out of memory, or no file"),
    }
}

// Connections to the gate.
fn gate<R: AllocGlobal + Wait>(rt: &R) -> Result<Outcome, NoMemory> {
    over(rt, gate_files(rt.alloc())?, Task::Gate)
}

// The files that the gate is asked about.
fn gate_files(alloc: Global) -> Result<MemFiles, NoMemory> {
    let hosts = Bytes::copy(alloc, b"::1 localhost\n")?;
    let services = Bytes::copy(alloc, b"ssh 22/tcp\n")?;
    tables::users(alloc, Bytes::copy(alloc, ROOT_LINE)?)?
        .with_file(alloc, FileId::Hosts, Some(hosts))?
        .with_file(alloc, FileId::Services, Some(services))
}
