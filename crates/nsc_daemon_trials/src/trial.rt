// `Trial`: one trial of a daemon: its files, arrivals, peers and reads that wait.

use crate::plans::{Plan, Step};
use crate::requests::{LINE, LONGEST_KEY};
use nsc_base::{Bytes, NoMemory};
use nsc_model::{FileId, LINE_LIMIT};
use nsc_outside::{Hold, Release};
use nsc_sockets::{Arrival, Peer, Role, SharedSink, SinkReader};
use std::alloc::Global;

// How many bytes a peer takes at most.
const ROOM: usize = 4096;

// The longest key that a request may have, in bytes.
const LONGEST: usize = 1024;

/// What a trial takes: when the files change, which reads wait, who comes, in order, and to whom the program connects. What each peer is
/// sent can be read after it.
#[derive(Drop)]
pub struct Trial {
    pub changed: Release,
    pub hold: Hold,
    pub arrivals: Vec<Arrival>,
    pub peers: Vec<Peer>,
    pub readers: Vec<SinkReader>,
}

impl Trial {
    /// The trial of a plan. Fails only for want of memory.
    pub fn new(alloc: Global, plan: &Plan) -> Result<Trial, NoMemory> {
        let flag = Release::new(alloc)?;
        let mut trial = Trial {
            changed: flag.share()?,
            hold: hold_from(alloc, u64::MAX, Release::new(alloc)?)?,
            arrivals: Vec::new(alloc),
            peers: Vec::new(alloc),
            readers: Vec::new(alloc),
        };
        if plan.holds {
            trial.changed = Release::new(alloc)?;
            trial.hold = hold_from(alloc, 2, flag.share()?)?;
        }
        for step in plan.steps {
            trial.follow(alloc, *step, &flag)?;
        }
        for input in plan.reached {
            trial.reach(alloc, *input)?;
        }
        Ok(trial)
    }

    // Then this comes.
    fn follow(&mut self, alloc: Global, step: Step, flag: &Release) -> Result<(), NoMemory> {
        let output = SharedSink::new(alloc, ROOM)?;
        match step {
            Step::Peer(role, input) => self.arrive(alloc, role, input, output),
            Step::Setting(role, input) => {
                self.arrive(alloc, role, input, output.setting(flag.share()?))
            }
            Step::LongestKey => {
                let request = longest_key(alloc)?;
                self.arrive(alloc, Role::Plain, request.as_slice(), output)
            }
            Step::LongLines => {
                let lines = long_lines(alloc)?;
                self.arrive(alloc, Role::Gate, lines.as_slice(), output)
            }
            Step::QuietUntilSet => { Ok(self.arrivals.push(Arrival::QuietUntil(flag.share()?))?) }
            Step::Quiet(times) => self.rest(times),
        }
    }

    // Nobody comes, `times` times.
    fn rest(&mut self, times: u32) -> Result<(), NoMemory> {
        for _ in 0..times {
            self.arrivals.push(Arrival::Quiet)?;
        }
        Ok(())
    }

    // A peer comes, who sends these bytes.
    fn arrive(
        &mut self,
        alloc: Global,
        role: Role,
        input: &[u8],
        output: SharedSink,
    ) -> Result<(), NoMemory> {
        self.readers.push(output.reader()?)?;
        let input = Bytes::copy(alloc, input)?;
        self.arrivals.push(Arrival::Conn {
            role,
            input,
            output,
        })?;
        Ok(())
    }

    // The program reaches a daemon that sends these bytes.
    fn reach(&mut self, alloc: Global, input: &[u8]) -> Result<(), NoMemory> {
        let output = SharedSink::new(alloc, ROOM)?;
        self.readers.push(output.reader()?)?;
        let input = Bytes::copy(alloc, input)?;
        self.peers.push(Peer { input, output })?;
        Ok(())
    }
}

// The reads of users that wait, by the number of the first.
fn hold_from(alloc: Global, from: u64, until: Release) -> Result<Hold, NoMemory> {
    Ok(Hold {
        file: FileId::Passwd,
        from,
        reached: Release::new(alloc)?,
        until,
    })
}

// A user by a key of as many letters as a key may have.
fn longest_key(alloc: Global) -> Result<Vec<u8>, NoMemory> {
    let mut request = Vec::from_slice(alloc, LONGEST_KEY)?;
    request.resize(LONGEST_KEY.len() + LONGEST, b'a')?;
    Ok(request)
}

// A line of as many letters as a line may have, one with a letter more, and a good line.
fn long_lines(alloc: Global) -> Result<Vec<u8>, NoMemory> {
    let mut lines = Vec::new(alloc);
    lines.resize(LINE_LIMIT, b'a')?;
    lines.push(b'\n')?;
    lines.resize(LINE_LIMIT + 1 + LINE_LIMIT + 1, b'a')?;
    lines.push(b'\n')?;
    lines.extend_from_slice(LINE)?;
    Ok(lines)
}
