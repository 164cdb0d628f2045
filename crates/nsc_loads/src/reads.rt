// Searches in place, for their time.
ghost use Rattle.std.specs.Prelude.{◌≡◌};
ghost use Rattle.nsc_model.specs.Entry.{kept_limit};

use crate::loads::name_of;
use nsc_base::{Buf, NoMemory};
use nsc_caller::Caller;
use nsc_client::Asked;
use nsc_model::{Given, InPlace, KEPT_LIMIT, Kind, Store};
use std::alloc::Global;
use std::fmt::{Display, Formatter, Write};
use std::sync::Wait;
use std::sync::atomic::{AtomicU64, Ordering};
use std::thread::Threads;
use std::time::{Clock, Duration, Instant};
use std::{fmt, thread};

// The moment at which the entries are made that are searched for, so that their time is not over at the ticks.
const LATE: u32 = 1_000_000;

// The moment of the ticks, at which the time of those is over that the writer makes meanwhile, at moment 0.
const TICKED: u32 = 21;

// The number of the first user whose entry the writer makes, and how many others follow before it begins anew.
const FIRST: u32 = 5_000_000;

const OTHERS: u64 = 1_000_000;

// Nanoseconds of a millisecond, and of a second.
const MILLION: u64 = 1_000_000;

const BILLION: u64 = 1_000_000_000;

// The length of the reply where no user was found.
const ABSENT: usize = 36;

/// Searches for users in turn, each of whom has an entry, by `threads` threads together; one that a compaction disturbs is made again as a
/// lookup.
#[derive(Clone, Copy, Debug)]
pub struct Reads {
    /// How many threads.
    pub threads: u32,
    /// How many users, none of whom is in a file.
    pub entries: u32,
    /// How many searches.
    pub count: u32,
    /// How many entries a second one more thread makes meanwhile, which ends them and compacts once a second; none where this is 0.
    pub rate: u32,
    /// Whether they are a client's, each with a link to the database behind it.
    pub by_client: bool,
}

/// What they took.
#[derive(Clone, Copy, Debug, PartialEq, Eq)]
pub struct Took {
    /// Nanoseconds, of the thread that took longest.
    pub nanos: u64,
    /// How many searches found a compaction under way.
    pub odd: u64,
    /// Beside how many one began.
    pub moved: u64,
    /// How many entries were made meanwhile.
    pub made: u64,
    /// Whether each call came to what it must.
    pub is_right: bool,
}

impl Took {
    /// Nothing was done, or nothing whose time is told. Whether each call came to what it must.
    pub fn nothing(is_right: bool) -> Took {
        Took {
            nanos: 0,
            odd: 0,
            moved: 0,
            made: 0,
            is_right,
        }
    }

    // What a part took beside the others.
    fn add(&mut self, part: Took) {
        self.nanos = self.nanos.max(part.nanos);
        self.odd = self.odd.saturating_add(part.odd);
        self.moved = self.moved.saturating_add(part.moved);
        self.made = self.made.saturating_add(part.made);
        self.is_right = self.is_right && part.is_right;
    }
}

impl Display for Took {
    fn fmt<W: Write>(&self, f: &mut Formatter<W>) -> fmt::Result {
        write!(
            f,
            "{} nanoseconds, {} odd, {} moved, {} made",
            self.nanos, self.odd, self.moved, self.made
        )
    }
}

// What one thread does.
#[derive(Clone, Copy, Debug)]
enum Work {
    // It searches.
    Read,
    // It makes entries.
    Write,
}

// A thread: its caller, and what it does.
#[derive(Drop)]
struct Worker<'r, 's, S: Store, R: Wait> {
    caller: Caller<'r, 's, S, R>,
    work: Work,
}

impl Reads {
    /// Makes them.
    pub fn run<S: Store + Sync, R: Threads + Wait + Clock + Sync>(
        self,
        rt: &R,
        alloc: Global,
        mut caller: Caller<'_, '_, S, R>,
    ) -> Result<Took, NoMemory>
    where
        S::Pass: Send,
    {
        let mut took = Took::nothing(fills(&mut caller, self.entries));
        let workers = self.workers(alloc, &caller)?;
        let left = AtomicU64::new(u64::from(self.threads));
        let parts = thread::map_vec(
            rt,
            workers,
            &|worker: Worker<'_, '_, S, R>| self.part(rt, alloc, &left, worker),
        )?;
        for part in parts {
            took.add(part?);
        }
        Ok(took)
    }

    // The threads: those that search, and one that makes entries where there is a rate.
    fn workers<'r, 's, S: Store, R: Wait>(
        self,
        alloc: Global,
        caller: &Caller<'r, 's, S, R>,
    ) -> Result<Vec<Worker<'r, 's, S, R>>, NoMemory> {
        let mut workers = Vec::new(alloc);
        for _ in 0..self.threads {
            workers.push(Worker {
                caller: caller.another()?,
                work: Work::Read,
            })?;
        }
        if self.rate > 0 {
            workers.push(Worker {
                caller: caller.another()?,
                work: Work::Write,
            })?;
        }
        Ok(workers)
    }

    // The part of one thread.
    fn part<S: Store, R: Wait + Clock>(
        self,
        rt: &R,
        alloc: Global,
        left: &AtomicU64,
        worker: Worker<'_, '_, S, R>,
    ) -> Result<Took, NoMemory> {
        let Worker { mut caller, work } = worker;
        match work {
            Work::Read => {
                let took = self.timed(rt, alloc, &mut caller);
                left.fetch_sub(1, Ordering::SeqCst);
                took
            }
            Work::Write => Ok(self.write(rt, left, &mut caller)),
        }
    }

    // The searches of one thread, with their time.
    fn timed<S: Store, R: Wait + Clock>(
        self,
        rt: &R,
        alloc: Global,
        caller: &mut Caller<'_, '_, S, R>,
    ) -> Result<Took, NoMemory> {
        let mut out = Buf::new(alloc, KEPT_LIMIT)?;
        let mut took = Took::nothing(true);
        let start = Instant::now(rt).ok();
        self.read(caller, &mut out, &mut took);
        match nanos_since(rt, start) {
            Some(nanos) => took.nanos = nanos,
            None => took.is_right = false,
        }
        Ok(took)
    }

    // The searches of one thread.
    fn read<S: Store, R: Wait>(
        self,
        caller: &mut Caller<'_, '_, S, R>,
        out: &mut Buf,
        took: &mut Took,
    )
        requires { out.old.limit ≡ kept_limit }
    {
        let count = self.count / self.threads.max(1);
        for turn in 0..count {
            let name = name_of(turn % self.entries.max(1));
            let is_right = if self.by_client {
                is_asked(caller, &name, out, took)
            } else {
                is_read(caller, &name, out, took)
            };
            took.is_right = is_right && took.is_right;
        }
    }

    // Makes entries at its rate, and ticks once a second, until nobody searches any more.
    fn write<S: Store, R: Wait + Clock>(
        self,
        rt: &R,
        left: &AtomicU64,
        caller: &mut Caller<'_, '_, S, R>,
    ) -> Took {
        let mut took = Took::nothing(true);
        let mut seconds = 0;
        let start = Instant::now(rt).ok();
        for _ in 0..u64::MAX {
            if left.load(Ordering::SeqCst) == 0 {
                return took;
            }
            let Some(nanos) = nanos_since(rt, start) else {
                took.is_right = false;
                return took;
            };
            let due = (nanos / MILLION).saturating_mul(u64::from(self.rate)) / 1000;
            took.is_right = makes(caller, took.made, due) && took.is_right;
            took.made = took.made.max(due);
            if nanos / BILLION > seconds {
                seconds = nanos / BILLION;
                took.is_right = caller.tick(TICKED).is_ok() && took.is_right;
            }
            thread::sleep(rt, Duration::from_millis(1));
        }
        took
    }
}

// The nanoseconds since this moment; `None` where the clock does not tell.
fn nanos_since<R: Clock>(rt: &R, start: Option<Instant>) -> Option<u64> {
    let time = start?.elapsed(rt).ok()?;
    u64::try_from(time.as_nanos()).ok()
}

// Makes the entries that are searched for, and says whether each is new.
fn fills<S: Store, R: Wait>(caller: &mut Caller<'_, '_, S, R>, entries: u32) -> bool {
    let mut right = true;
    for number in 0..entries {
        let name = name_of(number);
        let given = caller.find(Kind::PwName, &name, LATE);
        right = right && matches!(&given, Ok(Given::Loaded { .. }));
    }
    right
}

// Looks up others from the one of a number to before the one of another, and says whether each lookup was well.
fn makes<S: Store, R: Wait>(caller: &mut Caller<'_, '_, S, R>, from: u64, to: u64) -> bool {
    let mut right = true;
    for number in from..to {
        let name = name_of(FIRST + (number % OTHERS) as u32);
        right = caller.find(Kind::PwName, &name, 0).is_ok() && right;
    }
    right
}

// Searches for a user, and looks the user up where a compaction disturbs that. Whether there was an entry.
fn is_read<S: Store, R: Wait>(
    caller: &mut Caller<'_, '_, S, R>,
    name: &[u8; 11],
    out: &mut Buf,
    took: &mut Took,
) -> bool
    requires { out.old.limit ≡ kept_limit }
    ensures { out.new.limit ≡ out.old.limit }
{
    match caller.read(Kind::PwName, name, out) {
        InPlace::Hit { not_found, .. } => not_found && out.bytes().len() == ABSENT,
        InPlace::NoEntry => false,
        InPlace::Odd { .. } => {
            took.odd = took.odd.saturating_add(1);
            is_hit(caller, name)
        }
        InPlace::Moved { .. } => {
            took.moved = took.moved.saturating_add(1);
            is_hit(caller, name)
        }
    }
}

// Asks for a user as a client, in place first. Whether there was an entry.
fn is_asked<S: Store, R: Wait>(
    caller: &mut Caller<'_, '_, S, R>,
    name: &[u8; 11],
    out: &mut Buf,
    took: &mut Took,
) -> bool
    requires { out.old.limit ≡ kept_limit }
    ensures { out.new.limit ≡ out.old.limit }
{
    match caller.ask(Kind::PwName, name, out) {
        Ok(Asked::InPlace { .. }) => out.bytes().len() == ABSENT,
        Ok(Asked::Linked { after, bytes }) => {
            match after {
                InPlace::Odd { .. } => took.odd = took.odd.saturating_add(1),
                InPlace::Moved { .. } => took.moved = took.moved.saturating_add(1),
                InPlace::Hit { .. } | InPlace::NoEntry => return false,
            }
            bytes.len() == ABSENT
        }
        Err(_) => false,
    }
}

// Whether a lookup finds an entry.
fn is_hit<S: Store, R: Wait>(caller: &mut Caller<'_, '_, S, R>, name: &[u8; 11]) -> bool {
    let given = caller.find(Kind::PwName, name, 0);
    matches!(&given, Ok(Given::Hit { .. }))
}
