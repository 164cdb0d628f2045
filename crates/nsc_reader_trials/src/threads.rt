// Threads that search while another one writes.
use crate::bench::Bench;
use crate::files::USERS;
use crate::lookout::Lookout;
use crate::replies::Replies;
use nsc_base::NoMemory;
use nsc_model::InPlace;
use nsc_words::Layout;
use std::alloc::Global;
use std::sync::atomic::{AtomicU64, Ordering};
use std::thread;
use std::thread::Threads;
use std::time::{Clock, Duration, Instant};

// Few words, so that a compaction soon is due.
const LAYOUT: Layout = Layout {
    buckets: 4,
    arena: 1024,
};

// A comment has at most `LONGEST` letters.
const LONGEST: u32 = 180;

// How many threads search.
const READERS: u32 = 3;

// How many insertions a compaction, and a change of the files, follow.
const TURNS_TO_COMPACTION: u64 = 16;

const TURNS_TO_CHANGE: u64 = 40;

// The clock is asked after every `TURNS_TO_LOOK` insertions.
const TURNS_TO_LOOK: u64 = 64;

// `LIVE` of the newest entries stay live.
const LIVE: u64 = 6;

/// What the threads did together.
#[derive(Clone, Copy, Debug, PartialEq, Eq)]
pub struct Done {
    /// How many searches found an entry.
    pub hits: u64,
    /// How many found none.
    pub none: u64,
    /// How many began while a compaction was under way.
    pub odd: u64,
    /// During how many one began.
    pub moved: u64,
    /// How many had other bytes than they must.
    pub wrong: u64,
    /// How many entries were inserted meanwhile.
    pub inserted: u64,
    /// How many compactions were made meanwhile.
    pub compactions: u64,
}

impl Done {
    const NOTHING: Done = Done {
        hits: 0,
        none: 0,
        odd: 0,
        moved: 0,
        wrong: 0,
        inserted: 0,
        compactions: 0,
    };

    // What another thread did, too.
    fn add(&mut self, other: Done) {
        self.hits = self.hits.saturating_add(other.hits);
        self.none = self.none.saturating_add(other.none);
        self.odd = self.odd.saturating_add(other.odd);
        self.moved = self.moved.saturating_add(other.moved);
        self.wrong = self.wrong.saturating_add(other.wrong);
        self.inserted = self.inserted.saturating_add(other.inserted);
        self.compactions = self.compactions.saturating_add(other.compactions);
    }
}

// What one thread does.
#[derive(Drop)]
enum Task {
    // It inserts, ends and compacts.
    Write(Bench),
    // It searches.
    Search(Lookout),
}

/// Lets the threads go on for `seconds` seconds. Fails only for want of memory.
pub fn run_threads<R: Threads + Clock + Sync>(
    rt: &R,
    alloc: Global,
    seconds: u32,
) -> Result<Done, NoMemory> {
    let replies = Replies::new(alloc, LONGEST)?;
    let mut bench = Bench::new(alloc, LAYOUT, LONGEST)?;
    let mut tasks = Vec::new(alloc);
    for _ in 0..READERS {
        tasks.push(Task::Search(bench.lookout(alloc)?))?;
    }
    tasks.push(Task::Write(bench))?;
    let is_over = AtomicU64::new(0);
    let parts = thread::map_vec(
        rt,
        tasks,
        &|task: Task| part(rt, alloc, &replies, &is_over, seconds, task),
    )?;
    let mut all = Done::NOTHING;
    for one in parts {
        all.add(one?);
    }
    Ok(all)
}

// The part of one thread.
fn part<R: Clock>(
    rt: &R,
    alloc: Global,
    replies: &Replies,
    is_over: &AtomicU64,
    seconds: u32,
    task: Task,
) -> Result<Done, NoMemory> {
    match task {
        Task::Search(mut lookout) => Ok(search_on(replies, is_over, &mut lookout)),
        Task::Write(mut bench) => {
            let done = write_on(rt, alloc, replies, seconds, &mut bench);
            is_over.store(1, Ordering::SeqCst);
            done
        }
    }
}

// Searches for the users in turn until the one who writes is done.
fn search_on(replies: &Replies, is_over: &AtomicU64, lookout: &mut Lookout) -> Done {
    let mut done = Done::NOTHING;
    for turn in 0..u64::MAX {
        if is_over.load(Ordering::SeqCst) != 0 {
            return done;
        }
        let user = (turn % u64::from(USERS)) as u32;
        done.add(searched(replies, lookout, user));
    }
    done
}

// One search.
fn searched(replies: &Replies, lookout: &mut Lookout, user: u32) -> Done {
    let mut done = Done::NOTHING;
    let answer = lookout.search(user);
    let bytes = lookout.bytes();
    let is_right = match answer {
        InPlace::Hit { version, .. } => replies.is_reply(version, user, bytes),
        _ => bytes.is_empty(),
    };
    match answer {
        InPlace::Hit { .. } => done.hits = 1,
        InPlace::NoEntry => done.none = 1,
        InPlace::Odd { .. } => done.odd = 1,
        InPlace::Moved { .. } => done.moved = 1,
    }
    if !is_right {
        done.wrong = 1;
    }
    done
}

// Writes for `seconds` seconds.
fn write_on<R: Clock>(
    rt: &R,
    alloc: Global,
    replies: &Replies,
    seconds: u32,
    bench: &mut Bench,
) -> Result<Done, NoMemory> {
    let mut done = Done::NOTHING;
    let start = Instant::now(rt).ok();
    for turn in 0..u64::MAX {
        if turn % TURNS_TO_LOOK == 0 && has_passed(rt, start, seconds) {
            return Ok(done);
        }
        if turn % TURNS_TO_CHANGE == 1 {
            if let Some(files) = replies.files(turn / TURNS_TO_CHANGE + 1)? {
                bench.change(files);
            }
        }
        done.add(written(alloc, bench, turn)?);
    }
    Ok(done)
}

// One insertion, with what follows it.
fn written(alloc: Global, bench: &mut Bench, turn: u64) -> Result<Done, NoMemory> {
    let mut done = Done::NOTHING;
    let user = (turn % u64::from(USERS)) as u32;
    if let Some(number) = bench.insert(alloc, user)? {
        done.inserted = 1;
        if number >= LIVE {
            bench.end(number - LIVE);
        }
    }
    if turn % TURNS_TO_COMPACTION == 0 && bench.compact() {
        done.compactions = 1;
    }
    Ok(done)
}

// Whether `seconds` seconds have passed since a moment, or the clock does not tell.
fn has_passed<R: Clock>(rt: &R, start: Option<Instant>, seconds: u32) -> bool {
    let Some(start) = start else {
        return true;
    };
    match start.elapsed(rt) {
        Ok(time) => time >= Duration::from_secs(u64::from(seconds)),
        Err(_) => true,
    }
}
