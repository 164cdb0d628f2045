// `Load`: hits, misses, ticks and compactions of a database of users, for their time.
ghost use Rattle.std.specs.Prelude.{◌<◌, ◌*◌, ◌^◌};

use nsc_base::NoMemory;
use nsc_caller::Caller;
use nsc_model::{Given, Kind, Store};
use std::alloc::Global;
use std::sync::Wait;
use std::thread;
use std::thread::Threads;

/// Calls of one kind, for their time.
#[derive(Clone, Copy, Debug)]
pub enum Load {
    /// Lookups of users in turn, by `threads` threads together.
    Hits {
        /// How many threads.
        threads: u32,
        /// How many users, each of whom has an entry.
        entries: u32,
        /// How many lookups.
        count: u32,
        /// Of how many of these users, who stand evenly among them.
        asked: u32,
    },
    /// Lookups of users, each of another, who are in no file.
    Misses {
        /// How many users are in the file.
        users: u32,
        /// How many lookups.
        count: u32,
    },
    /// Ticks.
    Ticks {
        /// Over how many entries.
        entries: u32,
        /// How many ticks.
        count: u32,
        /// How many seconds lie before each.
        apart: u16,
    },
    /// Ticks at each of which the time of one entry is over, that of the oldest one: it is dropped, and the others are moved
    /// together.
    Compactions {
        /// Over how many entries of users who are in no file.
        entries: u32,
        /// How many ticks.
        count: u32,
    },
}

/// How many seconds an entry of a user who is in no file is kept.
pub const KEPT: u32 = 20;

impl Load {
    /// How many users are in the file. Those whose entries are hit are in no file, and those whose entries are due are.
    pub fn users(self) -> u32 {
        match self {
            Load::Hits { .. } | Load::Compactions { .. } => 0,
            Load::Misses { users, .. } => users,
            Load::Ticks { entries, .. } => entries,
        }
    }

    // How many entries there are before the calls.
    fn entries(self) -> u32 {
        match self {
            Load::Hits { entries, .. }
            | Load::Ticks { entries, .. }
            | Load::Compactions { entries, .. } => entries,
            Load::Misses { .. } => 0,
        }
    }

    // How many seconds lie between the lookups that make these entries.
    fn between(self) -> u32 {
        match self {
            Load::Compactions { .. } => 1,
            Load::Hits { .. } | Load::Misses { .. } | Load::Ticks { .. } => 0,
        }
    }

    /// Does the calls, and says whether each came to what it must.
    pub fn is_done<S: Store + Sync, R: Threads + Wait + Sync>(
        self,
        rt: &R,
        alloc: Global,
        mut caller: Caller<'_, '_, S, R>,
    ) -> Result<bool, NoMemory>
    where
        S::Pass: Send,
    {
        let is_filled = misses(&mut caller, 0, self.entries(), self.between());
        let is_right = match self {
            Load::Hits {
                threads,
                entries,
                count,
                asked,
            } => {
                let users = Users::of(entries, asked);
                hits_by(rt, alloc, &caller, threads, users, count)?
            }
            Load::Misses { users, count } => misses(&mut caller, users, count, 0),
            Load::Ticks { count, apart, .. } => ticks(&mut caller, 0, count, apart),
            Load::Compactions { count, .. } => ticks(&mut caller, KEPT, count, 1),
        };
        Ok(is_filled && is_right)
    }
}

/// The name of the user of this number, of which it has the last seven digits.
pub fn name_of(number: u32) -> [u8; 11] {
    let mut name = *b"user0000000";
    let mut rest = number;
    for digit in name[4..].iter_mut().rev() {
        *digit = b'0' + (rest % 10) as u8;
        rest /= 10;
    }
    name
}

// Looks up as many users, from the one with this number on, `apart` seconds after each other, and says whether none of them had
// an entry.
fn misses<S: Store, R: Wait>(
    caller: &mut Caller<'_, '_, S, R>,
    from: u32,
    count: u32,
    apart: u32,
) -> bool {
    let mut right = true;
    let mut now: u32 = 0;
    for turn in 0..count {
        let name = name_of(from.wrapping_add(turn));
        let given = caller.find(Kind::PwName, &name, now);
        now = now.saturating_add(apart);
        right = right && matches!(&given, Ok(Given::Loaded { .. } | Given::Fresh { .. }));
    }
    right
}

// Users who are asked for in turn.
#[derive(Clone, Copy)]
struct Users {
    // How many they are, at least one.
    users: u32,
    // How far their numbers are apart.
    apart: u32,
}

impl Users {
    // `asked` of the `entries` users with entries, at least one and at most all.
    fn of(entries: u32, asked: u32) -> Users {
        let users = asked.min(entries).max(1);
        Users {
            users,
            apart: entries / users,
        }
    }

    // The number of the user who is asked for at a turn.
    fn number(self, turn: u32) -> u32 {
        (turn % self.users.max(1)).wrapping_mul(self.apart)
    }
}

// Looks up these users as many times in turn, and says whether each had an entry.
fn hits<S: Store, R: Wait>(caller: &mut Caller<'_, '_, S, R>, users: Users, count: u32) -> bool {
    let mut right = true;
    for turn in 0..count {
        let name = name_of(users.number(turn));
        let given = caller.find(Kind::PwName, &name, 0);
        right = right && matches!(&given, Ok(Given::Hit { .. }));
    }
    right
}

// The same by as many threads together, each of which does its part of the lookups.
fn hits_by<S: Store + Sync, R: Threads + Wait + Sync>(
    rt: &R,
    alloc: Global,
    caller: &Caller<'_, '_, S, R>,
    threads: u32,
    users: Users,
    count: u32,
) -> Result<bool, NoMemory>
where
    S::Pass: Send,
{
    let part = count / threads.max(1);
    let mut callers = Vec::new(alloc);
    for _ in 0..threads {
        callers.push(caller.another()?)?;
    }
    let right = thread::map_vec(
        rt,
        callers,
        &|mut caller: Caller<'_, '_, S, R>| { hits(&mut caller, users, part) },
    )?;
    Ok(right.iter().all(|right| *right))
}

// Ticks `count` times, `apart` seconds after the last time, from a moment on, and says whether each tick was well.
fn ticks<S: Store, R: Wait>(
    caller: &mut Caller<'_, '_, S, R>,
    from: u32,
    count: u32,
    apart: u16,
) -> bool {
    let mut right = true;
    let mut now = from;
    for _ in 0..count {
        now = now.saturating_add(u32::from(apart));
        right = caller.tick(now).is_ok() && right;
    }
    right
}
