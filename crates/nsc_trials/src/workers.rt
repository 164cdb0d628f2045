// Interleavings of threads that look up, tick, invalidate and change the file.
use crate::asked::Asked;
use crate::dice::Dice;
use crate::wanted::reply_of;
use nsc_base::{NoMemory, equal};
use nsc_caller::Caller;
use nsc_model::{Given, LookupFault, Store};
use nsc_outside::Release;
use std::alloc::Global;
use std::sync::Wait;
use std::thread;
use std::thread::Threads;

// How many lookups each thread does.
const LOOKUPS: u32 = 6;

// How many requests there are.
const REQUESTS: u32 = 6;

// What one thread does beside its lookups.
#[derive(Clone, Copy, Debug)]
enum Work {
    // Nothing.
    Look,
    // A tick.
    Tick,
    // An invalidation.
    Invalidate,
    // It changes the file.
    Change,
}

impl Work {
    // What each thread does.
    const ALL: [Work; 7] = [
        Work::Look,
        Work::Look,
        Work::Tick,
        Work::Invalidate,
        Work::Look,
        Work::Change,
        Work::Look,
    ];
}

// A thread: its caller, what it does, and whether it knows that the file has changed.
#[derive(Drop)]
struct Worker<'r, 's, S: Store, R: Wait> {
    caller: Caller<'r, 's, S, R>,
    changed: Release,
    work: Work,
    dice: Dice,
}

impl<S: Store, R: Wait> Worker<'_, '_, S, R> {
    // Does its work, and says whether each call came to what it may.
    fn is_right(mut self) -> bool {
        let place = self.dice.below(LOOKUPS);
        let mut right = true;
        for turn in 0..LOOKUPS {
            if turn == place {
                right = self.turn() && right;
            }
            right = self.looks() && right;
        }
        right
    }

    // What it does once, at a place among its lookups.
    fn turn(&mut self) -> bool {
        match self.work {
            Work::Look => true,
            Work::Tick => {
                let moment = self.dice.below(5000);
                self.caller.tick(moment).is_ok()
            }
            Work::Invalidate => self.caller.invalidate().is_ok(),
            Work::Change => {
                self.changed.set();
                true
            }
        }
    }

    // A lookup: whether its reply is the answer over the first file or over the second, and over the second where it was made
    // anew once the thread had seen that the file has changed.
    fn looks(&mut self) -> bool {
        let is_changed = self.changed.is_set();
        let asked = Asked::ALL[self.dice.below(REQUESTS) as usize];
        let given = asked.find(&mut self.caller, 0);
        is_answer(asked, &given, is_changed)
    }
}

// Whether a lookup gave the answer over one of the files: that of the second where it was made anew once the file had changed.
fn is_answer(asked: Asked, given: &Result<Given, LookupFault>, is_changed: bool) -> bool {
    let Ok(given) = given else {
        return false;
    };
    let (bytes, is_hit) = reply_of(given);
    let is_first = equal(bytes.as_slice(), asked.first_reply());
    let is_second = equal(bytes.as_slice(), asked.second_reply());
    is_second || (is_first && (is_hit || !is_changed))
}

/// An interleaving: threads that look up, tick, invalidate and change the file. Whether each reply was one that it may be, and the
/// database rests with no more entries than there are requests, and answers over the second file once it is invalidated.
pub fn interleaves<S: Store + Sync, R: Threads + Wait + Sync>(
    rt: &R,
    alloc: Global,
    caller: &mut Caller<'_, '_, S, R>,
    changed: &mut Release,
    seed: u64,
) -> Result<bool, NoMemory>
where
    S::Pass: Send,
{
    let mut workers = Vec::new(alloc);
    let mut dice = Dice::new(seed);
    for work in Work::ALL {
        workers.push(Worker {
            caller: caller.another()?,
            changed: changed.share()?,
            work,
            dice: Dice::new(u64::from(dice.below(1 << 30))),
        })?;
    }
    let right = thread::map_vec(
        rt,
        workers,
        &|worker: Worker<'_, '_, S, R>| worker.is_right(),
    )?;
    Ok(right.iter().all(|right| *right) && rests(caller)?)
}

// Whether there are no more entries than requests, and after an invalidation each reply is the one over the second file.
fn rests<S: Store, R: Wait>(caller: &mut Caller<'_, '_, S, R>) -> Result<bool, NoMemory> {
    let is_short = caller.stats()?.entries <= u64::from(REQUESTS);
    let is_invalid = caller.invalidate().is_ok();
    let mut right = is_short && is_invalid;
    for asked in Asked::ALL {
        right = is_second(asked, &asked.find(caller, 0)) && right;
    }
    Ok(right)
}

// Whether a lookup gave the answer over the second file.
fn is_second(asked: Asked, given: &Result<Given, LookupFault>) -> bool {
    match given {
        Ok(given) => equal(reply_of(given).0.as_slice(), asked.second_reply()),
        Err(_) => false,
    }
}
