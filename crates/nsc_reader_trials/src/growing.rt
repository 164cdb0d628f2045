// Callers beside a writer whose table grows.
ghost use Rattle.std.specs.Prelude.{◌≡◌};

use crate::caller::{Caller, Found};
use crate::crowd::Tally;
use crate::grower::Grower;
use crate::leap::leaps;
use crate::names::files_with;
use crate::rows::wanting;
use crate::told::Told;
use nsc_base::NoMemory;
use nsc_model::CacheFault;
use nsc_words::Layout;
use std::alloc::Global;
use std::io;
use std::io::Print;
use std::marker::Model;
use std::sync::Arc;

// The entry of a user takes sixteen words with a comment of `LETTERS` letters, and that of an absent name 128.
const LETTERS: u32 = 11;

const FIRST: Layout = Layout {
    buckets: 1,
    arena: 128,
};

// A table may have 2^15 buckets and 2^22 words.
const LIMIT: u32 = 33_816_704;

const GROWTHS: u32 = 15;

// There are fewer entries.
const MOST_ENTRIES: u64 = 20_000;

// After how many growths the late one goes on each time, and one meets another.
const LATE: u32 = 4;

const MEETING: u32 = 5;

// A writer, and callers who began at its first table.
#[derive(Drop)]
struct Growing {
    grower: Grower,
    told: Told,
    entries: u64,
    at_once: Caller,
    late: Caller,
    never: Caller,
    meeting: Caller,
}

impl Model for Growing {
    ghost use Rattle.std.specs.Prelude.{◌≡◌};
    ghost use Rattle.atomic_table.specs.Seated.{TableId};

    ghost Value = { TableId };

    ghost view = { λ g. g.grower };

    ghost invariant = { λ g. (g.at_once ≡ g.grower) × (g.late ≡ g.grower) × (g.never ≡ g.grower) × (g.meeting ≡ g.grower) };
}

impl Growing {
    // No entry. Fails only for want of memory.
    fn new(alloc: Global) -> Result<Growing, NoMemory> {
        let files = Arc::new(alloc, files_with(alloc, LETTERS)?)?;
        let told = Told::new(alloc, &files)?;
        let (grower, mut at_once) = Grower::new(alloc, FIRST, files, LIMIT)?;
        let late = at_once.another(alloc)?;
        let never = at_once.another(alloc)?;
        let meeting = at_once.another(alloc)?;
        Ok(Growing {
            grower,
            told,
            entries: 0,
            at_once,
            late,
            never,
            meeting,
        })
    }

    // Inserts the next entry. Where the table grew for it, the callers look for entries.
    fn go_on(&mut self, alloc: Global) -> Result<(), CacheFault> {
        let before = self.grower.growths();
        let newest = self.entries;
        if self.grower.insert(alloc, newest)? == Some(newest) {
            self.entries = newest.saturating_add(1);
        }
        let growths = self.grower.growths();
        if growths != before {
            self.look(newest);
            self.lead_at_once(newest)?;
            if growths % LATE == 0 {
                self.lead_late(newest)?;
            }
            if growths % MEETING == 0 {
                self.meet(alloc, newest)?;
            }
        }
        Ok(())
    }

    // The table was left, and nobody has gone on.
    fn look(&mut self, newest: u64) {
        self.at_once.look(&self.told, newest, false);
        self.late.look(&self.told, newest, false);
        self.never.look(&self.told, newest, false);
        self.meeting.look(&self.told, newest, false);
    }

    // One goes on.
    fn lead_at_once(&mut self, newest: u64) -> Result<(), NoMemory> {
        self.grower.lead(&mut self.at_once)?;
        self.at_once.look(&self.told, newest, true);
        Ok(())
    }

    // One goes on from a table that was left before others.
    fn lead_late(&mut self, newest: u64) -> Result<(), NoMemory> {
        self.grower.lead(&mut self.late)?;
        self.late.look(&self.told, newest, true);
        Ok(())
    }

    // One meets another that went on.
    fn meet(&mut self, alloc: Global, newest: u64) -> Result<(), NoMemory> {
        self.meeting.meet(alloc, &mut self.at_once)?;
        self.meeting.look(&self.told, newest, true);
        Ok(())
    }

    // The one that went on looks for each entry.
    fn look_for_all(&mut self) -> Tally {
        let mut tally = Tally::NOTHING;
        for number in 0..self.entries {
            self.at_once.ask(&self.told, number, &mut tally);
        }
        tally
    }
}

/// Lets a table grow, and prints what callers beside it found. Fails for want of memory too.
pub fn show_growth<R: Print>(rt: &R, alloc: Global) -> io::Result<()> {
    let mut growing = grown(alloc).map_err(unable)?;
    show_grown(rt, &mut growing)?;
    show_leap(rt, alloc)
}

// Prints how the table grew, and what the callers found.
fn show_grown<R: Print>(rt: &R, growing: &mut Growing) -> io::Result<()> {
    show_table(rt, growing)?;
    show_callers(rt, growing)?;
    let all = growing.look_for_all();
    println!(rt; "  each entry at last: {all:?}")
}

// Prints how the table grew.
fn show_table<R: Print>(rt: &R, growing: &Growing) -> io::Result<()> {
    println!(rt;
        "a table that grows {} times: {:?}, entries: {}",
        growing.grower.growths(),
        growing.grower.layout(),
        growing.entries
    )
}

// Prints what each caller found.
fn show_callers<R: Print>(rt: &R, growing: &Growing) -> io::Result<()> {
    show(rt, "goes on at once", growing.at_once.found())?;
    show(rt, "goes on late", growing.late.found())?;
    show(rt, "never goes on", growing.never.found())?;
    show(rt, "meets one that went on", growing.meeting.found())
}

// Prints what became of entries for which a table doubles more than once.
fn show_leap<R: Print>(rt: &R, alloc: Global) -> io::Result<()> {
    let leaps = leaps(alloc).map_err(unable)?;
    println!(rt; "entries for which a table doubles more than once: {leaps:?}")
}

// Prints what one caller found.
fn show<R: Print>(rt: &R, name: &str, found: Found) -> io::Result<()> {
    println!(rt; "  {name}: {found:?}")
}

// Inserts entries until the table grew so often.
fn grown(alloc: Global) -> Result<Growing, CacheFault> {
    let mut growing = Growing::new(alloc)?;
    for _ in 0..MOST_ENTRIES {
        if growing.grower.growths() == GROWTHS {
            break;
        }
        growing.go_on(alloc)?;
    }
    Ok(growing)
}

// Want of memory, or a count that stands at its end, as an error of output.
fn unable(fault: CacheFault) -> io::Error {
    match fault {
        CacheFault::NoMemory => wanting(NoMemory),
        CacheFault::Spent { .. } => io::Error::from(io::ErrorKind::Other),
    }
}
