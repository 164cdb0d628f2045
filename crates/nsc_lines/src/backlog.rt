// The lines that are not written yet, and how many found no place.
ghost use Rattle.std.specs.Prelude.{◌≡◌, ◌↔◌, ◌⊎◌, ◌<◌, [], IfNone, IfOk, IfSome, IsTrue, length, true, false};
ghost use Rattle.nsc_lines.specs.Backlog.{AddsOrDrops, RunsDry, TakesFirst, line_limit, dropped_more};

use std::alloc::{AllocError, Global};
use std::collections::VecDeque;

/// The most lines that wait to be written.
pub(crate) const LINE_LIMIT: usize = 64;

// The bytes of memory that a line takes at first.
const LENGTH: usize = 256;

// How many lines may wait that found no memory.
const SPARE: usize = 4;

/// Lines that wait to be written, the oldest first.
#[derive(Drop)]
pub(crate) struct Backlog {
    pub(crate) lines: VecDeque<String>,
    // Rooms for lines that find no memory.
    pub(crate) spare: Vec<String>,
    // How many lines were dropped since the last one was taken; the count stops at the greatest `u64`.
    pub(crate) dropped: u64,
    // Whether a line was taken that is not written yet.
    pub(crate) is_writing: bool,
    // Whether there is a thread that writes.
    pub(crate) has_writer: bool,
}

/// What is to be written: how many lines were dropped, and the line behind them, if there is one.
#[derive(Drop)]
pub(crate) struct Entry {
    pub(crate) dropped: u64,
    pub(crate) line: Option<String>,
}

impl Backlog {
    /// Makes a list without lines, which nobody writes, and takes memory for all lines that may wait, and for the texts of four.
    pub(crate) fn new(alloc: Global) -> Result<Backlog, AllocError>
        ensures lines { IfOk result (λ backlog. (backlog.lines.items ≡ []) × (backlog.dropped ≡ 0)) }
        ensures idle { IfOk result (λ backlog. (backlog.is_writing ≡ false) × (backlog.has_writer ≡ false)) }
    {
        let mut spare = Vec::with_capacity(alloc, SPARE)?;
        for _ in 0..SPARE {
            spare.push(String::with_capacity(alloc, LENGTH)?)?;
        }
        Ok(Backlog {
            lines: VecDeque::with_capacity(alloc, LINE_LIMIT)?,
            spare,
            dropped: 0,
            is_writing: false,
            has_writer: false,
        })
    }

    /// Gives room for a line: fresh memory, or what is kept for a few lines. `None` if there is neither.
    pub(crate) fn room(&mut self, alloc: Global) -> Option<String>
        ensures none { IfNone result (self.old.spare.items ≡ []) }
        ensures rest { self.new ≡ record self.old { spare = self.new.spare } }
    {
        match String::with_capacity(alloc, LENGTH) {
            Ok(room) => Some(room),
            Err(_) => self.spare.pop(),
        }
    }

    /// Takes the room of a line back that was written, if fewer rooms are kept than may be.
    pub(crate) fn give_back(&mut self, mut room: String)
        ensures rest { self.new ≡ record self.old { spare = self.new.spare } }
    {
        room.clear();
        if self.spare.len() < SPARE {
            // There is memory for it.
            let _ = self.spare.push(room);
        }
    }

    /// Adds a line at the end. A line that finds no place or no memory is counted as dropped.
    pub(crate) fn add(&mut self, line: String)
        ensures { AddsOrDrops line self.old self.new }
    {
        if self.lines.len() >= LINE_LIMIT || self.lines.push_back(line).is_err() {
            self.drop_one();
        }
    }

    /// Counts a line that could not be made.
    pub(crate) fn drop_one(&mut self)
        ensures { self.new ≡ record self.old { dropped = dropped_more self.old.dropped } }
    {
        self.dropped = self.dropped.saturating_add(1);
    }

    /// Takes the oldest line, if there is one, with the count of those that were dropped. They are being written from now on.
    pub(crate) fn take(&mut self) -> Option<Entry>
        ensures first { IfSome result (λ entry. TakesFirst entry self.old self.new) }
        ensures none { IfNone result (RunsDry self.old self.new) }
    {
        let line = self.lines.pop_front();
        let dropped = self.dropped;
        self.is_writing = line.is_some() || dropped > 0;
        if !self.is_writing {
            return None;
        }
        self.dropped = 0;
        Some(Entry { dropped, line })
    }

    /// Whether a line or a count waits, or is being written.
    pub(crate) fn is_busy(&self) -> bool
        ensures { IsTrue result ↔ ((self.now.is_writing ≡ true) ⊎ (0 < length self.now.lines.items) ⊎ (0 < self.now.dropped)) }
    {
        self.is_writing || !self.lines.is_empty() || self.dropped > 0
    }
}
