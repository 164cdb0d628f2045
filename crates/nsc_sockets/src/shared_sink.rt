// `SharedSink`: a sink in memory, whose bytes other threads read.
ghost use Rattle.std.specs.Prelude.{◌≡◌, ◌-◌, ◌≤◌, ◌<◌, length, vec_len, nat_lt, is_err, None, Some, IfOk, OnOk, OnErr};
ghost use Rattle.nsc_model.specs.Reads.{Rose};
ghost use Rattle.nsc_outside.specs.CallPlan.{risen};
ghost use Rattle.nsc_sockets.specs.SharedSink.{known, signalled};

use crate::attended::Attended;
use nsc_base::{Bytes, NoMemory};
use nsc_outside::{Failed, Release, Sink};
use std::alloc::Global;
use std::marker::Model;
use std::sync::Arc;
use std::sync::atomic::{AtomicU8, AtomicUsize, Ordering};

// Bytes that one thread writes and others read: each of the first `count` was written, and is written no more.
#[derive(Drop)]
struct Page {
    cells: Vec<AtomicU8>,
    count: AtomicUsize,
}

impl Page {
    // A copy of the bytes that were written. Fails only for want of memory.
    fn bytes(&self, alloc: Global) -> Result<Bytes, NoMemory> {
        let count = self.count.load(Ordering::SeqCst);
        let mut bytes = Vec::new(alloc);
        for cell in self.cells.iter().take(count) {
            bytes.push(cell.load(Ordering::SeqCst))?;
        }
        Ok(Bytes::from_vec(bytes))
    }
}

/// A sink in memory, of which other threads may read what it took. It tells none of that in contracts, where it is seen as
/// the bytes that it can still take, the flag that its first byte sets, and its count of faults.
#[derive(Drop)]
pub struct SharedSink {
    page: Arc<Page>,
    next: usize,
    first: Option<Release>,
    faults: u64,
}

impl Model for SharedSink {
    ghost use Rattle.std.specs.Prelude.{◌≤◌, ◌-◌, vec_len};
    ghost use Rattle.std.specs.Arc.{arc_value};
    ghost use Rattle.nsc_sockets.specs.SharedSink.{SharedSink};

    ghost Value = { SharedSink };

    ghost view = { λ s. record { room = vec_len (arc_value s.page).cells - s.next; first = s.first; faults = s.faults } };

    ghost invariant = { λ s. s.next ≤ vec_len (arc_value s.page).cells };
}

/// A reader of what a `SharedSink` took, for another thread.
#[derive(Drop)]
pub struct SinkReader {
    page: Arc<Page>,
}

impl SharedSink {
    /// A sink with room for this many bytes, for which the memory is taken here. Fails only for want of memory.
    pub fn new(alloc: Global, room: usize) -> Result<SharedSink, NoMemory>
        ensures { IfOk result (λ sink. sink ≡ record { room = room; first = None; faults = 0 }) }
    {
        let cells = blank(alloc, room)?;
        let page = Page {
            cells,
            count: AtomicUsize::new(0),
        };
        Ok(SharedSink {
            page: Arc::new(alloc, page)?,
            next: 0,
            first: None,
            faults: 0,
        })
    }

    /// This sink, whose next byte then sets this flag.
    pub fn setting(mut self, first: Release) -> SharedSink
        ensures { result ≡ record self { first = Some first } }
    {
        self.first = Some(first);
        self
    }

    /// A reader of what it takes. Fails only for want of memory.
    pub fn reader(&self) -> Result<SinkReader, NoMemory> {
        Ok(SinkReader {
            page: Arc::try_clone(&self.page)?,
        })
    }

    /// How many calls have failed; the count stops at the greatest `u64`.
    pub fn faults(&self) -> u64
        ensures { result ≡ self.now.faults }
    {
        self.faults
    }
}

// Sets a flag, if there is one.
fn set(flag: &mut Option<Release>)
    ensures { flag.new ≡ known flag.old }
{
    match flag {
        None => {}
        Some(flag) => flag.set(),
    }
}

// The same once a byte came.
fn signal(flag: &mut Option<Release>, count: usize)
    ensures { flag.new ≡ signalled count flag.old }
{
    if count != 0 {
        set(flag);
    }
}

impl SinkReader {
    /// A copy of the bytes that the sink had taken when it was looked at. Fails only for want of memory.
    pub fn bytes(&self, alloc: Global) -> Result<Bytes, NoMemory> {
        self.page.bytes(alloc)
    }
}

// `room` cells.
fn blank(alloc: Global, room: usize) -> Result<Vec<AtomicU8>, NoMemory>
    ensures { IfOk result (λ cells. vec_len cells ≡ room) }
{
    let mut cells = Vec::with_capacity(alloc, room)?;
    for _ in 0..room {
        cells.push(AtomicU8::new(0))?;
    }
    Ok(cells)
}

impl Attended for SharedSink {
    fn has_gone(&self) -> bool {
        false
    }
}

impl Sink for SharedSink {
    ghost use Rattle.std.specs.Prelude.{None};

    ghost taken = { λ _. None };

    ghost faults = { λ s. s.faults };

    /// Takes all bytes, and fails where it lacks the room for them. Those that read see the bytes of a call all at once.
    fn write(&mut self, bytes: &[u8]) -> Result<usize, Failed>
        ensures count { IfOk result (λ n. n ≤ length bytes.now) }
        ensures some { IfOk result (λ n. 0 < length bytes.now → 0 < n) }
        ensures calm { OnOk result (self.new.faults ≡ self.old.faults) }
        ensures failed { OnErr result (Rose self.old.faults self.new.faults) }

        ensures planned { is_err result ≡ nat_lt self.old.room (length bytes.now) }
        ensures amount { IfOk result (λ n. n ≡ length bytes.now) }
        ensures took { OnOk result (self.new ≡ record self.old { room = self.old.room - length bytes.now; first = signalled (length bytes.now) self.old.first }) }
        ensures counted { OnErr result (self.new ≡ record self.old { faults = risen self.old.faults }) }
    {
        let room = self.page.cells.len() - self.next;
        if bytes.len() > room {
            self.faults = self.faults.saturating_add(1);
            return Err(Failed);
        }
        for (cell, byte) in self.page.cells[self.next..].iter().zip(bytes) {
            cell.store(*byte, Ordering::SeqCst);
        }
        self.next += bytes.len();
        self.page.count.store(self.next, Ordering::SeqCst);
        signal(&mut self.first, bytes.len());
        Ok(bytes.len())
    }
}
