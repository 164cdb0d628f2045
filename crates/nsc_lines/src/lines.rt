// `Lines`: a handle on the lines for standard error, and the thread that writes the lines.
use crate::backlog::{Backlog, Entry, LINE_LIMIT};
use nsc_base::NoMemory;
use std::alloc::Global;
use std::fmt::{Display, Write};
use std::io::Eprint;
use std::sync::{Arc, Condvar, Mutex, Wait};
use std::thread;
use std::thread::Threads;
use std::time::{Clock, Duration};

// What all handles share with the thread that writes.
#[derive(Drop)]
struct Shared {
    backlog: Mutex<Backlog>,
    // Told of a line that waits, and of one that is written.
    changed: Condvar,
}

/// Lines for standard error. A thread of their own writes them, so a reader that does not read stops nobody else. At most 64 lines
/// wait; the line behind those that were dropped is written after their count. Four lines of 256 bytes may wait without further memory.
#[derive(Drop)]
pub struct Lines<R: Drop> {
    system: R,
    alloc: Global,
    shared: Arc<Shared, Global>,
}

impl<R: Drop> Lines<R> {
    /// Makes a list without lines. It fails only without memory.
    pub fn new(alloc: Global, system: R) -> Result<Lines<R>, NoMemory> {
        let shared = Arc::new(
            alloc,
            Shared {
                backlog: Mutex::new(Backlog::new(alloc)?),
                changed: Condvar::new(),
            },
        )?;
        Ok(Lines {
            system,
            alloc,
            shared,
        })
    }
}

impl<R: Clone + Drop> Lines<R> {
    /// Makes another handle on this list. It fails only without memory.
    pub fn share(&self) -> Result<Lines<R>, NoMemory> {
        Ok(Lines {
            system: self.system.clone()?,
            alloc: self.alloc,
            shared: Arc::try_clone(&self.shared)?,
        })
    }
}

impl<R: Threads + Wait + Eprint + Clone + Drop + Send + 'static> Lines<R> {
    /// Makes the thread that writes. It fails only without memory, and then lines wait for `finish`.
    pub fn start(&self) -> Result<(), NoMemory> {
        let system = self.system.clone()?;
        let shared = Arc::try_clone(&self.shared)?;
        match thread::spawn(&self.system, move || write_all(&system, &shared)) {
            // Nobody joins it: it may wait for a reader for ever.
            Ok(_) => {
                self.shared.backlog.lock(&self.system).has_writer = true;
                Ok(())
            }
            Err(_) => Err(NoMemory),
        }
    }
}

impl<R: Wait + Drop> Lines<R> {
    /// Has a line written, and waits for nobody. A line for which there is no room is counted as dropped, and one whose end finds no
    /// memory is cut.
    pub fn tell<D: Display + Drop>(&self, line: D) {
        let room = self.shared.backlog.lock(&self.system).room(self.alloc);
        match room {
            Some(mut room) => {
                let _ = write!(room, "{line}");
                self.shared.backlog.lock(&self.system).add(room);
            }
            None => self.shared.backlog.lock(&self.system).drop_one(),
        }
        self.shared.changed.notify_all();
    }
}

impl<R: Wait + Clock + Eprint + Drop> Lines<R> {
    /// Waits until all lines are written, but no longer than this. If there is no thread that writes, they are written here.
    pub fn finish(&self, most: Duration) {
        let backlog = self.shared.backlog.lock(&self.system);
        if backlog.has_writer {
            let _ = self
                .shared
                .changed
                .wait_timeout_while(&self.system, backlog, most, |backlog| backlog.is_busy());
            return;
        }
        drop(backlog);
        for _ in 0..LINE_LIMIT {
            let Some(entry) = self.shared.backlog.lock(&self.system).take() else {
                return;
            };
            write(&self.system, &entry);
            self.shared.take_back(&self.system, entry);
        }
    }
}

// Writes lines as they come, for ever.
fn write_all<R: Wait + Eprint>(system: &R, shared: &Shared) {
    for _ in system.forever() {
        let entry = next(system, shared);
        write(system, &entry);
        shared.take_back(system, entry);
    }
}

// The next line, which is waited for.
fn next<R: Wait>(system: &R, shared: &Shared) -> Entry {
    let mut backlog = shared.backlog.lock(system);
    for _ in system.forever() {
        if let Some(entry) = backlog.take() {
            return entry;
        }
        shared.changed.notify_all();
        backlog = shared.changed.wait(system, backlog);
    }
    unreachable!()
}

impl Shared {
    // Takes the room of what was written back.
    fn take_back<R: Wait>(&self, system: &R, entry: Entry) {
        if let Some(line) = entry.line {
            self.backlog.lock(system).give_back(line);
        }
    }
}

// Writes the count of lines that were dropped, if any were, and the line behind them. If standard error fails nobody is left to tell.
fn write<R: Eprint>(system: &R, entry: &Entry) {
    if entry.dropped > 0 {
        let _ = eprintln!(system; "nscd: lines that were not written: {}", entry.dropped);
    }
    if let Some(line) = &entry.line {
        let _ = system.eprintln(line.as_str());
    }
}
