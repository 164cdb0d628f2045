// `UnixListener`: the listener over sockets of the system at paths.
ghost use Rattle.std.specs.Prelude.{◌≡◌, None, OnOk, OnErr, IfOk};
ghost use Rattle.nsc_model.specs.Reads.{Rose};

use crate::bind_error::BindError;
use crate::binding::{bind_at, folder_of, is_at};
use crate::departure::Departure;
use crate::entrance::{Entrance, Means};
use crate::folder::Folder;
use crate::listener::{Accepted, Listener, Prepared};
use crate::patience::Patience;
use crate::peer::{Departures, Peer};
use crate::role::Role;
use crate::shares::{least_of, share_of};
use crate::unix_helper::UnixHelper;
use crate::unix_input::UnixInput;
use crate::unix_output::UnixOutput;
use libc::types::rlimit;
use nsc_base::NoMemory;
use nsc_closers::{Bounds, Closers};
use nsc_lines::Lines;
use nsc_outside::Failed;
use std::alloc::Global;
use std::fs::File;
use std::io::ErrorKind;
use std::marker::Model;
use std::net::Net;
use std::os::fd::OwnedFd;
use std::os::unix::fs::FileTypeExt;
use std::os::unix::net::UnixListener as Socket;
use std::rt::Files;
use std::sync::atomic::AtomicU64;
use std::sync::{Arc, Wait};
use std::time::{Clock, Duration};
use std::{fs, io};

// How long a connection that a command makes may take in all, in seconds.
const REPLY: u64 = 5;

// How long an end waits for connections that closers have, in milliseconds.
const SETTLE: u32 = 200;

// The part of the descriptors that connections may have which are left open, since their close may take long, and their most.
const ASIDE: u64 = 4;

const MOST_ASIDE: u64 = 4096;

/// Sockets of the system at paths. It tells nothing of what peers send; contracts see its count of faults.
///
/// A connection is given out when its request is whole, or can be no good one any more, so nobody who takes one waits for
/// bytes. One of the gate is given out whenever whole lines came, with those lines and then an end; where they were read to that end, it
/// is given out again when more came. One that stays silent for five seconds is closed, and so is the oldest where there are too many, or
/// where the process has no descriptor or memory left for a new one. Threads of their own read from connections and close them: bytes may
/// carry descriptors whose close takes as long as the peer likes. A call fails once too many of these threads are held.
#[derive(Drop)]
pub struct UnixListener<R: Files<File = File> + Net + Wait + Clock + Clone + Drop> {
    system: R,
    alloc: Global,
    lines: Lines<R>,
    processors: usize,
    // How many workers are to serve.
    workers: u32,
    // How many connections may wait in each place.
    share: usize,
    departures: Option<Departures<R>>,
    // How many connections wait for a worker.
    jobs: Option<Arc<AtomicU64>>,
    folders: Vec<Folder>,
    paths: Vec<String>,
    entrance: Option<Entrance<R>>,
    faults: u64,
}

impl<R: Files<File = File> + Net + Wait + Clock + Clone + Drop> Model for UnixListener<R> {
    ghost use Rattle.nsc_sockets.specs.Adapters.{UnixListener};

    ghost Value = { UnixListener };

    ghost view = { λ s. record { faults = s.faults } };
}

impl<R: Files<File = File> + Net + Wait + Clock + Clone + Drop> UnixListener<R> {
    /// A listener with no socket, at which no call has failed. It looks out for connections that come close together only
    /// where there are at least three processors. What an administrator is to know is told as lines.
    pub fn new(alloc: Global, system: R, lines: Lines<R>, processors: usize) -> UnixListener<R>
        ensures { result ≡ record { faults = 0 } }
    {
        UnixListener {
            system,
            alloc,
            lines,
            processors,
            workers: 0,
            share: usize::MAX,
            departures: None,
            jobs: None,
            folders: Vec::new(alloc),
            paths: Vec::new(alloc),
            entrance: None,
            faults: 0,
        }
    }

    /// How many calls have failed; the count stops at the greatest `u64`.
    pub fn faults(&self) -> u64
        ensures { result ≡ self.now.faults }
    {
        self.faults
    }

    // Opens a socket, with the folder for it where that is not had yet, and the entrance where this is the first one.
    fn open(&mut self, role: Role, path: &str) -> Result<(), BindError>
        ensures faults { self.new.faults ≡ self.old.faults }
    {
        let at = folder_of(path);
        self.take_folder(at)?;
        for bound in self.paths.iter() {
            if is_at(&self.system, bound.as_str(), path) {
                let message = "it is the path of another socket of this daemon";
                return Err(BindError::from(io::Error::new(ErrorKind::AddrInUse, message)));
            }
        }
        let name = String::from_str(self.alloc, path)?;
        self.paths.reserve(1)?;
        let socket = bind_at(&self.system, self.alloc, at, role, path)?;
        // There is room for it.
        let _ = self.paths.push(name);
        Ok(self.add_door(role, socket)?)
    }

    // Takes this folder, unless it is had already.
    fn take_folder(&mut self, at: &str) -> Result<(), BindError>
        ensures faults { self.new.faults ≡ self.old.faults }
    {
        for folder in self.folders.iter() {
            if folder.is_at(&self.system, at) {
                return Ok(());
            }
        }
        self.folders.reserve(1)?;
        let folder = Folder::take(&self.system, self.alloc, at)?;
        // There is room for it.
        let _ = self.folders.push(folder);
        Ok(())
    }

    // Takes connections from this socket, at the entrance for all of them.
    fn add_door(&mut self, role: Role, socket: Socket) -> io::Result<()>
        ensures faults { self.new.faults ≡ self.old.faults }
    {
        if self.entrance.is_none() {
            let means = self.means()?;
            let entrance = Entrance::new(self.alloc, &self.system, self.processors, means)?;
            self.entrance = Some(entrance);
        }
        match &mut self.entrance {
            Some(entrance) => entrance.add_door(role, socket),
            None => Ok(()),
        }
    }

    // What an entrance is made with, once what closes connections is there.
    fn means(&self) -> io::Result<Means<R>> {
        let (Some(departures), Some(jobs)) = (&self.departures, &self.jobs) else {
            return Err(io::Error::from(ErrorKind::NotConnected));
        };
        Ok(Means {
            share: self.share,
            jobs: Arc::try_clone(jobs)?,
            departures: Arc::try_clone(departures)?,
            lines: self.lines.share().map_err(no_memory)?,
        })
    }

    // Makes the list of what is to be closed, without threads.
    fn new_closers(&self, descriptors: u64) -> Result<Departures<R>, NoMemory> {
        // Whoever waits somewhere may come to wait for a closer.
        let places = self.share.saturating_mul(3);
        let aside = usize::try_from((descriptors / ASIDE).min(MOST_ASIDE)).unwrap_or(usize::MAX);
        let bounds = Bounds {
            places: places.saturating_add(self.workers as usize),
            full: self.share,
            aside,
        };
        let closers = Closers::new(self.alloc, self.system.clone()?, bounds)?;
        Ok(Arc::new(self.alloc, closers)?)
    }

    // Whether the process may have as many descriptors as its threads need.
    fn has_descriptors(&self, path: &str) -> bool {
        let (have, needed, workers) = (descriptors(), least_of(self.workers), self.workers);
        if have < needed {
            self.lines.tell(format_args!(
                "nscd: {path}: {workers} workers need {needed} descriptors, and {have} are allowed"
            ));
        }
        have >= needed
    }

    // Tells why a socket could not be bound, with the path that is at fault.
    fn tell_refusal(&self, path: &str, refused: &BindError) {
        let (folder, error) = (folder_of(path), &refused.error);
        match refused.name() {
            Some(name) => self
                .lines
                .tell(format_args!("nscd: {folder}/{name}: {error}")),
            None => self.lines.tell(format_args!("nscd: {path}: {error}")),
        }
    }

    // The next connection. Without a socket there is none to wait for.
    fn next(&mut self) -> io::Result<Accepted<UnixInput<R>, UnixOutput<R>>>
        ensures faults { self.new.faults ≡ self.old.faults }
    {
        match &mut self.entrance {
            Some(entrance) => entrance.accept(&self.system),
            None => Err(io::Error::from(ErrorKind::NotConnected)),
        }
    }

    // The ends of a connection to this path, which has a time in all.
    fn reach(&self, path: &str) -> io::Result<(UnixInput<R>, UnixOutput<R>)> {
        let begun = self.system.monotonic()?;
        // A link may lead to the socket of another daemon.
        if !fs::symlink_metadata(&self.system, path)?
            .file_type()
            .is_socket()
        {
            return Err(io::Error::from(ErrorKind::InvalidInput));
        }
        let stream = mio::net::UnixStream::connect(&self.system, path)?;
        let peer = Peer::reached(self.alloc, OwnedFd::from(stream))?;
        let patience = Arc::new(self.alloc, Patience::new(1))?;
        let deadline = begun.saturating_add(Duration::from_secs(REPLY));
        let input = UnixInput::reached(
            self.system.clone()?,
            peer.share().map_err(no_memory)?,
            deadline,
        );
        let output = UnixOutput::reached(self.system.clone()?, peer, patience, begun);
        Ok((input, output))
    }

    fn count_fault(&mut self)
        ensures { Rose self.old.faults self.new.faults }
    {
        self.faults = self.faults.saturating_add(1);
    }
}

impl<R: Files<File = File> + Net + Wait + Clock + Clone + Drop + Send + Sync> Listener
    for UnixListener<R> {
    type In = UnixInput<R>;

    type Out = UnixOutput<R>;

    type Departure = Departure;

    type Helper = UnixHelper<R>;

    ghost faults = { λ s. s.faults };

    ghost given = { λ _. None };

    ghost bound = { λ _. None };

    ghost peer = { λ _. None };

    /// A third of the descriptors that the process may have, less those that it needs, and 4,096 at most. As many wait for bytes, and as
    /// many for a closer.
    fn prepare(&mut self, workers: u32) -> Result<Prepared<Departure>, NoMemory>
        ensures faults { self.new.faults ≡ self.old.faults }
    {
        let descriptors = descriptors();
        self.workers = workers;
        self.share = usize::try_from(share_of(descriptors, workers)).unwrap_or(usize::MAX);
        let closers = self.new_closers(descriptors)?;
        let crew = closers.crew()?;
        let jobs = Arc::new(self.alloc, AtomicU64::new(0))?;
        let theirs = Arc::try_clone(&jobs)?;
        self.departures = Some(closers);
        self.jobs = Some(jobs);
        Ok(Prepared {
            most: self.share,
            jobs: Some(theirs),
            crew: Some(crew),
        })
    }

    /// Without this call nobody waits long.
    fn set_workers(&mut self, workers: usize)
        ensures faults { self.new.faults ≡ self.old.faults }
    {
        if let Some(entrance) = &self.entrance {
            entrance.set_workers(workers as u64);
        }
    }

    /// The folders stay this process's own. Where a name cannot be removed it stays.
    fn close(&mut self)
        ensures faults { self.new.faults ≡ self.old.faults }
    {
        if let Some(entrance) = self.entrance.take() {
            entrance.close();
        }
        for path in self.paths.iter() {
            let _ = fs::remove_file(&self.system, path.as_str());
        }
        self.paths.clear();
        if let Some(departures) = &self.departures {
            departures.settle(SETTLE);
        }
    }

    /// Takes connections at this path, in a folder that is made where there is none. A socket that stands there is replaced; one at which
    /// a process answers, or that cannot be asked, is left as it is, and the call fails. So it does for want of memory, where another
    /// process has the folder, where the folder is neither this user's nor root's or others may write it, where the path has more than 107
    /// bytes or is that of another socket of this listener, and where the process may have too few descriptors for its threads. Why is
    /// told as a line that names the path.
    fn bind(&mut self, role: Role, path: &str) -> Result<(), Failed>
        ensures calm { OnOk result (self.new.faults ≡ self.old.faults) }
        ensures failed { OnErr result (Rose self.old.faults self.new.faults) }
    {
        if !self.has_descriptors(path) {
            self.count_fault();
            return Err(Failed);
        }
        if let Err(refused) = self.open(role, path) {
            self.tell_refusal(path, &refused);
            self.count_fault();
            return Err(Failed);
        }
        Ok(())
    }

    /// Waits up to a second. That a connection cannot be taken is no failure. It fails if no socket was opened, and once all closers are
    /// held, or too many connections are left open since their close may take long.
    fn accept(&mut self) -> Result<Accepted<UnixInput<R>, UnixOutput<R>>, Failed>
        ensures calm { OnOk result (self.new.faults ≡ self.old.faults) }
        ensures failed { OnErr result (Rose self.old.faults self.new.faults) }
    {
        let Ok(accepted) = self.next() else {
            self.count_fault();
            return Err(Failed);
        };
        Ok(accepted)
    }

    /// Two at most.
    fn helper(&mut self) -> Option<UnixHelper<R>>
        ensures faults { self.new.faults ≡ self.old.faults }
    {
        match &mut self.entrance {
            Some(entrance) => entrance.helper(&self.system),
            None => None,
        }
    }

    /// A connection whose calls wait for bytes and for room, up to five seconds in all. It fails where nobody listens, where the
    /// other process has too many connections before this one, where a link is at the path, and for want of memory.
    fn connect(&mut self, path: &str) -> Result<(UnixInput<R>, UnixOutput<R>), Failed>
        ensures calm { OnOk result (self.new.faults ≡ self.old.faults) }
        ensures failed { OnErr result (Rose self.old.faults self.new.faults) }
    {
        let Ok(ends) = self.reach(path) else {
            self.count_fault();
            return Err(Failed);
        };
        Ok(ends)
    }
}

// The system's error for a lack of memory.
fn no_memory(_e: NoMemory) -> io::Error {
    io::Error::from(ErrorKind::OutOfMemory)
}

// How many descriptors the process may have. Most systems allow no fewer than this where they do not tell.
const USUAL: u64 = 1024;

fn descriptors() -> u64 {
    let mut limit = rlimit {
        rlim_cur: 0,
        rlim_max: 0,
    };
    if libc::getrlimit(libc::RLIMIT_NOFILE, &mut limit) == 0 {
        limit.rlim_cur
    } else {
        USUAL
    }
}
