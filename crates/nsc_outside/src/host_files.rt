// `HostFiles`: a set of files over the file system.
ghost use Rattle.std.specs.Prelude.{◌≡◌, None, IfOk, IfErr, OnOk, OnErr, IsTrue};
ghost use Rattle.std.specs.Bool.{OnTrue, OnFalse};
ghost use Rattle.std.specs.IoError.{error_kind};
ghost use Rattle.std.specs.Fs.{file_type, IsFile};
ghost use Rattle.nsc_model.specs.Files.{FileFits};
ghost use Rattle.nsc_model.specs.Reads.{Rose};
ghost use Rattle.nsc_outside.specs.FileSets.{IsCause, RoseBy, ChangesOnly};
ghost use Rattle.nsc_outside.specs.Tally.{count_of, no_counts};

use crate::files::{FileSet, ReadCause};
use crate::notices::Notices;
use crate::opening::{is_at_path, is_folder, open_prompt};
use crate::paths::path_of;
use crate::settling::read_path;
use crate::tally::Tally;
use nsc_base::{Bytes, NoMemory};
use nsc_lines::Lines;
use nsc_model::FileId;
use std::alloc::Global;
use std::marker::Model;
use std::rt::Files;
use std::sync::{Arc, Wait};
use std::time::{Clock, Duration};

/// The files of a system, by default its own: `/etc/nsswitch.conf`, `/etc/passwd`, `/etc/group`, `/etc/hosts`,
/// `/etc/services`, `/var/lib/extrausers/passwd` and `/var/lib/extrausers/group`. It tells nothing of what they hold;
/// contracts see what it counts.
///
/// A file is absent where the system finds none at its path, so also where a folder is missing. Every other error is a
/// failure, and so is a file that might keep a read waiting, as a FIFO or a terminal, or has no bytes, as a folder or a
/// socket. The file's kind is looked at before it is opened and when it is open; that no FIFO takes its path in between is trusted.
/// A file that changes while it is read is read again, up to three times; if its size still changes then, the read fails. A file that was
/// left is absent, and not looked at.
#[derive(Drop)]
pub struct HostFiles<R: Files + Clone + Drop> {
    system: R,
    // Where faults are told.
    lines: Lines<R>,
    folder: Option<String>,
    tally: Tally,
    // What was told of them, by all sets that were split from one.
    notices: Arc<Notices>,
    // The path of the configuration that was read last.
    conf: Option<String>,
    // Of each file, by its number: whether it is taken for absent, and not looked at.
    left: [bool; 8],
}

impl<R: Files + Clone + Drop> Model for HostFiles<R> {
    ghost use Rattle.std.specs.Prelude.{string_bytes};
    ghost use Rattle.std.specs.Option.{option_map};
    ghost use Rattle.nsc_outside.specs.HostFiles.{HostFiles};

    ghost Value = { HostFiles };

    ghost view = { λ s. record { folder = option_map string_bytes s.folder; counts = s.tally } };
}

impl<R: Files + Clone + Drop> HostFiles<R> {
    /// Makes a set of the system's own files, of which none was read. Faults of files are told as lines. It fails only without memory.
    pub fn new(alloc: Global, system: R, lines: Lines<R>) -> Result<HostFiles<R>, NoMemory>
        ensures { IfOk result (λ set. set ≡ record { folder = None; counts = no_counts }) }
    {
        Ok(HostFiles {
            system,
            lines,
            folder: None,
            tally: Tally::new(),
            notices: Arc::new(alloc, Notices::new())?,
            conf: None,
            left: [false; 8],
        })
    }

    /// How many calls failed or met a file that is too long; the count stops at the greatest `u64`.
    pub fn faults(&self) -> u64
        ensures { result ≡ self.now.counts.faults }
    {
        self.tally.faults()
    }

    /// As `faults`, of one file.
    pub fn file_faults(&self, file: FileId) -> u64
        ensures { result ≡ count_of self.now.counts.file_faults file }
    {
        self.tally.file_faults(file)
    }

    /// How often a file was read with an answer; the count stops at the greatest `u64`.
    pub fn reads(&self, file: FileId) -> u64
        ensures { result ≡ count_of self.now.counts.reads file }
    {
        self.tally.reads(file)
    }

    /// The path of the configuration that was read last, if one was.
    pub fn conf_path(&self) -> Option<&str> {
        self.conf.as_ref().map(|conf| conf.as_str())
    }

    // The path of a file.
    fn path(&self, alloc: Global, file: FileId) -> Result<String, NoMemory> {
        let folder = self.folder.as_ref().map(|folder| folder.as_str());
        path_of(alloc, folder, file)
    }

    // Whether a file is found to be as it is known.
    fn finds(&self, alloc: Global, file: FileId, known: Option<&[u8]>) -> bool {
        if self.left[file as usize] {
            return known.is_none();
        }
        match self.path(alloc, file) {
            Ok(path) => is_at_path(&self.system, path.as_str(), known),
            Err(_) => false,
        }
    }
}

impl<R: Files + Clock + Clone + Drop> HostFiles<R> {
    // Reads a file.
    fn fetch(&self, alloc: Global, file: FileId) -> Result<Option<Bytes>, ReadCause>
        ensures fits { IfOk result (λ f. FileFits f) }
        ensures cause { IfErr result (λ cause. IsCause None cause) }
    {
        if self.left[file as usize] {
            return Ok(None);
        }
        let path = self.path(alloc, file)?;
        read_path(&self.system, alloc, path.as_str())
    }
}

impl<R: Files + Wait + Clock + Clone + Drop> HostFiles<R> {
    // Tells the administrator of a fault of a file, once a minute at most. Two are not told: a lack of memory; and a folder in the place
    // of a file that was read before, by which a database is left to the C library.
    fn tell_fault(&self, alloc: Global, file: FileId, cause: ReadCause) {
        let Ok(path) = self.path(alloc, file) else {
            return;
        };
        let path = path.as_str();
        let is_left = self.notices.is_known(file) && is_folder(&self.system, path);
        if cause == ReadCause::NoMemory || is_left {
            return;
        }
        let now = self.system.monotonic().unwrap_or(Duration::ZERO);
        if self.notices.begin(file, now.as_secs()) {
            self.tell_cause(path, cause);
        }
    }

    // Tells why the file at a path could not be read, also as the system says it when the file is opened.
    fn tell_cause(&self, path: &str, cause: ReadCause) {
        match open_prompt(&self.system, path) {
            Ok(_) => self.lines.tell(format_args!("nscd: {path}: {cause}")),
            Err(error) => self
                .lines
                .tell(format_args!("nscd: {path}: {cause}: {error}")),
        }
    }

    // Notes that a file was read, and tells that its faults are over, once if one was told.
    fn tell_end(&self, alloc: Global, file: FileId) {
        if !self.notices.end(file) {
            return;
        }
        if let Ok(path) = self.path(alloc, file) {
            let path = path.as_str();
            self.lines
                .tell(format_args!("nscd: {path}: the file can be read again"));
        }
    }
}

impl<R: Files + Wait + Clock + Clone + Drop> FileSet for HostFiles<R> {
    ghost use Rattle.std.specs.Prelude.{None};
    ghost use Rattle.nsc_outside.specs.Tally.{count_of};

    ghost faults = { λ s. s.counts.faults };

    ghost file_faults = { λ s. count_of s.counts.file_faults };

    ghost reads = { λ s. count_of s.counts.reads };

    ghost latest = { λ _ _. None };

    ghost held = { λ _. None };

    ghost conf_held = { λ _ _. None };

    fn under(&mut self, alloc: Global, dir: &str) -> Result<(), NoMemory>
        ensures ok { OnOk result (self.new ≡ record self.old { folder = Some dir.now }) }
        ensures err { OnErr result (self.new ≡ self.old) }
    {
        self.folder = Some(String::from_str(alloc, dir)?);
        Ok(())
    }

    fn leave(&mut self, file: FileId)
        ensures { self.new ≡ self.old }
    {
        self.left[file as usize] = true;
    }

    fn split(&self, alloc: Global) -> Result<HostFiles<R>, NoMemory>
        ensures { IfOk result (λ set. set ≡ record self.now { counts = no_counts }) }
    {
        let folder = match &self.folder {
            None => None,
            Some(folder) => Some(String::from_str(alloc, folder.as_str())?),
        };
        let tally = Tally::new();
        Ok(HostFiles {
            system: self.system.clone()?,
            lines: self.lines.share()?,
            folder,
            tally,
            notices: Arc::try_clone(&self.notices)?,
            conf: None,
            left: self.left,
        })
    }

    /// Opens the file and reads it once. The length that `TooLong` gives is the one that the system told before, or that
    /// of the 16,777,217 bytes that were read, whichever is more.
    fn read(&mut self, alloc: Global, file: FileId) -> Result<Option<Bytes>, ReadCause>
        ensures fits { IfOk result (λ f. FileFits f) }
        ensures calm { OnOk result (self.new.counts.faults ≡ self.old.counts.faults) }
        ensures faults { IfErr result (λ cause. RoseBy cause self.old.counts.faults self.new.counts.faults) }
        ensures file_calm { OnOk result (self.new.counts.file_faults ≡ self.old.counts.file_faults) }
        ensures file_faults { IfErr result (λ cause. RoseBy cause (count_of self.old.counts.file_faults file) (count_of self.new.counts.file_faults file)) }
        ensures other_faults { ChangesOnly file (count_of self.old.counts.file_faults) (count_of self.new.counts.file_faults) }
        ensures read { OnOk result (Rose (count_of self.old.counts.reads file) (count_of self.new.counts.reads file)) }
        ensures unread { OnErr result (self.new.counts.reads ≡ self.old.counts.reads) }
        ensures other_reads { ChangesOnly file (count_of self.old.counts.reads) (count_of self.new.counts.reads) }
        ensures folder { self.new.folder ≡ self.old.folder }
        ensures cause { IfErr result (λ cause. IsCause None cause) }
    {
        let outcome = self.fetch(alloc, file);
        match &outcome {
            Ok(_) => {
                self.tell_end(alloc, file);
                self.tally.count_read(file);
            }
            Err(cause) => {
                self.tell_fault(alloc, file, *cause);
                self.tally.count_file_cause(file, *cause);
            }
        }
        outcome
    }

    /// Opens the file and reads it once, a part at a time, as long as the parts are what is known. A fault says that nothing was
    /// found out.
    fn is_still(&mut self, alloc: Global, file: FileId, known: Option<&[u8]>) -> bool
        ensures faults { self.new.counts.faults ≡ self.old.counts.faults }
        ensures file_faults { self.new.counts.file_faults ≡ self.old.counts.file_faults }
        ensures read { OnTrue result (Rose (count_of self.old.counts.reads file) (count_of self.new.counts.reads file)) }
        ensures unread { OnFalse result (self.new.counts.reads ≡ self.old.counts.reads) }
        ensures other_reads { ChangesOnly file (count_of self.old.counts.reads) (count_of self.new.counts.reads) }
        ensures folder { self.new.folder ≡ self.old.folder }
    {
        let is_still = self.finds(alloc, file, known);
        if is_still {
            self.tell_end(alloc, file);
            self.tally.count_read(file);
        }
        is_still
    }

    /// Opens the file at the path and reads it once. The length that `TooLong` gives is as for `read`.
    fn read_conf(&mut self, alloc: Global, path: &str) -> Result<Option<Bytes>, ReadCause>
        ensures fits { IfOk result (λ f. FileFits f) }
        ensures cause { IfErr result (λ cause. IsCause None cause) }
        ensures calm { OnOk result (self.new ≡ self.old) }
        ensures faults { IfErr result (λ cause. RoseBy cause self.old.counts.faults self.new.counts.faults) }
        ensures rest { self.new ≡ record self.old { counts = record self.old.counts { faults = self.new.counts.faults } } }
    {
        self.conf = String::from_str(alloc, path).ok();
        let outcome = read_path(&self.system, alloc, path);
        if let Err(cause) = &outcome {
            self.tell_cause(path, *cause);
            self.tally.count_cause(*cause);
        }
        outcome
    }
}
