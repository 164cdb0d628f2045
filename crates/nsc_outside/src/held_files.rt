// `HeldFiles`: a set of files in memory that changes at a flag, and whose reads may wait.
ghost use Rattle.std.specs.Prelude.{◌≡◌, None, Some, IfOk, IfErr, OnOk, OnErr, IsSomeAnd, false, []};
ghost use Rattle.std.specs.Option.{option_copied};
ghost use Rattle.nsc_model.specs.Files.{FileFits, file_of};
ghost use Rattle.nsc_model.specs.Reads.{Rose};
ghost use Rattle.nsc_outside.specs.FileSets.{IsCause, TellsNoLength, is_failed, RoseBy, ChangesOnly, latest_of};
ghost use Rattle.nsc_outside.specs.Tally.{count_of};
ghost use Rattle.nsc_outside.specs.Release.{IsLater};
ghost use Rattle.nsc_outside.specs.Hold.{MeetsAny};
ghost use Rattle.nsc_outside.specs.HeldFiles.{steady, given, shared_files};

use crate::files::{FileSet, ReadCause};
use crate::hold::{Gate, Hold, pass, share_gate};
use crate::release::Release;
use crate::shared::{Shared, copy_file, share_file};
use crate::tally::Tally;
use nsc_base::{Bytes, NoMemory};
use nsc_model::{Content, FileId};
use std::alloc::Global;
use std::marker::Model;
use std::snapshot::Snapshot;
use std::sync::Arc;
use std::time::Clock;

// What a read gave, for contracts alone: it has no bytes.
#[derive(Drop)]
struct Told {
    file: Snapshot<Option<Bytes>>,
}

impl Model for Told {
    ghost use Rattle.std.specs.Prelude.{ℕ, List, Option};

    ghost Value = { Option (List ℕ) };

    ghost view = { λ t. t.file.value };
}

impl Told {
    fn of(file: &Option<Bytes>) -> Told
        ensures { result ≡ file.now }
    {
        Told {
            file: Snapshot::of(file),
        }
    }
}

/// A set of files in memory for tests of many threads: it changes to a second content when a flag is set, and reads of one
/// file may wait for another flag. It tells only what its latest reads gave. The sets that were split from one share the
/// contents, the flags and the numbers of the reads that may wait; each has counts of its own. A read gives a copy. One
/// configuration file may be there, at every path.
#[derive(Drop)]
pub struct HeldFiles<R: Clock + Clone + Drop> {
    clock: R,
    first: Arc<Content>,
    second: Arc<Content>,
    changed: Release,
    gate: Option<Gate>,
    conf: Option<Shared>,
    latest: [Option<Told>; 8],
    tally: Tally,
}

impl<R: Clock + Clone + Drop> Model for HeldFiles<R> {
    ghost use Rattle.std.specs.Arc.{arc_value};
    ghost use Rattle.nsc_outside.specs.HeldFiles.{HeldFiles};

    ghost Value = { HeldFiles };

    ghost view = { λ s. record { first = arc_value s.first; second = arc_value s.second; changed = s.changed; gate = s.gate; conf = s.conf; latest = s.latest; counts = s.tally } };
}

impl<R: Clock + Clone + Drop> HeldFiles<R> {
    /// A set that holds this content, and does not change; no read waits, and no configuration is there. By the clock a read that
    /// waits sleeps. Fails only for want of memory.
    pub fn new(clock: R, alloc: Global, content: Content) -> Result<HeldFiles<R>, NoMemory>
        ensures set { IfOk result (λ set. set ≡ steady content set.changed) }
        ensures first { IfOk result (λ set. set.changed.is_set ≡ false) }
    {
        let first = Arc::new(alloc, content)?;
        let second = first.clone()?;
        let changed = Release::new(alloc)?;
        let tally = Tally::new();
        Ok(HeldFiles {
            clock,
            first,
            second,
            changed,
            gate: None,
            conf: None,
            latest: [None, None, None, None, None, None, None, None],
            tally,
        })
    }

    /// This set, which holds this content once the flag is set. Fails only for want of memory, and the set is lost
    /// then.
    pub fn changing(
        mut self,
        alloc: Global,
        content: Content,
        changed: Release,
    ) -> Result<HeldFiles<R>, NoMemory>
        ensures { IfOk result (λ set. set ≡ record self { second = content; changed = changed }) }
    {
        self.second = Arc::new(alloc, content)?;
        self.changed = changed;
        Ok(self)
    }

    /// This set, in which these reads wait, and no others. Fails only for want of memory, and the set is lost then.
    pub fn holding(mut self, alloc: Global, hold: Hold) -> Result<HeldFiles<R>, NoMemory>
        ensures set { IfOk result (λ set. set ≡ record self { gate = set.gate }) }
        ensures hold { IfOk result (λ set. IsSomeAnd set.gate (λ gate. (gate.hold ≡ hold) × (gate.numbers ≡ []))) }
    {
        self.gate = Some(Gate::new(alloc, hold)?);
        Ok(self)
    }

    /// This set, with these bytes as the configuration at each path. Fails only for want of memory, and the set is lost then.
    pub fn configured(mut self, alloc: Global, conf: Bytes) -> Result<HeldFiles<R>, NoMemory>
        ensures { IfOk result (λ set. set ≡ record self { conf = Some conf }) }
    {
        self.conf = Some(Shared::new(alloc, conf)?);
        Ok(self)
    }

    /// How many calls failed; the count stops at the greatest `u64`.
    pub fn faults(&self) -> u64
        ensures { result ≡ self.now.counts.faults }
    {
        self.tally.faults()
    }

    /// As `faults`, of one file.
    pub fn file_faults(&self, file: FileId) -> u64
        ensures { result ≡ count_of self.now.counts.file_faults file }
    {
        self.tally.file_faults(file)
    }

    /// How often a file was read with an answer; the count stops at the greatest `u64`.
    pub fn reads(&self, file: FileId) -> u64
        ensures { result ≡ count_of self.now.counts.reads file }
    {
        self.tally.reads(file)
    }

    // What a read gives that found the flag set, or did not.
    fn given(&self, found: bool) -> &Content
        ensures { result.now ≡ given found self.now }
    {
        if found { &self.second } else { &self.first }
    }

    // One read of a file: a copy. It passes the hold first, and then looks whether the files have changed.
    fn fetch(&mut self, alloc: Global, file: FileId) -> Result<Option<Bytes>, ReadCause>
        ensures answer { IfOk result (λ f. f ≡ file_of (given self.new.changed.is_set self.new) file) }
        ensures fits { IfOk result (λ f. FileFits f) }
        ensures cause { IfErr result (λ cause. TellsNoLength cause) }
        ensures changed { IsLater self.old.changed self.new.changed }
        ensures held { MeetsAny file self.old.gate self.new.gate (is_failed result) }
        ensures rest { self.new ≡ record self.old { changed = self.new.changed; gate = self.new.gate } }
    {
        pass(&mut self.gate, &self.clock, file)?;
        let found = self.changed.is_set();
        Ok(copy_of(alloc, self.given(found).file(file))?)
    }
}

// A copy of a file, absent or its bytes.
fn copy_of(alloc: Global, file: Option<&[u8]>) -> Result<Option<Bytes>, NoMemory>
    ensures { IfOk result (λ copy. copy ≡ option_copied file.entry) }
{
    match file {
        None => Ok(None),
        Some(bytes) => Ok(Some(Bytes::copy(alloc, bytes)?)),
    }
}

impl<R: Clock + Clone + Drop> FileSet for HeldFiles<R> {
    ghost use Rattle.std.specs.Prelude.{Some, None};
    ghost use Rattle.nsc_outside.specs.Tally.{count_of};
    ghost use Rattle.nsc_outside.specs.FileSets.{latest_of};

    ghost faults = { λ s. s.counts.faults };

    ghost file_faults = { λ s. count_of s.counts.file_faults };

    ghost reads = { λ s. count_of s.counts.reads };

    ghost latest = { λ s. latest_of s.latest };

    ghost held = { λ _. None };

    ghost conf_held = { λ s _. Some s.conf };

    /// Changes nothing.
    fn under(&mut self, _alloc: Global, _dir: &str) -> Result<(), NoMemory>
        ensures { self.new ≡ self.old }
    {
        Ok(())
    }

    /// A set with the same files, of which nothing was read. It shares the flags with this one, and the numbers of the
    /// reads that may wait.
    fn split(&self, _alloc: Global) -> Result<HeldFiles<R>, NoMemory>
        ensures { IfOk result (λ set. set ≡ shared_files self.now) }
    {
        let tally = Tally::new();
        Ok(HeldFiles {
            clock: self.clock.clone()?,
            first: self.first.clone()?,
            second: self.second.clone()?,
            changed: self.changed.share()?,
            gate: share_gate(&self.gate)?,
            conf: share_file(&self.conf)?,
            latest: [None, None, None, None, None, None, None, None],
            tally,
        })
    }

    /// Waits where the hold says so, and fails where that takes too long. It gives a copy of the file in the content that
    /// the set has after the wait.
    fn read(&mut self, alloc: Global, file: FileId) -> Result<Option<Bytes>, ReadCause>
        ensures answer { IfOk result (λ f. f ≡ file_of (given self.new.changed.is_set self.new) file) }
        ensures fits { IfOk result (λ f. FileFits f) }
        ensures cause { IfErr result (λ cause. IsCause None cause) }
        ensures short { IfErr result (λ cause. TellsNoLength cause) }
        ensures changed { IsLater self.old.changed self.new.changed }
        ensures gate { MeetsAny file self.old.gate self.new.gate (is_failed result) }

        // The counts.
        ensures calm { OnOk result (self.new.counts.faults ≡ self.old.counts.faults) }
        ensures faults { IfErr result (λ cause. RoseBy cause self.old.counts.faults self.new.counts.faults) }
        ensures file_calm { OnOk result (self.new.counts.file_faults ≡ self.old.counts.file_faults) }
        ensures file_faults { IfErr result (λ cause. RoseBy cause (count_of self.old.counts.file_faults file) (count_of self.new.counts.file_faults file)) }
        ensures other_faults { ChangesOnly file (count_of self.old.counts.file_faults) (count_of self.new.counts.file_faults) }
        ensures read { OnOk result (Rose (count_of self.old.counts.reads file) (count_of self.new.counts.reads file)) }
        ensures unread { OnErr result (self.new.counts.reads ≡ self.old.counts.reads) }
        ensures other_reads { ChangesOnly file (count_of self.old.counts.reads) (count_of self.new.counts.reads) }

        // What the set tells.
        ensures latest { IfOk result (λ f. latest_of self.new.latest file ≡ Some f) }
        ensures latest_stays { OnErr result (self.new.latest ≡ self.old.latest) }
        ensures other_latest { ChangesOnly file (latest_of self.old.latest) (latest_of self.new.latest) }
        ensures held { self.new ≡ record self.old { changed = self.new.changed; gate = self.new.gate; latest = self.new.latest; counts = self.new.counts } }
    {
        match self.fetch(alloc, file) {
            Ok(copy) => {
                self.latest[file as usize] = Some(Told::of(&copy));
                self.tally.count_read(file);
                Ok(copy)
            }
            Err(cause) => {
                self.tally.count_file_cause(file, cause);
                Err(cause)
            }
        }
    }

    /// Gives a copy of the configuration, whatever the path. One that is too long counts as a fault.
    fn read_conf(&mut self, alloc: Global, _path: &str) -> Result<Option<Bytes>, ReadCause>
        ensures answer { IfOk result (λ f. f ≡ self.old.conf) }
        ensures fits { IfOk result (λ f. FileFits f) }
        ensures cause { IfErr result (λ cause. IsCause (Some self.old.conf) cause) }
        ensures calm { OnOk result (self.new ≡ self.old) }
        ensures faults { IfErr result (λ cause. RoseBy cause self.old.counts.faults self.new.counts.faults) }
        ensures held { self.new ≡ record self.old { counts = record self.old.counts { faults = self.new.counts.faults } } }
    {
        let outcome = copy_file(alloc, self.conf.as_ref().map(|conf| conf.as_slice()));
        if let Err(cause) = outcome {
            self.tally.count_cause(cause);
        }
        outcome
    }
}
