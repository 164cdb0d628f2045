// `MemFiles`: a set of files in memory, with planned failures of reads.
ghost use Rattle.std.specs.Prelude.{◌≡◌, ◌∷◌, Some, None, IfOk, IfErr, OnOk, OnErr};
ghost use Rattle.std.specs.Option.{option_copied};
ghost use Rattle.std.specs.Str.{bytes_eq};
ghost use Rattle.nsc_model.specs.Files.{FileFits, file_of, with_file};
ghost use Rattle.nsc_model.specs.declared.kind.FileId.{FileId};
ghost use Rattle.nsc_model.specs.Reads.{IsAsTold, Rose};
ghost use Rattle.nsc_outside.specs.FileSets.{IsCause, is_failed, RoseBy, ChangesOnly, latest_of};
ghost use Rattle.nsc_outside.specs.ConfFile.{conf_at_path};
ghost use Rattle.nsc_outside.specs.Tally.{count_of};
ghost use Rattle.nsc_outside.specs.MemFiles.{empty_set, unread};
ghost use Rattle.nsc_outside.specs.ReadPlan.{new_plan, FailsAsPlanned};

use crate::files::{FileSet, ReadCause};
use crate::read_plan::ReadPlan;
use crate::shared::{Shared, copy_file, share_file};
use crate::tally::Tally;
use nsc_base::{Bytes, NoMemory};
use nsc_model::FileId;
use std::alloc::Global;
use std::marker::Model;

// A configuration file: its path and its bytes.
#[derive(Debug, Drop)]
struct ConfFile {
    path: Shared,
    bytes: Shared,
}

impl Model for ConfFile {
    ghost use Rattle.nsc_outside.specs.ConfFile.{ConfFile};

    ghost Value = { ConfFile };

    ghost view = { λ c. record { path = c.path; bytes = c.bytes } };
}

impl ConfFile {
    fn new(alloc: Global, path: &str, bytes: Bytes) -> Result<ConfFile, NoMemory>
        ensures { IfOk result (λ conf. conf ≡ record { path = path.now; bytes = bytes }) }
    {
        Ok(ConfFile {
            path: Shared::new(alloc, Bytes::copy(alloc, path.as_bytes())?)?,
            bytes: Shared::new(alloc, bytes)?,
        })
    }

    fn share(&self) -> Result<ConfFile, NoMemory>
        ensures { IfOk result (λ conf. conf ≡ self.now) }
    {
        Ok(ConfFile {
            path: self.path.share()?,
            bytes: self.bytes.share()?,
        })
    }

    fn is_at(&self, path: &str) -> bool
        ensures { result ≡ bytes_eq self.now.path path.now }
    {
        self.path.as_slice() == path.as_bytes()
    }

    fn as_slice(&self) -> &[u8]
        ensures { result.now ≡ self.now.bytes }
    {
        self.bytes.as_slice()
    }
}

// Another holder of all of these.
fn share_confs(alloc: Global, confs: &[ConfFile]) -> Result<Vec<ConfFile>, NoMemory>
    ensures { IfOk result (λ shared. shared.items ≡ confs.now) }
{
    let mut shared = Vec::new(alloc);
    for conf in confs {
        shared.push(conf.share()?)?;
    }
    Ok(shared)
}

// The bytes of the first with this path; `None` where none has it.
fn conf_bytes<'a>(confs: &'a [ConfFile], path: &str) -> Option<&'a [u8]>
    ensures { option_copied result ≡ conf_at_path confs.now path.now }
{
    let conf = confs.iter().find(|conf| conf.is_at(path));
    conf.map(|conf| conf.as_slice())
}

/// A set of files in memory, seen in contracts as what it holds, which reads fail, and what was read. The sets that were
/// split from one share their bytes, and number their reads together: the n-th read of them all has the number n, and
/// fails exactly where the plan says so. After a read its set tells which number it had. A read gives a copy.
#[derive(Drop)]
pub struct MemFiles {
    files: [Option<Shared>; 8],
    confs: Vec<ConfFile>,
    plan: ReadPlan,
    latest: [Option<Option<Shared>>; 8],
    tally: Tally,
}

impl Model for MemFiles {
    ghost use Rattle.nsc_model.specs.Files.{files_in};
    ghost use Rattle.nsc_outside.specs.MemFiles.{MemFiles};

    ghost Value = { MemFiles };

    ghost view = { λ s. record { files = files_in s.files; confs = s.confs.items; plan = s.plan; latest = s.latest; counts = s.tally } };
}

impl MemFiles {
    /// A set that holds nothing: every file is absent, at every path too. No read fails. Fails only for want of memory.
    pub fn new(alloc: Global) -> Result<MemFiles, NoMemory>
        ensures { IfOk result (λ set. set ≡ empty_set set.plan.numbering) }
    {
        Ok(MemFiles {
            files: [None, None, None, None, None, None, None, None],
            confs: Vec::new(alloc),
            plan: ReadPlan::new(alloc, Vec::new(alloc))?,
            latest: [None, None, None, None, None, None, None, None],
            tally: Tally::new(),
        })
    }

    /// This set, in which one file is absent, or these bytes, however many. Fails only for want of memory, and
    /// the set is lost then.
    pub fn with_file(
        mut self,
        alloc: Global,
        file: FileId,
        bytes: Option<Bytes>,
    ) -> Result<MemFiles, NoMemory>
        ensures { IfOk result (λ set. set ≡ record self { files = with_file self.files file bytes }) }
    {
        self.files[file as usize] = match bytes {
            None => None,
            Some(bytes) => Some(Shared::new(alloc, bytes)?),
        };
        Ok(self)
    }

    /// This set, with a configuration file of these bytes at a path. Fails only for want of memory.
    pub fn with_conf(
        mut self,
        alloc: Global,
        path: &str,
        bytes: Bytes,
    ) -> Result<MemFiles, NoMemory>
        ensures { IfOk result (λ set. set ≡ record self { confs = record { path = path.now; bytes = bytes } ∷ self.confs }) }
    {
        self.confs.insert(0, ConfFile::new(alloc, path, bytes)?)?;
        Ok(self)
    }

    /// This set, at which the reads with these numbers fail, and no others. They are numbered from 1 on, those of
    /// configuration files too, and those that find no memory, over this set and all that are split from it from now
    /// on. Fails only for want of memory.
    pub fn failing_at(mut self, alloc: Global, reads: Vec<u64>) -> Result<MemFiles, NoMemory>
        ensures { IfOk result (λ set. set ≡ record self { plan = new_plan reads.items set.plan.numbering }) }
    {
        self.plan = ReadPlan::new(alloc, reads)?;
        Ok(self)
    }

    /// How many calls failed or met a file that is too long; the count stops at the greatest `u64`.
    pub fn faults(&self) -> u64
        ensures { result ≡ self.now.counts.faults }
    {
        self.tally.faults()
    }

    /// As `faults`, of one file.
    pub fn file_faults(&self, file: FileId) -> u64
        ensures { result ≡ count_of self.now.counts.file_faults file }
    {
        self.tally.file_faults(file)
    }

    /// How often a file was read with an answer; the count stops at the greatest `u64`.
    pub fn reads(&self, file: FileId) -> u64
        ensures { result ≡ count_of self.now.counts.reads file }
    {
        self.tally.reads(file)
    }

    // One read of a file: a copy, and another holder of the same.
    fn fetch(
        &mut self,
        alloc: Global,
        file: FileId,
    ) -> Result<(Option<Bytes>, Option<Shared>), ReadCause>
        ensures copy { IfOk result (λ got. got.0 ≡ file_of self.old.files file) }
        ensures shared { IfOk result (λ got. got.1 ≡ file_of self.old.files file) }
        ensures fits { IfOk result (λ got. FileFits got.0) }
        ensures cause { IfErr result (λ cause. IsCause (Some (file_of self.old.files file)) cause) }
        ensures planned { FailsAsPlanned self.old.plan self.new.plan (is_failed result) }
        ensures rest { self.new ≡ record self.old { plan = self.new.plan } }
    {
        self.plan.begin()?;
        let held = &self.files[file as usize];
        let copy = copy_file(alloc, held.as_ref().map(|bytes| bytes.as_slice()))?;
        Ok((copy, share_file(held)?))
    }

    // One read of a configuration file.
    fn fetch_conf(&mut self, alloc: Global, path: &str) -> Result<Option<Bytes>, ReadCause>
        ensures copy { IfOk result (λ copy. copy ≡ conf_at_path self.old.confs path.now) }
        ensures fits { IfOk result (λ copy. FileFits copy) }
        ensures cause { IfErr result (λ cause. IsCause (Some (conf_at_path self.old.confs path.now)) cause) }
        ensures planned { FailsAsPlanned self.old.plan self.new.plan (is_failed result) }
        ensures rest { self.new ≡ record self.old { plan = self.new.plan } }
    {
        self.plan.begin()?;
        copy_file(alloc, conf_bytes(self.confs.as_slice(), path))
    }
}

impl FileSet for MemFiles {
    ghost use Rattle.std.specs.Prelude.{Some};
    ghost use Rattle.nsc_outside.specs.ConfFile.{conf_at_path};
    ghost use Rattle.nsc_outside.specs.Tally.{count_of};
    ghost use Rattle.nsc_outside.specs.FileSets.{latest_of};

    ghost faults = { λ s. s.counts.faults };

    ghost file_faults = { λ s. count_of s.counts.file_faults };

    ghost reads = { λ s. count_of s.counts.reads };

    ghost latest = { λ s. latest_of s.latest };

    ghost held = { λ s. Some s.files };

    ghost conf_held = { λ s path. Some (conf_at_path s.confs path) };

    /// Changes nothing.
    fn under(&mut self, _alloc: Global, _dir: &str) -> Result<(), NoMemory>
        ensures { self.new ≡ self.old }
    {
        Ok(())
    }

    /// A set with the same files, of which nothing was read. It numbers its reads together with this one.
    fn split(&self, alloc: Global) -> Result<MemFiles, NoMemory>
        ensures { IfOk result (λ set. set ≡ unread self.now) }
    {
        let files = &self.files;
        let tally = Tally::new();
        Ok(MemFiles {
            files: [
                share_file(&files[0])?,
                share_file(&files[1])?,
                share_file(&files[2])?,
                share_file(&files[3])?,
                share_file(&files[4])?,
                share_file(&files[5])?,
                share_file(&files[6])?,
                share_file(&files[7])?,
            ],
            confs: share_confs(alloc, self.confs.as_slice())?,
            plan: self.plan.share()?,
            latest: [None, None, None, None, None, None, None, None],
            tally,
        })
    }

    /// Gives a copy of the file. Its number is the next one, and it fails exactly where that is to fail.
    fn read(&mut self, alloc: Global, file: FileId) -> Result<Option<Bytes>, ReadCause>
        ensures answer { IfOk result (λ f. f ≡ file_of self.old.files file) }
        ensures fits { IfOk result (λ f. FileFits f) }
        ensures cause { IfErr result (λ cause. IsCause (Some (file_of self.old.files file)) cause) }
        ensures planned { FailsAsPlanned self.old.plan self.new.plan (is_failed result) }

        // The counts.
        ensures calm { OnOk result (self.new.counts.faults ≡ self.old.counts.faults) }
        ensures faults { IfErr result (λ cause. RoseBy cause self.old.counts.faults self.new.counts.faults) }
        ensures file_calm { OnOk result (self.new.counts.file_faults ≡ self.old.counts.file_faults) }
        ensures file_faults { IfErr result (λ cause. RoseBy cause (count_of self.old.counts.file_faults file) (count_of self.new.counts.file_faults file)) }
        ensures other_faults { ChangesOnly file (count_of self.old.counts.file_faults) (count_of self.new.counts.file_faults) }
        ensures read { OnOk result (Rose (count_of self.old.counts.reads file) (count_of self.new.counts.reads file)) }
        ensures unread { OnErr result (self.new.counts.reads ≡ self.old.counts.reads) }
        ensures other_reads { ChangesOnly file (count_of self.old.counts.reads) (count_of self.new.counts.reads) }

        // What the set tells.
        ensures latest { IfOk result (λ f. latest_of self.new.latest file ≡ Some f) }
        ensures latest_stays { OnErr result (self.new.latest ≡ self.old.latest) }
        ensures other_latest { ChangesOnly file (latest_of self.old.latest) (latest_of self.new.latest) }
        ensures held { self.new ≡ record self.old { plan = self.new.plan; latest = self.new.latest; counts = self.new.counts } }
    {
        match self.fetch(alloc, file) {
            Ok((copy, shared)) => {
                self.latest[file as usize] = Some(shared);
                self.tally.count_read(file);
                Ok(copy)
            }
            Err(cause) => {
                self.tally.count_file_cause(file, cause);
                Err(cause)
            }
        }
    }

    /// Gives a copy of the configuration file. Its number is the next one, and it fails exactly where that is to fail.
    fn read_conf(&mut self, alloc: Global, path: &str) -> Result<Option<Bytes>, ReadCause>
        ensures answer { IfOk result (λ f. f ≡ conf_at_path self.old.confs path.now) }
        ensures fits { IfOk result (λ f. FileFits f) }
        ensures cause { IfErr result (λ cause. IsCause (Some (conf_at_path self.old.confs path.now)) cause) }
        ensures planned { FailsAsPlanned self.old.plan self.new.plan (is_failed result) }

        ensures calm { OnOk result (self.new.counts ≡ self.old.counts) }
        ensures faults { IfErr result (λ cause. RoseBy cause self.old.counts.faults self.new.counts.faults) }
        ensures held { self.new ≡ record self.old { plan = self.new.plan; counts = record self.old.counts { faults = self.new.counts.faults } } }
    {
        let outcome = self.fetch_conf(alloc, path);
        if let Err(cause) = outcome {
            self.tally.count_cause(cause);
        }
        outcome
    }
}
