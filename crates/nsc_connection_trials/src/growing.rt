// `Growing`: a set of files in memory that changes after a database is opened.
ghost use Rattle.std.specs.Prelude.{None};
ghost use Rattle.nsc_outside.specs.FileSets.{latest_of};
ghost use Rattle.nsc_outside.specs.Tally.{count_of};

use nsc_base::{Bytes, NoMemory};
use nsc_model::FileId;
use nsc_outside::{FileSet, MemFiles, ReadCause};
use std::alloc::Global;

/// Files in memory that change once a database is opened over them: each set that is split from this one has the later ones.
#[derive(Drop)]
pub struct Growing {
    /// The files at first.
    pub files: MemFiles,
    /// The files of the sets that are split from this one.
    pub later: MemFiles,
}

impl FileSet for Growing {
    ghost faults = { λ s. s.files.counts.faults };

    ghost file_faults = { λ s. count_of s.files.counts.file_faults };

    ghost reads = { λ s. count_of s.files.counts.reads };

    ghost latest = { λ s. latest_of s.files.latest };

    ghost held = { λ _. None };

    ghost conf_held = { λ _ _. None };

    fn under(&mut self, alloc: Global, dir: &str) -> Result<(), NoMemory> {
        self.files.under(alloc, dir)
    }

    fn split(&self, alloc: Global) -> Result<Growing, NoMemory> {
        Ok(Growing {
            files: self.later.split(alloc)?,
            later: self.later.split(alloc)?,
        })
    }

    fn read(&mut self, alloc: Global, file: FileId) -> Result<Option<Bytes>, ReadCause> {
        self.files.read(alloc, file)
    }

    fn read_conf(&mut self, alloc: Global, path: &str) -> Result<Option<Bytes>, ReadCause> {
        self.files.read_conf(alloc, path)
    }
}
