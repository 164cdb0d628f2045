// `Sources`: all files of a replay, whose bytes the databases' contents share.
ghost use Rattle.std.specs.Prelude.{◌≡◌, unwrap_or, IfOk, OnOk};
ghost use Rattle.std.specs.Arc.{arc_value};
ghost use Rattle.std.specs.Option.{option_map};
ghost use Rattle.nsc_model.specs.Files.{FileFits, no_files, part_of, with_file};
ghost use Rattle.nsc_replay.specs.Parts.{lent};

use nsc_base::{Bytes, NoMemory};
use nsc_model::{Content, Db, FileId};
use std::alloc::Global;
use std::marker::Model;
use std::sync::Arc;

/// The bytes of a file, which contents share; `None` where the file is absent.
#[derive(Drop)]
pub struct SharedFile {
    bytes: Option<Arc<Bytes>>,
}

impl Model for SharedFile {
    ghost use Rattle.std.specs.Prelude.{Option, List, ℕ};
    ghost use Rattle.std.specs.Arc.{arc_value};
    ghost use Rattle.std.specs.Option.{option_map};

    ghost Value = { Option (List ℕ) };

    ghost view = { λ file. option_map (λ b. arc_value b) file.bytes };
}

impl SharedFile {
    /// An absent file, or one of these bytes, which are not copied. Fails only for want of memory.
    pub fn new(alloc: Global, bytes: Option<Bytes>) -> Result<SharedFile, NoMemory>
        ensures { IfOk result (λ file. file ≡ bytes) }
    {
        let bytes = match bytes {
            Some(bytes) => Some(Arc::new(alloc, bytes)?),
            None => None,
        };
        Ok(SharedFile { bytes })
    }

    // Another handle on the bytes.
    fn handle(&self) -> Result<Option<Arc<Bytes>>, NoMemory>
        ensures { IfOk result (λ bytes. option_map (λ b. arc_value b) bytes ≡ self.now) }
    {
        match &self.bytes {
            Some(bytes) => Ok(Some(bytes.clone()?)),
            None => Ok(None),
        }
    }
}

/// All files as they are, whose bytes the contents of the databases share.
#[derive(Drop)]
pub struct Sources {
    files: [SharedFile; FileId::ALL.len()],
}

impl Model for Sources {
    ghost use Rattle.nsc_model.specs.Content.{Content};
    ghost use Rattle.nsc_model.specs.Files.{files_in, FilesFit};

    ghost Value = { Content };

    ghost view = { λ s. files_in s.files };

    ghost invariant = { λ s. FilesFit (files_in s.files) };
}

// An absent file.
const ABSENT: SharedFile = SharedFile { bytes: None };

impl Sources {
    /// Every file is absent.
    pub fn none() -> Sources
        ensures { result ≡ no_files }
    {
        Sources {
            files: [
                ABSENT, ABSENT, ABSENT, ABSENT, ABSENT, ABSENT, ABSENT, ABSENT,
            ],
        }
    }

    /// A file becomes this. The other files stay.
    pub fn set(&mut self, file: FileId, held: SharedFile)
        requires { FileFits held }
        ensures { self.new ≡ with_file self.old file held }
    {
        self.files[file as usize] = held;
    }

    /// What a database will read once a file is this, and `None` where it does not read that file. No bytes are copied.
    /// Fails only for want of memory.
    pub fn part_with(
        &self,
        alloc: Global,
        db: Db,
        file: FileId,
        held: &SharedFile,
    ) -> Result<Option<Arc<Content>>, NoMemory>
        requires { FileFits held.now }
        ensures { IfOk result (λ part. unwrap_or (option_map (λ c. arc_value c) part) (part_of db self.now) ≡ part_of db (with_file self.now file held.now)) }
    {
        if !file.is_read_by(db) {
            return Ok(None);
        }
        let mut part = self.part(db)?;
        part.share(file, held.handle()?);
        Ok(Some(Arc::new(alloc, part)?))
    }

    // What a database reads.
    fn part(&self, db: Db) -> Result<Content, NoMemory>
        ensures { IfOk result (λ content. content ≡ part_of db self.now) }
    {
        let mut part = Content::none();
        let files: &[FileId] = &FileId::ALL;
        for file in files {
            self.lend(&mut part, db, *file)?;
        }
        Ok(part)
    }

    // A file of a content becomes what it is here, where a database reads it.
    #[tactic(auto, unfolding(crate::specs::Parts::lent))]
    fn lend(&self, part: &mut Content, db: Db, file: FileId) -> Result<(), NoMemory>
        ensures { OnOk result (part.new ≡ lent db self.now file part.old) }
    {
        if file.is_read_by(db) {
            part.share(file, self.files[file as usize].handle()?);
        }
        Ok(())
    }
}
