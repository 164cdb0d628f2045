// Reading of the files of a database into a content.
ghost use Rattle.std.specs.Prelude.{◌≡◌, true, IfOk, IfErr, OnOk};
ghost use Rattle.nsc_model.specs.Files.{FileFits, file_of, is_read, part_of};
ghost use Rattle.nsc_model.specs.Reads.{IsAsTold, Rose};
ghost use Rattle.nsc_outside.specs.FileSets.{ChangesOnly, told_of};
ghost use Rattle.nsc_sourcebook.specs.Reads.{IsFetched, NoneFailed, NotFetched};

use crate::fault::PollFault;
use nsc_base::Bytes;
use nsc_model::{Content, Db, FileId};
use nsc_outside::FileSet;
use std::alloc::Global;

/// Reads the files of a database, in rising number.
#[tactic(auto, using(crate::proofs::Each::none_read))]
pub fn read_files<F: FileSet>(alloc: Global, files: &mut F, db: Db) -> Result<Content, PollFault>
    ensures fetched { IfOk result (λ c. IsFetched F.FileSet db files.old files.new c) }
    ensures no_fault { OnOk result (NoneFailed F.FileSet files.old files.new) }
    ensures fault { IfErr result (NotFetched F.FileSet files.old files.new) }
    ensures held { F.held files.new ≡ F.held files.old }
{
    let mut content = Content::none();
    let ids: &[FileId] = &FileId::ALL;
    for file in ids {
        if file.is_read_by(db) {
            let bytes = read_file(alloc, files, *file)?;
            put(&mut content, db, *file, bytes);
        }
    }
    Ok(content)
}

// One file of a content, which the database reads, becomes this.
fn put(content: &mut Content, db: Db, file: FileId, bytes: Option<Bytes>)
    requires read { is_read db file ≡ true }
    requires fits { FileFits bytes }
    ensures file { file_of content.new file ≡ bytes }
    ensures others { ChangesOnly file (file_of content.old) (file_of content.new) }
    ensures only { content.old ≡ part_of db content.old → content.new ≡ part_of db content.new }
{
    content.set(file, bytes);
}

// Reads one file.
fn read_file<F: FileSet>(
    alloc: Global,
    files: &mut F,
    file: FileId,
) -> Result<Option<Bytes>, PollFault>
    ensures told { IfOk result (λ f. IsAsTold (F.latest files.new file) f) }
    ensures part { IfOk result (λ f. IsAsTold (told_of (F.held files.old) file) f) }
    ensures fits { IfOk result (λ f. FileFits f) }
    ensures others_told { OnOk result (ChangesOnly file (F.latest files.old) (F.latest files.new)) }
    ensures read { OnOk result (Rose (F.reads files.old file) (F.reads files.new file)) }
    ensures others_read { OnOk result (ChangesOnly file (F.reads files.old) (F.reads files.new)) }
    ensures no_fault { OnOk result (NoneFailed F.FileSet files.old files.new) }
    ensures fault { IfErr result (NotFetched F.FileSet files.old files.new) }
    ensures held { F.held files.new ≡ F.held files.old }
{
    match files.read(alloc, file) {
        Ok(bytes) => Ok(bytes),
        Err(cause) => Err(PollFault::of(file, cause)),
    }
}
