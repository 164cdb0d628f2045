// Files that are found to be as they are known.
ghost use Rattle.std.specs.Prelude.{◌≡◌};
ghost use Rattle.std.specs.Bool.{OnTrue};
ghost use Rattle.nsc_model.specs.Files.{part_of};
ghost use Rattle.nsc_model.specs.Reads.{NoneFell};
ghost use Rattle.nsc_sourcebook.specs.Reads.{IsFetched, NoneFailed};

use nsc_model::{Content, Db, FileId};
use nsc_outside::FileSet;
use std::alloc::Global;

/// Whether the files of a database are found to be those of a content, which has no others, by one read of each that keeps nothing.
/// Where the answer is no, some of them may have been read.
#[tactic(auto, using(crate::proofs::Each::none_read))]
pub fn are_still<F: FileSet>(alloc: Global, files: &mut F, db: Db, known: &Content) -> bool
    requires { known.now ≡ part_of db known.now }
    ensures fetched { OnTrue result (IsFetched F.FileSet db files.old files.new known.now) }
    ensures kept { NoneFell (F.reads files.old) (F.reads files.new) }
    ensures no_fault { NoneFailed F.FileSet files.old files.new }
    ensures held { F.held files.new ≡ F.held files.old }
{
    let ids: &[FileId] = &FileId::ALL;
    for file in ids {
        if file.is_read_by(db) {
            if !files.is_still(alloc, *file, known.file(*file)) {
                return false;
            }
        }
    }
    true
}
