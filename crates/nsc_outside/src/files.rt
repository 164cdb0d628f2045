// `FileSet`: the trait of source and configuration files; and why a read gives no answer.
ghost use Rattle.std.specs.Prelude.{◌≡◌, ℕ, List, Option, None, IfOk, IfErr, OnOk, OnErr};
ghost use Rattle.std.specs.Bool.{OnTrue, OnFalse};
ghost use Rattle.std.specs.Option.{option_copied};
ghost use Rattle.nsc_model.specs.Content.{Content};
ghost use Rattle.nsc_model.specs.Files.{FileFits};
ghost use Rattle.nsc_model.specs.Reads.{IsAsTold, Rose};
ghost use Rattle.nsc_model.specs.declared.kind.FileId.{FileId};
ghost use Rattle.nsc_outside.specs.FileSets.{told_of, IsCause, RoseBy, ChangesOnly};
ghost use Rattle.nsc_outside.specs.declared.files.ReadCause.TheVariants.{NoMemory as Memory, Failed as Fault};

use crate::stream::Failed;
use nsc_base::{Bytes, NoMemory};
use nsc_model::FileId;
use std::alloc::{AllocError, Global};
use thiserror::Error;

/// Why a read of a file, or of an image, gave no answer.
#[derive(Clone, Copy, Debug, PartialEq, Eq, Error)]
pub enum ReadCause {
    /// Memory was short: no fault of the file, and none is counted.
    #[error("out of memory")]
    NoMemory,
    /// The file is there, or may be, and could not be read.
    #[error("the file could not be read")]
    Failed,
    /// The file is longer than 16,777,216 bytes, or the image than 134,217,728.
    #[error("the file of {length} bytes is too long")]
    TooLong {
        /// The length in bytes, as far as it is known: above 16,777,216, and of an image above 134,217,728.
        length: u64,
    },
}

impl From<Failed> for ReadCause {
    ghost from_gives = { λ _ cause. cause ≡ Fault };

    fn from(_e: Failed) -> ReadCause {
        ReadCause::Failed
    }
}

impl From<NoMemory> for ReadCause {
    ghost from_gives = { λ _ cause. cause ≡ Memory };

    fn from(_e: NoMemory) -> ReadCause {
        ReadCause::NoMemory
    }
}

impl From<AllocError> for ReadCause {
    ghost from_gives = { λ _ cause. cause ≡ Memory };

    fn from(_e: AllocError) -> ReadCause {
        ReadCause::NoMemory
    }
}

/// The source files of the name service, and configuration files by their paths, which are read whole.
pub trait FileSet: Sized {
    // How many calls failed or met a file that is too long; the count stops at the greatest `u64`.
    ghost faults: { Self → ℕ };

    // The same of each file.
    ghost file_faults: { Self → FileId → ℕ };

    // How often each file was read with an answer; the count stops at the greatest `u64`.
    ghost reads: { Self → FileId → ℕ };

    // What the latest such read of each file gave, absent or its bytes, where the set tells it.
    ghost latest: { Self → FileId → Option (Option (List ℕ)) };

    // The files that the set holds, where it tells them.
    ghost held: { Self → Option Content };

    // The same of a configuration file at a path: absent or its bytes.
    ghost conf_held: { Self → List ℕ → Option (Option (List ℕ)) };

    /// Takes the files of this folder from now on: in it `nsswitch.conf`, `passwd`, `group`, `hosts`, `services`,
    /// `extrausers/passwd` and `extrausers/group`. A form in memory has no folders, and keeps its files.
    /// At `NoMemory` nothing changed.
    fn under(&mut self, alloc: Global, dir: &str) -> Result<(), NoMemory>
        ensures faults { faults self.new ≡ faults self.old }
        ensures file_faults { file_faults self.new ≡ file_faults self.old }
        ensures reads { reads self.new ≡ reads self.old }
        ensures latest { latest self.new ≡ latest self.old }
        ensures held { OnErr result (held self.new ≡ held self.old) }
        ensures conf_held { conf_held self.new ≡ conf_held self.old };

    /// Takes a file for absent from now on, and looks at it no more. A set that cannot do so looks on.
    fn leave(&mut self, file: FileId)
        ensures faults { faults self.new ≡ faults self.old }
        ensures file_faults { file_faults self.new ≡ file_faults self.old }
        ensures reads { reads self.new ≡ reads self.old }
        ensures latest { latest self.new ≡ latest self.old }
        ensures conf_held { conf_held self.new ≡ conf_held self.old }
    {
        let _ = file;
    }

    /// Another handle on the same files. It has counts of its own, which begin at 0, and has read nothing so far.
    fn split(&self, alloc: Global) -> Result<Self, NoMemory>
        ensures faults { IfOk result (λ set. faults set ≡ 0) }
        ensures file_faults { IfOk result (λ set. (file : FileId) → file_faults set file ≡ 0) }
        ensures reads { IfOk result (λ set. (file : FileId) → reads set file ≡ 0) }
        ensures latest { IfOk result (λ set. (file : FileId) → latest set file ≡ None) }
        ensures held { IfOk result (λ set. held set ≡ held self.now) }
        ensures conf_held { IfOk result (λ set. conf_held set ≡ conf_held self.now) };

    /// Reads a file: its bytes, at most 16,777,216, or `None` where it is absent. At `Failed` and `TooLong` only counts
    /// of faults rose; at `NoMemory` all is as before.
    fn read(&mut self, alloc: Global, file: FileId) -> Result<Option<Bytes>, ReadCause>
        ensures answer { IfOk result (λ f. IsAsTold (told_of (held self.old) file) f) }
        ensures fits { IfOk result (λ f. FileFits f) }
        ensures cause { IfErr result (λ cause. IsCause (told_of (held self.old) file) cause) }

        // The counts.
        ensures calm { OnOk result (faults self.new ≡ faults self.old) }
        ensures faults { IfErr result (λ cause. RoseBy cause (faults self.old) (faults self.new)) }
        ensures file_calm { OnOk result (file_faults self.new ≡ file_faults self.old) }
        ensures file_faults { IfErr result (λ cause. RoseBy cause (file_faults self.old file) (file_faults self.new file)) }
        ensures other_faults { ChangesOnly file (file_faults self.old) (file_faults self.new) }
        ensures read { OnOk result (Rose (reads self.old file) (reads self.new file)) }
        ensures unread { OnErr result (reads self.new ≡ reads self.old) }
        ensures other_reads { ChangesOnly file (reads self.old) (reads self.new) }

        // What the set tells.
        ensures latest { IfOk result (λ f. IsAsTold (latest self.new file) f) }
        ensures latest_stays { OnErr result (latest self.new ≡ latest self.old) }
        ensures other_latest { ChangesOnly file (latest self.old) (latest self.new) }
        ensures held { held self.new ≡ held self.old }
        ensures conf_held { conf_held self.new ≡ conf_held self.old };

    /// Whether a file is found to be as it is known, absent or these bytes, by one read that keeps nothing of it. Where it is, that
    /// counts as a read of the file, which gave what is known. Else no count changed: the file is another one, or nothing was
    /// found out, as by a set that has no way to look, and to tell more takes a `read`.
    fn is_still(&mut self, alloc: Global, file: FileId, known: Option<&[u8]>) -> bool
        ensures answer { OnTrue result (IsAsTold (told_of (held self.old) file) (option_copied known.entry)) }

        // The counts.
        ensures faults { faults self.new ≡ faults self.old }
        ensures file_faults { file_faults self.new ≡ file_faults self.old }
        ensures read { OnTrue result (Rose (reads self.old file) (reads self.new file)) }
        ensures unread { OnFalse result (reads self.new ≡ reads self.old) }
        ensures other_reads { ChangesOnly file (reads self.old) (reads self.new) }

        // What the set tells.
        ensures latest { OnTrue result (IsAsTold (latest self.new file) (option_copied known.entry)) }
        ensures latest_stays { OnFalse result (latest self.new ≡ latest self.old) }
        ensures other_latest { ChangesOnly file (latest self.old) (latest self.new) }
        ensures held { held self.new ≡ held self.old }
        ensures conf_held { conf_held self.new ≡ conf_held self.old }
    {
        let _ = alloc;
        let _ = file;
        let _ = known;
        false
    }

    /// Reads the configuration file at a path: its bytes, at most 16,777,216, or `None` where it is absent. At `Failed`
    /// and `TooLong` only the count of all faults rose; at `NoMemory` all is as before.
    fn read_conf(&mut self, alloc: Global, path: &str) -> Result<Option<Bytes>, ReadCause>
        ensures answer { IfOk result (λ f. IsAsTold (conf_held self.old path.now) f) }
        ensures fits { IfOk result (λ f. FileFits f) }
        ensures cause { IfErr result (λ cause. IsCause (conf_held self.old path.now) cause) }

        // The counts.
        ensures calm { OnOk result (faults self.new ≡ faults self.old) }
        ensures faults { IfErr result (λ cause. RoseBy cause (faults self.old) (faults self.new)) }
        ensures file_faults { file_faults self.new ≡ file_faults self.old }
        ensures reads { reads self.new ≡ reads self.old }

        // What the set tells.
        ensures latest { latest self.new ≡ latest self.old }
        ensures held { held self.new ≡ held self.old }
        ensures conf_held { conf_held self.new ≡ conf_held self.old };
}
