// Reading a file that another process may be writing.
ghost use Rattle.std.specs.Prelude.{◌≡◌, IfErr, IfOk, None};
ghost use Rattle.nsc_model.specs.Files.{FileFits};
ghost use Rattle.nsc_outside.specs.FileSets.{IsCause};

use crate::files::ReadCause;
use crate::opening::open_prompt;
use crate::reading::{absent_or, cause_of, read_whole};
use nsc_base::Bytes;
use std::alloc::Global;
use std::fs::{Metadata, OpenFile};
use std::os::unix::fs::MetadataExt;
use std::rt::Files;
use std::thread;
use std::time::{Clock, Duration};

// How often a file that changed while it was read is read again.
const MORE_READS: u32 = 3;

// The pause before a file is read again, in milliseconds.
const PAUSE: u64 = 10;

/// What a file did while it was read.
#[derive(Clone, Copy, Debug, PartialEq, Eq)]
enum Steadiness {
    /// Neither its size nor its times changed.
    Still,
    /// Its times changed, and its size did not.
    Touched,
    /// Its size changed.
    Resized,
}

/// What one read of a file gave, and what the file did meanwhile.
#[derive(Drop)]
struct Reading {
    found: Option<Bytes>,
    steadiness: Steadiness,
}

/// Reads the file at a path, if there is one. If it changed meanwhile, it is read again after a pause of ten milliseconds, up to three
/// times. Then the last text counts if its size stood still.
///
/// # Errors
/// - `NoMemory`: out of memory.
/// - `TooLong`: the file has more than 16,777,216 bytes.
/// - `Failed`: the system's error, or a size that changed in the last read.
pub(crate) fn read_path<R: Files + Clock>(
    system: &R,
    alloc: Global,
    path: &str,
) -> Result<Option<Bytes>, ReadCause>
    ensures fits { IfOk result (λ f. FileFits f) }
    ensures cause { IfErr result (λ cause. IsCause None cause) }
{
    for _ in 0..MORE_READS {
        let reading = read_once(system, alloc, path)?;
        if reading.steadiness == Steadiness::Still {
            return Ok(reading.found);
        }
        thread::sleep(system, Duration::from_millis(PAUSE));
    }
    let reading = read_once(system, alloc, path)?;
    if reading.steadiness == Steadiness::Resized {
        return Err(ReadCause::Failed);
    }
    Ok(reading.found)
}

// Reads the file at a path once, if there is one.
#[tactic(auto, using(crate::proofs::Wholes::no_length_no_cause))]
fn read_once<R: Files>(system: &R, alloc: Global, path: &str) -> Result<Reading, ReadCause>
    ensures fits { IfOk result (λ reading. FileFits reading.found) }
    ensures cause { IfErr result (λ cause. IsCause None cause) }
{
    let (mut file, before) = match open_prompt(system, path) {
        Ok(opened) => opened,
        Err(error) => {
            let found = absent_or(&error)?;
            return Ok(Reading {
                found,
                steadiness: Steadiness::Still,
            });
        }
    };
    let bytes = read_whole(alloc, &mut file, before.len())?;
    match file.metadata() {
        Ok(after) => Ok(Reading {
            found: Some(bytes),
            steadiness: compare_looks(&before, &after),
        }),
        Err(error) => Err(cause_of(&error)),
    }
}

// What a file did between two looks at it.
fn compare_looks(before: &Metadata, after: &Metadata) -> Steadiness {
    if before.size() != after.size() {
        return Steadiness::Resized;
    }
    let was_changed = (before.mtime(), before.mtime_nsec()) != (after.mtime(), after.mtime_nsec())
        || (before.ctime(), before.ctime_nsec()) != (after.ctime(), after.ctime_nsec());
    if was_changed {
        Steadiness::Touched
    } else {
        Steadiness::Still
    }
}
