// Reading a file into memory.
ghost use Rattle.std.specs.Prelude.{◌≡◌, ◌≤◌, ◌↔◌, length, Some, None, IfOk, IfErr, IsOk};
ghost use Rattle.std.specs.IoError.{error_kind};
ghost use Rattle.nsc_model.specs.Files.{FileFits};
ghost use Rattle.nsc_outside.specs.FileSets.{IsCause, IsAllOf, IsLong, IsOver, TellsNoLength};

use crate::files::ReadCause;
use nsc_base::Bytes;
use nsc_model::Content;
use std::alloc::Global;
use std::io::{Error, ErrorKind, Read};

// How many bytes are read at once: few enough to stay close to the processor until they are copied, and many to a call.
const PART: usize = 131_072;

/// Reads to the end of a file of a set, as `read_within` does, with the limit of such files.
#[tactic(auto, using(crate::proofs::Wholes::over_no_cause, crate::proofs::Wholes::over_long))]
pub(crate) fn read_whole<F: Read + Drop>(
    alloc: Global,
    file: F,
    told: u64,
) -> Result<Bytes, ReadCause>
    ensures fits { IfOk result (λ bytes. FileFits (Some bytes)) }
    ensures cause { IfErr result (λ cause. IsCause None cause) }

    // What the reader tells.
    ensures whole { IfOk result (λ bytes. IsAllOf (F.remaining file) bytes) }
    ensures long { IfErr result (λ cause. IsLong (F.remaining file) cause) }
{
    read_within(alloc, file, told, Content::LIMIT as u32)
}

/// Reads to the end of a file, whose length was told; one that has more bytes than the limit is read no further than a part past it.
/// Each part is copied behind the others: the memory of the whole is written once, where a read into it would need zeros there first.
#[tactic(auto, using(crate::proofs::Wholes::no_length_over))]
pub(crate) fn read_within<F: Read + Drop>(
    alloc: Global,
    mut file: F,
    told: u64,
    limit: u32,
) -> Result<Bytes, ReadCause>
    ensures fits { IfOk result (λ bytes. length bytes ≤ limit) }
    ensures whole { IfOk result (λ bytes. IsAllOf (F.remaining file) bytes) }
    ensures over { IfErr result (λ cause. IsOver limit (F.remaining file) cause) }
{
    let most = u64::from(limit) + 1;
    let mut bytes = Vec::with_capacity(alloc, told.min(most) as usize)?;
    let mut part = [0; PART];
    'parts: for _ in 0..u64::MAX {
        match file.read(&mut part) {
            Ok(0) => return Ok(Bytes::from_vec(bytes)),
            Ok(count) => bytes.extend_from_slice(&part[..count])?,
            Err(error) => {
                if error.kind() != ErrorKind::Interrupted {
                    return Err(cause_of(&error));
                }
            }
        }
        if bytes.len() > limit as usize {
            return Err(ReadCause::TooLong {
                length: told.max(most),
            });
        }
    }
    Err(ReadCause::Failed)
}

/// What a file gives that could not be opened: only that nothing is found is absence.
pub(crate) fn absent_or(error: &Error) -> Result<Option<Bytes>, ReadCause>
    ensures absent { IfOk result (λ f. f ≡ None) }
    ensures found { IsOk result ↔ (error_kind error.now ≡ ErrorKind.NotFound) }
    ensures cause { IfErr result (λ cause. TellsNoLength cause) }
{
    if error.kind() == ErrorKind::NotFound {
        Ok(None)
    } else {
        Err(cause_of(error))
    }
}

/// Why there are no bytes, by the system's error.
pub(crate) fn cause_of(error: &Error) -> ReadCause
    ensures cause { TellsNoLength result }
    ensures memory { (result ≡ ReadCause.NoMemory) ↔ (error_kind error.now ≡ ErrorKind.OutOfMemory) }
{
    if error.kind() == ErrorKind::OutOfMemory {
        ReadCause::NoMemory
    } else {
        ReadCause::Failed
    }
}
