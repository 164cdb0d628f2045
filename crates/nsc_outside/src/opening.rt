// Opening a file whose reads wait for nobody.
ghost use Rattle.std.specs.Prelude.{◌≡◌, IfErr, IsTrue};
ghost use Rattle.std.specs.IoError.{error_kind};
ghost use Rattle.std.specs.Fs.{file_type, IsFile};

use crate::comparing::has_just;
use std::fs::{File, Metadata, OpenFile};
use std::io::{Error, ErrorKind};
use std::os::unix::fs::{FileTypeExt, MetadataExt};
use std::rt::Files;
use std::{fs, io};

/// Opens a file whose reads wait for nobody, and gives what the system tells of it. Its kind is looked at before, since to open a FIFO
/// may wait, and at the open file, since another one may have taken the path by then.
pub(crate) fn open_prompt<R: Files>(system: &R, path: &str) -> io::Result<(R::File, Metadata)> {
    check_prompt(&fs::metadata(system, path)?)?;
    let file = File::open(system, path)?;
    let metadata = file.metadata()?;
    check_prompt(&metadata)?;
    Ok((file, metadata))
}

/// Tells whether the file at a path is as it is known: absent, or these bytes.
pub(crate) fn is_at_path<R: Files>(system: &R, path: &str, known: Option<&[u8]>) -> bool {
    match (open_prompt(system, path), known) {
        (Ok((file, metadata)), Some(known)) => {
            metadata.len() == known.len() as u64 && has_just(file, known)
        }
        (Err(error), None) => error.kind() == ErrorKind::NotFound,
        _ => false,
    }
}

/// Tells whether a folder is at a path.
pub(crate) fn is_folder<R: Files>(system: &R, path: &str) -> bool {
    match fs::metadata(system, path) {
        Ok(metadata) => metadata.is_dir(),
        Err(_) => false,
    }
}

// Refuses a file whose reads may wait, or give no bytes.
fn check_prompt(metadata: &Metadata) -> io::Result<()>
    ensures refused { IfErr result (λ error. ¬ (error_kind error ≡ ErrorKind.NotFound)) }
{
    if metadata.is_dir() {
        return Err(Error::new(ErrorKind::IsADirectory, "it is a folder"));
    }
    if reads_at_once(metadata) {
        Ok(())
    } else {
        Err(Error::new(ErrorKind::InvalidInput, "it is no regular file"))
    }
}

// The devices null, zero, full and urandom, by Linux's numbers.
const PROMPT_DEVICES: [u64; 4] = [0x103, 0x105, 0x107, 0x109];

// Whether a read of this file waits for nobody: a terminal, a FIFO and a socket may wait for ever.
fn reads_at_once(metadata: &Metadata) -> bool
    ensures { IsFile (file_type metadata.now) → IsTrue result }
{
    let kind = metadata.file_type();
    kind.is_file()
        || kind.is_block_device()
        || kind.is_char_device() && PROMPT_DEVICES.contains(&metadata.rdev())
}
