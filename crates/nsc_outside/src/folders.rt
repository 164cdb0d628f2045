// The folder in which a daemon has its sockets and its images.
ghost use Rattle.std.specs.Prelude.{◌≡◌, ◌↔◌, ◌⊎◌, IfErr, IsOk, IsTrue, bit_and};
ghost use Rattle.std.specs.Fs.{IsDir, file_type};
ghost use Rattle.std.specs.IoError.{error_kind};

use std::fs::{File, Metadata, OpenFile, TryLockError};
use std::io::{Error, ErrorKind};
use std::os::unix::fs::{MetadataExt, OpenOptionsExt};
use std::rt::Files;
use std::{fs, io};

/// The name of the file in a daemon's folder whose lock tells that a process has the folder.
pub const LOCK_NAME: &str = "lock";

// Who may write a folder besides its owner, and the user who may do all.
const OTHERS: u32 = 0o022;

const ROOT: u32 = 0;

// The mode of the file whose lock tells that a process has the folder.
const LOCK: u32 = 0o600;

/// Refuses what is no folder, by `NotADirectory`, and one that others may change, by `PermissionDenied`: it must belong to this user or
/// root, and nobody else may write it.
pub fn check_folder(metadata: &Metadata) -> io::Result<()>
    ensures folder { IsOk result → IsDir (file_type metadata.now) }
    ensures refused { IfErr result (λ error. ¬ (error_kind error ≡ ErrorKind.NotFound)) }
{
    if !metadata.is_dir() {
        return Err(Error::from(ErrorKind::NotADirectory));
    }
    if !is_kept(metadata.uid(), libc::geteuid(), metadata.mode()) {
        let message = "its folder is not the daemon's own: other users may change it";
        return Err(Error::new(ErrorKind::PermissionDenied, message));
    }
    Ok(())
}

// Whether a folder of this owner and mode is this user's or root's, and nobody else may write it.
fn is_kept(owner: u32, user: u32, mode: u32) -> bool
    ensures { IsTrue result ↔ ((owner ≡ user) ⊎ (owner ≡ 0)) × (bit_and mode 0o022 ≡ 0) }
{
    (owner == user || owner == ROOT) && mode & OTHERS == 0
}

/// Locks the file at this path until the result is dropped. If there is no file, it is made with mode 0600.
///
/// # Errors
/// - `AddrInUse`: another process has the lock.
/// - `InvalidInput`: the path leads to a link, a FIFO or another file that is no regular one. It is looked at before it is opened.
/// - The system's error: the file cannot be opened or locked.
pub fn take_lock<R: Files<File = File>>(system: &R, path: &str) -> io::Result<File> {
    check_lock(system, path)?;
    let mut how = File::options();
    how.write(true).create(true).mode(LOCK);
    let file = how.open(system, path)?;
    match file.try_lock() {
        Ok(()) => Ok(file),
        Err(TryLockError::WouldBlock) => {
            let message = "another daemon has its folder";
            Err(Error::new(ErrorKind::AddrInUse, message))
        }
        Err(TryLockError::Error(error)) => Err(error),
    }
}

// Refuses what stands at the path of a lock and is no regular file: to open a FIFO may wait, and a link leads elsewhere.
fn check_lock<R: Files>(system: &R, path: &str) -> io::Result<()> {
    match fs::symlink_metadata(system, path) {
        Ok(metadata) if metadata.file_type().is_file() => Ok(()),
        Ok(_) => {
            let message = "the file `lock` in its folder is no regular file";
            Err(Error::new(ErrorKind::InvalidInput, message))
        }
        Err(error) if error.kind() == ErrorKind::NotFound => Ok(()),
        Err(error) => Err(error),
    }
}
