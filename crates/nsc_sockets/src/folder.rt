// The folder in which a process's sockets stand, and which it has for itself.
use crate::bind_error::{BindError, Place};
use nsc_outside::{LOCK_NAME, check_folder, take_lock};
use std::alloc::Global;
use std::fs::{DirBuilder, File, Permissions};
use std::os::unix::fs::{DirBuilderExt, MetadataExt, PermissionsExt};
use std::rt::Files;
use std::{fs, io};

// The mode of a folder that is made: everyone may find the sockets in it.
const FOLDER: u32 = 0o755;

/// A folder that no other process has, as long as this lives.
#[derive(Drop)]
pub(crate) struct Folder {
    device: u64,
    number: u64,
    lock: File,
}

impl Folder {
    /// Takes this folder, which is made where there is none. One that others may change is refused, by `PermissionDenied`, and one that
    /// another process has, by `AddrInUse`.
    pub(crate) fn take<R: Files<File = File>>(
        system: &R,
        alloc: Global,
        path: &str,
    ) -> Result<Folder, BindError> {
        let is_made = make(system, path)?;
        // What is looked at and changed is the open folder, whatever has its name by then.
        let folder = File::open(system, path)?;
        let metadata = folder.metadata()?;
        check_folder(&metadata)?;
        if is_made {
            // The process may hold back some of the mode when a folder is made.
            folder.set_permissions(Permissions::from_mode(FOLDER))?;
        }
        let name = format!(in alloc; "{path}/{LOCK_NAME}")?;
        let lock = match take_lock(system, name.as_str()) {
            Ok(lock) => lock,
            Err(error) => {
                return Err(BindError {
                    place: Place::Lock,
                    error,
                });
            }
        };
        Ok(Folder {
            device: metadata.dev(),
            number: metadata.ino(),
            lock,
        })
    }

    /// Whether it is the one at this path, whatever it is called there.
    pub(crate) fn is_at<R: Files<File = File>>(&self, system: &R, path: &str) -> bool {
        match fs::metadata(system, path) {
            Ok(metadata) => metadata.dev() == self.device && metadata.ino() == self.number,
            Err(_) => false,
        }
    }
}

// Makes the folder at this path where there is none, and says whether there was none.
fn make<R: Files>(system: &R, path: &str) -> io::Result<bool> {
    if fs::metadata(system, path).is_ok() {
        return Ok(false);
    }
    let mut builder = DirBuilder::new();
    builder.recursive(true).mode(FOLDER);
    builder.create(system, path)?;
    Ok(true)
}
