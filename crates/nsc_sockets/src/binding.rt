// Binding of a socket at a path, with the mode of its role.
ghost use Rattle.std.specs.Prelude.{◌≡◌};
ghost use Rattle.nsc_sockets.specs.Modes.{mode_of};

use crate::bind_error::{BindError, Place};
use crate::role::Role;
use std::alloc::Global;
use std::fs::{DirBuilder, Permissions};
use std::io::ErrorKind;
use std::net::Net;
use std::os::unix::fs::{DirBuilderExt, FileTypeExt, MetadataExt, PermissionsExt};
use std::os::unix::net::UnixListener;
use std::rt::Files;
use std::{fs, io};

// The mode of the folder in which a socket is made.
const OWN: u32 = 0o700;

// The most bytes of a path at which others can connect.
const LONGEST: usize = 107;

/// A socket at this path, which stands in this folder, with the mode of its role. One at which another process answers, or that
/// cannot be asked, is left alone, and so is a file that is no socket: `AddrInUse` and `AlreadyExists`.
///
/// The socket is made in a folder of its own, which no other user can enter, and takes the path when its mode is set: nobody finds it
/// half made, and nobody finds none where one stood before. Only one process at a time may do this in a folder.
pub(crate) fn bind_at<R: Files + Net>(
    system: &R,
    alloc: Global,
    folder: &str,
    role: Role,
    path: &str,
) -> Result<UnixListener, BindError> {
    check_length(path)?;
    check_free(system, path)?;
    let own = format!(in alloc; "{folder}/.new")?;
    let made = format!(in alloc; "{folder}/.new/s")?;
    // What a start that was broken off has left there.
    remove(system, own.as_str(), made.as_str());
    if let Err(error) = DirBuilder::new().mode(OWN).create(system, own.as_str()) {
        return Err(BindError {
            place: Place::New,
            error: in_the_way(error),
        });
    }
    let outcome = put(system, role, made.as_str(), path);
    remove(system, own.as_str(), made.as_str());
    Ok(outcome?)
}

// What keeps the folder from being made in which a socket is made.
fn in_the_way(error: io::Error) -> io::Error {
    if error.kind() == ErrorKind::AlreadyExists {
        return io::Error::new(ErrorKind::AlreadyExists, "it is in the way");
    }
    error
}

// Refuses a path at which nobody could connect: the system's address of a socket has room for 107 bytes.
fn check_length(path: &str) -> io::Result<()> {
    if path.len() > LONGEST {
        return Err(io::Error::new(
            ErrorKind::InvalidInput,
            "its path is too long, above 107 bytes",
        ));
    }
    Ok(())
}

/// Whether two paths lead to one file.
pub(crate) fn is_at<R: Files>(system: &R, one: &str, other: &str) -> bool {
    match (
        fs::symlink_metadata(system, one),
        fs::symlink_metadata(system, other),
    ) {
        (Ok(one), Ok(other)) => one.dev() == other.dev() && one.ino() == other.ino(),
        _ => false,
    }
}

/// The folder in which this path stands.
pub(crate) fn folder_of(path: &str) -> &str {
    match path.rsplit_once('/') {
        Some(("", _)) => "/",
        Some((folder, _)) => folder,
        None => ".",
    }
}

// Fails where something stands at the path that may not be replaced.
fn check_free<R: Files + Net>(system: &R, path: &str) -> io::Result<()> {
    let metadata = match fs::symlink_metadata(system, path) {
        Ok(metadata) => metadata,
        Err(error) if error.kind() == ErrorKind::NotFound => return Ok(()),
        Err(error) => return Err(error),
    };
    if !metadata.file_type().is_socket() {
        let message = "a file that is no socket is in the way";
        return Err(io::Error::new(ErrorKind::AlreadyExists, message));
    }
    match mio::net::UnixStream::connect(system, path) {
        Err(error)
            if matches!(
                error.kind(),
                ErrorKind::ConnectionRefused | ErrorKind::NotFound
            ) => { Ok(()) }
        // Somebody is there, or may be: one with a great many connections before this one fails too.
        _ => {
            let message = "another daemon is there, or may be";
            Err(io::Error::new(ErrorKind::AddrInUse, message))
        }
    }
}

// Makes the socket, sets its mode, and gives it its path.
fn put<R: Files + Net>(system: &R, role: Role, made: &str, path: &str) -> io::Result<UnixListener> {
    let socket = match UnixListener::bind(system, made) {
        Ok(socket) => socket,
        Err(error) if error.kind() == ErrorKind::InvalidInput => {
            return Err(io::Error::new(ErrorKind::InvalidInput, "its path is too long"));
        }
        Err(error) => return Err(error),
    };
    socket.set_nonblocking(true)?;
    fs::set_permissions(system, made, Permissions::from_mode(mode_of(role)))?;
    fs::rename(system, made, path)?;
    Ok(socket)
}

// Removes the folder of a socket that is made, and what is in it.
fn remove<R: Files>(system: &R, own: &str, made: &str) {
    let _ = fs::remove_file(system, made);
    let _ = fs::remove_dir(system, own);
}

// Who may connect: everyone, but to give orders only the owner.
fn mode_of(role: Role) -> u32
    ensures { result ≡ mode_of role }
{
    match role {
        Role::Plain | Role::Gate => 0o666,
        Role::Admin => 0o600,
    }
}
