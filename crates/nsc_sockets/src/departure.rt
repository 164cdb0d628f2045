// What closers do with connections.
use crate::stream::Stream;
use crate::whole_lines::MOST_SEEN;
use memchr::memmem;
use mio::unix::SourceFd;
use mio::{Interest, Registry, Token};
use nsc_closers::Closing;
use std::alloc::Global;
use std::fs::File;
use std::io;
use std::io::{ErrorKind, Read};
use std::os::fd::AsRawFd;
use std::os::unix::net::UnixListener;
use std::rt::Files;
use std::sync::Arc;

/// A job for a closer. Whoever else reads from a connection, or closes one or a socket at which others wait, might be held.
#[derive(Drop)]
pub enum Departure {
    /// Closes a connection, once what its peer has sent is taken.
    Close(Stream),
    /// Takes the lines that were served from a connection of the gate, which is pending again then.
    Take(Taking),
    /// Drops a handle on a listening socket. The last one closes it, with the connections that wait there.
    Door(Arc<UnixListener>),
}

/// A connection of the gate whose lines were served.
#[derive(Drop)]
pub struct Taking {
    pub(crate) stream: Arc<Stream>,
    pub(crate) registry: Arc<Registry>,
    /// The token under which it is pending.
    pub(crate) token: usize,
    /// How many bytes were served.
    pub(crate) count: usize,
}

impl Closing for Departure {
    fn close<R: Files<File = File>>(
        self,
        system: &R,
        alloc: Global,
        is_wary: bool,
    ) -> Option<Departure> {
        match self {
            Departure::Close(stream) => close(system, alloc, stream, is_wary),
            Departure::Take(taking) => {
                if is_wary && carries(system, alloc, &taking.stream) {
                    taking.stream.end();
                    return Some(Departure::Take(taking));
                }
                // If the connection left its seat meanwhile, this was its last handle.
                close(system, alloc, taking.take()?, is_wary)
            }
            Departure::Door(socket) => {
                drop(socket);
                None
            }
        }
    }
}

// Closes a connection, unless a wary look finds that this may take long.
fn close<R: Files<File = File>>(
    system: &R,
    alloc: Global,
    stream: Stream,
    is_wary: bool,
) -> Option<Departure> {
    if is_wary {
        stream.stop_reading();
        if carries(system, alloc, &stream) {
            return Some(Departure::Close(stream));
        }
    }
    stream.close();
    None
}

impl Taking {
    // Takes the lines. The system tells the thread that accepts of what came meanwhile; if it cannot, the connection ends once it has been
    // pending for too long. Gives the connection if this was its last handle.
    fn take(self) -> Option<Stream> {
        let Taking {
            stream,
            registry,
            token,
            count,
        } = self;
        if take_bytes(&stream, count).is_err() {
            stream.end();
        }
        stream.take_back();
        let socket = stream.as_raw_fd();
        let _ = registry.reregister(&mut SourceFd(&socket), Token(token), Interest::READABLE);
        Arc::into_inner(stream)
    }
}

// Takes bytes that were seen before from a connection.
fn take_bytes(stream: &Stream, count: usize) -> io::Result<()> {
    let mut room = [0u8; MOST_SEEN];
    let count = count.min(MOST_SEEN);
    if count > 0 && stream.read(&mut room[..count])? < count {
        return Err(io::Error::from(ErrorKind::UnexpectedEof));
    }
    Ok(())
}

// The name of the field of /proc/self/fdinfo that counts the descriptors which wait in a socket (Linux 5.6).
const FIELD: &[u8] = b"scm_fds:";

// Whether bytes that wait in a connection carry descriptors, as far as the system tells. It does not without /proc. Without memory for
// the question they may.
fn carries<R: Files<File = File>>(system: &R, alloc: Global, stream: &Stream) -> bool {
    let Ok(path) = format!(in alloc; "/proc/self/fdinfo/{}", stream.as_raw_fd()) else {
        return true;
    };
    let mut text = [0u8; 512];
    let Ok(mut file) = File::open(system, path.as_str()) else {
        return false;
    };
    let Ok(count) = file.read(&mut text) else {
        return false;
    };
    tells_descriptors(text.get(..count).unwrap_or_default())
}

// Whether the text of /proc/self/fdinfo tells of descriptors that wait: the field has another digit than 0.
fn tells_descriptors(text: &[u8]) -> bool {
    let Some(at) = memmem::find(text, FIELD) else {
        return false;
    };
    let behind = text.get(at..).unwrap_or_default();
    let line = behind.split(|byte| *byte == b'\n').next();
    line.unwrap_or_default()
        .iter()
        .any(|byte| (b'1'..=b'9').contains(byte))
}
