// A connected socket, and its calls, none of which waits but those that are told how long they may.
ghost use Rattle.std.specs.Prelude.{◌≤◌, length, IfOk};
ghost use Rattle.libc.specs.Io.{Moved};

use crate::whole_lines::MOST_SEEN;
use libc::net as c;
use libc::types::pollfd;
use std::io;
use std::io::ErrorKind;
use std::os::fd::{AsRawFd, OwnedFd, RawFd};
use std::sync::atomic::{AtomicBool, Ordering};
use std::time::Duration;

// The flags of a call that does not wait.
const PEEK: i32 = c::MSG_PEEK | c::MSG_DONTWAIT;

const READ: i32 = c::MSG_DONTWAIT;

const SEND: i32 = c::MSG_NOSIGNAL | c::MSG_DONTWAIT;

/// A connected socket, and what its handles note of it.
#[derive(Drop)]
pub struct Stream {
    socket: OwnedFd,
    // Whether a worker has the connection, which comes back when what had come is served.
    is_lent: AtomicBool,
    is_over: AtomicBool,
    // Whether its peer waits for a reply, so that the end may come later.
    is_answered: AtomicBool,
}

impl Stream {
    /// Takes a connected socket.
    pub(crate) fn new(socket: OwnedFd) -> Stream {
        Stream {
            socket,
            is_lent: AtomicBool::new(false),
            is_over: AtomicBool::new(false),
            is_answered: AtomicBool::new(false),
        }
    }

    /// Bounds the bytes that may wait for the peer, as SO_SNDBUF of socket(7) does. If the system refuses, its own bound stays.
    pub(crate) fn bound_unsent(&self, bytes: u32) {
        let mut value = [0u8; 16];
        value[..4].copy_from_slice(&bytes.to_ne_bytes());
        let _ = unsafe { c::setsockopt(self.as_raw_fd(), c::SOL_SOCKET, c::SO_SNDBUF, &value, 4) };
    }

    /// Notes that a worker has the connection.
    pub(crate) fn lend(&self) {
        self.is_lent.store(true, Ordering::SeqCst);
    }

    /// Notes that no worker has it any more.
    pub(crate) fn take_back(&self) {
        self.is_lent.store(false, Ordering::SeqCst);
    }

    /// Whether a worker has it.
    pub(crate) fn is_lent(&self) -> bool {
        self.is_lent.load(Ordering::SeqCst)
    }

    /// Ends the connection both ways: nobody takes what the peer sends any more, and it is sent nothing more.
    pub(crate) fn end(&self) {
        self.is_over.store(true, Ordering::SeqCst);
        // One that the peer has left is over already.
        let _ = c::shutdown(self.as_raw_fd(), c::SHUT_RDWR);
    }

    /// Whether it was ended.
    pub(crate) fn is_over(&self) -> bool {
        self.is_over.load(Ordering::SeqCst)
    }

    /// Notes that its peer waits for a reply and not for the end.
    pub(crate) fn note_answered(&self) {
        self.is_answered.store(true, Ordering::SeqCst);
    }

    /// Tells a peer the end that may wait for it, as one without a reply.
    pub(crate) fn tell_end(&self) {
        if !self.is_answered.load(Ordering::SeqCst) {
            // One that the peer has left is over already.
            let _ = c::shutdown(self.as_raw_fd(), c::SHUT_WR);
        }
    }

    /// Takes nothing more from the peer from now on. What has come stays.
    pub(crate) fn stop_reading(&self) {
        let _ = c::shutdown(self.as_raw_fd(), c::SHUT_RD);
    }

    /// Copies bytes that have come, and leaves them for the next call. 0 if the peer sends no more.
    pub(crate) fn peek(&self, room: &mut [u8]) -> io::Result<usize>
        ensures count { IfOk result (λ n. n ≤ length room.new) }
    {
        let most = room.len();
        moved(unsafe { c::recv(self.as_raw_fd(), room, PEEK) }, most)
    }

    /// Takes bytes that have come. 0 if the peer sends no more.
    pub(crate) fn read(&self, room: &mut [u8]) -> io::Result<usize>
        ensures count { IfOk result (λ n. n ≤ length room.old) }
    {
        let most = room.len();
        moved(unsafe { c::recv(self.as_raw_fd(), room, READ) }, most)
    }

    /// As `read`; if no byte has come, waits for one, up to a time.
    pub(crate) fn read_within(&self, room: &mut [u8], limit: Duration) -> io::Result<usize>
        ensures count { IfOk result (λ n. n ≤ length room.old) }
    {
        self.poll(c::POLLIN, limit)?;
        self.read(room)
    }

    /// Sends bytes for which there is room, and gives their number.
    pub(crate) fn write(&self, bytes: &[u8]) -> io::Result<usize>
        ensures count { IfOk result (λ n. n ≤ length bytes.now) }
    {
        moved(
            unsafe { c::send(self.as_raw_fd(), bytes, SEND) },
            bytes.len(),
        )
    }

    /// As `write`; if there is no room, waits for some, up to a time.
    pub(crate) fn write_within(&self, bytes: &[u8], limit: Duration) -> io::Result<usize>
        ensures count { IfOk result (λ n. n ≤ length bytes.now) }
    {
        self.poll(c::POLLOUT, limit)?;
        self.write(bytes)
    }

    /// Tells whether the peer has closed its end, so that nobody reads what it is sent.
    pub(crate) fn has_gone(&self) -> bool {
        match self.poll(0, Duration::ZERO) {
            Ok(found) => found & c::POLLHUP != 0,
            Err(_) => false,
        }
    }

    // Asks poll(2) for events, for which it waits up to a time, and gives those that were found.
    fn poll(&self, events: i16, limit: Duration) -> io::Result<i16> {
        let mut asked = [pollfd {
            fd: self.as_raw_fd(),
            events,
            revents: 0,
        }];
        let limit = i32::try_from(limit.as_millis()).unwrap_or(i32::MAX);
        if c::poll(&mut asked, limit) < 0 {
            return Err(last_error());
        }
        Ok(asked[0].revents)
    }

    /// Takes what the peer has sent, and closes. The system would tell a peer whose bytes are left lying that the connection was reset,
    /// and a reply that is on its way would be lost.
    pub(crate) fn close(self) {
        let mut rest = [0u8; MOST_SEEN];
        // Whatever comes of it, the connection is closed.
        let _ = self.read(&mut rest);
    }
}

impl AsRawFd for Stream {
    fn as_raw_fd(&self) -> RawFd {
        self.socket.as_raw_fd()
    }
}

// The number of bytes that a call of the C library moved, or its error.
fn moved(count: isize, most: usize) -> io::Result<usize>
    requires { Moved most count }
    ensures { IfOk result (λ n. n ≤ most) }
{
    if count < 0 {
        return Err(last_error());
    }
    Ok(count as usize)
}

// The error of the call of the C library that has just failed.
fn last_error() -> io::Error {
    io::Error::from_raw_os_error(os::errno())
}

/// Tells whether a call failed only because it would have had to wait, or was broken off by a signal: another try may succeed.
pub(crate) fn may_pass(error: &io::Error) -> bool {
    matches!(error.kind(), ErrorKind::WouldBlock | ErrorKind::Interrupted)
}
