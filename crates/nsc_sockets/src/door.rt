// A listening socket, and what is known of the connections that wait there.
use crate::role::Role;
use libc::net::{SHUT_RDWR, shutdown};
use mio::unix::SourceFd;
use mio::{Interest, Registry, Token};
use std::io;
use std::os::fd::{AsRawFd, OwnedFd};
use std::os::unix::net::UnixListener;
use std::sync::Arc;

/// Whether connections wait at a door. The system tells of a change once, so a door that is left with some must not be
/// taken for one without.
#[derive(Clone, Copy, Debug, PartialEq, Eq)]
enum More {
    No,
    Unknown,
    Yes,
}

/// A socket on which connections come.
#[derive(Drop)]
pub(crate) struct Door {
    role: Role,
    socket: Arc<UnixListener>,
    more: More,
}

impl Door {
    /// A door at this socket, which makes no call wait. The system is to tell of it under this token, also of connections
    /// that are there already.
    pub(crate) fn new(
        registry: &Registry,
        token: Token,
        role: Role,
        socket: Arc<UnixListener>,
    ) -> io::Result<Door> {
        let number = socket.as_raw_fd();
        registry.register(&mut SourceFd(&number), token, Interest::READABLE)?;
        Ok(Door {
            role,
            socket,
            more: More::No,
        })
    }

    /// Makes one more handle on the socket. `None` if memory is short.
    pub(crate) fn share(&self) -> Option<Arc<UnixListener>> {
        Arc::try_clone(&self.socket).ok()
    }

    /// Has nobody connect from now on, and gives this handle on the socket, whose close may take long.
    pub(crate) fn end(self) -> Arc<UnixListener> {
        let _ = shutdown(self.socket.as_raw_fd(), SHUT_RDWR);
        self.socket
    }

    /// What may be asked of those that come in here.
    pub(crate) fn role(&self) -> Role {
        self.role
    }

    /// The system told of a connection.
    pub(crate) fn open(&mut self) {
        self.more = More::Yes;
    }

    /// Tells whether to take a connection: the system told of one that may not have been taken, or one may have come since the last and
    /// connections are near each other.
    pub(crate) fn is_open(&self, is_near: bool) -> bool {
        match self.more {
            More::Yes => true,
            More::Unknown => is_near,
            More::No => false,
        }
    }

    /// Whether no connection waits of which the system is not going to tell.
    pub(crate) fn is_quiet(&self) -> bool {
        self.more == More::No
    }

    /// Whether connections may wait of which the system is not going to tell.
    pub(crate) fn is_unknown(&self) -> bool {
        self.more == More::Unknown
    }

    /// Takes a connection. Whether there are more is unknown then, also after a failure.
    pub(crate) fn take(&mut self) -> io::Result<OwnedFd> {
        self.more = More::Unknown;
        let outcome = self.socket.accept();
        if let Err(error) = &outcome {
            if error.kind() == io::ErrorKind::WouldBlock {
                self.more = More::No;
            }
        }
        let (stream, _) = outcome?;
        Ok(OwnedFd::from(stream))
    }

    /// Has the system tell again of what waits here.
    pub(crate) fn ask(&mut self, registry: &Registry, token: Token) -> io::Result<()> {
        let number = self.socket.as_raw_fd();
        registry.reregister(&mut SourceFd(&number), token, Interest::READABLE)?;
        self.more = More::No;
        Ok(())
    }
}
