// `Peer`: a handle on a connection to another process, and the hand-over to closers.
use crate::departure::Departure;
use crate::stream::Stream;
use nsc_base::NoMemory;
use nsc_closers::Closers;
use std::alloc::Global;
use std::io;
use std::io::ErrorKind;
use std::os::fd::{AsRawFd, OwnedFd, RawFd};
use std::sync::{Arc, Wait};
use std::time::Clock;

/// The list of what is to be closed, as all handles share it.
pub(crate) type Departures<R> = Arc<Closers<Departure, R>>;

/// A handle on a connection to another process. No call on it waits, but for those that are told how long they may.
///
/// A connection that came is read and closed by closers alone: when its last handle is dropped, it goes to their list. Bytes may carry
/// descriptors, and whoever reads or drops those may be held in their close for as long as the peer likes.
pub(crate) struct Peer<R: Wait + Clock + Drop> {
    /// The connection, as all its handles share it.
    pub(crate) stream: Arc<Stream>,
    // Of a connection that came.
    departures: Option<Departures<R>>,
}

impl<R: Wait + Clock + Drop> Peer<R> {
    /// Makes the handle of a connection that came. Without memory the connection is closed.
    pub(crate) fn arrived(
        alloc: Global,
        socket: OwnedFd,
        departures: &Departures<R>,
    ) -> io::Result<Peer<R>> {
        let stream = Stream::new(socket);
        let departures = match Arc::try_clone(departures) {
            Ok(theirs) => theirs,
            Err(_) => {
                departures.put(Departure::Close(stream), false);
                return Err(io::Error::from(ErrorKind::OutOfMemory));
            }
        };
        match Arc::new(alloc, stream) {
            Ok(stream) => Ok(Peer {
                stream,
                departures: Some(departures),
            }),
            Err(refused) => {
                departures.put(Departure::Close(refused.value), false);
                Err(io::Error::from(ErrorKind::OutOfMemory))
            }
        }
    }

    /// Makes the handle of a connection that this process made.
    pub(crate) fn reached(alloc: Global, socket: OwnedFd) -> io::Result<Peer<R>> {
        let stream = Arc::new(alloc, Stream::new(socket))?;
        Ok(Peer {
            stream,
            departures: None,
        })
    }

    /// Makes one more handle. It fails only without memory.
    pub(crate) fn share(&self) -> Result<Peer<R>, NoMemory> {
        let departures = match &self.departures {
            Some(departures) => Some(Arc::try_clone(departures)?),
            None => None,
        };
        Ok(Peer {
            stream: Arc::try_clone(&self.stream)?,
            departures,
        })
    }

    /// Shares the connection with a closer that reads from it. It fails only without memory.
    pub(crate) fn share_stream(&self) -> Result<Arc<Stream>, NoMemory> {
        Ok(Arc::try_clone(&self.stream)?)
    }

    /// Gives a job to the closers at once.
    pub(crate) fn hand_over(&self, departure: Departure) {
        if let Some(departures) = &self.departures {
            departures.put(departure, true);
        }
    }
}

impl<R: Wait + Clock + Drop> AsRawFd for Peer<R> {
    fn as_raw_fd(&self) -> RawFd {
        self.stream.as_raw_fd()
    }
}

impl<R: Wait + Clock + Drop> Drop for Peer<R> {
    fn drop(self) {
        let Peer { stream, departures } = self;
        let Some(stream) = Arc::into_inner(stream) else {
            return;
        };
        match departures {
            Some(departures) => {
                stream.tell_end();
                departures.put(Departure::Close(stream), false);
            }
            None => stream.close(),
        }
    }
}
