// `Lease`: the return of a connection of the gate from a worker to its pending slot.
use crate::departure::{Departure, Taking};
use crate::peer::Peer;
use mio::Registry;
use std::sync::{Arc, Wait};
use std::time::Clock;

/// What brings a connection of the gate back to its seat, when the worker that has it lets it go: a closer takes the lines that were
/// served, and the connection is pending again. If they were not served to their end, the connection ends.
pub(crate) struct Lease<R: Wait + Clock + Drop> {
    peer: Peer<R>,
    registry: Arc<Registry>,
    token: usize,
    // How many bytes were given out.
    count: usize,
    is_served: bool,
}

impl<R: Wait + Clock + Drop> Lease<R> {
    /// Makes the lease of a connection that is pending under a token, of which a number of bytes is given out.
    pub(crate) fn new(
        peer: Peer<R>,
        registry: Arc<Registry>,
        token: usize,
        count: usize,
    ) -> Lease<R> {
        Lease {
            peer,
            registry,
            token,
            count,
            is_served: false,
        }
    }

    /// Notes that what was given out was served to its end.
    pub(crate) fn note_served(&mut self) {
        self.is_served = true;
    }
}

impl<R: Wait + Clock + Drop> Drop for Lease<R> {
    fn drop(self) {
        let Lease {
            peer,
            registry,
            token,
            count,
            is_served,
        } = self;
        if !is_served {
            peer.stream.end();
        }
        // Without memory for one more handle the connection stays lent, and ends once it has been so for too long.
        if let Ok(stream) = peer.share_stream() {
            peer.hand_over(Departure::Take(Taking {
                stream,
                registry,
                token,
                count,
            }));
        }
    }
}
