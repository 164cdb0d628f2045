// `Arrival` and `Peer`: what a listener in memory finds, and a peer to connect to.
use crate::role::Role;
use crate::shared_sink::SharedSink;
use nsc_base::Bytes;
use nsc_outside::Release;

/// What a listener in memory finds.
#[derive(Drop)]
pub enum Arrival {
    /// A connection.
    Conn {
        /// The socket on which it comes.
        role: Role,
        /// All that the peer sends.
        input: Bytes,
        /// What takes what the peer is sent.
        output: SharedSink,
    },
    /// Nothing, once.
    Quiet,
    /// Nothing until this flag is found set, but 1,000 times at most.
    QuietUntil(Release),
}

/// Another process, to whose socket a listener in memory connects.
#[derive(Drop)]
pub struct Peer {
    /// All that it sends.
    pub input: Bytes,
    /// What takes what it is sent.
    pub output: SharedSink,
}
