// Threads that take connections beside the one that listens.

/// Takes connections of the plain socket, in a thread of its own.
pub trait Helps<R, K> {
    /// Gives the next connection, for which it may wait: what its peer sends, and what its peer is sent. `None` once the listener is
    /// closed.
    fn next(&mut self) -> Option<(R, K)>;
}

/// Takes no connection: a listener in memory has no helper.
#[derive(Clone, Copy, Debug, PartialEq, Eq)]
pub struct NoHelper;

impl<R, K> Helps<R, K> for NoHelper {
    fn next(&mut self) -> Option<(R, K)> {
        None
    }
}
