// Whether a peer still waits for its reply.

/// Tells of a peer whether it still waits.
pub trait Attended {
    /// Tells whether the peer has closed its end, so that no reply reaches it.
    fn has_gone(&self) -> bool;
}
