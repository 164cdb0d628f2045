/// What may be asked on a socket.
#[derive(Clone, Copy, Debug, PartialEq, Eq)]
pub enum Role {
    /// Lookups.
    Plain,
    /// Lookups, and the control requests of nscd(8).
    Admin,
    /// Lines of the gate.
    Gate,
}
