//! The two kinds of port of a session.

/// How the clients of a session and its worker share it.
#[derive(Clone, Copy, Debug, PartialEq, Eq)]
pub enum PortKind {
    /// With a mutex.
    Locked,
    /// With two ring buffers for each client.
    Rings,
}
