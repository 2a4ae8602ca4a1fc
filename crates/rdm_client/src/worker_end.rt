//! Why a worker has stopped.

/// Why a worker has stopped: that of a port, which works with a mutex, or that of open lanes, which works with ring
/// buffers.
#[derive(Clone, Copy, Debug, PartialEq, Eq)]
pub enum WorkerEnd {
    /// Nobody is left to call, and there is no frame to send. With a mutex: each client that had joined by then has
    /// left. With ring buffers: all clients and the operator have left, and their rings of calls are empty. Outcomes
    /// may still wait for a free slot of their client's ring, or for memory.
    AllLeft,
    /// It has made all its turns.
    Turns,
    /// The log has fewer than three free entries.
    LogFull,
}
