//! What a worker has to do in its turn.
use rdm_wire::Frame;

/// What a worker has to do in its turn.
#[derive(Debug, Drop)]
pub enum Turn {
    /// Send this frame over the line, and deliver what comes back.
    Exchange(Frame),
    /// No frame may be sent now, and some client that joined hasn't left.
    Nothing,
    /// No frame may be sent, and each client that joined has left.
    AllLeft,
    /// The log has fewer than three free entries: no frame is taken any more.
    LogFull,
}
