//! What came from the line.
ghost use Rattle.std.specs.Prelude.{◌≡◌};
ghost use Rattle.rdm_join.specs.Exchange.{event_of};

use arrayvec::ArrayVec;
use rdm_wire::MOST_FRAME_BYTES;
use thiserror::Error;

/// The bytes that came after a frame: at most 257. No bytes are silence.
pub type LineReply = ArrayVec<u8, MOST_FRAME_BYTES>;

/// What the line answered to a frame.
#[derive(Debug, Drop)]
pub enum LineEvent {
    /// These bytes came. No bytes are silence.
    Reply(LineReply),
    /// The line failed, so it isn't known what the devices received.
    Failed,
}

impl LineEvent {
    /// A copy of the event. It copies only the bytes that came.
    pub fn copied(&self) -> LineEvent
        ensures { result ≡ self.now }
    {
        match self {
            LineEvent::Reply(bytes) => LineEvent::Reply(copy_of_reply(bytes)),
            LineEvent::Failed => LineEvent::Failed,
        }
    }
}

/// The line failed, so it isn't known what the devices received.
#[derive(Clone, Copy, Debug, PartialEq, Eq, Error)]
#[error("the line failed")]
pub struct LineFault;

impl From<Result<LineReply, LineFault>> for LineEvent {
    ghost from_gives = { λ answer event. event ≡ event_of answer };

    fn from(answer: Result<LineReply, LineFault>) -> LineEvent {
        match answer {
            Ok(reply) => LineEvent::Reply(reply),
            Err(LineFault) => LineEvent::Failed,
        }
    }
}

/// The same reply again. It allocates nothing.
pub fn copy_of_reply(reply: &LineReply) -> LineReply
    ensures { result ≡ reply.now }
{
    ArrayVec::try_from(reply.as_slice()).unwrap()
}
