//! The calls of a session, each as one value, and their results.
use crate::entry::ClientId;
use crate::fault::{AskFault, JoinFault, LogFull, NotAsked, SubmitFault};
use crate::outcome::BoxedOutcome;
use rdm_agent::Kind;
use rdm_join::LineEvent;
use rdm_wire::{Frame, NoMemory, Request};
use std::mem::size_of;

/// A call of a session.
#[derive(Debug, Drop)]
pub enum Event {
    /// A client joins, with this queue depth.
    Join(u8),
    /// A client submits a request.
    Submit(ClientId, Request),
    /// A client asks for a discovery.
    Discover(ClientId, Kind),
    /// Sending is paused.
    Pause,
    /// Sending is resumed.
    Resume,
    /// The queue is closed.
    Close,
    /// The next frame is taken for the line.
    Take,
    /// What came for the last frame is delivered.
    Deliver(LineEvent),
    /// A client collects its oldest outcome.
    Collect(ClientId),
}

/// A session's answer to an event: the result of the call with that name.
#[derive(Debug, Drop)]
pub enum Answer {
    /// The client, or why it may not join.
    Join(Result<ClientId, JoinFault>),
    /// The request's number, or why it isn't accepted, with the request.
    Submit(Result<u64, (SubmitFault, Request)>),
    /// The discovery's number, or why it isn't accepted.
    Discover(Result<u64, AskFault>),
    /// Done, or the log is full.
    Pause(Result<(), LogFull>),
    /// Done, or the log is full.
    Resume(Result<(), LogFull>),
    /// Done.
    Close,
    /// The frame, or None if none may be sent; or the log is full.
    Take(Result<Option<Frame>, LogFull>),
    /// Done; or no reply was awaited, and the event is returned.
    Deliver(Result<(), (NotAsked, LineEvent)>),
    /// The outcome, or None if there is none. Or no memory for the set of a discovery: nothing has changed, and the
    /// client's next collect finds the same outcome.
    Collect(Result<Option<BoxedOutcome>, NoMemory>),
}

const _: () = prove!(size_of::<Answer>() == 296);
