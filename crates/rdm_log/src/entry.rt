//! What a log holds.
use crate::broken::BrokenAnswers;
use arrayvec::ArrayVec;
use rdm_agent::{AgentFault, Kind, Search};
use rdm_join::{LineEvent, Status};
use rdm_wire::{DeviceSet, Frame, Request, Uid};
use std::mem::size_of;

/// How many clients may join.
pub const MOST_CLIENTS: usize = 16;

/// The number that no request gets: if it would be the next one, the numbers have run out.
pub const NEVER_GIVEN: u64 = u64::MAX;

/// How many discoveries a client may have outstanding.
pub const MOST_DISCOVERIES: usize = 4;

/// The number that no discovery gets: if it would be the next one, the numbers have run out.
pub const NEVER_GIVEN_TO_A_DISCOVERY: u64 = u64::MAX - 1;

/// A client, numbered from 0 in the order of joining.
#[derive(Clone, Copy, Debug, PartialEq, Eq)]
pub struct ClientId(pub u8);

/// A call that was refused, with its arguments.
#[derive(Debug, Drop)]
pub enum Call {
    /// A join with this queue depth.
    Join(u8),
    /// A submit of this request.
    Submit(Request),
    /// A discover of this kind.
    Discover(Kind),
}

/// What a frame belongs to.
#[derive(Clone, Copy, Debug, PartialEq, Eq)]
pub enum Owner {
    /// The request with this number.
    Request(u64),
    /// The discovery run with this number. Runs are numbered from 1.
    Run(u64),
}

/// The number of the fault that refused a call. The faults that leave an entry are numbered from 1 in the order in
/// which they are tested.
#[derive(Clone, Copy, Debug, PartialEq, Eq)]
pub struct Cause(pub u8);

/// One entry of a log.
#[derive(Debug, Drop)]
pub enum Entry {
    /// A client joined.
    Join {
        /// The client.
        client: ClientId,
        /// Its queue depth: how many requests it may have outstanding.
        places: u8,
    },
    /// A call was refused.
    Refuse {
        /// The caller; None for a join.
        client: Option<ClientId>,
        /// What was called.
        call: Call,
        /// Why it was refused.
        cause: Cause,
    },
    /// A request was accepted.
    Accept {
        /// Who submitted it.
        client: ClientId,
        /// Its number.
        number: u64,
        /// The request.
        request: Request,
    },
    /// A discovery was accepted.
    Ask {
        /// Who asked for it.
        client: ClientId,
        /// Its number.
        number: u64,
        /// Its kind. A run is full if one of the discoveries that it serves is.
        kind: Kind,
    },
    /// A frame was returned, for the line.
    Send {
        /// Its owner.
        owner: Owner,
        /// Its bytes.
        frame: Frame,
    },
    /// The line's answer to the last frame.
    Came {
        /// What came.
        event: LineEvent,
    },
    /// A request was finished. With status Completed its data are those of the replies to its frames, joined in
    /// order.
    Finish {
        /// The request's number.
        number: u64,
        /// How it ended.
        status: Status,
        /// The length of its joined data in bytes; 0 for each status but Completed.
        len: usize,
    },
    /// A discovery was answered. Its set is that of its run: each device whose mute was acknowledged in that run's
    /// exchanges, as its first acknowledgement describes it. If there are more than 1,024, it has the first 1,024.
    Answer {
        /// The discovery's number.
        number: u64,
        /// The run that served it; 0 if none was begun for it.
        run: u64,
        /// Why the run ended early; None if it ended without fault.
        fault: Option<AgentFault>,
    },
    /// A client collected its oldest outcome.
    Collect {
        /// The client.
        client: ClientId,
    },
    /// Sending was paused.
    Pause,
    /// Sending was resumed.
    Resume,
    /// The queue was closed.
    Close,
}

const _: () = prove!(size_of::<Entry>() == 296);

/// The state of the queue before a log's first entry. A number that is "next" is the one that will be used next.
#[derive(Debug, Drop)]
pub struct Opening {
    /// The controller's own UID.
    pub source: Uid,
    /// The greatest sum of all clients' queue depths.
    pub greatest: u16,
    /// How many frames a discovery run may send.
    pub budget: u64,
    /// How all runs search.
    pub search: Search,
    /// The queue depth of each client that had joined.
    pub places: ArrayVec<u8, MOST_CLIENTS>,
    /// Whether sending was paused.
    pub paused: bool,
    /// Whether the queue was closed.
    pub closed: bool,
    /// The devices of the last run without fault; none before the first.
    pub devices: DeviceSet,
    /// The run that found the devices; 0 before the first.
    pub devices_run: u64,
    /// What GETs asked for whose answers broke off.
    pub broken: BrokenAnswers,
    /// The next request's number.
    pub next_request: u64,
    /// The next discovery's number.
    pub next_ask: u64,
    /// The next run's number. A session's first run is number 1.
    pub next_run: u64,
    /// The next frame's transaction number.
    pub next_tn: u8,
}
