//! What a program needs to embed the queue in one thread: the names of the crates below, so that it lists this one.
//! Each name is documented where it is defined. Sessions in threads are in `rdm_locked` and `rdm_lanes`.
//!
//! A program's own contracts can cite the definitions of these crates by this one, such as
//! `Rattle.rdm.specs.log.Legal.Legal`.
#![tactic(auto)]

pub use rdm_agent::{Agent, AgentFault, DEFAULT_BUDGET, Kind, Op, OpReply, Search};
pub use rdm_join::{LineEvent, LineReply, ReplyHead, Status};
pub use rdm_line::{
    AddFault, Asks, Collision, CollisionBytes, Counted, LATEST_ARRIVAL, Line, LineFault, Parameter,
    ParameterPart, Parameters, Scene, SceneDevice, SceneDevices, SimLine, StreamLine, TapeLine,
};
pub use rdm_queue::{
    Answer, AskCompletion, AskFault, BoxedOutcome, Call, Cause, ClientId, Completion, Config,
    Controller, DiscoveryEnd, Entry, Event, JoinFault, LEAST_FREE, Log, LogFull, MOST_CLIENTS,
    MOST_DISCOVERIES, MOST_FREE_ENTRIES, MOST_PLACES, NoMemory, NotAsked, NotIdle, Oldest, Opening,
    Outcome, OutcomeKind, Owner, Session, Setup, SubmitFault, TakesDevices, Work, WorkFault,
};
pub use rdm_wire::{
    AckType, BranchReply, Device, DeviceSet, Frame, MOST_DEVICES, MOST_PARAMETER_BYTES, MuteAck,
    QUEUED_MESSAGE, ReqClass, Request, RespClass, Response, SetFull, Uid, UidFault, UidRange,
    UidSet,
};
