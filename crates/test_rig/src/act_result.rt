//! Results of acts, in short.
//!
//! An outcome may hold a device set, which is large. It is taken and compared in one function, which isn't inlined, and
//! tests only get the result.
use crate::found::{Ending, Found, ending_by, found_in};
use crate::refusal::Refusal;
use crate::setup::{pid_of, sub_device_of};
use rdm_agent::AgentFault;
use rdm_client::{BoxedAsk, Collected};
use rdm_join::{ReplyHead, Status};
use rdm_log::{BoxedOutcome, Completion, Outcome};
use rdm_wire::{AckType, RespClass};

/// Why a worker stopped.
#[derive(Clone, Copy, Debug, PartialEq, Eq)]
pub enum Stop {
    /// It made all its turns.
    Turns,
    /// All clients have left, and there is no frame to send. In a session in one thread clients don't leave: there it
    /// means that no frame is left to send.
    AllLeft,
    /// The log is full.
    LogFull,
}

/// The result of an act.
#[derive(Clone, Copy, Debug, PartialEq, Eq)]
pub enum ActResult {
    /// There was nothing to collect, take or deliver, there is no such client, or the stage doesn't support the act.
    Nothing,
    /// It was done, or sent.
    Done,
    /// The call was accepted with this number, or the client joined with it.
    Number(u64),
    /// The frame that was taken has this transaction number.
    Frame(u8),
    /// The worker stopped like this.
    Worked(Stop),
    /// The call was refused.
    Refused(Refusal),
    /// The request with this tag, or number, ended with this status, without data.
    Request(u64, Status),
    /// It was completed by a device, with these two bytes.
    Answered(u64, u8, u8),
    /// It was completed by a device, with this many bytes.
    Data(u64, usize),
    /// The discovery with this tag, or number: its run, how that ended, and what it found.
    Discovery(u64, u64, Ending, Found),
    /// The devices that are known are those of this run.
    Sees(u64, Found),
    /// What was returned isn't what was passed in, or belongs to another request.
    Mixed,
}

/// What a client collected. The number of a request or a discovery is its callback's tag.
pub fn told(collected: &Option<Collected>) -> ActResult {
    match collected {
        None => ActResult::Nothing,
        Some(Collected::Request(told)) => of_request(told.tag, &told.done),
        Some(Collected::Ask(told)) => {
            let done = &told.done;
            of_discovery(told.tag, done.run(), done.fault(), found_by(done))
        }
    }
}

/// What a session's outcome says. If it has no number, the number is one that is never given.
#[inline(never)]
pub fn outcome_told(outcome: &Option<Outcome>) -> ActResult {
    match outcome {
        None => ActResult::Nothing,
        Some(Outcome::Request { number, done }) => of_request(number.unwrap_or(u64::MAX), done),
        Some(Outcome::Discovery { number, done }) => {
            let number = number.unwrap_or(u64::MAX);
            of_discovery(number, done.run, done.fault, found_in(&done.set))
        }
    }
}

/// What a boxed outcome says.
pub fn boxed_told(outcome: &BoxedOutcome) -> ActResult {
    match outcome {
        BoxedOutcome::Request { number, done } => of_request(*number, done),
        BoxedOutcome::Discovery { end, set } => {
            of_discovery(end.number, end.run, end.fault, found_in(set))
        }
    }
}

/// What a session's completion says.
pub fn completion_told(completion: &Option<(u64, Completion)>) -> ActResult {
    match completion {
        None => ActResult::Nothing,
        Some((number, done)) => of_request(*number, done),
    }
}

// How the request with this tag ended. There is a reply only for status Completed, and it is the device's reply to that
// request.
fn of_request(tag: u64, done: &Completion) -> ActResult {
    match &done.reply {
        None if done.status == Status::Completed || !done.bytes.is_empty() => ActResult::Mixed,
        None => ActResult::Request(tag, done.status),
        Some(head) if done.status == Status::Completed && is_of(head, tag) => {
            of_data(tag, done.bytes.as_slice())
        }
        Some(_) => ActResult::Mixed,
    }
}

// Whether it is the head of an ACK to the request with this tag.
fn is_of(head: &ReplyHead, tag: u64) -> bool {
    head.ack == AckType::Ack
        && head.class == RespClass::Get
        && head.pid == pid_of(tag)
        && head.sub_device == sub_device_of(tag)
}

// The data of the request with this tag.
fn of_data(tag: u64, bytes: &[u8]) -> ActResult {
    match bytes {
        [first, second] => ActResult::Answered(tag, *first, *second),
        _ => ActResult::Data(tag, bytes.len()),
    }
}

// Which devices the discovery found.
fn found_by(done: &BoxedAsk) -> Found {
    match done.set() {
        Some(set) => found_in(set),
        None => Found::Nobody,
    }
}

// How the discovery with this tag ended.
fn of_discovery(tag: u64, run: u64, fault: Option<AgentFault>, found: Found) -> ActResult {
    ActResult::Discovery(tag, run, ending_by(fault), found)
}
