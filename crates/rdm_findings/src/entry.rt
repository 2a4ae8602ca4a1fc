//! Reads the line of an entry.
ghost use Rattle.std.specs.Prelude.{IfSome};
ghost use Rattle.rdm_findings.specs.SameLines.{Has64Bits, FitsCall, FitsEntry, FitsEvent, FitsFault, FitsOwner};
ghost use Rattle.rdm_findings.specs.SameLines.{FitsRequest};

use crate::fields::{between, bytes, digits, has, medium, number, small, uid};
use rdm_agent::{AgentFault, Kind};
use rdm_join::{LineEvent, Status};
use rdm_log::{Call, Cause, ClientId, Entry, Owner};
use rdm_wire::{ReqClass, Request};

/// The entry that a line seems to have.
pub(crate) fn entry(line: &str) -> Option<Entry>
    ensures { IfSome result FitsEntry }
{
    match between(line, "{\"entry\":\"", "\"")? {
        "join" => join(line),
        "refuse" => refuse(line),
        "accept" => accept(line),
        "ask" => ask(line),
        "send" => send(line),
        "came" => came(line),
        "finish" => finish(line),
        "answer" => answer(line),
        "collect" => collect(line),
        "pause" => Some(Entry::Pause),
        "resume" => Some(Entry::Resume),
        "close" => Some(Entry::Close),
        _ => None,
    }
}

fn client(line: &str) -> Option<ClientId>
    ensures { IfSome result (λ c. Has64Bits c.0) }
{
    Some(ClientId(small(line, "\"client\":")?))
}

fn join(line: &str) -> Option<Entry>
    ensures { IfSome result FitsEntry }
{
    Some(Entry::Join {
        client: client(line)?,
        places: small(line, "\"places\":")?,
    })
}

fn refuse(line: &str) -> Option<Entry>
    ensures { IfSome result FitsEntry }
{
    Some(Entry::Refuse {
        client: client(line),
        call: call(line)?,
        cause: Cause(small(line, "\"cause\":")?),
    })
}

fn call(line: &str) -> Option<Call>
    ensures { IfSome result FitsCall }
{
    if has(line, "\"places\":") {
        Some(Call::Join(small(line, "\"places\":")?))
    } else if has(line, "\"discover\":") {
        Some(Call::Discover(kind(line)?))
    } else {
        Some(Call::Submit(request(line)?))
    }
}

fn accept(line: &str) -> Option<Entry>
    ensures { IfSome result FitsEntry }
{
    Some(Entry::Accept {
        client: client(line)?,
        number: number(line, "\"number\":")?,
        request: request(line)?,
    })
}

fn ask(line: &str) -> Option<Entry>
    ensures { IfSome result FitsEntry }
{
    Some(Entry::Ask {
        client: client(line)?,
        number: number(line, "\"number\":")?,
        kind: kind(line)?,
    })
}

fn send(line: &str) -> Option<Entry>
    ensures { IfSome result FitsEntry }
{
    Some(Entry::Send {
        owner: owner(line)?,
        frame: bytes(line, "\"frame\":\"")?,
    })
}

fn owner(line: &str) -> Option<Owner>
    ensures { IfSome result FitsOwner }
{
    match number(line, "\"run\":") {
        Some(run) => Some(Owner::Run(run)),
        None => Some(Owner::Request(number(line, "\"request\":")?)),
    }
}

fn came(line: &str) -> Option<Entry>
    ensures { IfSome result FitsEntry }
{
    Some(Entry::Came {
        event: event(line)?,
    })
}

/// What came, by a line that has it.
pub(crate) fn event(line: &str) -> Option<LineEvent>
    ensures { IfSome result FitsEvent }
{
    if has(line, "\"failed\":") {
        Some(LineEvent::Failed)
    } else {
        Some(LineEvent::Reply(bytes(line, "\"reply\":\"")?))
    }
}

fn finish(line: &str) -> Option<Entry>
    ensures { IfSome result FitsEntry }
{
    Some(Entry::Finish {
        number: number(line, "\"number\":")?,
        status: status(number(line, "\"status\":")?)?,
        len: number(line, "\"length\":")? as usize,
    })
}

// The status with this number.
fn status(number: u64) -> Option<Status> {
    Some(match number {
        0 => Status::Completed,
        1 => Status::WasBroadcast,
        2 => Status::FailedToSend,
        3 => Status::Timeout,
        4 => Status::InvalidResponse,
        5 => Status::TooShort,
        6 => Status::WrongStart,
        7 => Status::WrongSubStart,
        8 => Status::LengthMismatch,
        9 => Status::ParamLengthMismatch,
        10 => Status::Checksum,
        11 => Status::InvalidClass,
        12 => Status::InvalidResponseType,
        13 => Status::TransactionMismatch,
        14 => Status::SubDeviceMismatch,
        15 => Status::SourceMismatch,
        16 => Status::DestMismatch,
        17 => Status::ClassMismatch,
        18 => Status::NoMemory,
        _ => return None,
    })
}

fn answer(line: &str) -> Option<Entry>
    ensures { IfSome result FitsEntry }
{
    let fault = if has(line, "\"fault\":") {
        Some(fault(line)?)
    } else {
        None
    };
    Some(Entry::Answer {
        number: number(line, "\"number\":")?,
        run: number(line, "\"run\":")?,
        fault,
    })
}

fn fault(line: &str) -> Option<AgentFault>
    ensures { IfSome result FitsFault }
{
    match number(line, "\"fault\":")? {
        1 => Some(AgentFault::Corrupt(uid(line, "\"uid\":\"")?)),
        2 => Some(AgentFault::TooMany),
        3 => Some(AgentFault::Exhausted),
        4 => Some(AgentFault::LineFailed),
        5 => Some(AgentFault::Aborted),
        _ => None,
    }
}

fn collect(line: &str) -> Option<Entry>
    ensures { IfSome result FitsEntry }
{
    Some(Entry::Collect {
        client: client(line)?,
    })
}

/// The kind of a discovery, by a line that has it.
pub(crate) fn kind(line: &str) -> Option<Kind> {
    match between(line, "\"discover\":\"", "\"")? {
        "full" => Some(Kind::Full),
        "incremental" => Some(Kind::Incremental),
        _ => None,
    }
}

fn request(line: &str) -> Option<Request>
    ensures { IfSome result FitsRequest }
{
    let (class, target) = match uid(line, "\"get\":\"") {
        Some(target) => (ReqClass::Get, target),
        None => (ReqClass::Set, uid(line, "\"set\":\"")?),
    };
    Some(Request {
        target,
        sub_device: medium(line, "\"sub\":")?,
        class,
        pid: digits(line, "\"pid\":\"")?,
        param: bytes(line, "\"param\":\"")?,
    })
}
