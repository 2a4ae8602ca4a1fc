//! What is written to a log: each entry of a session's log, and each exchange of a discovery, as a JSON object on a
//! line of its own.
ghost use Rattle.std.specs.Prelude.{◌≡◌, ◌++◌, Some, IfOk, OnOk, codes};
ghost use Rattle.rdm_wire.specs.Bytes.{two_bytes};
ghost use Rattle.rdm_wire.specs.UidText.{uid_text};
ghost use Rattle.rdm_join.specs.Statuses.{number_of_status};
ghost use Rattle.rdm_reports.specs.Writing.{Logs};
ghost use Rattle.rdm_reports.specs.LogText.{number_member, text_member, bytes_member, request_members, kind_member};
ghost use Rattle.rdm_reports.specs.LogText.{call_members, caller_member, asked_members, owner_member, event_member};
ghost use Rattle.rdm_reports.specs.LogText.{class_key, fault_members, entry_name, entry_members, entry_line, log_text};
ghost use Rattle.rdm_reports.specs.LogText.{operation_text, exchange_line};

use crate::log_output::LogOutput;
use itoa::Buffer;
use rdm_agent::{AgentFault, Kind};
use rdm_join::{LineEvent, Status};
use rdm_log::{Call, Cause, ClientId, Entry, Owner};
use rdm_wire::{Frame, ReqClass, Request};
use std::alloc::{AllocError, Global};
use std::io::Write;

/// Writes the entries of a session's log, oldest first. If memory runs out, the log fails.
pub fn write_entries<W: Write>(alloc: Global, log: &mut LogOutput<W>, entries: &[Entry])
    ensures { Logs log.old log.new (log_text entries.now) }
{
    'entries: for entry in entries {
        write_entry(alloc, log, entry);
    }
}

fn write_entry<W: Write>(alloc: Global, log: &mut LogOutput<W>, entry: &Entry)
    ensures { Logs log.old log.new (entry_line entry.now) }
{
    if !log.would_write() {
        return;
    }
    match entry_line(alloc, entry) {
        Ok(line) => log.write(&line),
        Err(_) => log.fail(),
    }
}

/// Writes an exchange of a discovery. If memory runs out, the log fails.
pub(crate) fn write_exchange<W: Write>(
    alloc: Global,
    log: &mut LogOutput<W>,
    number: u64,
    frame: &Frame,
    event: &LineEvent,
)
    ensures { Logs log.old log.new (exchange_line number (frame.now, event.now)) }
{
    if !log.would_write() {
        return;
    }
    match exchange_line(alloc, number, frame, event) {
        Ok(line) => log.write(&line),
        Err(_) => log.fail(),
    }
}

/// The line of an entry, with its newline. Err: there was no memory.
pub fn entry_line(alloc: Global, entry: &Entry) -> Result<Vec<u8>, AllocError>
    ensures { IfOk result (λ line. line.items ≡ entry_line entry.now) }
{
    let mut line = Vec::new(alloc);
    line.extend_from_slice(b"{\"entry\":\"")?;
    line.extend_from_slice(entry_name(entry))?;
    line.extend_from_slice(b"\"")?;
    write_members(alloc, &mut line, entry)?;
    line.extend_from_slice(b"}\n")?;
    Ok(line)
}

/// The line of a discovery's exchange, with its newline. Err: there was no memory.
pub fn exchange_line(
    alloc: Global,
    number: u64,
    frame: &Frame,
    event: &LineEvent,
) -> Result<Vec<u8>, AllocError>
    ensures { IfOk result (λ line. line.items ≡ exchange_line number (frame.now, event.now)) }
{
    let mut line = Vec::new(alloc);
    line.extend_from_slice(b"{\"number\":")?;
    line.extend_from_slice(Buffer::new().format(number).as_bytes())?;
    write_text(&mut line, "operation", operation_text(frame))?;
    write_bytes(alloc, &mut line, "frame", frame.as_slice())?;
    write_event(alloc, &mut line, event)?;
    line.extend_from_slice(b"}\n")?;
    Ok(line)
}

const FAILED: &[u8] = b",\"failed\":true";

// The operation of a discovery's frame, by the low byte of its PID.
fn operation_text(frame: &Frame) -> &'static [u8]
    ensures { result.now ≡ operation_text frame.now.items }
{
    match frame.as_slice().get(22) {
        Some(1) => b"branch",
        Some(2) => b"mute",
        _ => b"unmute",
    }
}

fn entry_name(entry: &Entry) -> &'static [u8]
    ensures { result.now ≡ entry_name entry.now }
{
    match entry {
        Entry::Join { .. } => b"join",
        Entry::Refuse { .. } => b"refuse",
        Entry::Accept { .. } => b"accept",
        Entry::Ask { .. } => b"ask",
        Entry::Send { .. } => b"send",
        Entry::Came { .. } => b"came",
        Entry::Finish { .. } => b"finish",
        Entry::Answer { .. } => b"answer",
        Entry::Collect { .. } => b"collect",
        Entry::Pause => b"pause",
        Entry::Resume => b"resume",
        Entry::Close => b"close",
    }
}

// The members of an entry.
fn write_members(alloc: Global, text: &mut Vec<u8>, entry: &Entry) -> Result<(), AllocError>
    ensures { OnOk result (text.new.items ≡ text.old.items ++ entry_members entry.now) }
{
    match entry {
        Entry::Join { client, places } => write_join(text, *client, *places),
        Entry::Refuse {
            client,
            call,
            cause,
        } => write_refuse(alloc, text, client, call, *cause),
        Entry::Accept {
            client,
            number,
            request,
        } => write_accept(alloc, text, *client, *number, request),
        Entry::Ask {
            client,
            number,
            kind,
        } => write_ask(text, *client, *number, *kind),
        Entry::Send { owner, frame } => write_send(alloc, text, *owner, frame),
        Entry::Came { event } => write_event(alloc, text, event),
        Entry::Finish {
            number,
            status,
            len,
        } => write_finish(text, *number, *status, *len),
        Entry::Answer { number, run, fault } => write_answer(text, *number, *run, *fault),
        Entry::Collect { client } => write_number(text, "client", u64::from(client.0)),
        Entry::Pause | Entry::Resume | Entry::Close => Ok(()),
    }
}

fn write_join(text: &mut Vec<u8>, client: ClientId, places: u8) -> Result<(), AllocError>
    ensures { OnOk result (text.new.items ≡ text.old.items
        ++ number_member (codes "client") client.0 ++ number_member (codes "places") places) }
{
    write_number(text, "client", u64::from(client.0))?;
    write_number(text, "places", u64::from(places))
}

fn write_refuse(
    alloc: Global,
    text: &mut Vec<u8>,
    client: &Option<ClientId>,
    call: &Call,
    cause: Cause,
) -> Result<(), AllocError>
    ensures { OnOk result (text.new.items ≡ text.old.items
        ++ caller_member client.now ++ call_members call.now ++ number_member (codes "cause") cause.0) }
{
    if let Some(client) = client {
        write_number(text, "client", u64::from(client.0))?;
    }
    match call {
        Call::Join(places) => write_number(text, "places", u64::from(*places))?,
        Call::Submit(request) => write_request(alloc, text, request)?,
        Call::Discover(kind) => write_kind(text, *kind)?,
    }
    write_number(text, "cause", u64::from(cause.0))
}

fn write_accept(
    alloc: Global,
    text: &mut Vec<u8>,
    client: ClientId,
    number: u64,
    request: &Request,
) -> Result<(), AllocError>
    ensures { OnOk result (text.new.items
        ≡ text.old.items ++ asked_members client number ++ request_members request.now) }
{
    write_asked(text, client, number)?;
    write_request(alloc, text, request)
}

fn write_ask(
    text: &mut Vec<u8>,
    client: ClientId,
    number: u64,
    kind: Kind,
) -> Result<(), AllocError>
    ensures { OnOk result (text.new.items ≡ text.old.items ++ asked_members client number ++ kind_member kind) }
{
    write_asked(text, client, number)?;
    write_kind(text, kind)
}

fn write_send(
    alloc: Global,
    text: &mut Vec<u8>,
    owner: Owner,
    frame: &Frame,
) -> Result<(), AllocError>
    ensures { OnOk result (text.new.items
        ≡ text.old.items ++ owner_member owner ++ bytes_member (codes "frame") frame.now.items) }
{
    match owner {
        Owner::Request(number) => write_number(text, "request", number)?,
        Owner::Run(number) => write_number(text, "run", number)?,
    }
    write_bytes(alloc, text, "frame", frame.as_slice())
}

fn write_event(alloc: Global, text: &mut Vec<u8>, event: &LineEvent) -> Result<(), AllocError>
    ensures { OnOk result (text.new.items ≡ text.old.items ++ event_member event.now) }
{
    match event {
        LineEvent::Reply(bytes) => write_bytes(alloc, text, "reply", bytes.as_slice()),
        LineEvent::Failed => text.extend_from_slice(FAILED),
    }
}

fn write_finish(
    text: &mut Vec<u8>,
    number: u64,
    status: Status,
    len: usize,
) -> Result<(), AllocError>
    ensures { OnOk result (text.new.items ≡ text.old.items ++ number_member (codes "number") number
        ++ number_member (codes "status") (number_of_status status) ++ number_member (codes "length") len) }
{
    write_number(text, "number", number)?;
    write_number(text, "status", u64::from(status.number()))?;
    write_number(text, "length", len as u64)
}

fn write_answer(
    text: &mut Vec<u8>,
    number: u64,
    run: u64,
    fault: Option<AgentFault>,
) -> Result<(), AllocError>
    ensures { OnOk result (text.new.items ≡ text.old.items ++ number_member (codes "number") number
        ++ number_member (codes "run") run ++ fault_members fault) }
{
    write_number(text, "number", number)?;
    write_number(text, "run", run)?;
    match fault {
        Some(fault) => write_fault(text, &fault),
        None => Ok(()),
    }
}

fn write_fault(text: &mut Vec<u8>, fault: &AgentFault) -> Result<(), AllocError>
    ensures { OnOk result (text.new.items ≡ text.old.items ++ fault_members (Some fault.now)) }
{
    write_number(text, "fault", u64::from(fault.number()))?;
    match fault {
        AgentFault::Corrupt(uid) => write_text(text, "uid", &uid.to_text()),
        _ => Ok(()),
    }
}

fn write_asked(text: &mut Vec<u8>, client: ClientId, number: u64) -> Result<(), AllocError>
    ensures { OnOk result (text.new.items ≡ text.old.items ++ asked_members client number) }
{
    write_number(text, "client", u64::from(client.0))?;
    write_number(text, "number", number)
}

fn write_request(alloc: Global, text: &mut Vec<u8>, request: &Request) -> Result<(), AllocError>
    ensures { OnOk result (text.new.items ≡ text.old.items ++ request_members request.now) }
{
    write_target(text, request)?;
    write_pid(alloc, text, request.pid)?;
    write_number(text, "sub", u64::from(request.sub_device))?;
    write_bytes(alloc, text, "param", request.param.as_slice())
}

fn write_target(text: &mut Vec<u8>, request: &Request) -> Result<(), AllocError>
    ensures { OnOk result (text.new.items
        ≡ text.old.items ++ text_member (class_key request.now.class) (uid_text request.now.target)) }
{
    write_text(text, class_key(request.class), &request.target.to_text())
}

fn write_pid(alloc: Global, text: &mut Vec<u8>, pid: u16) -> Result<(), AllocError>
    ensures { OnOk result (text.new.items ≡ text.old.items ++ bytes_member (codes "pid") (two_bytes pid)) }
{
    write_bytes(alloc, text, "pid", &pid.to_be_bytes())
}

fn class_key(class: ReqClass) -> &'static str
    ensures { result.now ≡ class_key class }
{
    match class {
        ReqClass::Get => "get",
        ReqClass::Set => "set",
    }
}

pub(crate) fn write_kind(text: &mut Vec<u8>, kind: Kind) -> Result<(), AllocError>
    ensures { OnOk result (text.new.items ≡ text.old.items ++ kind_member kind) }
{
    match kind {
        Kind::Full => write_text(text, "discover", b"full"),
        Kind::Incremental => write_text(text, "discover", b"incremental"),
    }
}

// A member with a number.
pub(crate) fn write_number(text: &mut Vec<u8>, key: &str, number: u64) -> Result<(), AllocError>
    ensures { OnOk result (text.new.items ≡ text.old.items ++ number_member key.now number) }
{
    write_key(text, key)?;
    text.extend_from_slice(Buffer::new().format(number).as_bytes())
}

// A member with bytes in hexadecimal.
pub(crate) fn write_bytes(
    alloc: Global,
    text: &mut Vec<u8>,
    key: &str,
    bytes: &[u8],
) -> Result<(), AllocError>
    ensures { OnOk result (text.new.items ≡ text.old.items ++ bytes_member key.now bytes.now) }
{
    write_text(text, key, hex::encode(alloc, bytes)?.as_bytes())
}

// A member with a text.
pub(crate) fn write_text(text: &mut Vec<u8>, key: &str, value: &[u8]) -> Result<(), AllocError>
    ensures { OnOk result (text.new.items ≡ text.old.items ++ text_member key.now value.now) }
{
    write_key(text, key)?;
    text.push(b'"')?;
    text.extend_from_slice(value)?;
    text.push(b'"')?;
    Ok(())
}

// A member's key, after the members before it.
pub(crate) fn write_key(text: &mut Vec<u8>, key: &str) -> Result<(), AllocError>
    ensures { OnOk result (text.new.items ≡ text.old.items ++ codes ",\"" ++ key.now ++ codes "\":") }
{
    text.extend_from_slice(b",\"")?;
    text.extend_from_slice(key.as_bytes())?;
    text.extend_from_slice(b"\":")
}
