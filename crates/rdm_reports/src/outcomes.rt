//! The outcomes of clients' calls, and what is printed for them.
ghost use Rattle.std.specs.Prelude.{◌≡◌, ◌++◌, [], IfOk, OnOk};
ghost use Rattle.rdm_wire.specs.Devices.{uids_of};
ghost use Rattle.rdm_reports.specs.SessionReport.{session_text, client_text, request_lines, discovery_lines};
ghost use Rattle.rdm_reports.specs.SessionReport.{request_line, discovery_line, whose};
ghost use Rattle.rdm_reports.specs.SessionReport.{completed_text, type_text, uids_text};

use crate::reporting::{write_fault, write_uid};
use itoa::Buffer;
use rdm_agent::AgentFault;
use rdm_client::{AskTold, Told};
use rdm_join::{ReplyHead, Status};
use rdm_wire::{AckType, Uid};
use std::alloc::{AllocError, Global};

/// The outcomes of a client's calls, those of its requests and of its discoveries, each as its callback returned it,
/// and how many turns the client made.
#[derive(Debug, Drop)]
pub struct Outcomes {
    /// How its requests ended.
    pub requests: Vec<Told>,
    /// How its discoveries ended.
    pub discoveries: Vec<Discovered>,
    /// How many turns the client made. A turn is one submit, discover or collect, with or without success.
    pub turns: u64,
}

/// What a discovery's callback returned. It has memory only for the UIDs of these devices, not for a whole set.
#[derive(Debug, Drop)]
pub struct Discovered {
    /// The callback's tag.
    pub tag: u64,
    /// Why its run ended early; None if it ended without fault.
    pub fault: Option<AgentFault>,
    /// The UIDs of the devices, ascending.
    pub uids: Vec<Uid>,
}

impl Outcomes {
    /// Nothing yet.
    pub fn new(alloc: Global) -> Outcomes
        ensures requests { result.requests.items ≡ [] }
        ensures discoveries { result.discoveries.items ≡ [] }
        ensures turns { result.turns ≡ 0 }
    {
        Outcomes {
            requests: Vec::new(alloc),
            discoveries: Vec::new(alloc),
            turns: 0,
        }
    }
}

impl Discovered {
    /// What a discovery's callback returned. Err: there was no memory.
    pub fn new(alloc: Global, told: &AskTold) -> Result<Discovered, AllocError>
        ensures tag { IfOk result (λ d. d.tag ≡ told.now.tag) }
        ensures fault { IfOk result (λ d. d.fault ≡ told.now.done.fault) }
        ensures uids { IfOk result (λ d. d.uids.items ≡ uids_of told.now.done.set) }
    {
        let mut uids = Vec::new(alloc);
        'devices: for device in told.done.devices() {
            uids.push(device.uid)?;
        }
        Ok(Discovered {
            tag: told.tag,
            fault: told.done.fault(),
            uids,
        })
    }
}

/// The lines of all clients, in their order: for each its requests, and then its discoveries. Err: there was no memory.
pub fn session_text(alloc: Global, outcomes: &[Outcomes]) -> Result<Vec<u8>, AllocError>
    ensures { IfOk result (λ text. text.items ≡ session_text outcomes.now) }
{
    let mut text = Vec::new(alloc);
    'clients: for client in 0..outcomes.len() {
        write_client(alloc, &mut text, client, &outcomes[client])?;
    }
    Ok(text)
}

fn write_client(
    alloc: Global,
    text: &mut Vec<u8>,
    client: usize,
    outcomes: &Outcomes,
) -> Result<(), AllocError>
    ensures { OnOk result (text.new.items ≡ text.old.items ++ client_text client outcomes.now) }
{
    write_requests(alloc, text, client, &outcomes.requests)?;
    write_discoveries(text, client, &outcomes.discoveries)
}

fn write_requests(
    alloc: Global,
    text: &mut Vec<u8>,
    client: usize,
    requests: &[Told],
) -> Result<(), AllocError>
    ensures { OnOk result (text.new.items ≡ text.old.items ++ request_lines client requests.now) }
{
    'requests: for number in 0..requests.len() {
        write_request(alloc, text, client, number, &requests[number])?;
    }
    Ok(())
}

fn write_discoveries(
    text: &mut Vec<u8>,
    client: usize,
    discoveries: &[Discovered],
) -> Result<(), AllocError>
    ensures { OnOk result (text.new.items ≡ text.old.items ++ discovery_lines client discoveries.now) }
{
    'discoveries: for number in 0..discoveries.len() {
        write_discovery(text, client, number, &discoveries[number])?;
    }
    Ok(())
}

fn write_request(
    alloc: Global,
    text: &mut Vec<u8>,
    client: usize,
    number: usize,
    told: &Told,
) -> Result<(), AllocError>
    ensures { OnOk result (text.new.items ≡ text.old.items ++ request_line client number told.now) }
{
    let done = &told.done;
    write_whose(text, client, b" request ", number)?;
    text.extend_from_slice(Buffer::new().format(done.status.number()).as_bytes())?;
    write_reply(alloc, text, done.status, &done.reply, &done.bytes)?;
    text.push(b'\n')?;
    Ok(())
}

fn write_discovery(
    text: &mut Vec<u8>,
    client: usize,
    number: usize,
    discovered: &Discovered,
) -> Result<(), AllocError>
    ensures { OnOk result (text.new.items ≡ text.old.items ++ discovery_line client number discovered.now) }
{
    write_whose(text, client, b" discovery ", number)?;
    if let Some(fault) = discovered.fault {
        return write_fault(text, fault);
    }
    text.extend_from_slice(b"ok")?;
    write_uids(text, &discovered.uids)?;
    text.push(b'\n')?;
    Ok(())
}

// The owner of an outcome.
fn write_whose(
    text: &mut Vec<u8>,
    client: usize,
    kind: &[u8],
    number: usize,
) -> Result<(), AllocError>
    ensures { OnOk result (text.new.items ≡ text.old.items ++ whose client kind.now number) }
{
    text.extend_from_slice(b"client ")?;
    text.extend_from_slice(Buffer::new().format(client).as_bytes())?;
    text.extend_from_slice(kind)?;
    text.extend_from_slice(Buffer::new().format(number).as_bytes())?;
    text.extend_from_slice(b": ")
}

// The type and the data of a completed request's reply.
fn write_reply(
    alloc: Global,
    text: &mut Vec<u8>,
    status: Status,
    reply: &Option<ReplyHead>,
    bytes: &[u8],
) -> Result<(), AllocError>
    ensures { OnOk result (text.new.items ≡ text.old.items ++ completed_text status reply.now bytes.now) }
{
    let (Status::Completed, Some(head)) = (status, reply) else {
        return Ok(());
    };
    text.extend_from_slice(type_text(head.ack))?;
    if bytes.is_empty() {
        text.push(b'-')?;
        return Ok(());
    }
    text.extend_from_slice(hex::encode(alloc, bytes)?.as_bytes())
}

// A blank, the number of a response type as two digits, and a blank.
fn type_text(ack: AckType) -> &'static [u8]
    ensures { result.now ≡ type_text ack }
{
    match ack {
        AckType::Ack => b" 00 ",
        AckType::Timer => b" 01 ",
        AckType::Nack => b" 02 ",
        AckType::Overflow => b" 03 ",
    }
}

// For each UID a blank and its text.
fn write_uids(text: &mut Vec<u8>, uids: &[Uid]) -> Result<(), AllocError>
    ensures { OnOk result (text.new.items ≡ text.old.items ++ uids_text uids.now) }
{
    'uids: for uid in uids {
        text.push(b' ')?;
        write_uid(text, *uid)?;
    }
    Ok(())
}
