//! The first line of a log, and a log with it: the opening has the state before what follows.
ghost use Rattle.std.specs.Prelude.{◌≡◌, ◌++◌, IfOk, OnOk, List, ℕ, codes, decimal};
ghost use Rattle.rdm_wire.specs.Bytes.{two_bytes};
ghost use Rattle.rdm_reports.specs.SessionReport.{numbered};
ghost use Rattle.rdm_reports.specs.Writing.{Logs};
ghost use Rattle.rdm_reports.specs.LogText.{number_member, bytes_member};
ghost use Rattle.rdm_reports.specs.OpeningText.{element, list_member, truth_member, search_member, controller_members};
ghost use Rattle.rdm_reports.specs.OpeningText.{uid_element, binding_member, device_start, device_element};
ghost use Rattle.rdm_reports.specs.OpeningText.{client_members, found_members, next_members, list_start};
ghost use Rattle.rdm_reports.specs.OpeningText.{discovery_opening, session_opening, session_log};

use crate::log_output::LogOutput;
use crate::log_text::{
    write_bytes, write_entries, write_key, write_kind, write_number, write_text,
};
use crate::reporting::write_uid;
use itoa::Buffer;
use rdm_agent::{Kind, Search};
use rdm_log::{Entry, Opening};
use rdm_wire::{Device, Uid};
use std::alloc::{AllocError, Global};
use std::io::Write;

/// Writes a session's log: its opening and these entries, oldest first. The first of them has the number `first`, from
/// 0: that many entries of the session came before. If memory runs out, the log fails.
pub fn write_log<W: Write>(
    alloc: Global,
    log: &mut LogOutput<W>,
    opening: &Opening,
    first: u64,
    entries: &[Entry],
)
    ensures { Logs log.old log.new (session_log opening.now first entries.now) }
{
    write_opening(alloc, log, opening, first);
    write_entries(alloc, log, entries);
}

fn write_opening<W: Write>(alloc: Global, log: &mut LogOutput<W>, opening: &Opening, first: u64)
    ensures { Logs log.old log.new (session_opening opening.now first) }
{
    if !log.would_write() {
        return;
    }
    match session_opening(alloc, opening, first) {
        Ok(line) => log.write(&line),
        Err(_) => log.fail(),
    }
}

/// Writes the opening of a discovery's log. If memory runs out, the log fails.
pub(crate) fn write_discovery_opening<W: Write>(
    alloc: Global,
    log: &mut LogOutput<W>,
    source: Uid,
    search: Search,
    kind: Kind,
    known: &[Uid],
    budget: u64,
)
    ensures { Logs log.old log.new (discovery_opening source search kind known.now budget) }
{
    if !log.would_write() {
        return;
    }
    match discovery_opening(alloc, source, search, kind, known, budget) {
        Ok(line) => log.write(&line),
        Err(_) => log.fail(),
    }
}

/// The first line of a session's log. Err: there was no memory.
pub fn session_opening(alloc: Global, opening: &Opening, first: u64) -> Result<Vec<u8>, AllocError>
    ensures { IfOk result (λ line. line.items ≡ session_opening opening.now first) }
{
    let mut line = Vec::new(alloc);
    line.extend_from_slice(OPENING)?;
    write_controller(&mut line, opening.source, opening.budget, opening.search)?;
    write_clients(&mut line, opening)?;
    write_found(alloc, &mut line, opening)?;
    write_next(&mut line, opening)?;
    write_number(&mut line, "number", first)?;
    line.extend_from_slice(b"}\n")?;
    Ok(line)
}

/// The first line of a discovery's log. Err: there was no memory.
pub fn discovery_opening(
    alloc: Global,
    source: Uid,
    search: Search,
    kind: Kind,
    known: &[Uid],
    budget: u64,
) -> Result<Vec<u8>, AllocError>
    ensures { IfOk result (λ line. line.items ≡ discovery_opening source search kind known.now budget) }
{
    let mut line = Vec::new(alloc);
    line.extend_from_slice(OPENING)?;
    write_controller(&mut line, source, budget, search)?;
    write_kind(&mut line, kind)?;
    write_known(&mut line, known)?;
    line.extend_from_slice(b"}\n")?;
    Ok(line)
}

const OPENING: &[u8] = b"{\"entry\":\"opening\"";

fn write_controller(
    text: &mut Vec<u8>,
    source: Uid,
    budget: u64,
    search: Search,
) -> Result<(), AllocError>
    ensures { OnOk result (text.new.items ≡ text.old.items ++ controller_members source budget search) }
{
    write_text(text, "source", &source.to_text())?;
    write_number(text, "budget", budget)?;
    write_search(text, search)
}

fn write_search(text: &mut Vec<u8>, search: Search) -> Result<(), AllocError>
    ensures { OnOk result (text.new.items ≡ text.old.items ++ search_member search) }
{
    match search {
        Search::Steady => write_text(text, "search", b"steady"),
        Search::Quick => write_text(text, "search", b"quick"),
    }
}

fn write_clients(text: &mut Vec<u8>, opening: &Opening) -> Result<(), AllocError>
    ensures { OnOk result (text.new.items ≡ text.old.items ++ client_members opening.now) }
{
    write_number(text, "greatest", u64::from(opening.greatest))?;
    write_places(text, opening.places.as_slice())?;
    write_truths(text, opening.paused, opening.closed)
}

fn write_truths(text: &mut Vec<u8>, paused: bool, closed: bool) -> Result<(), AllocError>
    ensures { OnOk result (text.new.items ≡ text.old.items
        ++ (truth_member (codes "paused") paused ++ truth_member (codes "closed") closed)) }
{
    write_truth(text, "paused", paused)?;
    write_truth(text, "closed", closed)
}

fn write_found(alloc: Global, text: &mut Vec<u8>, opening: &Opening) -> Result<(), AllocError>
    ensures { OnOk result (text.new.items ≡ text.old.items ++ found_members opening.now) }
{
    write_devices(alloc, text, opening.devices.as_slice())?;
    write_number(text, "devices_run", opening.devices_run)
}

fn write_next(text: &mut Vec<u8>, opening: &Opening) -> Result<(), AllocError>
    ensures { OnOk result (text.new.items ≡ text.old.items ++ next_members opening.now) }
{
    write_number(text, "next_request", opening.next_request)?;
    write_number(text, "next_ask", opening.next_ask)?;
    write_next_of_runs(text, opening.next_run, opening.next_tn)
}

fn write_next_of_runs(text: &mut Vec<u8>, run: u64, tn: u8) -> Result<(), AllocError>
    ensures { OnOk result (text.new.items ≡ text.old.items
        ++ (number_member (codes "next_run") run ++ number_member (codes "next_tn") tn)) }
{
    write_number(text, "next_run", run)?;
    write_number(text, "next_tn", u64::from(tn))
}

fn write_known(text: &mut Vec<u8>, known: &[Uid]) -> Result<(), AllocError>
    ensures { OnOk result (text.new.items ≡ text.old.items ++ list_member (codes "known") uid_element known.now) }
{
    write_list(text, "known")?;
    write_uids(text, known)?;
    text.extend_from_slice(b"]")
}

fn write_places(text: &mut Vec<u8>, places: &[u8]) -> Result<(), AllocError>
    ensures { OnOk result (text.new.items ≡ text.old.items ++ list_member (codes "places") decimal places.now) }
{
    write_list(text, "places")?;
    write_depths(text, places)?;
    text.extend_from_slice(b"]")
}

fn write_devices(alloc: Global, text: &mut Vec<u8>, devices: &[Device]) -> Result<(), AllocError>
    ensures { OnOk result (text.new.items ≡ text.old.items
        ++ list_member (codes "devices") device_element devices.now) }
{
    write_list(text, "devices")?;
    write_each_device(alloc, text, devices)?;
    text.extend_from_slice(b"]")
}

fn write_uids(text: &mut Vec<u8>, uids: &[Uid]) -> Result<(), AllocError>
    ensures { OnOk result (text.new.items ≡ text.old.items ++ numbered (element uid_element) 0 uids.now) }
{
    'uids: for index in 0..uids.len() {
        write_uid_at(text, index, uids[index])?;
    }
    Ok(())
}

fn write_depths(text: &mut Vec<u8>, places: &[u8]) -> Result<(), AllocError>
    ensures { OnOk result (text.new.items ≡ text.old.items ++ numbered (element decimal) 0 places.now) }
{
    'depths: for index in 0..places.len() {
        write_depth_at(text, index, &places[index])?;
    }
    Ok(())
}

fn write_each_device(
    alloc: Global,
    text: &mut Vec<u8>,
    devices: &[Device],
) -> Result<(), AllocError>
    ensures { OnOk result (text.new.items ≡ text.old.items ++ numbered (element device_element) 0 devices.now) }
{
    'devices: for index in 0..devices.len() {
        write_device_at(alloc, text, index, &devices[index])?;
    }
    Ok(())
}

fn write_uid_at(text: &mut Vec<u8>, index: usize, uid: Uid) -> Result<(), AllocError>
    ensures { OnOk result (text.new.items ≡ text.old.items ++ element uid_element index uid) }
{
    if index == 0 {
        write_quoted(text, uid)
    } else {
        text.push(b',')?;
        write_quoted(text, uid)
    }
}

fn write_depth_at(text: &mut Vec<u8>, index: usize, depth: &u8) -> Result<(), AllocError>
    ensures { OnOk result (text.new.items ≡ text.old.items ++ element decimal index depth.now) }
{
    if index == 0 {
        text.extend_from_slice(Buffer::new().format(*depth).as_bytes())
    } else {
        text.push(b',')?;
        text.extend_from_slice(Buffer::new().format(*depth).as_bytes())
    }
}

fn write_device_at(
    alloc: Global,
    text: &mut Vec<u8>,
    index: usize,
    device: &Device,
) -> Result<(), AllocError>
    ensures { OnOk result (text.new.items ≡ text.old.items ++ element device_element index device.now) }
{
    if index == 0 {
        write_device(alloc, text, device)
    } else {
        text.push(b',')?;
        write_device(alloc, text, device)
    }
}

fn write_quoted(text: &mut Vec<u8>, uid: Uid) -> Result<(), AllocError>
    ensures { OnOk result (text.new.items ≡ text.old.items ++ uid_element uid) }
{
    text.extend_from_slice(b"\"")?;
    write_uid(text, uid)?;
    text.extend_from_slice(b"\"")
}

fn write_device(alloc: Global, text: &mut Vec<u8>, device: &Device) -> Result<(), AllocError>
    ensures { OnOk result (text.new.items ≡ text.old.items ++ device_element device.now) }
{
    write_device_start(text, device.uid)?;
    write_control(alloc, text, device.control)?;
    write_device_end(text, device.binding)
}

fn write_device_start(text: &mut Vec<u8>, uid: Uid) -> Result<(), AllocError>
    ensures { OnOk result (text.new.items ≡ text.old.items ++ device_start uid) }
{
    text.extend_from_slice(b"{\"uid\":")?;
    write_quoted(text, uid)
}

fn write_control(alloc: Global, text: &mut Vec<u8>, control: u16) -> Result<(), AllocError>
    ensures { OnOk result (text.new.items ≡ text.old.items ++ bytes_member (codes "control") (two_bytes control)) }
{
    write_bytes(alloc, text, "control", &control.to_be_bytes())
}

fn write_device_end(text: &mut Vec<u8>, binding: Option<Uid>) -> Result<(), AllocError>
    ensures { OnOk result (text.new.items ≡ text.old.items ++ (binding_member binding ++ codes "}")) }
{
    write_binding(text, binding)?;
    text.extend_from_slice(b"}")
}

fn write_binding(text: &mut Vec<u8>, binding: Option<Uid>) -> Result<(), AllocError>
    ensures { OnOk result (text.new.items ≡ text.old.items ++ binding_member binding) }
{
    match binding {
        Some(uid) => write_text(text, "binding", &uid.to_text()),
        None => Ok(()),
    }
}

// A member with a truth value.
fn write_truth(text: &mut Vec<u8>, key: &str, value: bool) -> Result<(), AllocError>
    ensures { OnOk result (text.new.items ≡ text.old.items ++ truth_member key.now value) }
{
    write_key(text, key)?;
    if value {
        text.extend_from_slice(b"true")
    } else {
        text.extend_from_slice(b"false")
    }
}

// A member's key, and the beginning of its list.
fn write_list(text: &mut Vec<u8>, key: &str) -> Result<(), AllocError>
    ensures { OnOk result (text.new.items ≡ text.old.items ++ list_start key.now) }
{
    write_key(text, key)?;
    text.extend_from_slice(b"[")
}
