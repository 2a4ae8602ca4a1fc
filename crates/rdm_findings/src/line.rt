//! The lines of a log: read loosely, written back by the writer of logs, and compared.
ghost use Rattle.std.specs.Prelude.{◌≡◌, true, IfOk, IfSome, OnOk, Some};
ghost use Rattle.rdm_wire.specs.Frames.{asked_in};
ghost use Rattle.rdm_reports.specs.LogText.{entry_line, exchange_line};
ghost use Rattle.rdm_reports.specs.OpeningText.{session_opening};
ghost use Rattle.rdm_findings.specs.SameLines.{Has64Bits, FitsLine};
ghost use Rattle.rdm_findings.specs.Lines.{line_text, with_time, is_sound, asks_discovery, is_asked, is_asked_by};

use crate::fields::{bytes, has, number};
use crate::writing::{write, write_number};
use crate::{entry, opening};
use rdm_agent::{Kind, Search};
use rdm_explain::{Asked, read_exchange};
use rdm_join::LineEvent;
use rdm_log::{Entry, Opening, Owner};
use rdm_reports::{discovery_opening, entry_line, exchange_line, session_opening};
use rdm_wire::{Frame, NoMemory, Uid, UidSet};
use std::alloc::{AllocError, Global};
use std::str;

// What ends each line of a log.
const LINE_END: &str = "}\n";

/// The opening of a discovery's log.
#[derive(Drop)]
pub struct DiscoveryOpening {
    /// The controller's own UID.
    pub source: Uid,
    /// How the run searches.
    pub search: Search,
    /// The run's kind.
    pub kind: Kind,
    /// The known UIDs.
    pub known: UidSet,
    /// How many frames the run may send.
    pub budget: u64,
}

/// The opening of a session's log.
#[derive(Drop)]
pub struct SessionOpening {
    /// The state of the queue.
    pub opening: Opening,
    /// The number of the next entry, from 0.
    pub first: u64,
}

/// A line of a log. Openings have no time; entries and exchanges have one if a clock was at hand.
#[derive(Drop)]
pub enum LogLine {
    /// The opening of a discovery's log.
    Discovery(Box<DiscoveryOpening>),
    /// The opening of a session's log.
    Session(Box<SessionOpening>),
    /// An entry of a session.
    Entered {
        /// The entry.
        entry: Entry,
        /// Its time, in microseconds since 1970.
        microseconds: Option<u64>,
    },
    /// An exchange of a discovery.
    Exchanged {
        /// Its number, from 0.
        number: u64,
        /// Its frame.
        frame: Frame,
        /// What came after it.
        event: LineEvent,
        /// Its time, in microseconds since 1970.
        microseconds: Option<u64>,
    },
}

/// The line of a log that has this text, with its newline. `None`: no line that the writer of logs writes, perhaps with
/// a time, was found to have it. The only error: out of memory.
pub fn read_line(alloc: Global, text: &[u8]) -> Result<Option<LogLine>, NoMemory>
    ensures text { IfOk result (λ found. IfSome found (λ line. line_text line ≡ text.now)) }
    ensures fits { IfOk result (λ found. IfSome found FitsLine) }
    // Damage in a frame of a run is found by the frame's own checksum.
    ensures sound { IfOk result (λ found. IfSome found (λ line. is_sound line ≡ true)) }
{
    let Some(line) = seeming_line(alloc, text)? else {
        return Ok(None);
    };
    if !is_sound(&line) {
        return Ok(None);
    }
    match written(alloc, &line) {
        Ok(own) => Ok(if own.as_slice() == text {
            Some(line)
        } else {
            None
        }),
        Err(_) => Err(NoMemory),
    }
}

// Whether each frame of a run that the line has asks something in a discovery.
fn is_sound(line: &LogLine) -> bool
    ensures { result ≡ is_sound line.now }
{
    match line {
        LogLine::Entered { entry, .. } => asks_discovery(entry),
        LogLine::Exchanged { frame, .. } => is_asked(frame),
        LogLine::Discovery(_) | LogLine::Session(_) => true,
    }
}

// Whether the entry has no frame of a run, or one that asks something in a discovery.
fn asks_discovery(entry: &Entry) -> bool
    ensures { result ≡ asks_discovery entry.now }
{
    match entry {
        Entry::Send { owner, frame } => is_asked_by(owner, frame),
        _ => true,
    }
}

// Whether a frame isn't that of a run, or asks something in a discovery.
fn is_asked_by(owner: &Owner, frame: &Frame) -> bool
    ensures { result ≡ is_asked_by owner.now frame.now.items }
{
    match owner {
        Owner::Run(_) => is_asked(frame),
        Owner::Request(_) => true,
    }
}

// Whether a frame asks something in a discovery.
fn is_asked(frame: &Frame) -> bool
    ensures { result ≡ is_asked (asked_in frame.now.items) }
{
    let exchange = read_exchange(frame, &LineEvent::Failed);
    !matches!(exchange.asked, Asked::Other)
}

// The text of a line.
fn written(alloc: Global, line: &LogLine) -> Result<Vec<u8>, AllocError>
    ensures { IfOk result (λ text. text.items ≡ line_text line.now) }
{
    match line {
        LogLine::Discovery(o) => discovery_opening(
            alloc,
            o.source,
            o.search,
            o.kind,
            o.known.as_slice(),
            o.budget,
        ),
        LogLine::Session(o) => session_text(alloc, o),
        LogLine::Entered {
            entry,
            microseconds,
        } => entry_text(alloc, entry, *microseconds),
        LogLine::Exchanged {
            number,
            frame,
            event,
            microseconds,
        } => exchange_text(alloc, *number, frame, event, *microseconds),
    }
}

// The text of a session's opening.
fn session_text(alloc: Global, o: &SessionOpening) -> Result<Vec<u8>, AllocError>
    ensures { IfOk result (λ text. text.items ≡ session_opening o.now.opening o.now.first) }
{
    session_opening(alloc, &o.opening, o.first)
}

// The text of an entry, with its time if it has one.
fn entry_text(
    alloc: Global,
    entry: &Entry,
    microseconds: Option<u64>,
) -> Result<Vec<u8>, AllocError>
    ensures { IfOk result (λ text. text.items ≡ with_time (entry_line entry.now) microseconds) }
{
    let mut text = entry_line(alloc, entry)?;
    add_time(&mut text, microseconds)?;
    Ok(text)
}

// The text of an exchange, with its time if it has one.
fn exchange_text(
    alloc: Global,
    number: u64,
    frame: &Frame,
    event: &LineEvent,
    microseconds: Option<u64>,
) -> Result<Vec<u8>, AllocError>
    ensures { IfOk result (λ text. text.items
        ≡ with_time (exchange_line number (frame.now, event.now)) microseconds) }
{
    let mut text = exchange_line(alloc, number, frame, event)?;
    add_time(&mut text, microseconds)?;
    Ok(text)
}

// Gives the text of a line its time, if it has one.
fn add_time(text: &mut Vec<u8>, microseconds: Option<u64>) -> Result<(), AllocError>
    ensures { OnOk result (text.new.items ≡ with_time text.old.items microseconds) }
{
    match microseconds {
        Some(time) => write_time(text, time),
        None => Ok(()),
    }
}

fn write_time(text: &mut Vec<u8>, time: u64) -> Result<(), AllocError>
    ensures { OnOk result (text.new.items ≡ with_time text.old.items (Some time)) }
{
    let open = text.len().saturating_sub(LINE_END.len());
    text.truncate(open);
    write(text, ",\"microseconds\":")?;
    write_number(text, time)?;
    write(text, LINE_END)
}

// The line that a text seems to be.
fn seeming_line(alloc: Global, text: &[u8]) -> Result<Option<LogLine>, NoMemory>
    ensures { IfOk result (λ found. IfSome found FitsLine) }
{
    let Ok(line) = str::from_utf8(text) else {
        return Ok(None);
    };
    if line.starts_with("{\"entry\":\"opening\"") {
        seeming_opening(alloc, line)
    } else if line.starts_with("{\"entry\"") {
        Ok(entered(line))
    } else {
        Ok(exchange(line))
    }
}

fn seeming_opening(alloc: Global, line: &str) -> Result<Option<LogLine>, NoMemory>
    ensures { IfOk result (λ found. IfSome found FitsLine) }
{
    if has(line, "\"known\":") {
        let Some(found) = opening::discovery(line) else {
            return Ok(None);
        };
        match Box::new(alloc, found) {
            Ok(boxed) => Ok(Some(LogLine::Discovery(boxed))),
            Err(_) => Err(NoMemory),
        }
    } else {
        let Some(found) = opening::session(line) else {
            return Ok(None);
        };
        match Box::new(alloc, found) {
            Ok(boxed) => Ok(Some(LogLine::Session(boxed))),
            Err(_) => Err(NoMemory),
        }
    }
}

fn entered(line: &str) -> Option<LogLine>
    ensures { IfSome result FitsLine }
{
    Some(LogLine::Entered {
        entry: entry::entry(line)?,
        microseconds: microseconds(line),
    })
}

fn exchange(line: &str) -> Option<LogLine>
    ensures { IfSome result FitsLine }
{
    Some(LogLine::Exchanged {
        number: number(line, "\"number\":")?,
        frame: bytes(line, "\"frame\":\"")?,
        event: entry::event(line)?,
        microseconds: microseconds(line),
    })
}

// The time of a line that has one.
fn microseconds(line: &str) -> Option<u64>
    ensures { IfSome result Has64Bits }
{
    number(line, "\"microseconds\":")
}
