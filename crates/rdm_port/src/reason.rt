//! Why something isn't done, for people.
use crate::position::Position;
use rdm_agent::AgentFault;
use rdm_arguments::Complaint;
use rdm_files::{FileFault, FileKind, MOST_BYTES, Mismatch, SceneFault, looks_like};
use rdm_reports::{Discovered, Outcomes, device_lines};
use rdm_wire::{DeviceSet, MOST_DEVICES, Uid};
use serde_json::Value;
use std::alloc::Global;
use std::io::ErrorKind;
use std::{fmt, str};

// How many characters a UID has.
const UID_LEN: usize = 13;

// The index of a UID's colon.
const COLON_AT: usize = 4;

const DEFECT: &str =
    "the session's outcomes, its log and its file differ; this is a defect of the program, please report it";

/// Why something isn't done, or what people should know about what was done. It borrows the arguments.
#[derive(Drop)]
pub enum Reason<'a> {
    /// The arguments fit no command.
    Arguments,
    /// The text spells no bytes.
    NoBytes(&'a str),
    /// The text isn't a UID.
    NoUid(&'a str),
    /// A reply or the text spells a broadcast UID.
    Broadcast,
    /// The file at this path has too many bytes.
    TooLong(&'a str),
    /// The file at this path can't be opened or read.
    Unreadable(&'a str, ErrorKind),
    /// The file is empty, or has nothing but white space.
    Empty,
    /// The file ends before its JSON does. This is its last character, apart from white space.
    CutShort(Position),
    /// The file isn't JSON from this position on.
    NoJson(Position),
    /// The file isn't JSON, since it begins with a byte order mark.
    ByteOrderMark,
    /// The file's JSON isn't a scene, or isn't a session.
    NoScene(Mismatch),
    /// The same, but the file looks like another kind.
    OtherKind(Mismatch, FileKind),
    /// The value under this key is too small for the session.
    TooLittle {
        /// The key.
        key: &'static str,
        /// The value.
        found: u64,
        /// A value that may be enough.
        hint: &'static str,
    },
    /// A session's outcomes, its log and its file differ.
    Defect,
    /// A run had this fault. These lines have the devices that it found until then.
    Fault(AgentFault, Vec<u8>),
    /// Discoveries of a session's clients had faults.
    Discoveries(Vec<Outcomes>),
    /// The answer couldn't be written.
    Unwritten(ErrorKind),
    /// The text of this option spells no device's UID.
    NoDevice(&'static str, &'a str),
    /// The stream or the log at this path can't be opened.
    Unopened(&'a str, ErrorKind),
    /// The stream at this path is a FIFO, which can't be for both frames and replies.
    OneWay(&'a str),
    /// The log at this path couldn't be written.
    Unlogged(&'a str, ErrorKind),
    /// The file at this path isn't a log, because of this line, counted from 1.
    NoLogLine(&'a str, u64),
    /// More than 1,024 devices were present, by the arguments and the scene file.
    TooManyPresent,
}

impl<'a> Reason<'a> {
    /// Why the file at a path wasn't read; none if memory ran out.
    pub fn of_file(path: &'a str, fault: FileFault) -> Option<Reason<'a>> {
        match fault {
            FileFault::TooLong => Some(Reason::TooLong(path)),
            FileFault::Unreadable(kind) => Some(Reason::Unreadable(path, kind)),
            FileFault::NoMemory => None,
        }
    }

    /// Why a scene or a session wasn't read; none if memory ran out.
    pub fn of_scene(fault: SceneFault) -> Option<Reason<'a>> {
        match fault {
            SceneFault::Mismatch(mismatch) => Some(Reason::NoScene(mismatch)),
            SceneFault::NoMemory => None,
        }
    }

    /// Why a file wasn't read as one of this kind.
    pub fn of_mismatch(mismatch: Mismatch, file: &Value, wanted: FileKind) -> Reason<'a> {
        match looks_like(file) {
            Some(kind) if kind != wanted => Reason::OtherKind(mismatch, kind),
            _ => Reason::NoScene(mismatch),
        }
    }

    /// The reason for the faults of discoveries; none if no discovery had one.
    pub fn of_discoveries(outcomes: Vec<Outcomes>) -> Option<Reason<'a>> {
        let faulty = outcomes.iter().any(|client| client
            .discoveries
            .iter()
            .any(|each| each.fault.is_some()));
        if faulty {
            Some(Reason::Discoveries(outcomes))
        } else {
            None
        }
    }

    /// The reason for a run's fault; none if memory runs out.
    pub fn of_fault(alloc: Global, fault: AgentFault, found: &DeviceSet) -> Option<Reason<'a>> {
        let lines = device_lines(alloc, found).ok()?;
        Some(Reason::Fault(fault, lines))
    }
}

impl fmt::Display for Reason<'_> {
    fn fmt<W: fmt::Write>(&self, f: &mut fmt::Formatter<W>) -> fmt::Result {
        match self {
            Reason::Arguments => fmt::Display::fmt(&Complaint::Misfit, f),
            Reason::NoBytes(text) => write_no_bytes(f, text),
            Reason::NoUid(text) => write_no_uid(f, text),
            Reason::Broadcast => f.write_str("no device has a broadcast UID for its own"),
            Reason::TooLong(path) => {
                write!(f, "the file {path:?} has more than {MOST_BYTES} bytes")
            }
            Reason::Unreadable(path, kind) => write_unreadable(f, path, *kind),
            Reason::Empty => f.write_str("the file is empty"),
            Reason::CutShort(position) => write!(
                f,
                "the file ends before its JSON does, at {position}"
            ),
            Reason::NoJson(position) => write!(f, "the file's JSON is wrong at {position}"),
            Reason::ByteOrderMark => {
                f.write_str("the file begins with a byte order mark, which JSON doesn't allow")
            }
            Reason::NoScene(mismatch) => fmt::Display::fmt(mismatch, f),
            Reason::OtherKind(mismatch, kind) => write!(f, "{mismatch}\nthis looks like {kind}"),
            Reason::TooLittle { key, found, hint } => {
                write!(
                    f,
                    "{key}: expected enough for the whole session, found {found}; {hint}"
                )
            }
            Reason::Defect => f.write_str(DEFECT),
            Reason::Fault(fault, found) => write_fault(f, *fault, found),
            Reason::Discoveries(outcomes) => write_discoveries(f, outcomes),
            Reason::Unwritten(kind) => write!(f, "the answer can't be written: {kind}"),
            Reason::NoDevice(option, text) => {
                write!(f, "{option} {text:?}: ")?;
                write_no_device(f, text)
            }
            Reason::Unopened(path, kind) => write_unopened(f, path, *kind),
            Reason::OneWay(path) => {
                write!(
                    f,
                    "{path:?} is a FIFO, which goes one way; name another stream for the replies by --replies"
                )
            }
            Reason::Unlogged(path, kind) => {
                write!(f, "the log {path:?} can't be written: {kind}")
            }
            Reason::NoLogLine(path, line) => write_no_log_line(f, path, *line),
            Reason::TooManyPresent => {
                write!(
                    f,
                    "the scene file and --present have more than {MOST_DEVICES} devices"
                )
            }
        }
    }
}

// If all characters are digits, their number is odd.
fn write_no_bytes<W: fmt::Write>(f: &mut fmt::Formatter<W>, text: &str) -> fmt::Result {
    match no_digit(text, None) {
        Some(found) => write_no_digit(f, found),
        None => f.write_str("the number of hexadecimal digits is odd"),
    }
}

// Why a text isn't a UID, by its characters. If nothing is wrong, it is one.
fn write_no_uid<W: fmt::Write>(f: &mut fmt::Formatter<W>, text: &str) -> fmt::Result {
    let count = text.chars().count();
    if count != UID_LEN {
        return write!(
            f,
            "a UID has {UID_LEN} characters, such as 7a70:00000001; this text has {count}"
        );
    }
    let colon = text.chars().nth(COLON_AT).unwrap_or(':');
    if colon != ':' {
        return write!(
            f,
            "a UID has a colon after its first four digits; character 5 is {colon:?}"
        );
    }
    match no_digit(text, Some(COLON_AT)) {
        Some(found) => write_no_digit(f, found),
        None => f.write_str("a UID has hexadecimal digits"),
    }
}

// Why a text isn't a device's UID. A UID that isn't a device's is broadcast.
fn write_no_device<W: fmt::Write>(f: &mut fmt::Formatter<W>, text: &str) -> fmt::Result {
    match Uid::parse(text) {
        Ok(_) => f.write_str("a broadcast UID is no device's own"),
        Err(_) => write_no_uid(f, text),
    }
}

// The first character that isn't a hexadecimal digit, and its index. The one at the index of the colon doesn't count.
fn no_digit(text: &str, colon_at: Option<usize>) -> Option<(usize, char)> {
    text.chars()
        .enumerate()
        .find(|(at, c)| !c.is_ascii_hexdigit() && Some(*at) != colon_at)
}

// Characters are numbered from 1.
fn write_no_digit<W: fmt::Write>(f: &mut fmt::Formatter<W>, (at, c): (usize, char)) -> fmt::Result {
    let number = at.saturating_add(1);
    write!(f, "character {number}, {c:?}, is no hexadecimal digit")
}

fn write_unreadable<W: fmt::Write>(
    f: &mut fmt::Formatter<W>,
    path: &str,
    kind: ErrorKind,
) -> fmt::Result {
    let why = match kind {
        ErrorKind::NotFound => "no such file",
        ErrorKind::PermissionDenied => "permission denied",
        ErrorKind::NotADirectory => "a part of its path is no folder",
        ErrorKind::IsADirectory => return write!(f, "{path:?} can't be read: it is a folder"),
        kind => return write!(f, "the file {path:?} can't be read: {kind}"),
    };
    write!(f, "the file {path:?} can't be opened: {why}")
}

fn write_unopened<W: fmt::Write>(
    f: &mut fmt::Formatter<W>,
    path: &str,
    kind: ErrorKind,
) -> fmt::Result {
    match kind {
        ErrorKind::NotFound | ErrorKind::PermissionDenied | ErrorKind::NotADirectory => {
            write_unreadable(f, path, kind)
        }
        ErrorKind::IsADirectory => write!(f, "{path:?} can't be opened: it is a folder"),
        kind => write!(f, "{path:?} can't be opened: {kind}"),
    }
}

// The lines before it may be read alone.
fn write_no_log_line<W: fmt::Write>(
    f: &mut fmt::Formatter<W>,
    path: &str,
    line: u64,
) -> fmt::Result {
    write!(f, "line {line} of {path:?} isn't a line of a log")?;
    match line.checked_sub(1) {
        Some(before) if before > 0 => {
            write!(f, "; 'head -n {before}' has those before it")?;
        }
        _ => {}
    }
    write_lines_after(f, line)
}

// How to get the lines after one that isn't a log's, such as half a line that a crash has left.
fn write_lines_after<W: fmt::Write>(f: &mut fmt::Formatter<W>, line: u64) -> fmt::Result {
    match line.checked_add(1) {
        Some(after) => write!(f, "; 'tail -n +{after}' has those after it"),
        None => Ok(()),
    }
}

fn write_fault<W: fmt::Write>(
    f: &mut fmt::Formatter<W>,
    fault: AgentFault,
    found: &[u8],
) -> fmt::Result {
    match str::from_utf8(found) {
        Ok("") | Err(_) => write!(f, "{fault}; no device was found until then"),
        Ok(lines) => write!(f, "{fault}; found until then:\n{}", lines.trim_end()),
    }
}

// One line for each discovery that had a fault. Whoever prints the reason writes the beginning of the first line.
fn write_discoveries<W: fmt::Write>(
    f: &mut fmt::Formatter<W>,
    outcomes: &[Outcomes],
) -> fmt::Result {
    let mut is_first = true;
    for (client, of_client) in outcomes.iter().enumerate() {
        write_faulty(f, client, &of_client.discoveries, &mut is_first)?;
    }
    Ok(())
}

// The same for the discoveries of one client.
fn write_faulty<W: fmt::Write>(
    f: &mut fmt::Formatter<W>,
    client: usize,
    discoveries: &[Discovered],
    is_first: &mut bool,
) -> fmt::Result {
    for (number, discovered) in discoveries.iter().enumerate() {
        let Some(fault) = discovered.fault else {
            continue;
        };
        let before = if *is_first { "" } else { "\nwurstlinen: " };
        *is_first = false;
        write!(f, "{before}client {client} discovery {number}: {fault}; ")?;
        write_found(f, &discovered.uids)?;
    }
    Ok(())
}

fn write_found<W: fmt::Write>(f: &mut fmt::Formatter<W>, uids: &[Uid]) -> fmt::Result {
    if uids.is_empty() {
        return f.write_str("no device was found until then");
    }
    f.write_str("found until then:")?;
    for uid in uids {
        write!(f, " {uid}")?;
    }
    Ok(())
}
