//! What a log says, in short.
use crate::found::{Ending, ending_by};
use crate::wrong::Wrong;
use rdm_agent::Kind;
use rdm_join::{LineEvent, Status};
use rdm_log::{Entry, Owner};
use rdm_queue::Session;
use std::alloc::Global;

/// What an entry says, in short. A frame is identified by its transaction number.
#[derive(Clone, Copy, Debug, PartialEq, Eq)]
pub enum Said {
    /// Client, queue depth.
    Join(u8, u8),
    /// Client unless it was a join; cause.
    Refuse(Option<u8>, u8),
    /// Client, number.
    Accept(u8, u64),
    /// Client, number, kind.
    Ask(u8, u64, Kind),
    /// The frame's owner, its transaction number.
    Send(Owner, Option<u8>),
    /// Whether a reply came, which may be silence. If not, the line failed.
    Came(bool),
    /// Number, status, how many bytes.
    Finish(u64, Status, usize),
    /// Number, run, how that ended.
    Answer(u64, u64, Ending),
    /// Client.
    Collect(u8),
    /// A pause.
    Pause,
    /// A resume.
    Resume,
    /// A close.
    Close,
}

// What this entry says.
#[inline(never)]
fn said_by(entry: &Entry) -> Said {
    match entry {
        Entry::Join { client, places } => Said::Join(client.0, *places),
        Entry::Refuse { client, cause, .. } => Said::Refuse(client.map(|c| c.0), cause.0),
        Entry::Accept { client, number, .. } => Said::Accept(client.0, *number),
        Entry::Ask {
            client,
            number,
            kind,
        } => Said::Ask(client.0, *number, *kind),
        Entry::Send { owner, frame } => Said::Send(*owner, frame.get(15).copied()),
        Entry::Came { event } => Said::Came(matches!(event, LineEvent::Reply(_))),
        Entry::Finish {
            number,
            status,
            len,
        } => Said::Finish(*number, *status, *len),
        Entry::Answer { number, run, fault } => Said::Answer(*number, *run, ending_by(*fault)),
        Entry::Collect { client } => Said::Collect(client.0),
        Entry::Pause => Said::Pause,
        Entry::Resume => Said::Resume,
        Entry::Close => Said::Close,
    }
}

/// What the session's log says.
#[inline(never)]
pub fn log_of(alloc: Global, session: &Session) -> Result<Vec<Said>, Wrong> {
    let mut said = Vec::new(alloc);
    for entry in session.log().entries() {
        if said.push(said_by(entry)).is_err() {
            return Err(Wrong::NoMemory);
        }
    }
    Ok(said)
}

/// The log says this and nothing else. Err: the first entry that differs.
pub fn says(log: &[Said], wanted: &[Said]) -> Result<(), Wrong> {
    says_at(log, 0, wanted)?;
    match log.get(wanted.len()) {
        None => Ok(()),
        Some(more) => Err(Wrong::Entry(wanted.len(), Some(*more))),
    }
}

/// The log says this from the entry with this number on. Err: the first entry that differs.
pub fn says_at(log: &[Said], at: usize, wanted: &[Said]) -> Result<(), Wrong> {
    let mut index = at;
    for wanted in wanted {
        let said = log.get(index).copied();
        if said != Some(*wanted) {
            return Err(Wrong::Entry(index, said));
        }
        index = index.saturating_add(1);
    }
    Ok(())
}

/// The log has the exchanges of this run from this entry on, with these transaction numbers; none failed.
pub fn says_run(log: &[Said], at: usize, run: u64, first: u8, last: u8) -> Result<(), Wrong> {
    let mut index = at;
    for tn in first..=last {
        let exchange = [Said::Send(Owner::Run(run), Some(tn)), Said::Came(true)];
        says_at(log, index, &exchange)?;
        index = index.saturating_add(2);
    }
    Ok(())
}
