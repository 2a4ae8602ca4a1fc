//! The state of a session.
use crate::found::{Found, found_in};
use rdm_log::Entry;
use rdm_queue::Session;
use rdm_wire::Frame;

/// The state of a session, and the counts of its log.
#[derive(Clone, Copy, Debug, PartialEq, Eq)]
pub struct State {
    /// Whether it is paused.
    pub is_paused: bool,
    /// Whether it is closed.
    pub is_closed: bool,
    /// Whether nothing is outstanding or uncollected.
    pub is_idle: bool,
    /// Whether a reply is awaited.
    pub awaits: bool,
    /// How many entries of the log are free.
    pub free: usize,
    /// The run that found the devices, and which they are.
    pub devices: (u64, Found),
    /// The counts of its log.
    pub counts: Counts,
}

/// The counts of a log.
#[derive(Clone, Copy, Debug, PartialEq, Eq)]
pub struct Counts {
    /// All entries.
    pub entries: usize,
    /// Submits and discovers, accepted or refused, and refused joins.
    pub calls: usize,
    /// Those that were accepted.
    pub accepted: usize,
    /// Those that were finished or answered.
    pub ended: usize,
    /// Those that were collected.
    pub collected: usize,
    /// How many frames were sent before the close, and how many after it.
    pub frames: (usize, usize),
    /// The last frame that was sent.
    pub last_frame: LastFrame,
}

/// What the last frame of a log says (E1.20, packet format).
#[derive(Clone, Copy, Debug, PartialEq, Eq)]
pub struct LastFrame {
    /// How many bytes it has.
    pub length: usize,
    /// Its transaction number.
    pub number: u8,
    /// Its checksum.
    pub checksum: [u8; 2],
}

/// The session's state.
#[inline(never)]
pub fn state_of(session: &Session) -> State {
    State {
        is_paused: session.is_paused(),
        is_closed: session.is_closed(),
        is_idle: session.is_idle(),
        awaits: session.awaits(),
        free: session.free(),
        devices: (session.devices_run(), found_in(session.devices())),
        counts: counted(session),
    }
}

// Counts the log's entries.
fn counted(session: &Session) -> Counts {
    let mut counts = Counts {
        entries: 0,
        calls: 0,
        accepted: 0,
        ended: 0,
        collected: 0,
        frames: (0, 0),
        last_frame: last_frame(&[]),
    };
    let mut is_closed = false;
    for entry in session.log().entries() {
        counts.add(entry, is_closed);
        is_closed = is_closed || matches!(entry, Entry::Close);
    }
    counts
}

impl Counts {
    // Counts an entry, which comes after the close or before it.
    fn add(&mut self, entry: &Entry, is_closed: bool) {
        self.entries = self.entries.saturating_add(1);
        match entry {
            Entry::Accept { .. } | Entry::Ask { .. } => {
                self.accepted = self.accepted.saturating_add(1);
                self.calls = self.calls.saturating_add(1);
            }
            Entry::Refuse { .. } => self.calls = self.calls.saturating_add(1),
            Entry::Finish { .. } | Entry::Answer { .. } => {
                self.ended = self.ended.saturating_add(1);
            }
            Entry::Collect { .. } => self.collected = self.collected.saturating_add(1),
            Entry::Send { frame, .. } => self.send(frame, is_closed),
            _ => {}
        }
    }

    // Counts a frame.
    fn send(&mut self, frame: &Frame, is_closed: bool) {
        let (before, after) = self.frames;
        self.frames = if is_closed {
            (before, after.saturating_add(1))
        } else {
            (before.saturating_add(1), after)
        };
        self.last_frame = last_frame(frame.as_slice());
    }
}

// What these bytes say; zeros if they aren't a frame.
fn last_frame(bytes: &[u8]) -> LastFrame {
    LastFrame {
        length: bytes.len(),
        number: bytes.get(15).copied().unwrap_or(0),
        checksum: match bytes {
            [.., high, low] => [*high, *low],
            _ => [0, 0],
        },
    }
}
