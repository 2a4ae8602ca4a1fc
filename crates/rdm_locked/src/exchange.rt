//! Exchanges as a worker records them.
ghost use Rattle.std.specs.Prelude.{◌≡◌, ◌+◌, map};
ghost use Rattle.std.specs.Bool.{Decides};
ghost use Rattle.rdm_log.specs.log.Entries.{cames, exchanges as log_exchanges};
ghost use Rattle.rdm_log.specs.log.Legal.{Legal};
ghost use Rattle.rdm_log.specs.promises.Headline.{Begins};
ghost use Rattle.rdm_log.specs.log.LogState.{stored};
ghost use Rattle.rdm_locked.specs.Exchanges.{recorded};
ghost use Rattle.rdm_locked.specs.body.Frames.{frames_in};

use rdm_join::LineEvent;
use rdm_log::{Entry, Log};
use rdm_wire::Frame;

/// A frame that went over the line, and what came back.
#[derive(Debug, Drop)]
pub struct Exchange {
    /// The frame's bytes.
    pub frame: Frame,
    /// What came.
    pub event: LineEvent,
}

/// Whether the log's exchanges are those of the record. The log is legal, so each event belongs to the frame before it.
pub(crate) fn has_exchanges(log: &Log, exchanges: &[Exchange]) -> bool
    requires legal { Legal log.now.opening log.now.entries }
    requires whole { stored log.now ≡ log.now.entries }
    ensures { Decides result (log_exchanges log.now.entries ≡ recorded exchanges.now) }
{
    has_events(log.entries(), exchanges) && begins_with_frames(log.entries(), exchanges)
}

// Whether what came is what came in the record.
fn has_events(entries: &[Entry], exchanges: &[Exchange]) -> bool
    ensures { Decides result (cames entries.now ≡ map (λ x. x.event) exchanges.now) }
{
    let mut left = exchanges;
    'entries: for entry in entries {
        let Entry::Came { event } = entry else {
            continue;
        };
        let Some((exchange, later)) = left.split_first() else {
            return false;
        };
        if !is_same_event(event, &exchange.event) {
            return false;
        }
        left = later;
    }
    left.is_empty()
}

// Whether the frames that were sent are those of the record; a frame whose reply is awaited may follow.
fn begins_with_frames(entries: &[Entry], exchanges: &[Exchange]) -> bool
    ensures { Decides result (Begins (map (λ x. x.frame) exchanges.now) (frames_in entries.now)) }
{
    let mut left = exchanges;
    'entries: for entry in entries {
        let Entry::Send { frame, .. } = entry else {
            continue;
        };
        let Some((exchange, later)) = left.split_first() else {
            return true;
        };
        if !is_same_frame(frame, &exchange.frame) {
            return false;
        }
        left = later;
    }
    left.is_empty()
}

pub(crate) fn is_same_frame(one: &Frame, other: &Frame) -> bool
    ensures { Decides result (one.now ≡ other.now) }
{
    one.as_slice() == other.as_slice()
}

pub(crate) fn is_same_event(one: &LineEvent, other: &LineEvent) -> bool
    ensures { Decides result (one.now ≡ other.now) }
{
    match (one, other) {
        (LineEvent::Reply(one), LineEvent::Reply(other)) => is_same_frame(one, other),
        (LineEvent::Failed, LineEvent::Failed) => true,
        _ => false,
    }
}
