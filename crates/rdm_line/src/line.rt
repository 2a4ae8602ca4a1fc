//! What a line has to do.
ghost use Rattle.std.specs.Prelude.{◌≡◌, ℕ};
ghost use Rattle.rdm_join.specs.Exchange.{event_of};
ghost use Rattle.rdm_line.specs.Events.{Exchange, CountsFailure};

use rdm_join::{LineFault, LineReply};
use rdm_wire::Frame;

/// A line on which frames are sent and replies come. Each line names its step. This relates its value before an
/// exchange, the frame with the event after it, and its value afterwards.
pub trait Line {
    /// The line's step.
    ghost step: { Self → Exchange → Self → Type 0 };

    /// How many exchanges have failed.
    ghost failures_of: { Self → ℕ };

    /// Sends a frame, and returns the bytes that came after it. No bytes are silence. [`LineFault`]: the line failed.
    /// It fails if and only if [`failures`](Line::failures) rises by one. That count ends at `u64::MAX`. From then on
    /// an exchange that would fail returns silence.
    fn exchange(&mut self, frame: &Frame) -> Result<LineReply, LineFault>
        ensures step { step self.old (frame.now, event_of result) self.new }
        ensures failures { CountsFailure (event_of result) (failures_of self.old) (failures_of self.new) };

    /// How many exchanges have failed: 0 to `u64::MAX`.
    fn failures(&self) -> u64
        ensures { result ≡ failures_of self.now };
}
