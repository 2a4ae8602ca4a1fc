//! A line that reports how many exchanges it has made.
ghost use Rattle.std.specs.Prelude.{◌≡◌};

use rdm_join::{LineFault, LineReply};
use rdm_line::Line;
use rdm_reports::{Progress, write_often};
use rdm_wire::Frame;

/// A line that reports every hundredth exchange, and otherwise behaves like the line that it was made of.
#[derive(Drop)]
pub struct ProgressLine<'a, X, P> {
    line: X,
    progress: &'a mut P,
    made: usize,
}

impl<'a, X, P> ProgressLine<'a, X, P> {
    /// A line that has made no exchange yet.
    pub fn new(line: X, progress: &'a mut P) -> ProgressLine<'a, X, P>
        ensures line { result.line ≡ line }
        ensures made { result.made ≡ 0 }
    {
        ProgressLine {
            line,
            progress,
            made: 0,
        }
    }
}

impl<X: Line, P: Progress> Line for ProgressLine<'_, X, P> {
    ghost step = { λ before exchange after. X.step before.line exchange after.line };

    ghost failures_of = { λ outer. X.failures_of outer.line };

    fn exchange(&mut self, frame: &Frame) -> Result<LineReply, LineFault> {
        self.made = self.made.saturating_add(1);
        write_often(self.progress, self.made);
        self.line.exchange(frame)
    }

    fn failures(&self) -> u64 {
        self.line.failures()
    }
}
