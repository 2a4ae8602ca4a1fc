//! Opens lines of the caller's own.
ghost use Rattle.std.specs.Prelude.{◌≡◌, ◌⊎◌, ℕ, List, IfOk};

use crate::answer::Refused;
use crate::fault::Fault;
use crate::reason::Reason;
use rdm_line::SimLine;
use std::io::ErrorKind;

/// Opens lines, each by the paths of its two streams.
pub trait Opens<L> {
    /// The line is one that this opener opens by these paths, for frames and for replies.
    ghost opens: { Self → List ℕ → List ℕ → L → Type 0 };

    /// A line that sends frames to the stream at `out`, and reads replies from the one at `replies`. The two may be the
    /// same. Nothing is created or truncated.
    fn open<'a>(&mut self, out: &'a str, replies: &'a str) -> Result<L, Unopened<'a>>
        ensures { IfOk result (opens self.old out.now replies.now) };
}

/// Why a line can't be opened.
#[derive(Clone, Copy)]
pub enum Unopened<'a> {
    /// The stream at this path can't be opened.
    Stream(&'a str, ErrorKind),
    /// The stream at this path is for frames and replies, but is a FIFO: it would return the frames as replies.
    OneWay(&'a str),
    /// Out of memory.
    NoMemory,
}

impl<'a> Unopened<'a> {
    /// Its fault, and the reason.
    pub(crate) fn refused(self) -> Refused<'a>
        ensures { (result.0 ≡ Fault.File) ⊎ (result.0 ≡ Fault.Memory) }
    {
        match self {
            Unopened::Stream(path, kind) => (Fault::File, Some(Reason::Unopened(path, kind))),
            Unopened::OneWay(path) => (Fault::File, Some(Reason::OneWay(path))),
            Unopened::NoMemory => (Fault::Memory, None),
        }
    }
}

/// Opens no line.
#[derive(Clone, Copy, Drop)]
pub struct NoLine;

impl Opens<SimLine> for NoLine {
    ghost opens = { λ opener out replies line. ⊥ };

    fn open<'a>(&mut self, out: &'a str, _replies: &'a str) -> Result<SimLine, Unopened<'a>> {
        Err(Unopened::Stream(out, ErrorKind::Unsupported))
    }
}
