//! What is printed.
ghost use Rattle.std.specs.Prelude.{◌≡◌, ◌≤◌, length};
ghost use Rattle.rdm_reports.specs.Report.{line_of};
ghost use Rattle.rdm_port.specs.body.Texts.{answer_bytes};

use crate::fault::Fault;
use crate::reason::Reason;
use arrayvec::ArrayVec;
use rdm_wire::LONGEST_BRANCH_REPLY;

/// How many characters one line has at most, without its end: those of a reply in hexadecimal.
pub const LONGEST_TEXT: usize = 2 * LONGEST_BRANCH_REPLY;

const LONGEST_LINE: usize = LONGEST_TEXT + 1;

/// What is printed, with the ends of its lines.
#[derive(Drop)]
pub enum Answer {
    /// One line, without allocated memory.
    Line(ArrayVec<u8, LONGEST_LINE>),
    /// Lines.
    Lines(Vec<u8>),
}

impl Answer {
    /// The text with the line's end.
    pub fn line(text: &[u8]) -> Answer
        requires { length text.now ≤ LONGEST_TEXT }
        ensures { answer_bytes result ≡ line_of text.now }
    {
        let mut line = ArrayVec::new();
        line.try_extend_from_slice(text).unwrap();
        line.push(b'\n');
        Answer::Line(line)
    }

    /// The bytes.
    pub fn as_slice(&self) -> &[u8]
        ensures { result.now ≡ answer_bytes self.now }
    {
        match self {
            Answer::Line(line) => line.as_slice(),
            Answer::Lines(lines) => lines.as_slice(),
        }
    }
}

/// Why a command has no answer: its fault, and the reason for people. There is no reason if memory ran out.
pub type Refused<'a> = (Fault, Option<Reason<'a>>);

/// What answers a command, with its status, and what is said to people.
#[derive(Drop)]
pub struct Answered<'a> {
    /// What is printed.
    pub text: Answer,
    /// 0: done. 1: a run had a fault.
    pub status: u8,
    /// The reason for the fault, or what people should know about the answer.
    pub reason: Option<Reason<'a>>,
}

impl<'a> Answered<'a> {
    /// Done, with nothing more to say.
    pub fn done(text: Answer) -> Answered<'a>
        ensures text { result.text ≡ text }
        ensures status { result.status ≡ 0 }
    {
        Answered {
            text,
            status: 0,
            reason: None,
        }
    }
}
