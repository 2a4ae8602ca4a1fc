//! A line over a reader and a writer of text.
ghost use Rattle.std.specs.Prelude.{◌≡◌, ◌≢◌, ◌≤◌, ℕ, List, [], ◌∷◌, ◌++◌, length};
ghost use Rattle.std.specs.Prelude.{OnOk, OnSome, IfSome, IfNone, All};
ghost use Rattle.std.specs.Io.KnownBytes.{Appends, Consumes};
ghost use Rattle.rdm_line.specs.Streams.{StreamStep, SaysReply, ReadsReply, ReadsNoReply, GoesUnanswered, frame_line};
ghost use Rattle.rdm_line.specs.body.LineReading.{IsTextOf, ReadsWithin};

use crate::counting::count_failure;
use crate::line::Line;
use arrayvec::ArrayVec;
use rdm_join::{LineFault, LineReply};
use rdm_wire::{Frame, MOST_FRAME_BYTES};
use std::io;
use std::io::{ErrorKind, Read, Write};
use std::marker::Model;

// How many digits the longest reply has.
const MOST_DIGITS: usize = 2 * MOST_FRAME_BYTES;

// How many bytes the longest line has, without its newline: the digits and a carriage return.
const MOST_LINE_BYTES: usize = MOST_DIGITS + 1;

// A line without its newline.
type Text = ArrayVec<u8, MOST_LINE_BYTES>;

/// A line whose far end is another program, which is reached by text. Each exchange writes its frame as a line of
/// lower-case hexadecimal, and flushes. Then it reads one line, which reports the reply:
///
/// - at most 257 bytes in hexadecimal of either case: a reply with these bytes;
/// - an empty line: silence;
/// - any other line, such as `failed`: the exchange failed.
///
/// A carriage return before the newline is no part of the line. The far end decides how long it waits for a device.
///
/// An exchange also fails if either stream returns an error, and at the end of the input. A last line without a newline
/// is no reply, since it may have been cut off. Each exchange reads one line at most, and none unless its frame was
/// written. A line that is longer than a reply is read to its end, and dropped.
///
/// After an error of a stream, the far end may still send its reply. The next exchange takes that for its own.
///
/// The reader is asked for one byte at a time, so give it a buffer, such as `BufReader`. Contracts see what the reader
/// has left, what the writer holds, and the count of failures.
#[derive(Drop)]
pub struct StreamLine<R: Read, W: Write> {
    reader: R,
    writer: W,
    failures: u64,
}

impl<R: Read, W: Write> Model for StreamLine<R, W> {
    ghost use Rattle.rdm_line.specs.Streams.{StreamState};

    ghost Value = { StreamState };

    ghost view = { λ s. record { left = R.remaining s.reader; held = W.contents s.writer; failures = s.failures } };
}

impl<R: Read, W: Write> StreamLine<R, W> {
    /// A line over these streams: replies come from the reader, and frames go to the writer.
    pub fn new(reader: R, writer: W) -> StreamLine<R, W>
        ensures { result ≡ record { left = R.remaining reader; held = W.contents writer; failures = 0 } }
    {
        StreamLine {
            reader,
            writer,
            failures: 0,
        }
    }

    /// Both streams, as the last exchange left them.
    pub fn into_parts(self) -> (R, W)
        ensures reader { R.remaining result.0 ≡ self.left }
        ensures writer { W.contents result.1 ≡ self.held }
    {
        (self.reader, self.writer)
    }

    // Writes the frame and reads its reply; None if the exchange failed.
    fn ask(&mut self, frame: &Frame) -> Option<LineReply>
        ensures written { OnSome result (Appends self.old.held self.new.held (frame_line frame.now.items)) }
        ensures consumed { IfSome result (λ reply. ReadsReply self.old.left self.new.left reply.items) }
        ensures none { IfNone result (GoesUnanswered self.old frame.now.items self.new) }
        ensures failures { self.new.failures ≡ self.old.failures }
    {
        write_frame(&mut self.writer, frame).ok()?;
        let line = read_line(&mut self.reader)?;
        parse_reply(line.as_slice())
    }
}

impl<R: Read, W: Write> Line for StreamLine<R, W> {
    ghost step = { StreamStep };

    ghost failures_of = { λ s. s.failures };

    fn exchange(&mut self, frame: &Frame) -> Result<LineReply, LineFault> {
        let answer = self.ask(frame);
        count_failure(&mut self.failures, answer)
    }

    fn failures(&self) -> u64 {
        self.failures
    }
}

// Writes a frame's line, and flushes.
fn write_frame<W: Write>(writer: &mut W, frame: &Frame) -> io::Result<()>
    ensures { OnOk result (Appends (W.contents writer.old) (W.contents writer.new) (frame_line frame.now.items)) }
{
    let mut text = [0u8; MOST_DIGITS + 1];
    let end = 2 * frame.len();
    let _ = hex::encode_to_slice(frame.as_slice(), &mut text[..end]);
    text[end] = b'\n';
    writer.write_all(&text[..end + 1])?;
    writer.flush()
}

// The next byte; None at the end of the input or if the reader fails, and then nothing was read.
fn next_byte<R: Read>(reader: &mut R) -> Option<u8>
    ensures some { IfSome result (λ b. Consumes (R.remaining reader.old) (R.remaining reader.new) (b ∷ [])) }
    ensures none { IfNone result (Consumes (R.remaining reader.old) (R.remaining reader.new) []) }
{
    let mut one = [0u8; 1];
    'tries: for _ in 0..u64::MAX {
        match reader.read(&mut one) {
            Ok(0) => return None,
            Ok(_) => return Some(one[0]),
            Err(error) if error.kind() == ErrorKind::Interrupted => {}
            Err(_) => return None,
        }
    }
    None
}

// The next line, without its newline; None if it is longer than a reply's may be, has no newline, or if the reader
// fails. A line that is too long is read to its end.
fn read_line<R: Read>(reader: &mut R) -> Option<Text>
    ensures consumed { IfSome result (λ line. Consumes (R.remaining reader.old) (R.remaining reader.new)
        (line.items ++ 10 ∷ [])) }
    ensures one { IfSome result (λ line. All (λ b. b ≢ 10) line.items) }
    ensures none { IfNone result (ReadsNoReply (R.remaining reader.old) (R.remaining reader.new)) }
{
    let mut line = ArrayVec::new();
    'bytes: for _ in 0..MOST_LINE_BYTES + 1 {
        let byte = next_byte(reader)?;
        if byte == b'\n' {
            return Some(line);
        }
        if line.is_full() {
            skip_line(reader);
            return None;
        }
        line.push(byte);
    }
    None
}

// Reads up to the end of the line.
fn skip_line<R: Read>(reader: &mut R)
    ensures { ReadsWithin (R.remaining reader.old) (R.remaining reader.new) }
{
    'rest: for _ in 0..u64::MAX {
        match next_byte(reader) {
            None | Some(b'\n') => return,
            Some(_) => {}
        }
    }
}

// The bytes that a line encodes; None if it encodes none.
fn parse_reply(line: &[u8]) -> Option<LineReply>
    requires { length line.now ≤ MOST_LINE_BYTES }
    ensures some { IfSome result (λ reply. SaysReply line.now reply.items) }
    ensures none { IfNone result ((bytes : List ℕ) → SaysReply line.now bytes → ⊥) }
{
    let text = text_of(line);
    let mut bytes = [0u8; MOST_FRAME_BYTES];
    let count = text.len() / 2;
    hex::decode_to_slice(text, &mut bytes[..count]).ok()?;
    ArrayVec::try_from(&bytes[..count]).ok()
}

// The text of a line, without a carriage return at its end.
fn text_of(line: &[u8]) -> &[u8]
    ensures text { IsTextOf line.now result.now }
    ensures fits { length result.now ≤ length line.now }
{
    line.strip_suffix(b"\r").unwrap_or(line)
}
