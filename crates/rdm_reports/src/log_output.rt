//! Where a log goes.
ghost use Rattle.std.specs.Prelude.{◌≡◌, OnOk, OnErr, true, false, is_some};
ghost use Rattle.std.specs.Io.KnownBytes.{Appends, Keeps};
ghost use Rattle.rdm_reports.specs.Writing.{IsCutShort, Logs};

use std::io::{ErrorKind, Write};
use std::marker::Model;

/// A writer that opens what it writes to.
pub trait OpensLog: Write {
    /// Opens the file at this path, which is created or replaced. Err: why it can't be opened. What the writer holds
    /// is unchanged.
    fn open(&mut self, path: &str) -> Result<(), ErrorKind>
        ensures { Keeps (Self.contents self.old) (Self.contents self.new) };
}

/// A log's writer. Nothing is written unless it is open, and nothing after its first error. Contracts see what the
/// writer holds, whether it is open, and whether it has failed.
#[derive(Drop)]
pub struct LogOutput<W: Write> {
    writer: W,
    is_open: bool,
    failure: Option<ErrorKind>,
}

impl<W: Write> Model for LogOutput<W> {
    ghost use Rattle.std.specs.Prelude.{is_some};
    ghost use Rattle.rdm_reports.specs.Writing.{LogState};

    ghost Value = { LogState };

    ghost view = { λ l. record {
      contents = W.contents l.writer;
      is_open = l.is_open;
      is_failed = is_some l.failure;
    } };
}

impl<W: Write> LogOutput<W> {
    /// A log with this writer, which isn't open.
    pub fn new(writer: W) -> LogOutput<W>
        ensures { result ≡ record { contents = W.contents writer; is_open = false; is_failed = false } }
    {
        LogOutput {
            writer,
            is_open: false,
            failure: None,
        }
    }

    /// Whether it is open.
    pub fn is_open(&self) -> bool
        ensures { result ≡ self.now.is_open }
    {
        self.is_open
    }

    /// The first error of the writer; none if everything was written.
    pub fn failure(&self) -> Option<ErrorKind>
        ensures { is_some result ≡ self.now.is_failed }
    {
        self.failure
    }

    /// The writer, which has what was written.
    pub fn into_writer(self) -> W
        ensures { W.contents result ≡ self.contents }
    {
        self.writer
    }

    /// Whether something would be written: the log is open, and its writer hasn't failed.
    pub(crate) fn would_write(&self) -> bool
        ensures is_open { result ≡ true → self.now.is_open ≡ true }
        ensures is_failed { result ≡ true → self.now.is_failed ≡ false }
        ensures none { result ≡ false → self.now.is_open ≡ true → self.now.is_failed ≡ true }
    {
        self.is_open && self.failure.is_none()
    }

    /// Writes a text. Nothing is written if the log isn't open or has failed.
    pub(crate) fn write(&mut self, text: &[u8])
        ensures { Logs self.old self.new text.now }
    {
        if !self.would_write() {
            return;
        }
        if let Err(kind) = write_all(&mut self.writer, text) {
            self.failure = Some(kind);
        }
    }

    /// Makes the log fail, because there was no memory for a text.
    pub(crate) fn fail(&mut self)
        requires is_open { self.old.is_open ≡ true }
        requires is_failed { self.old.is_failed ≡ false }
        ensures { self.new ≡ record self.old { is_failed = true } }
    {
        self.failure = Some(ErrorKind::OutOfMemory);
    }
}

impl<W: OpensLog> LogOutput<W> {
    /// Opens the file at this path for the log: it is created, or replaced. Err: why it can't be opened; then the log
    /// isn't open.
    pub fn open(&mut self, path: &str) -> Result<(), ErrorKind>
        ensures open { OnOk result (self.new.is_open ≡ true) }
        ensures unopened { OnErr result (self.new.is_open ≡ self.old.is_open) }
        ensures same { self.new.is_failed ≡ self.old.is_failed }
        ensures bytes { Keeps self.old.contents self.new.contents }
    {
        match self.writer.open(path) {
            Ok(()) => {
                self.is_open = true;
                Ok(())
            }
            Err(kind) => Err(kind),
        }
    }
}

/// Writes the bytes. Err: the writer failed with this error, or takes nothing more. The writer's own `write_all`
/// doesn't say what it wrote if it fails.
pub fn write_all<W: Write>(writer: &mut W, bytes: &[u8]) -> Result<(), ErrorKind>
    ensures all { OnOk result (Appends (W.contents writer.old) (W.contents writer.new) bytes.now) }
    ensures some { OnErr result (IsCutShort (W.contents writer.old) (W.contents writer.new) bytes.now) }
{
    let mut written = 0;
    let mut failure = ErrorKind::WriteZero;
    // A loop has to end, and no writer reaches this bound. A write that was interrupted is tried again.
    'writing: for _ in 0..u64::MAX {
        if written == bytes.len() {
            break;
        }
        match writer.write(&bytes[written..]) {
            Ok(0) => break,
            Ok(count) => written += count,
            Err(error) if error.kind() == ErrorKind::Interrupted => {}
            Err(error) => {
                failure = error.kind();
                break;
            }
        }
    }
    if written == bytes.len() {
        Ok(())
    } else {
        Err(failure)
    }
}
