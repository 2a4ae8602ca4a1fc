//! Logs that a command keeps.
ghost use Rattle.std.specs.Prelude.{◌≡◌, [], IfErr, OnOk, OnErr, false, is_some};
ghost use Rattle.rdm_port.specs.body.Logged.{IsOpened, HasLogged, status_after};
ghost use Rattle.rdm_port.specs.body.Texts.{answer_bytes};

use crate::answer::{Answered, Refused};
use crate::fault::Fault;
use crate::performing::NOT_WRITTEN;
use crate::reason::Reason;
use rdm_reports::{LogOutput, OpensLog};
use std::io;
use std::io::{ErrorKind, Write};

/// Opens a log at this path, if there is one. Err: it can't be opened.
pub(crate) fn open_log<'a, G: OpensLog>(
    log: &mut LogOutput<G>,
    path: Option<&'a str>,
) -> Result<(), Refused<'a>>
    requires closed { log.old.is_open ≡ false }
    requires sound { log.old.is_failed ≡ false }
    ensures opened { OnOk result (IsOpened (is_some path.entry) log.old log.new) }
    ensures fault { IfErr result (λ e. e.0 ≡ Fault.File) }
    ensures unopened { OnErr result (HasLogged (is_some path.entry) log.old log.new []) }
{
    let Some(path) = path else {
        return Ok(());
    };
    match log.open(path) {
        Ok(()) => Ok(()),
        Err(kind) => Err((Fault::File, Some(Reason::Unopened(path, kind)))),
    }
}

/// The same answer. If the log at this path has failed, the status and the reason report that.
pub(crate) fn after_log<'a, G: Write>(
    answered: Answered<'a>,
    log: &LogOutput<G>,
    path: Option<&'a str>,
) -> Answered<'a>
    ensures text { answer_bytes result.text ≡ answer_bytes answered.entry.text }
    ensures status { result.status ≡ status_after log.now answered.entry.status }
{
    match log.failure() {
        Some(kind) => Answered {
            text: answered.text,
            status: NOT_WRITTEN,
            reason: Some(Reason::Unlogged(path.unwrap_or(""), kind)),
        },
        None => answered,
    }
}

/// Keeps no log: none can be opened.
#[derive(Clone, Copy, Drop)]
pub(crate) struct NoLog;

impl Write for NoLog {
    fn write(&mut self, _bytes: &[u8]) -> io::Result<usize> {
        Ok(0)
    }

    fn flush(&mut self) -> io::Result<()> {
        Ok(())
    }
}

impl OpensLog for NoLog {
    fn open(&mut self, _path: &str) -> Result<(), ErrorKind> {
        Err(ErrorKind::Unsupported)
    }
}
