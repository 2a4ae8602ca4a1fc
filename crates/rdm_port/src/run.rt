//! Answers the command that runs a session of clients.
ghost use Rattle.std.specs.Prelude.{◌≡◌, ◌⊎◌, ◌≤◌, ℕ, List, [], None, IfOk, IfErr, IfSome, OnOk, OnErr, is_some};
ghost use Rattle.std.specs.Prelude.{false, true};
ghost use Rattle.rdm_wire.specs.Uid.{IsDevice};
ghost use Rattle.rdm_files.specs.declared.session.file.SessionFile.{SessionFile as SessionState};
ghost use Rattle.rdm_log.specs.log.LogState.{stored};
ghost use Rattle.rdm_port.specs.Fault.{SaysFile, ReadsFile, IsTextFault, IsSessionFault, sessions};
ghost use Rattle.rdm_port.specs.Outcome.{Runs};
ghost use Rattle.rdm_port.specs.body.Faults.{fault_of_serve};
ghost use Rattle.rdm_port.specs.body.Logged.{HasLogged, IsOpened};
ghost use Rattle.rdm_port.specs.body.Texts.{answer_bytes};
ghost use Rattle.rdm_reports.specs.Writing.{Logs};
ghost use Rattle.rdm_reports.specs.OpeningText.{session_log};
ghost use Rattle.rdm_reports.specs.SessionReport.{session_text};
ghost use Rattle.rdm_serving.specs.Serving.{IsServedBy, IsSetUp};

use crate::answer::{Answer, Answered, Refused};
use crate::fault::Fault;
use crate::input::{bytes_of_file, no_json};
use crate::logging::open_log;
use crate::opening::Opens;
use crate::reason::Reason;
use crate::remark::remark_on;
use rdm_arguments::{PortKind, RunJob, Streams};
use rdm_files::{
    FileKind, SceneFault, SessionFile, discovery_command, read_session, unknown_in_session,
};
use rdm_line::{Line, SimLine};
use rdm_locked::Blank;
use rdm_reports::{LogOutput, OpensLog, Progress, session_text, write_log};
use rdm_serving::{ServeFault, Served, all_entries, serve};
use serde_json::Value;
use std::alloc::Global;
use std::io::{Read, Write};
use std::marker::Brand;
use std::sync::Wait;
use std::thread::Threads;

/// What is printed for the session in the reader's file: for each client its requests in order, and then its
/// discoveries in order. Each client has a thread, and the worker another. A line of the caller's own is opened once
/// the file is read. The session's log is written to the log, if its path is given. The progress receives what people
/// should know about the session, and then how many exchanges were made.
// It isn't inlined: a run's values are large, and no other answer should use stack for them.
#[inline(never)]
pub fn answer_run<
    'a,
    L: Line + Send + Drop,
    O: Opens<L>,
    R: Read,
    G: OpensLog,
    P: Progress + Send,
    T: Threads + Wait + Sync,
>(
    rt: &T,
    alloc: Global,
    job: RunJob<'a>,
    reader: &mut R,
    opener: &mut O,
    log: &mut LogOutput<G>,
    progress: &mut P,
) -> Result<Answered<'a>, Refused<'a>>
    requires closed { log.old.is_open ≡ false }
    requires sound { log.old.is_failed ≡ false }
    ensures ok { IfOk result (λ a. (logged : List ℕ)
        × Runs L (O.opens opener.old) job.entry.streams (R.remaining reader.old) (answer_bytes a.text) logged a.status
        × HasLogged (is_some job.entry.log) log.old log.new logged) }
    ensures fault { IfErr result (λ e. IsSessionFault (is_some job.entry.streams) (R.remaining reader.old) e.0) }
    ensures logged { OnErr result (HasLogged (is_some job.entry.log) log.old log.new []) }
{
    match serve_file(rt, alloc, job, reader, opener, log, progress) {
        Ok(served) => answer_served(alloc, served, log),
        Err(refused) => Err(refused),
    }
}

// Serves the session in the reader's file, on a line that is opened once the file is read, and once the log is open.
fn serve_file<
    'a,
    L: Line + Send + Drop,
    O: Opens<L>,
    R: Read,
    G: OpensLog,
    P: Progress + Send,
    T: Threads + Wait + Sync,
>(
    rt: &T,
    alloc: Global,
    job: RunJob<'a>,
    reader: &mut R,
    opener: &mut O,
    log: &mut LogOutput<G>,
    progress: &mut P,
) -> Result<Served, Refused<'a>>
    requires closed { log.old.is_open ≡ false }
    requires sound { log.old.is_failed ≡ false }
    ensures begins { OnOk result (IfSome job.entry.streams
        (λ s. (line : L) × O.opens opener.old s.out.now s.replies.now line)) }
    ensures served { IfOk result (λ s. (file : SessionState)
        × ReadsFile (sessions (is_some job.entry.streams)) (R.remaining reader.old) file
        × IsServedBy job.entry.port file.clients.items file.ring file.turns s
        × IsSetUp file.source file.budget file.search s.session) }
    ensures opened { OnOk result (IsOpened (is_some job.entry.log) log.old log.new) }
    ensures fault { IfErr result (λ e. IsSessionFault (is_some job.entry.streams) (R.remaining reader.old) e.0) }
    ensures logged { OnErr result (HasLogged (is_some job.entry.log) log.old log.new []) }
{
    let own_line = job.streams.is_some();
    let file = match session_file(alloc, job.file, own_line, reader, progress) {
        Ok(file) => file,
        Err(refused) => return Err(refused),
    };
    let line = match open_line(opener, job.streams) {
        Ok(line) => line,
        Err(refused) => return Err(refused),
    };
    if let Err(refused) = open_log(log, job.log) {
        return Err(refused);
    }
    let (entries, turns) = (file.log, file.turns);
    match serve_on(rt, alloc, job.port, file, line, progress) {
        Ok(served) => Ok(served),
        Err(fault) => Err(refused(fault, entries, turns)),
    }
}

// Opens the line that these streams reach, if they are given.
fn open_line<'a, L, O: Opens<L>>(
    opener: &mut O,
    streams: Option<Streams<'a>>,
) -> Result<Option<L>, Refused<'a>>
    ensures opened { IfOk result (λ line. is_some line ≡ is_some streams.entry) }
    ensures begins { OnOk result (IfSome streams.entry
        (λ s. (line : L) × O.opens opener.old s.out.now s.replies.now line)) }
    ensures fault { IfErr result (λ e. (e.0 ≡ Fault.File) ⊎ (e.0 ≡ Fault.Memory)) }
{
    let Some(streams) = streams else {
        return Ok(None);
    };
    match opener.open(streams.out, streams.replies) {
        Ok(line) => Ok(Some(line)),
        Err(unopened) => Err(unopened.refused()),
    }
}

// Serves a session on this line, or else on that of its scene.
fn serve_on<L: Line + Send + Drop, P: Progress + Send, T: Threads + Wait + Sync>(
    rt: &T,
    alloc: Global,
    port: PortKind,
    file: SessionFile,
    line: Option<L>,
    progress: &mut P,
) -> Result<Served, ServeFault>
    requires scene { is_some line ≡ false → is_some file.scene ≡ true }
    requires source { IsDevice file.source }
    requires budget { 1 ≤ file.budget }
    requires ring { 1 ≤ file.ring }
    requires log { file.log ≤ 1000000 }
    ensures served { IfOk result (IsServedBy port file.clients.items file.ring file.turns) }
    ensures set_up { IfOk result (λ s. IsSetUp file.source file.budget file.search s.session) }
{
    let mut file = file;
    let blank = Blank::new(17);
    if let Some(line) = line {
        return serve::<Brand, L, P, T>(rt, alloc, blank, port, file, line, progress);
    }
    let scene = file.scene.take().unwrap();
    match SimLine::new(alloc, scene) {
        Ok(line) => serve::<Brand, SimLine, P, T>(rt, alloc, blank, port, file, line, progress),
        Err(_) => Err(ServeFault::Memory),
    }
}

// What is printed for a session that was served. Its log, which stores all its entries, is written. Err: there was no
// memory, and nothing is written.
fn answer_served<'a, G: Write>(
    alloc: Global,
    served: Served,
    log: &mut LogOutput<G>,
) -> Result<Answered<'a>, Refused<'a>>
    requires { stored served.session ≡ served.session.entries }
    ensures text { IfOk result (λ a. answer_bytes a.text ≡ session_text served.outcomes.items) }
    ensures status { IfOk result (λ a. a.status ≡ 0) }
    ensures logged { OnOk result (Logs log.old log.new
        (session_log served.session.opening 0 served.session.entries)) }
    ensures memory { IfErr result (λ e. e.0 ≡ Fault.Memory) }
    ensures unlogged { OnErr result (log.new ≡ log.old) }
{
    let Served {
        outcomes,
        session,
        ..
    } = served;
    let Ok(text) = session_text(alloc, &outcomes) else {
        return Err((Fault::Memory, None));
    };
    let kept = session.log();
    let entries = all_entries(kept);
    write_log(alloc, log, kept.opening(), 0, entries);
    Ok(Answered {
        text: Answer::Lines(text),
        status: 0,
        reason: Reason::of_discoveries(outcomes),
    })
}

// Why a session with this log and these turns has no answer.
fn refused<'a>(fault: ServeFault, log: u64, turns: u64) -> Refused<'a>
    ensures { result.0 ≡ fault_of_serve fault }
{
    match fault {
        ServeFault::Memory => (Fault::Memory, None),
        ServeFault::Log => (Fault::Log, Some(too_little("log", log, LOG_HINT))),
        ServeFault::Turns => (Fault::Turns, Some(too_little("turns", turns, TURNS_HINT))),
        ServeFault::Defect => (Fault::Defect, Some(Reason::Defect)),
    }
}

const LOG_HINT: &str = "a request takes 5 entries or more, and without this key there are 10000";

const TURNS_HINT: &str = "waiting takes turns too, and without this key there are 100000000";

fn too_little<'a>(key: &'static str, found: u64, hint: &'static str) -> Reason<'a> {
    Reason::TooLittle { key, found, hint }
}

// The session in the reader's file, and remarks on it.
fn session_file<'a, R: Read, P: Progress>(
    alloc: Global,
    path: &'a str,
    own_line: bool,
    reader: &mut R,
    progress: &mut P,
) -> Result<SessionFile, Refused<'a>>
    ensures ok { IfOk result (ReadsFile (sessions own_line) (R.remaining reader.old)) }
    ensures scene { IfOk result (λ f. own_line ≡ false → is_some f.scene ≡ true) }
    ensures source { IfOk result (λ f. IsDevice f.source) }
    ensures budget { IfOk result (λ f. 1 ≤ f.budget) }
    ensures ring { IfOk result (λ f. 1 ≤ f.ring) }
    ensures log { IfOk result (λ f. f.log ≤ 1000000) }
    ensures fault { IfErr result (λ e. IsSessionFault own_line (R.remaining reader.old) e.0) }
{
    let bytes = match bytes_of_file(alloc, path, reader) {
        Ok(bytes) => bytes,
        Err(refused) => return Err(refused),
    };
    session_of(alloc, &bytes, own_line, progress)
}

// The session that the bytes of a file encode, and remarks on it.
fn session_of<'a, P: Progress>(
    alloc: Global,
    bytes: &[u8],
    own_line: bool,
    progress: &mut P,
) -> Result<SessionFile, Refused<'a>>
    ensures ok { IfOk result (SaysFile (sessions own_line) bytes.now) }
    ensures fault { IfErr result (λ e. IsTextFault (sessions own_line) bytes.now e.0) }
{
    let value = match Value::from_slice(alloc, bytes) {
        Ok(value) => value,
        Err(error) => return Err(no_json(bytes, &error)),
    };
    if let Some(command) = discovery_command(&value) {
        return Err((Fault::DiscoveryCommand, Reason::of_scene(command)));
    }
    match read_session(alloc, &value, own_line) {
        Ok(file) => {
            let unknown = unknown_in_session(&value, own_line);
            remark_on(alloc, unknown, "scene.losses", losses_of(&file), progress);
            Ok(file)
        }
        Err(SceneFault::Mismatch(mismatch)) => {
            let reason = Reason::of_mismatch(mismatch, &value, file_kind(own_line));
            Err((Fault::Scene, Some(reason)))
        }
        Err(SceneFault::NoMemory) => Err((Fault::Memory, None)),
    }
}

// The replies that the line of a session loses, if it is simulated.
fn losses_of(file: &SessionFile) -> &[u64] {
    match &file.scene {
        Some(scene) => &scene.losses,
        None => &[],
    }
}

// The kind of a session's file.
fn file_kind(own_line: bool) -> FileKind {
    if own_line {
        FileKind::LineSession
    } else {
        FileKind::Session
    }
}
