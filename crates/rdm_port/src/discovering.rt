//! Answers the command that discovers devices.
ghost use Rattle.std.specs.Prelude.{◌≡◌, ℕ, List, [], IfOk, IfErr, OnErr, false, is_some};
ghost use Rattle.rdm_port.specs.Fault.{ReadsFile, SaysFile, IsFileFault, IsTextFault, scenes};
ghost use Rattle.rdm_port.specs.LineOutcome.{IsLineFault, IsLineRun};
ghost use Rattle.rdm_port.specs.Outcome.{IsLogUnreported, IsSceneRun, kind_of, search_of};
ghost use Rattle.rdm_port.specs.Program.{Discovers, IsDiscoveryFault, IsRun};
ghost use Rattle.rdm_port.specs.body.Logged.{HasLogged};
ghost use Rattle.rdm_port.specs.body.Texts.{answer_bytes};
ghost use Rattle.rdm_reports.specs.Report.{report_text, report_status};

use crate::answer::{Answer, Answered, Refused};
use crate::fault::Fault;
use crate::input::{bytes_of_file, no_json};
use crate::line_values::values_of;
use crate::logging::open_log;
use crate::opening::Opens;
use crate::reason::Reason;
use crate::remark::remark_on;
use rdm_agent::{Kind, Search};
use rdm_arguments::{DiscoverJob, DiscoveryLine, LineDiscovery};
use rdm_files::{FileKind, SceneFault, SceneFile, read_scene, unknown_in_scene};
use rdm_line::Line;
use rdm_reports::{Discovery, LogOutput, OpensLog, Progress, discover, discover_in, report};
use serde_json::Value;
use std::alloc::Global;
use std::io::Read;

/// What a run reports. The run's exchanges are written to the log as they are made, if its path is given. The progress
/// receives what people should know about a scene, and then how many exchanges were made.
// It isn't inlined: it holds the devices of a run, and no other answer should use stack for them.
#[inline(never)]
pub fn answer_discover<'a, L: Line + Drop, O: Opens<L>, R: Read, G: OpensLog, P: Progress>(
    alloc: Global,
    job: &DiscoverJob<'a>,
    reader: &mut R,
    opener: &mut O,
    log: &mut LogOutput<G>,
    progress: &mut P,
) -> Result<Answered<'a>, Refused<'a>>
    requires closed { log.old.is_open ≡ false }
    requires sound { log.old.is_failed ≡ false }
    ensures ok { IfOk result (λ a. (logged : List ℕ)
        × Discovers L L.step (O.opens opener.old) job.now (R.remaining reader.old) (answer_bytes a.text) logged a.status
        × HasLogged (is_some job.now.log) log.old log.new logged) }
    ensures fault { IfErr result (λ e. IsDiscoveryFault job.now.line (R.remaining reader.old) e.0) }
    ensures logged { IfErr result (λ e. (logged : List ℕ)
        × IsLogUnreported (Discovers L L.step (O.opens opener.old) job.now (R.remaining reader.old)) e.0 logged
        × HasLogged (is_some job.now.log) log.old log.new logged) }
{
    let search = search_of(job.quick);
    let kind = kind_of(job.incremental);
    match run_on(alloc, job, search, kind, reader, opener, log, progress) {
        Ok(run) => answered(alloc, &run),
        Err(refused) => Err(refused),
    }
}

// A run on the line of the scene in the reader's file, or on one of the caller's own.
fn run_on<'a, L: Line + Drop, O: Opens<L>, R: Read, G: OpensLog, P: Progress>(
    alloc: Global,
    job: &DiscoverJob<'a>,
    search: Search,
    kind: Kind,
    reader: &mut R,
    opener: &mut O,
    log: &mut LogOutput<G>,
    progress: &mut P,
) -> Result<Discovery, Refused<'a>>
    requires closed { log.old.is_open ≡ false }
    requires sound { log.old.is_failed ≡ false }
    ensures ok { IfOk result (λ d. (logged : List ℕ)
        × IsRun L L.step (O.opens opener.old) job.now.line search kind (R.remaining reader.old) d.found d.frames logged
        × HasLogged (is_some job.now.log) log.old log.new logged) }
    ensures fault { IfErr result (λ e. IsDiscoveryFault job.now.line (R.remaining reader.old) e.0) }
    ensures logged { OnErr result (HasLogged (is_some job.now.log) log.old log.new []) }
{
    match &job.line {
        DiscoveryLine::Scene(file) => {
            run_in_scene(alloc, file, search, kind, job.log, reader, log, progress)
        }
        DiscoveryLine::Streams(own) => {
            run_on_line(alloc, own, search, kind, job.log, opener, log, progress)
        }
    }
}

// A run on the line of the scene in the reader's file, which is the one at the path. The log is opened before the first
// frame. It isn't inlined: a run's values are large, and no other answer should use stack for them.
#[inline(never)]
fn run_in_scene<'a, R: Read, G: OpensLog, P: Progress>(
    alloc: Global,
    path: &'a str,
    search: Search,
    kind: Kind,
    log_path: Option<&'a str>,
    reader: &mut R,
    log: &mut LogOutput<G>,
    progress: &mut P,
) -> Result<Discovery, Refused<'a>>
    requires closed { log.old.is_open ≡ false }
    requires sound { log.old.is_failed ≡ false }
    ensures ok { IfOk result (λ d. (logged : List ℕ)
        × IsSceneRun search kind (R.remaining reader.old) d.found d.frames logged
        × HasLogged (is_some log_path.entry) log.old log.new logged) }
    ensures fault { IfErr result (λ e. IsFileFault scenes (R.remaining reader.old) e.0) }
    ensures logged { OnErr result (HasLogged (is_some log_path.entry) log.old log.new []) }
{
    let file = match scene_file(alloc, path, reader, progress) {
        Ok(file) => file,
        Err(refused) => return Err(refused),
    };
    if let Err(refused) = open_log(log, log_path) {
        return Err(refused);
    }
    let SceneFile {
        scene,
        known,
        budget,
    } = file;
    match discover_in(alloc, scene, search, kind, &known, budget, progress, log) {
        Ok(run) => Ok(run),
        Err(_) => Err((Fault::Memory, None)),
    }
}

// A run on the line that the streams reach. The line and then the log are opened before the first frame, and the line
// is dropped at the end. It isn't inlined, for the same reason.
#[inline(never)]
fn run_on_line<'a, L: Line + Drop, O: Opens<L>, G: OpensLog, P: Progress>(
    alloc: Global,
    own: &LineDiscovery<'a>,
    search: Search,
    kind: Kind,
    log_path: Option<&'a str>,
    opener: &mut O,
    log: &mut LogOutput<G>,
    progress: &mut P,
) -> Result<Discovery, Refused<'a>>
    requires closed { log.old.is_open ≡ false }
    requires sound { log.old.is_failed ≡ false }
    ensures ok { IfOk result (λ d. (logged : List ℕ)
        × IsLineRun L L.step (O.opens opener.old) own.now search kind d.found d.frames logged
        × HasLogged (is_some log_path.entry) log.old log.new logged) }
    ensures fault { IfErr result (λ e. IsLineFault own.now e.0) }
    ensures logged { OnErr result (HasLogged (is_some log_path.entry) log.old log.new []) }
{
    let values = match values_of(own) {
        Ok(values) => values,
        Err(refused) => return Err(refused),
    };
    let mut line = match opener.open(own.streams.out, own.streams.replies) {
        Ok(line) => line,
        Err(unopened) => return Err(unopened.refused()),
    };
    if let Err(refused) = open_log(log, log_path) {
        return Err(refused);
    }
    let (source, known) = (values.source, &values.known);
    Ok(discover(
        alloc, &mut line, source, search, kind, known, own.budget, progress, log,
    ))
}

// The kind of a run.
fn kind_of(incremental: bool) -> Kind
    ensures { result ≡ kind_of incremental }
{
    if incremental {
        Kind::Incremental
    } else {
        Kind::Full
    }
}

// How a run searches.
fn search_of(quick: bool) -> Search
    ensures { result ≡ search_of quick }
{
    if quick { Search::Quick } else { Search::Steady }
}

// The scene in the reader's file, and remarks on it.
fn scene_file<'a, R: Read, P: Progress>(
    alloc: Global,
    path: &'a str,
    reader: &mut R,
    progress: &mut P,
) -> Result<SceneFile, Refused<'a>>
    ensures ok { IfOk result (ReadsFile scenes (R.remaining reader.old)) }
    ensures fault { IfErr result (λ e. IsFileFault scenes (R.remaining reader.old) e.0) }
{
    let bytes = match bytes_of_file(alloc, path, reader) {
        Ok(bytes) => bytes,
        Err(refused) => return Err(refused),
    };
    scene_of(alloc, &bytes, progress)
}

// The scene that the bytes of a file encode, and remarks on it.
fn scene_of<'a, P: Progress>(
    alloc: Global,
    bytes: &[u8],
    progress: &mut P,
) -> Result<SceneFile, Refused<'a>>
    ensures ok { IfOk result (SaysFile scenes bytes.now) }
    ensures fault { IfErr result (λ e. IsTextFault scenes bytes.now e.0) }
{
    let value = match Value::from_slice(alloc, bytes) {
        Ok(value) => value,
        Err(error) => return Err(no_json(bytes, &error)),
    };
    match read_scene(alloc, &value) {
        Ok(file) => {
            let unknown = unknown_in_scene(&value);
            remark_on(alloc, unknown, "losses", &file.scene.losses, progress);
            Ok(file)
        }
        Err(SceneFault::Mismatch(mismatch)) => {
            let reason = Reason::of_mismatch(mismatch, &value, FileKind::Scene);
            Err((Fault::Scene, Some(reason)))
        }
        Err(SceneFault::NoMemory) => Err((Fault::Memory, None)),
    }
}

// What is printed for a run. With a fault, the reason has what it found until then.
fn answered<'a>(alloc: Global, run: &Discovery) -> Result<Answered<'a>, Refused<'a>>
    ensures text { IfOk result (λ a. answer_bytes a.text ≡ report_text run.now.found run.now.frames) }
    ensures status { IfOk result (λ a. a.status ≡ report_status run.now.found) }
    ensures memory { IfErr result (λ e. e.0 ≡ Fault.Memory) }
{
    let Ok(text) = report(alloc, run) else {
        return Err((Fault::Memory, None));
    };
    let text = Answer::Lines(text);
    match &run.found {
        Ok(_) => Ok(Answered::done(text)),
        Err((fault, found)) => Ok(Answered {
            text,
            status: 1,
            reason: Reason::of_fault(alloc, *fault, found),
        }),
    }
}
