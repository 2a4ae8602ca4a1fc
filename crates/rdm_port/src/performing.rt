//! What is printed for a command, its status, and the reason if it isn't done.
ghost use Rattle.std.specs.Prelude.{◌≡◌, ℕ, List, [], None, Ok, IfOk, IfErr, OnErr, false, is_some};
ghost use Rattle.rdm_line.specs.Sim.{SimState, SimStep};
ghost use Rattle.rdm_reports.specs.Report.{line_of};
ghost use Rattle.rdm_port.specs.Fault.{fault_line, fault_status};
ghost use Rattle.rdm_port.specs.Outcome.{IsLogged, IsPrinted};
ghost use Rattle.rdm_port.specs.Program.{Answers, IsFaultOf, IsLoggedWith, IsOutcome, has_log};
ghost use Rattle.rdm_port.specs.body.Explained.{IsExplainOutcome, IsNoExplanation};
ghost use Rattle.rdm_port.specs.body.Logged.{HasLogged, HasTextAndStatus, status_after};
ghost use Rattle.rdm_port.specs.body.Texts.{answer_bytes};

use crate::answer::{Answer, Answered, Refused};
use crate::branch::{decode, encode};
use crate::discovering::answer_discover;
use crate::explaining::print_explanation;
use crate::fault::Fault;
use crate::logging::{NoLog, after_log};
use crate::opening::{NoLine, Opens};
use crate::reason::Reason;
use crate::run::answer_run;
use rdm_arguments::{ExplainJob, Job, WordsFault};
use rdm_files::Remark;
use rdm_line::{Line, SimLine};
use rdm_reports::{LogOutput, OpensLog, Progress, write_all};
use std::alloc::Global;
use std::io;
use std::io::{ErrorKind, Read, Write};
use std::sync::Wait;
use std::thread::Threads;

/// The status if a writer failed.
pub(crate) const NOT_WRITTEN: u8 = 1;

/// Prints the answer to a command, and returns its status:
/// - 0 if it is done;
/// - 1 if there is a fault, or the writer fails;
/// - 2 if the arguments fit no command;
/// - 3 if a log shows that a rule was broken.
///
/// Of several faults the first in this order is printed: the arguments; `fault: hex` or `fault: uid`; `fault: file`;
/// `fault: json`; `fault: discovery command`; `fault: scene`; then those of the run, with `fault: log` before
/// `fault: turns`, and `fault: defect` last. Those of a log that is explained come last. `fault: memory` is printed
/// when it occurs. If the writer fails, it has a prefix of the text.
///
/// The reader is for a command that reads a file. If the file can't be opened, pass a reader whose reads fail. No line
/// is opened here, and no log is kept: a command with a line of the caller's own, or with a log, is `fault: file` once
/// its file has been read. No second file is read, so a command with one is `fault: file` too.
pub fn perform<R: Read, W: Write, T: Threads + Wait + Sync>(
    rt: &T,
    alloc: Global,
    job: Result<Job<'_>, WordsFault>,
    reader: &mut R,
    writer: &mut W,
) -> u8
    ensures { (text logged : List ℕ) × (status status_printed : ℕ)
        × IsOutcome SimState SimStep (λ out replies line. ⊥) job.entry (R.remaining reader.old) None text logged status
        × IsLogged (has_log job.entry) None None logged status status_printed
        × IsPrinted (W.contents writer.old) (W.contents writer.new) text status_printed result }
{
    let mut log = LogOutput::new(NoLog);
    let (status, _) = carry_out::<SimLine, _, _, _, _, _, _, _>(
        rt,
        alloc,
        job,
        reader,
        &mut NoFile,
        &mut NoLine,
        &mut log,
        writer,
        &mut Silent,
    );
    status
}

/// As [`perform`], and opens the line and keeps the log that the arguments name. It also returns the reason if the
/// command isn't done, for instance because a writer fails. The rig is the reader of the scene file that a job reads
/// beside a log ([`Job::rig`]).
///
/// The line and then the log are opened once the file is read, and before the first frame. If one of them can't be
/// opened, that is `fault: file`. The line is dropped at the end. A discovery's exchanges are written as they are made,
/// and a session's log after its end. If the log's writer fails, it has a prefix of the text, and the status is 1. The
/// progress first receives what people should know about a file, and then how many exchanges its session or discovery
/// has made.
///
/// On a line of the caller's own, a discovery is one by the line's own steps. The caller has to know whether the line
/// is honest. If a line always fails, each request ends with FailedToSend, and each discovery with its fault.
///
/// The log must not be open yet ([`LogOutput::is_open`]), and must not have failed ([`LogOutput::failure`]).
pub fn carry_out<
    'a,
    L: Line + Send + Drop,
    O: Opens<L>,
    R: Read,
    S: Read,
    G: OpensLog,
    W: Write,
    P: Progress + Send,
    T: Threads + Wait + Sync,
>(
    rt: &T,
    alloc: Global,
    job: Result<Job<'a>, WordsFault>,
    reader: &mut R,
    rig: &mut S,
    opener: &mut O,
    log: &mut LogOutput<G>,
    writer: &mut W,
    progress: &mut P,
) -> (u8, Option<Reason<'a>>)
    requires closed { log.old.is_open ≡ false }
    requires sound { log.old.is_failed ≡ false }
    ensures { (text logged : List ℕ) × (status status_printed : ℕ)
        × IsOutcome L L.step (O.opens opener.old) job.entry (R.remaining reader.old) (S.remaining rig.old) text logged
        status
        × IsLogged (has_log job.entry) log.old.contents log.new.contents logged status status_printed
        × IsPrinted (W.contents writer.old) (W.contents writer.new) text status_printed result.0 }
{
    let job = match explanation_of(job) {
        Ok(explanation) => {
            return print_explained(alloc, &explanation, reader, rig, writer, progress);
        }
        Err(job) => job,
    };
    let path = match &job {
        Ok(job) => job.log(),
        Err(_) => None,
    };
    let answer = answer(rt, alloc, job, reader, opener, log, progress);
    print(writer, log, path, answer)
}

// The explanation that a command is. Err: it is this other one.
fn explanation_of<'a>(
    job: Result<Job<'a>, WordsFault>,
) -> Result<ExplainJob<'a>, Result<Job<'a>, WordsFault>>
    ensures explanation { IfOk result (λ e. job.entry ≡ Ok (Job.Explain e)) }
    ensures same { IfErr result (λ other. other ≡ job.entry) }
    ensures other { IfErr result IsNoExplanation }
{
    match job {
        Ok(Job::Explain(explanation)) => Ok(explanation),
        Ok(Job::Decode(digits)) => Err(Ok(Job::Decode(digits))),
        Ok(Job::Encode(uid)) => Err(Ok(Job::Encode(uid))),
        Ok(Job::Discover(discovery)) => Err(Ok(Job::Discover(discovery))),
        Ok(Job::Run(session)) => Err(Ok(Job::Run(session))),
        Err(fault) => Err(Err(fault)),
    }
}

// Prints what a log shows, or the line of a fault. It is printed while the log is read, so that memory doesn't grow
// with what it shows.
fn print_explained<'a, R: Read, S: Read, W: Write, P: Progress>(
    alloc: Global,
    job: &ExplainJob<'a>,
    reader: &mut R,
    rig: &mut S,
    writer: &mut W,
    progress: &mut P,
) -> (u8, Option<Reason<'a>>)
    ensures { (text : List ℕ) × (status : ℕ)
        × IsExplainOutcome job.now (R.remaining reader.old) (S.remaining rig.old) text status
        × IsPrinted (W.contents writer.old) (W.contents writer.new) text status result.0 }
{
    match print_explanation(alloc, job, reader, rig, writer, progress) {
        Ok(printed) => printed,
        Err(refused) => write_answer(writer, to_print(Err(refused))),
    }
}

// Prints an answer, or the line of its fault. The status is also 1 if the log at this path has failed, or if the writer
// fails. Then that is the reason.
fn print<'a, G: Write, W: Write>(
    writer: &mut W,
    log: &LogOutput<G>,
    path: Option<&'a str>,
    answer: Result<Answered<'a>, Refused<'a>>,
) -> (u8, Option<Reason<'a>>)
    ensures ok { IfOk answer.entry (λ a. IsPrinted (W.contents writer.old) (W.contents writer.new)
        (answer_bytes a.text) (status_after log.now a.status) result.0) }
    ensures fault { IfErr answer.entry (λ e. IsPrinted (W.contents writer.old) (W.contents writer.new)
        (line_of (fault_line e.0)) (status_after log.now (fault_status e.0)) result.0) }
{
    let to_print = to_print(answer);
    write_answer(writer, after_log(to_print, log, path))
}

// The answer, or the line of its fault.
fn to_print<'a>(answer: Result<Answered<'a>, Refused<'a>>) -> Answered<'a>
    ensures ok { IfOk answer.entry (λ a. HasTextAndStatus result (answer_bytes a.text) a.status) }
    ensures fault { IfErr answer.entry (λ e. HasTextAndStatus result (line_of (fault_line e.0)) (fault_status e.0)) }
{
    match answer {
        Ok(answered) => answered,
        Err((fault, reason)) => Answered {
            text: Answer::line(fault.line().as_bytes()),
            status: fault.status(),
            reason,
        },
    }
}

fn write_answer<'a, W: Write>(writer: &mut W, answered: Answered<'a>) -> (u8, Option<Reason<'a>>)
    ensures { IsPrinted (W.contents writer.old) (W.contents writer.new)
        (answer_bytes answered.entry.text) answered.entry.status result.0 }
{
    let Answered {
        text,
        status,
        reason,
    } = answered;
    print_text(writer, text.as_slice(), status, reason)
}

/// Prints a text. Returns the status and the reason, unless the writer fails.
pub(crate) fn print_text<'a, W: Write>(
    writer: &mut W,
    text: &[u8],
    status: u8,
    reason: Option<Reason<'a>>,
) -> (u8, Option<Reason<'a>>)
    ensures { IsPrinted (W.contents writer.old) (W.contents writer.new) text.now status result.0 }
{
    match write_all(writer, text) {
        Ok(()) => (status, reason),
        Err(kind) => (NOT_WRITTEN, Some(Reason::Unwritten(kind))),
    }
}

// A second file, which can't be read.
#[derive(Clone, Copy, Drop)]
struct NoFile;

impl Read for NoFile {
    fn read(&mut self, _bytes: &mut [u8]) -> io::Result<usize> {
        Err(io::Error::from(ErrorKind::Unsupported))
    }
}

/// Reports nothing.
#[derive(Clone, Copy, Drop)]
pub struct Silent;

impl Progress for Silent {
    fn remark(&mut self, _remark: &Remark) {}

    fn report_exchanges(&mut self, _exchanges: usize) {}
}

// The answer to a command that isn't an explanation.
fn answer<
    'a,
    L: Line + Send + Drop,
    O: Opens<L>,
    R: Read,
    G: OpensLog,
    P: Progress + Send,
    T: Threads + Wait + Sync,
>(
    rt: &T,
    alloc: Global,
    job: Result<Job<'a>, WordsFault>,
    reader: &mut R,
    opener: &mut O,
    log: &mut LogOutput<G>,
    progress: &mut P,
) -> Result<Answered<'a>, Refused<'a>>
    requires other { IsNoExplanation job }
    requires closed { log.old.is_open ≡ false }
    requires sound { log.old.is_failed ≡ false }
    ensures ok { IfOk result (λ a. (logged : List ℕ)
        × ((j : Job) × (job.entry ≡ Ok j)
        × Answers L L.step (O.opens opener.old) j (R.remaining reader.old) None (answer_bytes a.text) logged a.status)
        × HasLogged (has_log job.entry) log.old log.new logged) }
    ensures fault { IfErr result (λ e. IsFaultOf job.entry (R.remaining reader.old) None e.0) }
    ensures logged { IfErr result (λ e. (logged : List ℕ)
        × IsLoggedWith L L.step (O.opens opener.old) job.entry (R.remaining reader.old) e.0 logged
        × HasLogged (has_log job.entry) log.old log.new logged) }
{
    match job {
        Ok(Job::Decode(digits)) => decode(alloc, digits),
        Ok(Job::Encode(uid)) => encode(uid),
        Ok(Job::Discover(discovery)) => {
            answer_discover(alloc, &discovery, reader, opener, log, progress)
        }
        Ok(Job::Run(session)) => answer_run(rt, alloc, session, reader, opener, log, progress),
        Ok(Job::Explain(_)) => unreachable!(),
        Err(WordsFault::Words) => Err((Fault::CommandLine, Some(Reason::Arguments))),
        Err(WordsFault::NoMemory) => Err((Fault::Memory, None)),
    }
}
