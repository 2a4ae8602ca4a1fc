//! What `clap` found in the arguments, as a job.
ghost use Rattle.std.specs.Prelude.{◌≡◌, ◌≤◌, ◌<◌, ◌↔◌, ℕ, IfOk, IfErr, IfSome, IfNone, IsTrue, None, Some, Err};
ghost use Rattle.std.specs.Prelude.{Option, codes, length};
ghost use Rattle.clap.specs.Words.{found_of, rows_of, subcommand_rows_of, first_of};
ghost use Rattle.rdm_arguments.specs.Arguments.{AreStreams, IsBudget, IsDiscovery, IsDiscoveryLine, IsGiven};
ghost use Rattle.rdm_arguments.specs.Arguments.{IsExplain, IsLineDiscovery, IsRun, HasStreams, IsSimulated};
ghost use Rattle.rdm_arguments.specs.Arguments.{is_set, port_in, port_named, path_text, texts_given, texts_of};

use crate::job::{
    DiscoverJob, DiscoveryLine, ExplainJob, Job, LineDiscovery, RunJob, Streams, WordsFault,
};
use crate::port_kind::PortKind;
use clap::ArgMatches;
use rdm_agent::DEFAULT_BUDGET;
use rdm_wire::MOST_DEVICES;
use std::alloc::Global;

/// The greatest budget that arguments may give.
const MOST_BUDGET: u64 = 1_000_000_000;

/// The job of the command that was given. Err: there is none, or there was no memory.
pub(crate) fn given<'a>(alloc: Global, matches: &ArgMatches<'a>) -> Result<Job<'a>, WordsFault>
    ensures ok { IfOk result (IsGiven (subcommand_rows_of matches.now)) }
    ensures words { result ≡ Err WordsFault.Words
        → (job : Job) → IsGiven (subcommand_rows_of matches.now) job → ⊥ }
{
    match matches.subcommand() {
        Some((command, given)) => given_to(alloc, command, given),
        None => Err(WordsFault::Words),
    }
}

// The job that these arguments give to the command with this name. Err: they give none, or there was no memory.
fn given_to<'a>(alloc: Global, command: &str, given: &ArgMatches<'a>) -> Result<Job<'a>, WordsFault>
    ensures ok { IfOk result (IsGiven (Some (command.now, rows_of (found_of given.now)))) }
    ensures words { result ≡ Err WordsFault.Words
        → (job : Job) → IsGiven (Some (command.now, rows_of (found_of given.now))) job → ⊥ }
{
    match command {
        "decode" => match value(given, "hex") {
            Some(digits) => Ok(Job::Decode(digits)),
            None => Err(WordsFault::Words),
        },
        "encode" => match value(given, "uid") {
            Some(uid) => Ok(Job::Encode(uid)),
            None => Err(WordsFault::Words),
        },
        "discover" => match discovery(alloc, given) {
            Ok(job) => Ok(Job::Discover(job)),
            Err(fault) => Err(fault),
        },
        "run" => match run(given) {
            Some(job) => Ok(Job::Run(job)),
            None => Err(WordsFault::Words),
        },
        "explain" => match explanation(alloc, given) {
            Ok(job) => Ok(Job::Explain(job)),
            Err(fault) => Err(fault),
        },
        _ => Err(WordsFault::Words),
    }
}

// The discovery that these arguments give. Err: they give none, or there was no memory.
fn discovery<'a>(alloc: Global, given: &ArgMatches<'a>) -> Result<DiscoverJob<'a>, WordsFault>
    ensures ok { IfOk result (IsDiscovery (rows_of (found_of given.now))) }
    ensures words { result ≡ Err WordsFault.Words
        → (job : DiscoverJob) → IsDiscovery (rows_of (found_of given.now)) job → ⊥ }
{
    match discovery_line(alloc, given) {
        Ok(line) => Ok(DiscoverJob {
            line,
            incremental: has_flag(given, "incremental"),
            quick: has_flag(given, "quick"),
            log: value(given, "log"),
        }),
        Err(fault) => Err(fault),
    }
}

// The line of a discovery: that of a file, or else one that streams reach.
fn discovery_line<'a>(
    alloc: Global,
    given: &ArgMatches<'a>,
) -> Result<DiscoveryLine<'a>, WordsFault>
    ensures ok { IfOk result (IsDiscoveryLine (rows_of (found_of given.now))) }
    ensures words { result ≡ Err WordsFault.Words
        → (line : DiscoveryLine) → IsDiscoveryLine (rows_of (found_of given.now)) line → ⊥ }
{
    match value(given, "file") {
        Some(file) if is_simulated(given) => Ok(DiscoveryLine::Scene(file)),
        Some(_) => Err(WordsFault::Words),
        None => match line_discovery(alloc, given) {
            Ok(own) => Ok(DiscoveryLine::Streams(own)),
            Err(fault) => Err(fault),
        },
    }
}

// Whether a discovery has none of the options that need a line of the caller's own.
fn is_simulated(given: &ArgMatches<'_>) -> bool
    ensures { IsTrue result ↔ IsSimulated (rows_of (found_of given.now)) }
{
    value(given, "line").is_none()
        && value(given, "replies").is_none()
        && value(given, "source").is_none()
        && value(given, "known").is_none()
        && value(given, "budget").is_none()
}

// A discovery on a line of the caller's own.
fn line_discovery<'a>(
    alloc: Global,
    given: &ArgMatches<'a>,
) -> Result<LineDiscovery<'a>, WordsFault>
    ensures ok { IfOk result (IsLineDiscovery (rows_of (found_of given.now))) }
    ensures words { result ≡ Err WordsFault.Words
        → (job : LineDiscovery) → IsLineDiscovery (rows_of (found_of given.now)) job → ⊥ }
{
    let Some(streams) = streams(given) else {
        return Err(WordsFault::Words);
    };
    let Some(source) = value(given, "source") else {
        return Err(WordsFault::Words);
    };
    let Some(budget) = budget_of(given) else {
        return Err(WordsFault::Words);
    };
    match repeated(alloc, given, "known") {
        Ok(known) => Ok(LineDiscovery {
            streams,
            source,
            known,
            budget,
        }),
        Err(fault) => Err(fault),
    }
}

// The session that these arguments give. None: they give none.
fn run<'a>(given: &ArgMatches<'a>) -> Option<RunJob<'a>>
    ensures some { IfSome result (IsRun (rows_of (found_of given.now))) }
    ensures none { IfNone result ((job : RunJob) → IsRun (rows_of (found_of given.now)) job → ⊥) }
{
    let Some(file) = value(given, "file") else {
        return None;
    };
    let Some(port) = port_of(given) else {
        return None;
    };
    match streams_of_run(given) {
        Ok(streams) => Some(RunJob {
            file,
            streams,
            port,
            log: value(given, "log"),
        }),
        Err(_) => None,
    }
}

// The explanation that these arguments give. Err: they give none, or there was no memory.
fn explanation<'a>(alloc: Global, given: &ArgMatches<'a>) -> Result<ExplainJob<'a>, WordsFault>
    ensures ok { IfOk result (IsExplain (rows_of (found_of given.now))) }
    ensures words { result ≡ Err WordsFault.Words
        → (job : ExplainJob) → IsExplain (rows_of (found_of given.now)) job → ⊥ }
{
    let Some(log) = value(given, "log") else {
        return Err(WordsFault::Words);
    };
    match repeated(alloc, given, "present") {
        Ok(present) => Ok(ExplainJob {
            log,
            present,
            rig: value(given, "rig"),
            json: has_flag(given, "json"),
        }),
        Err(fault) => Err(fault),
    }
}

// The streams of a session's line, if it has any. Err: one for replies alone.
fn streams_of_run<'a>(given: &ArgMatches<'a>) -> Result<Option<Streams<'a>>, WordsFault>
    ensures ok { IfOk result (HasStreams (rows_of (found_of given.now))) }
    ensures none { IfErr result (λ _. (streams : Option Streams)
        → HasStreams (rows_of (found_of given.now)) streams → ⊥) }
{
    match streams(given) {
        Some(streams) => Ok(Some(streams)),
        None if value(given, "replies").is_none() => Ok(None),
        None => Err(WordsFault::Words),
    }
}

// The streams that reach a line. None: there is no option `--line`.
fn streams<'a>(given: &ArgMatches<'a>) -> Option<Streams<'a>>
    ensures some { IfSome result (AreStreams (rows_of (found_of given.now))) }
    ensures none { IfNone result (first_of (codes "line") (rows_of (found_of given.now)) ≡ None) }
{
    match value(given, "line") {
        Some(out) => Some(Streams {
            out,
            replies: value(given, "replies").unwrap_or(out),
        }),
        None => None,
    }
}

// The value of an argument, if it was given.
fn value<'a>(given: &ArgMatches<'a>, name: &str) -> Option<&'a str>
    ensures { path_text result ≡ first_of name.now (rows_of (found_of given.now)) }
{
    given.get_str(name)
}

// Whether a flag was given: `clap` returns it as the text of a truth value.
fn has_flag(given: &ArgMatches<'_>, flag: &str) -> bool
    ensures { result ≡ is_set flag.now (rows_of (found_of given.now)) }
{
    match value(given, flag) {
        Some(text) => text == "true",
        None => false,
    }
}

// The port that was given, or the locked one by default. None: there is no such port.
fn port_of(given: &ArgMatches<'_>) -> Option<PortKind>
    ensures { result ≡ port_in (rows_of (found_of given.now)) }
{
    match value(given, "port") {
        Some(name) => port_named(name),
        None => Some(PortKind::Locked),
    }
}

/// The port with this name.
pub(crate) fn port_named(name: &str) -> Option<PortKind>
    ensures { result ≡ port_named name.now }
{
    match name {
        "locked" => Some(PortKind::Locked),
        "rings" => Some(PortKind::Rings),
        _ => None,
    }
}

// The budget that was given, or the default. None: it isn't a whole number from 1 to 1,000,000,000.
fn budget_of(given: &ArgMatches<'_>) -> Option<u64>
    ensures some { IfSome result (IsBudget (first_of (codes "budget") (rows_of (found_of given.now)))) }
    ensures none { IfNone result ((budget : ℕ)
        → IsBudget (first_of (codes "budget") (rows_of (found_of given.now))) budget → ⊥) }
{
    match value(given, "budget") {
        Some(text) => budget_named(text),
        None => Some(DEFAULT_BUDGET),
    }
}

/// The budget in a text. None: it isn't a whole number from 1 to 1,000,000,000.
pub(crate) fn budget_named(text: &str) -> Option<u64>
    ensures some { IfSome result (IsBudget (Some text.now)) }
    ensures none { IfNone result ((budget : ℕ) → IsBudget (Some text.now) budget → ⊥) }
{
    let budget = text.parse::<u64>().ok()?;
    if (1..=MOST_BUDGET).contains(&budget) {
        Some(budget)
    } else {
        None
    }
}

// The values of an option that may be given several times. Err: there are more than 1,024, or there was no memory.
fn repeated<'a>(
    alloc: Global,
    given: &ArgMatches<'a>,
    name: &str,
) -> Result<Vec<&'a str>, WordsFault>
    ensures ok { IfOk result (λ values.
        texts_given name.now (rows_of (found_of given.now)) ≡ texts_of values.items) }
    ensures few { IfOk result (λ values. length values.items ≤ MOST_DEVICES) }
    ensures words { result ≡ Err WordsFault.Words
        → MOST_DEVICES < length (texts_given name.now (rows_of (found_of given.now))) }
{
    let mut values = Vec::new(alloc);
    match given.get_strs(name) {
        None => Ok(values),
        Some(texts) if MOST_DEVICES < texts.len() => Err(WordsFault::Words),
        Some(texts) => match values.extend_from_slice(texts) {
            Ok(()) => Ok(values),
            Err(_) => Err(WordsFault::NoMemory),
        },
    }
}
