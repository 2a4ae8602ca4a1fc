//! The jobs that arguments give.
ghost use Rattle.std.specs.Prelude.{◌≡◌, ◌≢◌, IfOk, Err, option_map};
ghost use Rattle.clap.specs.Words.{kind_of};
ghost use Rattle.rdm_arguments.specs.Arguments.{Asks, AsksNothing, file_of, log_of, rig_of, scene_path, texts_of};

use crate::commands::commands;
use crate::port_kind::PortKind;
use crate::reading::given;
use clap::Error;
use clap::error::ErrorKind;
use std::alloc::Global;

/// The job that arguments give.
#[derive(Drop)]
pub enum Job<'a> {
    /// Say what these bytes mean, which answered a branch. They are given in hexadecimal.
    Decode(&'a str),
    /// Write the reply of the device with this UID to a branch.
    Encode(&'a str),
    /// Report which devices a run finds.
    Discover(DiscoverJob<'a>),
    /// Run the session of a file.
    Run(RunJob<'a>),
    /// Say which rules a log shows to be broken, and by whom.
    Explain(ExplainJob<'a>),
}

/// A discovery, from the arguments.
#[derive(Drop)]
pub struct DiscoverJob<'a> {
    /// The line.
    pub line: DiscoveryLine<'a>,
    /// Whether the run mutes the known devices first.
    pub incremental: bool,
    /// Whether the run sweeps first.
    pub quick: bool,
    /// The path of the log of its exchanges, if one is kept.
    pub log: Option<&'a str>,
}

/// The line of a discovery.
#[derive(Drop)]
pub enum DiscoveryLine<'a> {
    /// The simulated line of the scene in the file at this path.
    Scene(&'a str),
    /// A line of the caller's own.
    Streams(LineDiscovery<'a>),
}

/// What a discovery on a line of the caller's own needs. The UIDs aren't parsed yet.
#[derive(Drop)]
pub struct LineDiscovery<'a> {
    /// The streams that reach the line.
    pub streams: Streams<'a>,
    /// The controller's UID.
    pub source: &'a str,
    /// The UIDs that an incremental run mutes first, at most 1,024.
    pub known: Vec<&'a str>,
    /// How many frames the run may send: 1 to 1,000,000,000.
    pub budget: u64,
}

/// The streams of text that reach a line.
#[derive(Clone, Copy)]
pub struct Streams<'a> {
    /// The path of the stream that frames go to.
    pub out: &'a str,
    /// The path of the stream that replies come from. It may be the same.
    pub replies: &'a str,
}

/// A session, from the arguments.
#[derive(Clone, Copy)]
pub struct RunJob<'a> {
    /// The path of the session file.
    pub file: &'a str,
    /// The streams that reach its line; none if the line is the file's scene.
    pub streams: Option<Streams<'a>>,
    /// How the clients and the worker share the session.
    pub port: PortKind,
    /// The path of the session's log, if one is kept.
    pub log: Option<&'a str>,
}

/// An explanation of a log, from the arguments. The UIDs aren't parsed yet.
#[derive(Drop)]
pub struct ExplainJob<'a> {
    /// The path of the log.
    pub log: &'a str,
    /// The UIDs of devices that were present, at most 1,024.
    pub present: Vec<&'a str>,
    /// The path of a scene file with devices that were present, if there is one.
    pub rig: Option<&'a str>,
    /// Whether it is printed as JSON.
    pub json: bool,
}

impl<'a> Job<'a> {
    /// The path of the file that it reads, if it reads one. An explanation reads its log, and a second file
    /// ([`Job::rig`]).
    pub fn file(&self) -> Option<&'a str>
        ensures { option_map (λ f. f.now) result ≡ file_of self.now }
    {
        match self {
            Job::Decode(_) | Job::Encode(_) => None,
            Job::Discover(job) => job.file(),
            Job::Run(job) => Some(job.file),
            Job::Explain(job) => Some(job.log),
        }
    }

    /// The path of the scene file that it reads beside a log, if it reads one.
    pub fn rig(&self) -> Option<&'a str>
        ensures { result ≡ rig_of self.now }
    {
        match self {
            Job::Decode(_) | Job::Encode(_) | Job::Discover(_) | Job::Run(_) => None,
            Job::Explain(job) => job.rig,
        }
    }

    /// The path of the log that it keeps, if it keeps one.
    pub fn log(&self) -> Option<&'a str>
        ensures { result ≡ log_of self.now }
    {
        match self {
            Job::Decode(_) | Job::Encode(_) | Job::Explain(_) => None,
            Job::Discover(job) => job.log,
            Job::Run(job) => job.log,
        }
    }

    /// Whether its line is the caller's own.
    pub fn is_on_line(&self) -> bool {
        match self {
            Job::Decode(_) | Job::Encode(_) | Job::Explain(_) => false,
            Job::Discover(job) => matches!(job.line, DiscoveryLine::Streams(_)),
            Job::Run(job) => job.streams.is_some(),
        }
    }
}

impl<'a> DiscoverJob<'a> {
    // The path of its scene file, if the line is simulated.
    fn file(&self) -> Option<&'a str>
        ensures { option_map (λ f. f.now) result ≡ scene_path self.now.line }
    {
        match &self.line {
            DiscoveryLine::Scene(file) => Some(*file),
            DiscoveryLine::Streams(_) => None,
        }
    }
}

/// Why arguments give no job.
#[derive(Clone, Copy, Debug, PartialEq, Eq, thiserror::Error)]
pub enum WordsFault {
    /// The arguments fit no command.
    #[error("the arguments fit no command")]
    Words,
    /// There was no memory.
    #[error("out of memory")]
    NoMemory,
}

/// The job that the arguments after the program's name give, as `clap` reads them: a command's name and its arguments.
/// A value that begins with `-` and isn't `-` alone has to come after `--`. Err: the arguments fit no command, or there
/// was no memory, whichever is found first.
pub fn parse_words<'a>(alloc: Global, words: &'a [&'a str]) -> Result<Job<'a>, WordsFault>
    ensures job { IfOk result (Asks (texts_of words.now)) }
    ensures words { result ≡ Err WordsFault.Words → AsksNothing (texts_of words.now) }
{
    let Ok(command) = commands(alloc) else {
        return Err(WordsFault::NoMemory);
    };
    match command.try_get_matches_from(words) {
        Ok(matches) => given(alloc, &matches),
        Err(error) => Err(fault_of(&error)),
    }
}

// Why arguments weren't accepted.
fn fault_of(error: &Error) -> WordsFault
    ensures words { result ≡ WordsFault.Words → kind_of error.now ≢ ErrorKind.OutOfMemory }
    ensures memory { result ≡ WordsFault.NoMemory → kind_of error.now ≡ ErrorKind.OutOfMemory }
{
    match error.kind() {
        ErrorKind::OutOfMemory => WordsFault::NoMemory,
        _ => WordsFault::Words,
    }
}
