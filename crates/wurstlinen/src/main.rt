//! Reads and writes the replies of RDM devices to a branch of the discovery tree. Discovers devices, and runs sessions
//! of clients, on a simulated line or on streams of text. Explains their logs. `rdm_port` decides what is printed. Here
//! are the arguments of the process, its files and its streams.
#![tactic(auto)]

ghost use Rattle.std.specs.Prelude.{◌≡◌, IfOk, map, string_bytes};
ghost use Rattle.rdm_arguments.specs.Arguments.{texts_of};

mod input;
mod log_file;
mod opening;

use crate::input::Input;
use crate::log_file::LogFile;
use crate::opening::{FileOpener, TextLine};
use rdm_arguments::{Complaint, Job, WordsFault, complaint_of, parse_words};
use rdm_port::{Progressing, Reason, carry_out, print_reason, print_usage};
use rdm_reports::LogOutput;
use std::alloc::{AllocError, Global};
use std::fs::File;
use std::process::ExitCode;
use std::rt::{Files, Runtime};
use std::sync::Wait;
use std::thread::Threads;
use std::{env, io};

fn main(rt: HostRuntime) -> ExitCode {
    let status = match args(&rt) {
        Ok(args) => obey(&rt, rt.alloc(), &args),
        Err(fault) => print(&rt, rt.alloc(), Err(fault), None),
    };
    ExitCode::from(status)
}

fn obey<T: Runtime + Threads + Wait + Sync + Files<File = File>>(
    rt: &T,
    alloc: Global,
    args: &[String],
) -> u8 {
    match words(alloc, args) {
        Ok(words) => print(rt, alloc, parse_words(alloc, &words), Some(&words)),
        Err(_) => print(rt, alloc, Err(WordsFault::NoMemory), None),
    }
}

// Prints the answer on standard output, and the reason if it isn't done on standard error. The words are the arguments,
// if all of them are text.
fn print<T: Runtime + Threads + Wait + Sync + Files<File = File>>(
    rt: &T,
    alloc: Global,
    job: Result<Job<'_>, WordsFault>,
    words: Option<&[&str]>,
) -> u8 {
    let (file, rig) = match &job {
        Ok(job) => (job.file(), job.rig()),
        Err(_) => (None, None),
    };
    let mut reader = Input::open(rt, file);
    let mut rig = Input::open(rt, rig);
    let mut progress = match &job {
        Ok(job) if job.is_on_line() => Progressing::on_line(rt),
        _ => Progressing::new(rt),
    };
    let (status, reason) = carry_out::<TextLine, _, _, _, _, _, _, _>(
        rt,
        alloc,
        job,
        &mut reader,
        &mut rig,
        &mut FileOpener::new(rt, alloc),
        &mut LogOutput::new(LogFile::new(rt)),
        &mut io::writer(rt),
        &mut progress,
    );
    // If standard error fails too, the status shows it.
    let _ = match reason {
        Some(Reason::Arguments) => print_usage(rt, &complaint(words)),
        Some(reason) => print_reason(rt, &reason),
        None => Ok(()),
    };
    status
}

// What is wrong with the arguments. Those that aren't text fit no command.
fn complaint<'a>(words: Option<&[&'a str]>) -> Complaint<'a> {
    match words {
        Some(words) => complaint_of(words),
        None => Complaint::NoText,
    }
}

// The arguments after the program's name. One that isn't text fits no command.
fn args(rt: &HostRuntime) -> Result<Vec<String>, WordsFault> {
    let args = env::args(rt).map_err(|error| match error.kind() {
        io::ErrorKind::OutOfMemory => WordsFault::NoMemory,
        _ => WordsFault::Words,
    })?;
    args.skip(1)
        .collect(rt.alloc())
        .map_err(|_| WordsFault::NoMemory)
}

fn words(alloc: Global, args: &[String]) -> Result<Vec<&str>, AllocError>
    ensures { IfOk result (λ words. texts_of words.items ≡ map string_bytes args.now) }
{
    let mut words = Vec::new(alloc);
    for arg in args {
        words.push(arg.as_str())?;
    }
    Ok(words)
}
