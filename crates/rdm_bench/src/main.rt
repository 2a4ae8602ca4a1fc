//! Measures the compiled libraries. What was done is counted on standard output, the same for each build. The processor
//! time that it took, and the memory that the process holds, go to standard error.
#![tactic(auto)]

mod agent;
mod bench;
mod checked;
mod lasting;
mod lines;
mod packets;
mod ports;
mod queue;
mod served;
mod soak;
mod views;

use crate::bench::{Bench, Prints, Times, holds};
use crate::served::CLIENTS;
use crate::soak::{Keeps, Port};
use std::env::{self, Env};
use std::process::ExitCode;
use std::sync::Wait;
use std::thread::Threads;

const USAGE: &str = "\
usage: rdm_bench SUBJECT SIZE ROUNDS
  agent           discovery runs over SIZE devices, 1 to 1024
  calls           calls on packets with SIZE bytes of data, 1 to 231
  queue           requests and discoveries of a queue in which SIZE requests wait, 1 to 4080
  controller      its requests without a log alone
  session         its requests with a log alone
  session_drained the same with a log that is drained
  unkept          requests of one client, without an answer, with a log that keeps nothing
  answer          the same by Session::answer
  run             the same by Session::run
  ports           requests with a mutex and with ring buffers, while SIZE wait, 1 to 8
  port            those of sixteen clients with a mutex alone
  rings           those of sixteen clients with ring buffers alone
  port_discovery  discoveries of SIZE devices, 1 to 1024, with a mutex
  ring_discovery  the same with ring buffers
  views           views of SIZE devices, 1 to 1024, that sixteen clients read
  soak_locked     SIZE requests, 1 to 100000, of sixteen clients of each of ROUNDS ports with a mutex
  soak_rings      the same with ring buffers
  endless         those that follow
  lasting_session SIZE requests, 1 to 100000, ROUNDS times, and discoveries of sixteen clients of one session whose
                  log keeps nothing
  lasting_port    the same with a mutex
  lasting_rings   the same with ring buffers
  lasting_threads the same in threads
  drained_session the same of a session whose log is drained, without discoveries
  drained_port    the same with a mutex
  drained_rings   the same with ring buffers
  runs_session, runs_port, runs_rings  the same with discoveries among them
  all             all of these with SIZE, 1 to 8; soaks with a hundred times as many requests
ROUNDS: 1 to 1000; else how often each of the 21 samples repeats its work";

// What `all` measures first. The other subjects are among these.
const ALL: &str = "agent calls queue unkept answer run ports port_discovery ring_discovery views";

// What it measures then, with a hundred times as many requests: these, and those of `endless`.
const SOAKS: &str = "soak_locked soak_rings";

const ENDLESS: &str = "lasting_session lasting_port lasting_rings lasting_threads \
    drained_session runs_session drained_port runs_port drained_rings runs_rings";

fn main(rt: HostRuntime) -> ExitCode {
    match perform(&rt) {
        Some(()) => ExitCode::SUCCESS,
        None => ExitCode::FAILURE,
    }
}

// None: the arguments ask for nothing, a call didn't return what it should, an allocation failed, or a line couldn't be
// written.
fn perform<R: Env + Times + Prints + Threads + Wait + Sync>(rt: &R) -> Option<()> {
    let words = env::args(rt)
        .ok()?
        .skip(1)
        .collect::<Vec<String>>(rt.alloc())
        .ok()?;
    if let [subject, size, rounds] = words.as_slice() {
        return measure_as_asked(rt, subject.as_str(), size.as_str(), rounds.as_str());
    }
    eprintln!(rt; "{USAGE}").ok()?;
    None
}

fn measure_as_asked<R: Times + Prints + Threads + Wait + Sync>(
    rt: &R,
    subject: &str,
    size: &str,
    rounds: &str,
) -> Option<()> {
    let size = size.parse::<usize>().ok()?;
    let rounds = within(rounds.parse::<usize>().ok()?, 1_000)?;
    match subject {
        "all" => {
            let size = within(size, 8)?;
            let requests = size.wrapping_mul(100);
            measure_each(rt, ALL, size, rounds)?;
            measure_each(rt, SOAKS, requests, rounds)?;
            measure_each(rt, ENDLESS, requests, rounds)
        }
        "endless" => measure_each(rt, ENDLESS, size, rounds),
        one => {
            holds(!one.contains(' '))?;
            measure_each(rt, one, size, rounds)
        }
    }
}

// The number, if it is from 1 to this one.
fn within(number: usize, most: usize) -> Option<usize> {
    holds(1 <= number && number <= most)?;
    Some(number)
}

// The largest size of a subject.
fn most(subject: &str) -> usize {
    match subject {
        "ports" | "port" | "rings" => 8,
        "calls" => 231,
        "agent" | "port_discovery" | "ring_discovery" | "views" => 1_024,
        "queue" | "controller" | "session" | "session_drained" | "answer" | "run" => 4_080,
        "unkept" => 255,
        _ => 100_000,
    }
}

// Measures each of these subjects.
fn measure_each<R: Times + Prints + Threads + Wait + Sync>(
    rt: &R,
    subjects: &str,
    size: usize,
    rounds: usize,
) -> Option<()> {
    for subject in subjects.split(' ') {
        measure(rt, subject, within(size, most(subject))?, rounds)?;
    }
    Some(())
}

fn measure<R: Times + Prints + Threads + Wait + Sync>(
    rt: &R,
    subject: &str,
    size: usize,
    rounds: usize,
) -> Option<()> {
    let alloc = rt.alloc();
    let bench = &Bench {
        rt,
        alloc,
        size,
        rounds,
    };
    if is_soak(subject) {
        print_soak(bench, subject)
    } else {
        time(bench, subject)
    }
}

// Whether its size is a number of requests.
fn is_soak(subject: &str) -> bool {
    ["soak", "lasting", "drained", "runs"]
        .iter()
        .any(|kind| subject.starts_with(*kind))
}

fn time<R: Times + Wait>(bench: &Bench<R>, subject: &str) -> Option<()> {
    match subject {
        "agent" => agent::time(bench),
        "calls" => packets::time(bench),
        "queue" => queue::time(bench),
        "controller" => queue::time_requests(bench, false, false),
        "session" => queue::time_requests(bench, true, false),
        "session_drained" => queue::time_drained(bench),
        "unkept" => queue::time_unkept(bench),
        "answer" => queue::time_events(bench, false),
        "run" => queue::time_events(bench, true),
        "ports" => ports::time(bench),
        "port" => ports::time_requests(bench, true, CLIENTS),
        "rings" => ports::time_requests(bench, false, CLIENTS),
        "port_discovery" => ports::time_discoveries(bench, true),
        "ring_discovery" => ports::time_discoveries(bench, false),
        "views" => views::time(bench),
        _ => None,
    }
}

fn print_soak<R: Prints + Threads + Wait + Sync>(bench: &Bench<R>, soak: &str) -> Option<()> {
    match soak {
        "soak_locked" => soak::print_ports(bench, Port::Locked),
        "soak_rings" => soak::print_ports(bench, Port::Rings),
        "lasting_session" => soak::print_one(bench, Port::Alone, Keeps::Nothing, true),
        "lasting_port" => soak::print_one(bench, Port::Locked, Keeps::Nothing, true),
        "lasting_rings" => soak::print_one(bench, Port::Rings, Keeps::Nothing, true),
        "lasting_threads" => lasting::print(bench, true),
        "drained_session" => soak::print_one(bench, Port::Alone, Keeps::Pages, false),
        "drained_port" => soak::print_one(bench, Port::Locked, Keeps::Pages, false),
        "drained_rings" => soak::print_one(bench, Port::Rings, Keeps::Pages, false),
        "runs_session" => soak::print_one(bench, Port::Alone, Keeps::Pages, true),
        "runs_port" => soak::print_one(bench, Port::Locked, Keeps::Pages, true),
        "runs_rings" => soak::print_one(bench, Port::Rings, Keeps::Pages, true),
        _ => None,
    }
}
