//! Embeds the queue in a program: two clients share a simulated line. One asks a fixture for its label, and the other
//! discovers the fixtures. A discovery with a fault is reported. It ends the program with status 1, and so does a call
//! that fails.
#![tactic(auto)]

mod rig;

use crate::rig::{DEVICE_LABEL, rig};
use arrayvec::ArrayVec;
use rdm::{
    AgentFault, Config, DEFAULT_BUDGET, Kind, Line, Log, Outcome, ReqClass, Request, Session,
    SimLine, Uid,
};
use std::alloc::Global;
use std::process::ExitCode;

fn main(rt: HostRuntime) -> ExitCode {
    run(&rt).map_or(ExitCode::FAILURE, |()| ExitCode::SUCCESS)
}

fn run(rt: &HostRuntime) -> Option<()> {
    let (alloc, source) = (rt.alloc(), Uid::new(0x7a70, 0x100));
    let (places, budget) = (8, DEFAULT_BUDGET);
    let config = Config {
        source,
        places,
        budget,
    };
    let mut session = Session::new(alloc, config, Log::new(alloc, 1_000).ok()?).ok()?;
    let mut line = SimLine::new(alloc, rig(alloc, source)?).ok()?;
    let console = session.join_client(alloc, 4).ok()?;
    let planner = session.join_client(alloc, 4).ok()?;
    session.submit(console, label_of(Uid::new(0x1234, 1))).ok()?;
    session.discover(planner, Kind::Full).ok()?;
    serve(alloc, &mut session, &mut line)?;
    report(rt, "console", session.next_outcome(console)?)?;
    report(rt, "planner", session.next_outcome(planner)?)
}

fn label_of(target: Uid) -> Request {
    let (class, pid, param) = (ReqClass::Get, DEVICE_LABEL, ArrayVec::new());
    Request {
        target,
        sub_device: 0,
        class,
        pid,
        param,
    }
}

// Passes each frame to the line, and its reply to the session, until nothing is left to send.
fn serve(alloc: Global, session: &mut Session, line: &mut SimLine) -> Option<()> {
    for _ in 0..1_000 {
        let Some(frame) = session.take().ok()? else {
            return Some(());
        };
        session.deliver(alloc, line.exchange(&frame).into()).ok()?;
    }
    None
}

fn report(rt: &HostRuntime, client: &str, outcome: Outcome) -> Option<()> {
    match outcome {
        Outcome::Request { done, .. } => {
            println!(rt; "{client}: {:?}, {} bytes", done.status, done.bytes.len()).ok()
        }
        Outcome::Discovery { done, .. } => {
            let (run, found) = (done.run, done.set.len());
            match done.fault {
                None => println!(rt; "{client}: {found} fixtures in run {run}").ok(),
                Some(fault) => give_up(rt, client, run, fault),
            }
        }
    }
}

// The set of a run with a fault isn't complete.
fn give_up(rt: &HostRuntime, client: &str, run: u64, fault: AgentFault) -> Option<()> {
    eprintln!(rt; "{client}: run {run} ended early: {fault}").ok()?;
    None
}
