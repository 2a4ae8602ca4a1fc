//! What the proofs don't cover: that calls succeed, which calls are made, results that were worked out by hand, and
//! what happens in threads. Each file takes the names below.
use rdm_agent::Kind;
use rdm_join::Status;
use rdm_join::Status::{Completed, FailedToSend, Timeout};
use rdm_locked::{Exchange, Ledger, Port};
use rdm_log::{Entry, Owner};
use std::alloc::Global;
use std::sync::Wait;
use std::test::Fail;
use std::thread::Threads;
use test_rig::ActResult::*;
use test_rig::Ending::*;
use test_rig::Found::*;
use test_rig::Stop::{AllLeft, Turns};
use test_rig::{
    Act, ActResult, AskNote, Came, Ending, Found, LineOf, Meeting, Move, NOTHING_KEPT, Note,
    Refusal, Said, Step, Stop, TimedDevice, Who, Wrong, boxed_told, cancels, config, line_of, log,
    one_device, request, says, says_at, says_run, silent, tape_of, told,
};
use test_stage::{
    Failed, NotServed, Part, Play, Player, PlayersOver, PortClient, PortJob, PortSetup, Setup,
    counts_are, on_port, play_lanes, play_port, play_threads, player_heard, serve_players,
};

// Moves, each with its result. The number of a client comes before its step.
macro_rules! moves {
    (@ $at:literal Full $tag:expr) => { Act::Client($at, Step::Discover(Kind::Full, $tag)) };
    (@ $at:literal Incremental $tag:expr) => { Act::Client($at, Step::Discover(Kind::Incremental, $tag)) };
    (@ $at:literal $step:ident $($tag:expr)?) => { Act::Client($at, Step::$step $(($tag))?) };
    (@ $act:ident $($with:expr)?) => { Act::$act $(($with))? };
    ($($($at:literal)? $act:ident $(($with:expr))? => $heard:expr),* $(,)?) => {
        &[$((moves!(@ $($at)? $act $($with)?), $heard)),*]
    };
}

// The script of a player, with the result of each line but arrivals. `Passed` looks whether a point is reached.
macro_rules! part {
    (@ Arrive $point:expr) => { Play::Arrive($point) };
    (@ Wait $point:expr) => { Play::Wait($point) };
    (@ Passed $point:expr) => { Play::Look($point) };
    (@ Hear) => { Play::Hear };
    (@ Full $tag:expr) => { Play::Do(Step::Discover(Kind::Full, $tag)) };
    (@ Incremental $tag:expr) => { Play::Do(Step::Discover(Kind::Incremental, $tag)) };
    (@ $step:ident $($tag:expr)?) => { Play::Do(Step::$step $(($tag))?) };
    ($($play:ident $(($with:expr))? $(=> $heard:expr)?),* $(,)?) => {
        (&[$(part!(@ $play $($with)?)),*], &[$($($heard,)?)*])
    };
}

// Entries of a log.
macro_rules! entries {
    ($($entry:ident $(($($with:expr),*))?),* $(,)?) => { &[$(Said::$entry $(($($with),*))?),*] };
}

// Adds a text for each of these entries, with all that it has. None: out of memory.
fn add_texts(alloc: Global, texts: &mut Vec<String>, entries: &[Entry]) -> Option<()> {
    for entry in entries {
        texts.push(format!(in alloc; "{entry:?}").ok()?).ok()?;
    }
    Some(())
}

mod client;
mod lanes;
mod locked;
