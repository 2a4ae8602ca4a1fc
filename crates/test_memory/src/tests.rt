//! In a test any one allocation may fail, and the next one too if the test's name ends with `twice`. Each file takes
//! the names below.
use self::checks::check;
use self::lines::first_device;
use rdm_agent::{DEFAULT_BUDGET, Kind};
use rdm_join::Status::{self, FailedToSend, Timeout};
use rdm_line::{Line, SimLine};
use rdm_log::{ClientId, JoinFault, NotAsked, SubmitFault};
use rdm_wire::NoMemory;
use std::alloc::Global;
use std::process::Abort;
use std::sync::Wait;
use test_rig::ActResult::*;
use test_rig::Ending::Faultless;
use test_rig::Found::{First, Nobody};
use test_rig::Stop::{AllLeft, Turns};
use test_rig::{
    Act, ActResult, AskNote, Driver, LONG, LineOf, MakesActs, Meeting, Move, Note, Refusal, Said,
    SessionStage, Step, TimedDevice, Who, Wrong, cancels, completion_told, config, controller,
    device_of, found_in, get, is_blank, line_of, log, open_session, request, session_of, silent,
};
use test_stage::{
    Failed, LanesOver, NotServed, Part, Play, Player, PlayersOver, PortOver, PortSetup, Setup,
    counts_are, drive_lanes, drive_port, player_heard, serve_bodies,
};

// Moves, each with its result. The number of a client comes before its step.
macro_rules! moves {
    (@ $at:literal Full $tag:expr) => { Act::Client($at, Step::Discover(Kind::Full, $tag)) };
    (@ $at:literal $step:ident $($tag:expr)?) => { Act::Client($at, Step::$step $(($tag))?) };
    (@ $act:ident $($with:expr)?) => { Act::$act $(($with))? };
    ($($($at:literal)? $act:ident $(($with:expr))? => $heard:expr),* $(,)?) => {
        &[$((moves!(@ $($at)? $act $($with)?), $heard)),*]
    };
}

mod careful;
mod checks;
mod controllers;
mod desks;
mod events;
mod inside;
mod lines;
mod ports;
mod publications;
mod replies;
mod rings;
mod scenes;
mod sessions;
mod threads;
