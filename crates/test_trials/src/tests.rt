//! What no clause says: the results of whole sessions. Each file takes the names below.
use rdm_agent::{DEFAULT_BUDGET, Kind};
use rdm_join::Status::FailedToSend;
use rdm_log::{AskFault, JoinFault, SubmitFault};
use std::alloc::Global;
use std::sync::Wait;
use std::test::Fail;
use std::thread::Threads;
use test_rig::ActResult::*;
use test_rig::Ending::{Aborted, Faultless};
use test_rig::Found::*;
use test_rig::Stop::Turns;
use test_rig::{
    Act, ActResult, AskNote, Found, MakesActs, Move, Note, Refusal, SessionStage, State, Step,
    Stop, Who, cancels, config, device_of, found_in, log, moved, one_device, open_session, request,
    state_of, told,
};
use test_stage::{LanesOver, PortSetup, Setup, counts_are, play_lanes, play_port};

mod closes_port;
mod closes_rings;
mod closes_session;
mod due;
mod full_logs;
mod laws;
