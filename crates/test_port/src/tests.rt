//! What the proofs don't cover: readers, writers and logs that fail, runs on stored replies, and values that nothing
//! else shows. Each file takes the names below.
use self::program::{
    Due, EXPLAIN, INCREMENTAL, LOCKED, LOG, LOG_FILE, RINGS, SCENE, SCENE_FILE, SESSION,
    SESSION_FILE, check, check_at, says, status_of,
};
use rdm_agent::Kind;
use rdm_arguments::parse_words;
use rdm_port::{Reason, Silent};
use rdm_reports::LogOutput;
use rdm_wire::Uid;
use std::alloc::Global;
use std::io::{self, ErrorKind, Read, Write};
use std::process::Abort;
use std::sync::Wait;
use std::thread::Threads;

mod arguments;
mod logged;
mod logs;
mod played;
mod program;
mod readers;
mod tapes;
mod writers;
