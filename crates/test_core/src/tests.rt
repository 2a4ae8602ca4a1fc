//! What the proofs don't cover and no case of the program shows: values from outside, and that calls succeed. Each file
//! takes the names below.
use self::checks::{bytes_of, check, check_eq, frame_of, says};
use arrayvec::ArrayVec;
use rdm_agent::{DEFAULT_BUDGET, Kind, Search};
use rdm_join::{LineEvent, LineFault, LineReply, Status};
use rdm_line::{
    AddFault, Asks, Collision, CollisionBytes, Counted, Line, SimLine, StreamLine, TapeLine,
};
use rdm_wire::{
    Device, DeviceSet, Frame, NoMemory, ReqClass, Request, SetFull, Uid, UidRange, UidSet,
};
use std::alloc::Global;
use std::process::Abort;

// Each fault has this text.
macro_rules! texts {
    ($rt:expr; $($fault:expr => $text:expr),* $(,)?) => { $(says(&$rt, $rt.alloc(), &$fault, $text);)* };
}

mod agent;
mod checks;
mod commands;
mod explain;
mod faults;
mod line;
mod queue;
mod sets;
