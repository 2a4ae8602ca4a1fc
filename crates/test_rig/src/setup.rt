//! The setup of sessions, and what their clients ask.
ghost use Rattle.std.specs.Prelude.{◌≡◌, [], IfOk};
ghost use Rattle.rdm_log.specs.log.Config.{IsConfig};

use crate::wrong::Wrong;
use arrayvec::ArrayVec;
use rdm_agent::DEFAULT_BUDGET;
use rdm_log::{Config, Log};
use rdm_wire::{NoMemory, ReqClass, Request, Uid};
use std::alloc::Global;

/// The controller's own UID, `7a70:00000100`.
pub fn controller() -> Uid {
    Uid::new(0x7a70, 0x100)
}

/// A controller `7a70:00000100` with this capacity and the default budget.
pub fn config(places: u8) -> Config
    ensures { IsConfig result }
{
    config_with(places, DEFAULT_BUDGET)
}

/// The same with this budget, but at least 1.
pub fn config_with(places: u8, budget: u64) -> Config
    ensures { IsConfig result }
{
    Config {
        source: Uid::new(0x7a70, 0x100),
        places: u16::from(places),
        budget: budget.max(1),
    }
}

/// In place of a number of free entries: the log keeps nothing.
pub const NOTHING_KEPT: usize = usize::MAX;

/// A log with this many free entries, or one that keeps nothing. If the allocation fails, it is tried once more.
pub fn log(alloc: Global, free: usize) -> Result<Log, Wrong>
    ensures { IfOk result (λ log. log.entries ≡ []) }
{
    if let Ok(log) = new_log(alloc, free) {
        return Ok(log);
    }
    match new_log(alloc, free) {
        Ok(log) => Ok(log),
        Err(_) => Err(Wrong::NotAgain),
    }
}

fn new_log(alloc: Global, free: usize) -> Result<Log, NoMemory>
    ensures { IfOk result (λ log. log.entries ≡ []) }
{
    if free == NOTHING_KEPT {
        Log::nothing(alloc)
    } else {
        Log::new(alloc, free.min(1_000_000))
    }
}

/// Whether the log is like a new one.
pub fn is_blank(log: &Log) -> bool {
    let opening = log.opening();
    log.len_in_all() == 0 && opening.budget == 0 && opening.greatest == 0 && opening.next_run == 0
}

/// A GET of the parameter `0060` from `1234:00000001`, to its root, without data.
pub fn get() -> Request {
    request(0)
}

/// Tags from this one on belong to requests for the parameter `8001`.
pub const LONG: u64 = 1 << 32;

/// The request with this tag: a GET of the parameter `0060`, or `8001`, from `1234:00000001`. The sub-device is the tag
/// modulo 512. The tag 0 has no data; the data of any other tag is its lowest byte.
pub fn request(tag: u64) -> Request {
    let mut param = ArrayVec::new();
    if tag != 0 {
        let _ = param.try_push((tag % 256) as u8);
    }
    Request {
        target: Uid::new(0x1234, 1),
        sub_device: sub_device_of(tag),
        class: ReqClass::Get,
        pid: pid_of(tag),
        param,
    }
}

/// The parameter that the request with this tag asks for.
pub(crate) fn pid_of(tag: u64) -> u16 {
    if tag < LONG { 0x0060 } else { 0x8001 }
}

/// The sub-device of the request with this tag.
pub(crate) fn sub_device_of(tag: u64) -> u16 {
    (tag % 512) as u16
}
