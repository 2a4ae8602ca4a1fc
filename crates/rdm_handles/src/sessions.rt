//! C's calls on a session, with their statuses.
ghost use Rattle.std.specs.Prelude.{◌≡◌, ◌≤◌, ◌<◌, ◌+◌, [], Ok, IfOk, IfErr, if◌then◌else◌, ◌==◌, true};
ghost use Rattle.rdm_log.specs.log.LogState.{blank_log, opening_after, drained, filled_page};
ghost use Rattle.rdm_handles.specs.Sessions.{rotate_status, drain_status};

use crate::status::{LOG_FULL, NOT_IDLE, OUT_OF_MEMORY, TOO_MANY_ENTRIES};
use rdm_log::{Config, LEAST_FREE, Log, MOST_ENTRIES, MOST_FREE_ENTRIES, Setup};
use rdm_queue::Session;
use rdm_wire::{NoMemory, Uid};
use std::alloc::Global;
use std::mem::replace;

/// Continues with a new log of this many entries, and returns the old one.
/// Err: the status of the first fault, or `OUT_OF_MEMORY`. Then the session is unchanged.
pub fn rotate(session: &mut Session, alloc: Global, entries: usize) -> Result<Box<Log>, u32>
    ensures rotated { IfOk result (λ old. (rotate_status session.old entries ≡ 0) × (old.value ≡ session.old)
        × (session.new ≡ record {
          opening = opening_after session.old.opening session.old.entries;
          entries = [];
          room = entries + 1;
          gone = 0;
          keeps = true;
        })) }
    ensures refused { IfErr result (λ fault. (session.new ≡ session.old) × (fault
        ≡ (if rotate_status session.old entries == 0 then OUT_OF_MEMORY else rotate_status session.old entries))) }
{
    if entries > MOST_FREE_ENTRIES {
        return Err(TOO_MANY_ENTRIES);
    }
    if entries < LEAST_FREE {
        return Err(LOG_FULL);
    }
    if !session.is_idle() {
        return Err(NOT_IDLE);
    }
    let Ok((fresh, stand_in, mut old)) = memory_for_rotation(alloc, entries) else {
        return Err(OUT_OF_MEMORY);
    };
    match replace(session, stand_in).rotate(fresh) {
        Ok((goes_on, log)) => {
            *session = goes_on;
            *old = log;
            Ok(old)
        }
        Err((_, unchanged, _)) => {
            *session = unchanged;
            Err(NOT_IDLE)
        }
    }
}

/// Goes on in memory for this many entries and one more, and returns all entries that the log stored, as a log.
/// Err: the status of the first fault, or `OUT_OF_MEMORY`. Then the session is unchanged.
pub fn drain(session: &mut Session, alloc: Global, entries: usize) -> Result<Box<Log>, u32>
    ensures drained { IfOk result (λ page. (drain_status session.old entries ≡ 0)
        × (session.new ≡ drained session.old (entries + 1))) }
    ensures handed_out { IfOk result (λ page. page.value ≡ filled_page (blank_log (entries + 1)) session.old) }
    ensures refused { IfErr result (λ fault. (session.new ≡ session.old) × (fault
        ≡ (if drain_status session.old entries == 0 then OUT_OF_MEMORY else drain_status session.old entries))) }
{
    if entries < session.reserved().saturating_sub(1) {
        return Err(LOG_FULL);
    }
    if entries > MOST_FREE_ENTRIES {
        return Err(TOO_MANY_ENTRIES);
    }
    let room = entries as u64 + 1;
    if session.log().len_in_all() + room > MOST_ENTRIES {
        return Err(LOG_FULL);
    }
    let Ok(page) = page_for(alloc, entries) else {
        return Err(OUT_OF_MEMORY);
    };
    let mut page = page;
    match session.drain_into(&mut page) {
        Ok(_) => Ok(page),
        // This is never reached: the tests above are all that can refuse it.
        Err(_) => Err(OUT_OF_MEMORY),
    }
}

// A log for this many entries, in a box.
fn page_for(alloc: Global, entries: usize) -> Result<Box<Log>, NoMemory>
    requires { entries ≤ 1000000 }
    ensures { IfOk result (λ page. page.value ≡ blank_log (entries + 1)) }
{
    let log = Log::new(alloc, entries)?;
    match Box::new(alloc, log) {
        Ok(page) => Ok(page),
        Err(_) => Err(NoMemory),
    }
}

// What a rotation needs memory for: the new log of this many entries, a session in place of the one that rotates, and
// the old log's box. All are allocated before, so that the rotation can't run out of memory.
fn memory_for_rotation(alloc: Global, entries: usize) -> Result<(Log, Session, Box<Log>), NoMemory>
    requires { entries ≤ 1000000 }
    ensures { IfOk result (λ r. r.0 ≡ blank_log (entries + 1)) }
{
    let setup = Setup::steady(Config {
        source: Uid::default(),
        places: 0,
        budget: 1,
    });
    let fresh = Log::new(alloc, entries)?;
    let Ok(stand_in) = Session::new(alloc, setup, Log::new(alloc, 0)?) else {
        return Err(NoMemory);
    };
    let Ok(old) = Box::new(alloc, Log::new(alloc, 0)?) else {
        return Err(NoMemory);
    };
    Ok((fresh, stand_in, old))
}
