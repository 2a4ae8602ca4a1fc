//! C's calls on the logs of sessions: how many entries there are, how many are free, each entry, and a new log.
ghost use Rattle.std.specs.Prelude.{◌≡◌, ◌≢◌, ◌+◌, ◌-◌, ◌⊎◌, [], length, take, true, false, Some, slice_get};
ghost use Rattle.rdm_log.specs.declared.entry.Entry.{Entry};
ghost use Rattle.rdm_log.specs.log.LogState.{free_entries, opening_after, stored, drained, MayGoOn};
ghost use Rattle.rdm_log.specs.log.Legal.{Legal};
ghost use Rattle.rdm_log.specs.promises.Promised.{Promised};
ghost use Rattle.rdm_handles.specs.Entries.{entry_status, form_of_entry, bytes_of_entry};
ghost use Rattle.rdm_handles.specs.Sessions.{rotate_status, drain_status};
ghost use Rattle.rdm_handles.specs.Handles.{holds, a_session, a_log, Closes, StaysOpen, Reads, Reports};

use rdm_handles::handle::{LOG, SESSION};
use rdm_handles::status::{
    ALREADY_OPEN, BUFFER_TOO_SMALL, DONE, LOG_FULL, NO_ENTRY, NOT_OPEN, OUT_OF_MEMORY,
};
use rdm_handles::{EntryForC, Handle, entries, sessions};
use rdm_log::Log;
use rdm_queue::Session;
use std::alloc::Global;

/// Writes how many entries of the log are free: neither used nor reserved.
#[unsafe(no_mangle)]
pub extern "C" fn wurst_session_free_entries(
    alloc: Global,
    handle: &mut Handle,
    count: &mut usize,
) -> u32
    ensures reports { Reports a_session handle.old handle.new result (count.new ≡ free_entries handle.old.session)
        (count.new ≡ count.old) }
{
    on_held!(session: Session in handle, alloc => done!(*count = session.free()))
}

/// Writes how many entries the log stores. With those that it doesn't store it is legal, and keeps all that clients are
/// promised.
#[unsafe(no_mangle)]
pub extern "C" fn wurst_session_entry_count(
    alloc: Global,
    handle: &mut Handle,
    count: &mut usize,
) -> u32
    ensures reports { Reports a_session handle.old handle.new result (count.new ≡ length (stored handle.old.session))
        (count.new ≡ count.old) }
    ensures legal { holds a_session handle.old ≡ true → Legal handle.old.session.opening handle.old.session.entries }
    ensures promised { holds a_session handle.old ≡ true → Promised handle.old.session }
{
    on_held!(session: Session in handle, alloc => done!(*count = session.log().entries().len()))
}

/// Writes the stored entry with this index, from 0, with its bytes at the front of a buffer. `BUFFER_TOO_SMALL` writes
/// how many bytes it needs into `len`.
#[unsafe(no_mangle)]
pub extern "C" fn wurst_session_entry(
    alloc: Global,
    handle: &mut Handle,
    index: usize,
    entry: &mut EntryForC,
    buffer: &mut [u8],
) -> u32
    ensures reads { Reads a_session handle.old handle.new result }
    ensures status { holds a_session handle.old ≡ true → result ≡ entry_status (stored handle.old.session) index
        (length buffer.old) }
    ensures needed { holds a_session handle.old ≡ true → (e : Entry) → slice_get (stored handle.old.session) index
        ≡ Some e → result ≡ BUFFER_TOO_SMALL → entry.new.len ≡ length (bytes_of_entry e) }
    ensures written { holds a_session handle.old ≡ true → (e : Entry) → slice_get (stored handle.old.session) index
        ≡ Some e → result ≡ DONE → (entry.new ≡ form_of_entry e)
        × (take entry.new.len buffer.new ≡ bytes_of_entry e) }
    ensures only_len { result ≡ BUFFER_TOO_SMALL → entry.new ≡ record entry.old { len = entry.new.len } }
    ensures kept { result ≢ DONE → result ≢ BUFFER_TOO_SMALL → entry.new ≡ entry.old }
    ensures unchanged { result ≢ DONE → buffer.new ≡ buffer.old }
{
    on_held!(session: Session in handle, alloc => {
        entries::read(session.log(), index, entry, buffer)
    })
}

/// Continues with a new log of this many entries, and opens a closed handle with the old one. An open one of any kind
/// is refused as already open.
#[unsafe(no_mangle)]
pub extern "C" fn wurst_session_rotate(
    alloc: Global,
    handle: &mut Handle,
    entries: usize,
    log: &mut Handle,
) -> u32
    ensures stays { StaysOpen a_session handle.old handle.new result }
    ensures already { holds a_session handle.old ≡ true → log.old.is_open ≡ true → result ≡ ALREADY_OPEN }
    ensures bad { holds a_session handle.old ≡ true → log.old.is_open ≡ false →
        rotate_status handle.old.session entries ≢ 0 → result ≡ rotate_status handle.old.session entries }
    ensures rotates { holds a_session handle.old ≡ true → log.old.is_open ≡ false →
        rotate_status handle.old.session entries ≡ 0 → (result ≡ OUT_OF_MEMORY) ⊎ (result ≡ DONE) }
    ensures rotated { result ≡ DONE → handle.new.session ≡ record {
      opening = opening_after handle.old.session.opening handle.old.session.entries;
      entries = [];
      room = entries + 1;
      gone = 0;
      keeps = true;
    } }
    ensures handed_back { result ≡ DONE → (holds a_log log.new ≡ true) × (log.new.log ≡ handle.old.session) }
    ensures unchanged { result ≢ DONE → (handle.new.session ≡ handle.old.session) × (log.new ≡ log.old) }
{
    // Both are tested before the session is taken out, so a program that passes one handle twice loses nothing.
    if !handle.holds(SESSION) {
        return NOT_OPEN;
    }
    if log.is_open() {
        return ALREADY_OPEN;
    }
    let Some(mut session) = handle.take::<Session>(alloc) else {
        return NOT_OPEN;
    };
    let rotated = sessions::rotate(&mut session, alloc, entries);
    handle.put(session);
    match rotated {
        Ok(held) => {
            log.put(held);
            DONE
        }
        Err(fault) => fault,
    }
}

/// Hands out all entries that the log stores, and continues in other memory. For an open handle that is the memory of
/// its log, whose own entries are removed. For a closed one it is new memory for this many entries. Then the handle has
/// what was handed out. Writes the number of its first entry. An open handle of another kind is refused as not open,
/// and a log that keeps nothing as full.
#[unsafe(no_mangle)]
pub extern "C" fn wurst_session_drain(
    alloc: Global,
    handle: &mut Handle,
    entries: usize,
    log: &mut Handle,
    first: &mut u64,
) -> u32
    ensures stays { StaysOpen a_session handle.old handle.new result }
    ensures no_log { log.old.is_open ≡ true → holds a_log log.old ≡ false → result ≡ NOT_OPEN }
    ensures statuses { holds a_session handle.old ≡ true → holds a_log log.old ≡ true →
        (result ≡ DONE) ⊎ (result ≡ LOG_FULL) }
    ensures full { holds a_session handle.old ≡ true → holds a_log log.old ≡ true → result ≡ LOG_FULL →
        log.old.log.keeps ≡ true → MayGoOn handle.old.session (log.old.log.room - log.old.log.gone) → ⊥ }
    ensures reused { holds a_log log.old ≡ true → result ≡ DONE →
        handle.new.session ≡ drained handle.old.session (log.old.log.room - log.old.log.gone) }
    ensures bad { holds a_session handle.old ≡ true → log.old.is_open ≡ false →
        drain_status handle.old.session entries ≢ 0 → result ≡ drain_status handle.old.session entries }
    ensures drains { holds a_session handle.old ≡ true → log.old.is_open ≡ false →
        drain_status handle.old.session entries ≡ 0 → (result ≡ OUT_OF_MEMORY) ⊎ (result ≡ DONE) }
    ensures drained { log.old.is_open ≡ false → result ≡ DONE →
        handle.new.session ≡ drained handle.old.session (entries + 1) }
    ensures first { result ≡ DONE → first.new + length (stored handle.old.session)
        ≡ length handle.old.session.entries }
    ensures gone { result ≡ DONE → handle.old.session.keeps ≡ true → first.new ≡ handle.old.session.gone }
    ensures handed_out { result ≡ DONE → (holds a_log log.new ≡ true)
        × ((log.new.log.entries ≡ handle.old.session.entries) × (log.new.log.gone ≡ handle.old.session.gone)
        × ((log.new.log.room ≡ handle.old.session.room) × (log.new.log.keeps ≡ handle.old.session.keeps))
        × (log.new.log.opening.search ≡ handle.old.session.opening.search)) }
    ensures unchanged { result ≢ DONE → (handle.new.session ≡ handle.old.session) × (first.new ≡ first.old) }
    ensures kept { result ≢ DONE → holds a_log log.old ≡ false → log.new ≡ log.old }
    ensures kept_log { result ≢ DONE → holds a_log log.old ≡ true → (holds a_log log.new ≡ true)
        × (log.new.log ≡ log.old.log) }
{
    if log.is_open() && !log.holds(LOG) {
        return NOT_OPEN;
    }
    let Some(mut session) = handle.take::<Session>(alloc) else {
        return NOT_OPEN;
    };
    let number = session.log().first_stored();
    if let Some(mut page) = log.take::<Log>(alloc) {
        let status = done_or!(LOG_FULL, session.drain_into(&mut page));
        log.put(page);
        handle.put(session);
        if status == DONE {
            *first = number;
        }
        return status;
    }
    let drained = sessions::drain(&mut session, alloc, entries);
    handle.put(session);
    match drained {
        Ok(page) => {
            log.put(page);
            *first = number;
            DONE
        }
        Err(fault) => fault,
    }
}

/// Frees the log of an open handle, and closes the handle. No effect on any other handle.
#[unsafe(no_mangle)]
pub extern "C" fn wurst_log_dispose(alloc: Global, handle: &mut Handle)
    ensures closes { Closes a_log handle.old handle.new }
{
    drop(handle.take::<Log>(alloc));
}

/// Writes how many entries the log stores.
#[unsafe(no_mangle)]
pub extern "C" fn wurst_log_entry_count(
    alloc: Global,
    handle: &mut Handle,
    count: &mut usize,
) -> u32
    ensures reports { Reports a_log handle.old handle.new result (count.new ≡ length (stored handle.old.log))
        (count.new ≡ count.old) }
{
    on_held!(log: Log in handle, alloc => done!(*count = log.entries().len()))
}

/// Writes the log's entry with this index, as `wurst_session_entry` does.
#[unsafe(no_mangle)]
pub extern "C" fn wurst_log_entry(
    alloc: Global,
    handle: &mut Handle,
    index: usize,
    entry: &mut EntryForC,
    buffer: &mut [u8],
) -> u32
    ensures reads { Reads a_log handle.old handle.new result }
    ensures status { holds a_log handle.old ≡ true → result ≡ entry_status (stored handle.old.log) index
        (length buffer.old) }
    ensures needed { holds a_log handle.old ≡ true → (e : Entry) → slice_get (stored handle.old.log) index ≡ Some e →
        result ≡ BUFFER_TOO_SMALL → entry.new.len ≡ length (bytes_of_entry e) }
    ensures written { holds a_log handle.old ≡ true → (e : Entry) → slice_get (stored handle.old.log) index ≡ Some e →
        result ≡ DONE → (entry.new ≡ form_of_entry e) × (take entry.new.len buffer.new ≡ bytes_of_entry e) }
    ensures only_len { result ≡ BUFFER_TOO_SMALL → entry.new ≡ record entry.old { len = entry.new.len } }
    ensures kept { result ≢ DONE → result ≢ BUFFER_TOO_SMALL → entry.new ≡ entry.old }
    ensures unchanged { result ≢ DONE → buffer.new ≡ buffer.old }
{
    on_held!(log: Log in handle, alloc => entries::read(log, index, entry, buffer))
}
