//! C's calls on sessions. Each is the library's call with that name, on what the handle holds.
ghost use Rattle.std.specs.Prelude.{◌≡◌, ◌≢◌, ◌≤◌, ◌<◌, ◌+◌, ◌-◌, ◌⊎◌, ℕ, length, take, map, true, false, Some, None};
ghost use Rattle.std.specs.Prelude.{Ok, if◌then◌else◌, nat_lt, List, ◌↔◌, option_map};
ghost use Rattle.arrayvec.specs.ArrayVec.{ArrayVec as Bytes};
ghost use Rattle.rdm_wire.specs.declared.device.Device.{Device};
ghost use Rattle.rdm_join.specs.declared.event.LineEvent.TheVariants.{Reply, Failed};
ghost use Rattle.rdm_log.specs.declared.outcome.Completion.{Completion};
ghost use Rattle.rdm_log.specs.declared.outcome.DiscoveryEnd.{DiscoveryEnd};
ghost use Rattle.rdm_log.specs.declared.outcome.OutcomeKind.TheVariants as kinds;
ghost use Rattle.rdm_log.specs.log.History.{awaited, is_idle, is_paused, is_closed};
ghost use Rattle.rdm_log.specs.log.Legal.{Legal};
ghost use Rattle.rdm_log.specs.log.LogState.{is_full_log, begun, blank_log, nothing_log};
ghost use Rattle.rdm_log.specs.log.Runs.{known_devices, devices_run, next_run};
ghost use Rattle.rdm_log.specs.promises.Blocks.{JoinLogs, SubmitLogs, DiscoverLogs, PauseLogs, ResumeLogs, TakeLogs};
ghost use Rattle.rdm_log.specs.promises.Blocks.{CloseAdds, DeliverAdds, CollectAdds, GrowsBy};
ghost use Rattle.rdm_log.specs.log.Broken.{oldest_may_be_incomplete};
ghost use Rattle.rdm_log.specs.promises.Outcomes.{oldest_kind, request_outcome, discovery_outcome};
ghost use Rattle.rdm_queue.specs.promises.BadUids.{AreBadUids, HasMoreBadUids};
ghost use Rattle.rdm_queue.specs.promises.Lengths.{oldest_length};
ghost use Rattle.rdm_handles.specs.Forms.{setup_of, setup_status, request_status, request_of, kind_of};
ghost use Rattle.rdm_handles.specs.Forms.{form_of_completion, form_of_end, form_of_device};
ghost use Rattle.rdm_handles.specs.Answers.{join_answer, submit_answer, ask_answer, collect_status, oldest_status};
ghost use Rattle.rdm_handles.specs.Answers.{number_of_outcome_kind, join_fault_of, submit_fault_of, ask_fault_of};
ghost use Rattle.rdm_handles.specs.Sessions.{open_status, full_status};
ghost use Rattle.rdm_handles.specs.Handles.{holds, a_session, Opens, Closes, StaysOpen, Reads, Reports};

use rdm_agent::MOST_APART;
use rdm_handles::convert::{
    completion_for_c, end_for_c, kind_of, put_bytes, put_devices, request_of, setup_of,
    status_of_join, status_of_work, write_bad_uids, write_devices,
};
use rdm_handles::status::{
    ALREADY_OPEN, BAD_KIND, BUFFER_TOO_SMALL, DONE, LOG_FULL, NOT_ASKED, NOT_OPEN, NOTHING,
    OTHER_OUTCOME, OUT_OF_MEMORY, REPLY_TOO_LONG, TOO_MANY_ENTRIES, UNKNOWN_CLIENT,
};
use rdm_handles::{CompletionForC, DeviceForC, EndForC, Handle, RequestForC, SetupForC};
use rdm_join::{LineEvent, LineReply};
use rdm_log::{ClientId, Log, MOST_FREE_ENTRIES};
use rdm_queue::{Oldest, Session};
use rdm_wire::{DeviceSet, MOST_FRAME_BYTES};
use std::alloc::Global;

/// A session with this set-up and this log, if there is memory for both.
macro_rules! begun {
    ($alloc:ident, $setup:ident, $log:expr) => {
        match $log {
            Ok(log) => Session::new($alloc, $setup, log).or(Err(OUT_OF_MEMORY)),
            Err(_) => Err(OUT_OF_MEMORY),
        }
    };
}

/// Opens a handle: a session with this set-up, without clients, and with a log of this many entries.
#[unsafe(no_mangle)]
pub extern "C" fn wurst_session_open(
    alloc: Global,
    handle: &mut Handle,
    setup: &SetupForC,
    entries: usize,
) -> u32
    ensures opens { Opens a_session handle.old handle.new result }
    ensures bad { handle.old.is_open ≡ false → open_status setup.now entries ≢ 0 →
        result ≡ open_status setup.now entries }
    ensures statuses { handle.old.is_open ≡ false → open_status setup.now entries ≡ 0 → (result ≡ OUT_OF_MEMORY)
        ⊎ (result ≡ DONE) }
    ensures opened { result ≡ DONE → handle.new.session ≡ begun (setup_of setup.now) (blank_log (entries + 1)) }
{
    on_closed!(handle, alloc => match setup_of(setup) {
        Ok(_) if entries > MOST_FREE_ENTRIES => Err(TOO_MANY_ENTRIES),
        Ok(setup) => begun!(alloc, setup, Log::new(alloc, entries)),
        Err(fault) => Err(fault),
    })
}

/// Opens a handle: a session with this set-up, without clients, whose log keeps nothing. So it can last for years.
#[unsafe(no_mangle)]
pub extern "C" fn wurst_session_open_without_log(
    alloc: Global,
    handle: &mut Handle,
    setup: &SetupForC,
) -> u32
    ensures opens { Opens a_session handle.old handle.new result }
    ensures bad { handle.old.is_open ≡ false → setup_status setup.now ≢ 0 → result ≡ setup_status setup.now }
    ensures statuses { handle.old.is_open ≡ false → setup_status setup.now ≡ 0 → (result ≡ OUT_OF_MEMORY)
        ⊎ (result ≡ DONE) }
    ensures opened { result ≡ DONE → handle.new.session ≡ begun (setup_of setup.now) nothing_log }
{
    on_closed!(handle, alloc => match setup_of(setup) {
        Ok(setup) => begun!(alloc, setup, Log::nothing(alloc)),
        Err(fault) => Err(fault),
    })
}

/// Ends the session of an open handle, frees its memory and that of its log, and closes the handle. No effect on
/// any other handle.
#[unsafe(no_mangle)]
pub extern "C" fn wurst_session_dispose(alloc: Global, handle: &mut Handle)
    ensures closes { Closes a_session handle.old handle.new }
{
    drop(handle.take::<Session>(alloc));
}

/// Lets a client join with this queue depth, and writes its number.
#[unsafe(no_mangle)]
pub extern "C" fn wurst_session_join(
    alloc: Global,
    handle: &mut Handle,
    places: u8,
    client: &mut u8,
) -> u32
    ensures stays { StaysOpen a_session handle.old handle.new result }
    ensures adds { holds a_session handle.old ≡ true → GrowsBy handle.old.session
        (JoinLogs handle.old.session places (join_answer result client.new)) handle.new.session }
    ensures statuses { holds a_session handle.old ≡ true → join_fault_of result ≡ None → result ≡ DONE }
    ensures legal { holds a_session handle.old ≡ true → Legal handle.new.session.opening handle.new.session.entries }
    ensures unchanged { result ≢ DONE → client.new ≡ client.old }
{
    on_held!(session: Session in handle, alloc => call_join!(session, alloc, places, client))
}

/// Accepts a client's request with these parameter data, and writes its number.
#[unsafe(no_mangle)]
pub extern "C" fn wurst_session_submit(
    alloc: Global,
    handle: &mut Handle,
    client: u8,
    request: &RequestForC,
    param_bytes: &[u8],
    number: &mut u64,
) -> u32
    ensures stays { StaysOpen a_session handle.old handle.new result }
    ensures bad { holds a_session handle.old ≡ true → request_status request.now param_bytes.now ≢ 0 →
        (result ≡ request_status request.now param_bytes.now) × (handle.new.session ≡ handle.old.session) }
    ensures adds { holds a_session handle.old ≡ true → request_status request.now param_bytes.now ≡ 0 →
        GrowsBy handle.old.session (SubmitLogs handle.old.session (record { 0 = client })
        (request_of request.now param_bytes.now)
        (submit_answer result number.new (request_of request.now param_bytes.now))) handle.new.session }
    ensures statuses { holds a_session handle.old ≡ true → request_status request.now param_bytes.now ≡ 0 →
        submit_fault_of result ≡ None → result ≡ DONE }
    ensures legal { holds a_session handle.old ≡ true → request_status request.now param_bytes.now ≡ 0 →
        Legal handle.new.session.opening handle.new.session.entries }
    ensures unchanged { result ≢ DONE → number.new ≡ number.old }
{
    on_held!(session: Session in handle, alloc => {
        call_submit!(session, client, request, param_bytes, number)
    })
}

/// Accepts a client's discovery, 0 full or 1 incremental, and writes its number.
#[unsafe(no_mangle)]
pub extern "C" fn wurst_session_discover(
    alloc: Global,
    handle: &mut Handle,
    client: u8,
    kind: u32,
    number: &mut u64,
) -> u32
    ensures stays { StaysOpen a_session handle.old handle.new result }
    ensures bad { holds a_session handle.old ≡ true → 1 < kind → (result ≡ BAD_KIND)
        × (handle.new.session ≡ handle.old.session) }
    ensures adds { holds a_session handle.old ≡ true → kind ≤ 1 → GrowsBy handle.old.session
        (DiscoverLogs handle.old.session (record { 0 = client }) (kind_of kind) (ask_answer result number.new))
        handle.new.session }
    ensures statuses { holds a_session handle.old ≡ true → kind ≤ 1 → ask_fault_of result ≡ None → result ≡ DONE }
    ensures legal { holds a_session handle.old ≡ true → kind ≤ 1 → Legal handle.new.session.opening
        handle.new.session.entries }
    ensures unchanged { result ≢ DONE → number.new ≡ number.old }
{
    on_held!(session: Session in handle, alloc => call_discover!(session, client, kind, number))
}

/// Begins no run and sends no request until `wurst_session_resume`.
#[unsafe(no_mangle)]
pub extern "C" fn wurst_session_pause(alloc: Global, handle: &mut Handle) -> u32
    ensures stays { StaysOpen a_session handle.old handle.new result }
    ensures status { holds a_session handle.old ≡ true → result ≡ full_status handle.old.session }
    ensures adds { result ≡ DONE → GrowsBy handle.old.session (PauseLogs handle.old.session (Ok tt))
        handle.new.session }
    ensures legal { holds a_session handle.old ≡ true → Legal handle.new.session.opening handle.new.session.entries }
    ensures unchanged { result ≢ DONE → handle.new.session ≡ handle.old.session }
{
    on_held!(session: Session in handle, alloc => done_or!(LOG_FULL, session.pause()))
}

/// Begins runs and sends requests again.
#[unsafe(no_mangle)]
pub extern "C" fn wurst_session_resume(alloc: Global, handle: &mut Handle) -> u32
    ensures stays { StaysOpen a_session handle.old handle.new result }
    ensures status { holds a_session handle.old ≡ true → result ≡ full_status handle.old.session }
    ensures adds { result ≡ DONE → GrowsBy handle.old.session (ResumeLogs handle.old.session (Ok tt))
        handle.new.session }
    ensures legal { holds a_session handle.old ≡ true → Legal handle.new.session.opening handle.new.session.entries }
    ensures unchanged { result ≢ DONE → handle.new.session ≡ handle.old.session }
{
    on_held!(session: Session in handle, alloc => done_or!(LOG_FULL, session.resume()))
}

/// Refuses all later joins, submits and discovers, and sends nothing more.
#[unsafe(no_mangle)]
pub extern "C" fn wurst_session_close(alloc: Global, handle: &mut Handle) -> u32
    ensures stays { StaysOpen a_session handle.old handle.new result }
    ensures adds { holds a_session handle.old ≡ true → (result ≡ DONE) × GrowsBy handle.old.session
        (CloseAdds handle.old.session.opening handle.old.session.entries) handle.new.session }
    ensures legal { holds a_session handle.old ≡ true → Legal handle.new.session.opening handle.new.session.entries }
{
    on_held!(session: Session in handle, alloc => done!(session.close()))
}

/// Writes the next frame for the line at the front of a buffer of 257 bytes, and how many bytes it has.
#[unsafe(no_mangle)]
pub extern "C" fn wurst_session_take(
    alloc: Global,
    handle: &mut Handle,
    frame: &mut [u8],
    len: &mut usize,
) -> u32
    ensures stays { StaysOpen a_session handle.old handle.new result }
    ensures small { holds a_session handle.old ≡ true → (result ≡ BUFFER_TOO_SMALL) ↔ (length frame.old < 257) }
    ensures given { result ≡ DONE → (sent : Bytes ℕ) × (len.new ≡ length sent.items)
        × (take len.new frame.new ≡ sent.items) × GrowsBy handle.old.session
        (TakeLogs handle.old.session (Ok (Some sent))) handle.new.session }
    ensures nothing { result ≡ NOTHING → GrowsBy handle.old.session (TakeLogs handle.old.session (Ok None))
        handle.new.session }
    ensures full { result ≡ LOG_FULL → is_full_log handle.old.session ≡ true }
    ensures statuses { holds a_session handle.old ≡ true → (result ≡ BUFFER_TOO_SMALL)
        ⊎ ((result ≡ NOTHING) ⊎ ((result ≡ LOG_FULL) ⊎ (result ≡ DONE))) }
    ensures legal { holds a_session handle.old ≡ true → 257 ≤ length frame.old → Legal handle.new.session.opening
        handle.new.session.entries }
    ensures unchanged { result ≢ DONE → (handle.new.session ≡ handle.old.session) × (len.new ≡ len.old)
        × (frame.new ≡ frame.old) }
{
    on_held!(session: Session in handle, alloc => if frame.len() < MOST_FRAME_BYTES {
        BUFFER_TOO_SMALL
    } else {
        match session.take() {
            Ok(Some(bytes)) => {
                *len = put_bytes(frame, &bytes);
                DONE
            }
            Ok(None) => NOTHING,
            Err(_) => LOG_FULL,
        }
    })
}

/// Takes the bytes that the line answered to the last frame. No bytes are silence.
#[unsafe(no_mangle)]
pub extern "C" fn wurst_session_deliver(alloc: Global, handle: &mut Handle, reply: &[u8]) -> u32
    ensures stays { StaysOpen a_session handle.old handle.new result }
    ensures long { holds a_session handle.old ≡ true → 257 < length reply.now → result ≡ REPLY_TOO_LONG }
    ensures statuses { holds a_session handle.old ≡ true → length reply.now ≤ 257 → (result ≡ DONE)
        ⊎ (result ≡ NOT_ASKED) }
    ensures heard { result ≡ DONE → GrowsBy handle.old.session
        (DeliverAdds handle.old.session (Reply (record { items = reply.now })) (Ok tt)) handle.new.session }
    ensures not_asked { result ≡ NOT_ASKED → awaited handle.old.session.entries ≡ false }
    ensures legal { holds a_session handle.old ≡ true → length reply.now ≤ 257 → Legal handle.new.session.opening
        handle.new.session.entries }
    ensures unchanged { result ≢ DONE → handle.new.session ≡ handle.old.session }
{
    on_held!(session: Session in handle, alloc => call_deliver!(session, alloc, reply))
}

/// Records that the line failed at the last frame.
#[unsafe(no_mangle)]
pub extern "C" fn wurst_session_fail(alloc: Global, handle: &mut Handle) -> u32
    ensures stays { StaysOpen a_session handle.old handle.new result }
    ensures statuses { holds a_session handle.old ≡ true → (result ≡ DONE) ⊎ (result ≡ NOT_ASKED) }
    ensures heard { result ≡ DONE → GrowsBy handle.old.session (DeliverAdds handle.old.session Failed (Ok tt))
        handle.new.session }
    ensures not_asked { result ≡ NOT_ASKED → awaited handle.old.session.entries ≡ false }
    ensures legal { holds a_session handle.old ≡ true → Legal handle.new.session.opening handle.new.session.entries }
    ensures unchanged { result ≢ DONE → handle.new.session ≡ handle.old.session }
{
    on_held!(session: Session in handle, alloc => {
        done_or!(NOT_ASKED, session.deliver(alloc, LineEvent::Failed))
    })
}

/// Writes the kind of a client's oldest outcome: 0 for a request's, 1 for a discovery's.
#[unsafe(no_mangle)]
pub extern "C" fn wurst_session_oldest(
    alloc: Global,
    handle: &mut Handle,
    client: u8,
    kind: &mut u32,
) -> u32
    ensures reads { Reads a_session handle.old handle.new result }
    ensures status { holds a_session handle.old ≡ true → result ≡ oldest_status handle.old.session.opening
        handle.old.session.entries client }
    ensures kind { result ≡ DONE → option_map number_of_outcome_kind (oldest_kind handle.old.session.opening
        handle.old.session.entries client) ≡ Some kind.new }
    ensures unchanged { result ≢ DONE → kind.new ≡ kind.old }
{
    on_held!(session: Session in handle, alloc => call_oldest!(session, client, kind))
}

/// Collects a client's oldest outcome if it is a request's, and writes how it ended, with its data at the front of
/// a buffer. `BUFFER_TOO_SMALL` writes how many bytes it needs into `len`.
#[unsafe(no_mangle)]
#[tactic(auto, using(crate::proofs::AnswerLemmas::length_of_oldest))]
pub extern "C" fn wurst_session_next_completion(
    alloc: Global,
    handle: &mut Handle,
    client: u8,
    completion: &mut CompletionForC,
    buffer: &mut [u8],
) -> u32
    ensures stays { StaysOpen a_session handle.old handle.new result }
    ensures status { holds a_session handle.old ≡ true → result ≡ collect_status handle.old.session.opening
        handle.old.session.entries client kinds.Request (length buffer.old) }
    ensures needed { result ≡ BUFFER_TOO_SMALL → oldest_length handle.old.session.opening handle.old.session.entries
        client ≡ Some completion.new.len }
    ensures collected { result ≡ DONE → (number : ℕ) × (done : Completion)
        × (completion.new ≡ form_of_completion number done completion.new.may_be_incomplete)
        × (take completion.new.len buffer.new ≡ done.bytes.items)
        × GrowsBy handle.old.session (CollectAdds handle.old.session.opening handle.old.session.entries
        (record { 0 = client }) (Some (request_outcome (number, done)))) handle.new.session }
    ensures may_be_incomplete { result ≡ DONE → oldest_may_be_incomplete handle.old.session.opening
        handle.old.session.entries client ≡ Some completion.new.may_be_incomplete }
    ensures only_len { result ≡ BUFFER_TOO_SMALL →
        completion.new ≡ record completion.old { len = completion.new.len } }
    ensures kept { result ≢ DONE → result ≢ BUFFER_TOO_SMALL → completion.new ≡ completion.old }
    ensures legal { result ≡ DONE → Legal handle.new.session.opening handle.new.session.entries }
    ensures unchanged { result ≢ DONE → (handle.new.session ≡ handle.old.session) × (buffer.new ≡ buffer.old) }
{
    on_held!(session: Session in handle, alloc => {
        call_next_completion!(session, client, completion, buffer)
    })
}

/// Collects a client's oldest outcome if it is a discovery's, and writes how it ended, with its devices at the
/// front of a buffer. `BUFFER_TOO_SMALL` writes how many devices it needs into `count`.
#[unsafe(no_mangle)]
#[tactic(auto, using(crate::proofs::AnswerLemmas::length_of_oldest))]
pub extern "C" fn wurst_session_next_discovery(
    alloc: Global,
    handle: &mut Handle,
    client: u8,
    end: &mut EndForC,
    devices: &mut [DeviceForC],
) -> u32
    ensures stays { StaysOpen a_session handle.old handle.new result }
    ensures status { holds a_session handle.old ≡ true → result ≡ collect_status handle.old.session.opening
        handle.old.session.entries client kinds.Discovery (length devices.old) }
    ensures needed { result ≡ BUFFER_TOO_SMALL → oldest_length handle.old.session.opening handle.old.session.entries
        client ≡ Some end.new.count }
    ensures collected { result ≡ DONE → (ended : DiscoveryEnd) × (set : List Device)
        × (end.new ≡ form_of_end ended (length set)) × (take (length set) devices.new ≡ map form_of_device set)
        × GrowsBy handle.old.session (CollectAdds handle.old.session.opening handle.old.session.entries
        (record { 0 = client }) (Some (discovery_outcome ended set))) handle.new.session }
    ensures only_count { result ≡ BUFFER_TOO_SMALL → end.new ≡ record end.old { count = end.new.count } }
    ensures kept { result ≢ DONE → result ≢ BUFFER_TOO_SMALL → end.new ≡ end.old }
    ensures legal { result ≡ DONE → Legal handle.new.session.opening handle.new.session.entries }
    ensures unchanged { result ≢ DONE → (handle.new.session ≡ handle.old.session) × (devices.new ≡ devices.old) }
{
    on_held!(session: Session in handle, alloc => {
        call_next_discovery!(session, client, end, devices)
    })
}

/// Writes the devices of the last run without fault at the front of a buffer, and how many there are; with
/// `BUFFER_TOO_SMALL` only that.
#[unsafe(no_mangle)]
pub extern "C" fn wurst_session_devices(
    alloc: Global,
    handle: &mut Handle,
    devices: &mut [DeviceForC],
    count: &mut usize,
) -> u32
    ensures reads { Reads a_session handle.old handle.new result }
    ensures count { holds a_session handle.old ≡ true →
        count.new ≡ length (known_devices handle.old.session.opening handle.old.session.entries) }
    ensures kept { result ≡ NOT_OPEN → count.new ≡ count.old }
    ensures status { holds a_session handle.old ≡ true →
        result ≡ (if nat_lt (length devices.old) count.new then BUFFER_TOO_SMALL else DONE) }
    ensures written { result ≡ DONE → take count.new devices.new ≡ map form_of_device
        (known_devices handle.old.session.opening handle.old.session.entries) }
    ensures unchanged { result ≢ DONE → devices.new ≡ devices.old }
{
    on_held!(session: Session in handle, alloc => write_devices(session.devices(), devices, count))
}

/// Writes the number of the run that found the devices; 0 before the first.
#[unsafe(no_mangle)]
pub extern "C" fn wurst_session_devices_run(
    alloc: Global,
    handle: &mut Handle,
    run: &mut u64,
) -> u32
    ensures reports { Reports a_session handle.old handle.new result (run.new ≡ devices_run handle.old.session.opening
        handle.old.session.entries) (run.new ≡ run.old) }
{
    on_held!(session: Session in handle, alloc => done!(*run = session.devices_run()))
}

/// Writes the bad UIDs of the run that began last at the front of a buffer, how many there are, and whether there were
/// more; with `BUFFER_TOO_SMALL` only how many.
#[unsafe(no_mangle)]
pub extern "C" fn wurst_session_bad_uids(
    alloc: Global,
    handle: &mut Handle,
    uids: &mut [u64],
    count: &mut usize,
    more: &mut bool,
) -> u32
    ensures reads { Reads a_session handle.old handle.new result }
    ensures count { holds a_session handle.old ≡ true → (us : List ℕ) × (count.new ≡ length us)
        × (length us ≤ MOST_APART) × AreBadUids handle.old.session.opening handle.old.session.entries us }
    ensures kept { result ≡ NOT_OPEN → count.new ≡ count.old }
    ensures status { holds a_session handle.old ≡ true →
        result ≡ (if nat_lt (length uids.old) count.new then BUFFER_TOO_SMALL else DONE) }
    ensures written { result ≡ DONE →
        AreBadUids handle.old.session.opening handle.old.session.entries (take count.new uids.new) }
    ensures more { result ≡ DONE → HasMoreBadUids handle.old.session.opening handle.old.session.entries more.new }
    ensures unchanged { result ≢ DONE → (uids.new ≡ uids.old) × (more.new ≡ more.old) }
{
    on_held!(session: Session in handle, alloc => {
        let has_more = session.has_more_bad_uids();
        write_bad_uids(session.bad_uids(), has_more, uids, count, more)
    })
}

/// Writes the number of that run; 0 before the first.
#[unsafe(no_mangle)]
pub extern "C" fn wurst_session_bad_uids_run(
    alloc: Global,
    handle: &mut Handle,
    run: &mut u64,
) -> u32
    ensures reports { Reports a_session handle.old handle.new result (run.new ≡ next_run handle.old.session.opening
        handle.old.session.entries - 1) (run.new ≡ run.old) }
{
    on_held!(session: Session in handle, alloc => done!(*run = session.bad_uids_run()))
}

/// Writes whether the queue is idle: no call waits or is being served, and no outcome is uncollected.
#[unsafe(no_mangle)]
pub extern "C" fn wurst_session_is_idle(
    alloc: Global,
    handle: &mut Handle,
    answer: &mut bool,
) -> u32
    ensures reports { Reports a_session handle.old handle.new result (answer.new ≡ is_idle handle.old.session.entries)
        (answer.new ≡ answer.old) }
{
    on_held!(session: Session in handle, alloc => done!(*answer = session.is_idle()))
}

/// Writes whether sending is paused.
#[unsafe(no_mangle)]
pub extern "C" fn wurst_session_is_paused(
    alloc: Global,
    handle: &mut Handle,
    answer: &mut bool,
) -> u32
    ensures reports { Reports a_session handle.old handle.new result (answer.new ≡ is_paused handle.old.session.opening
        handle.old.session.entries) (answer.new ≡ answer.old) }
{
    on_held!(session: Session in handle, alloc => done!(*answer = session.is_paused()))
}

/// Writes whether the queue is closed.
#[unsafe(no_mangle)]
pub extern "C" fn wurst_session_is_closed(
    alloc: Global,
    handle: &mut Handle,
    answer: &mut bool,
) -> u32
    ensures reports { Reports a_session handle.old handle.new result (answer.new ≡ is_closed handle.old.session.opening
        handle.old.session.entries) (answer.new ≡ answer.old) }
{
    on_held!(session: Session in handle, alloc => done!(*answer = session.is_closed()))
}

/// Writes whether a reply is awaited.
#[unsafe(no_mangle)]
pub extern "C" fn wurst_session_awaits(alloc: Global, handle: &mut Handle, answer: &mut bool) -> u32
    ensures reports { Reports a_session handle.old handle.new result (answer.new ≡ awaited handle.old.session.entries)
        (answer.new ≡ answer.old) }
{
    on_held!(session: Session in handle, alloc => done!(*answer = session.awaits()))
}
