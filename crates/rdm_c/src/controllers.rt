//! C's calls on controllers. Each is the library's call with that name, on what the handle holds.
ghost use Rattle.std.specs.Prelude.{◌≡◌, ◌≢◌, ◌≤◌, ◌<◌, ◌↔◌, ◌⊎◌, ℕ, length, take, map, true, false, Some, None, Ok};
ghost use Rattle.std.specs.Prelude.{◌-◌, if◌then◌else◌, nat_lt, List, option_map};
ghost use Rattle.arrayvec.specs.ArrayVec.{ArrayVec as Bytes};
ghost use Rattle.rdm_wire.specs.declared.device.Device.{Device};
ghost use Rattle.rdm_join.specs.declared.event.LineEvent.TheVariants.{Reply, Failed};
ghost use Rattle.rdm_log.specs.declared.outcome.Completion.{Completion};
ghost use Rattle.rdm_log.specs.declared.outcome.DiscoveryEnd.{DiscoveryEnd};
ghost use Rattle.rdm_log.specs.declared.outcome.OutcomeKind.TheVariants as kinds;
ghost use Rattle.rdm_log.specs.log.History.{awaited, is_idle, is_paused, is_closed, can_pause, can_resume};
ghost use Rattle.rdm_log.specs.log.Runs.{known_devices, devices_run, next_run};
ghost use Rattle.rdm_log.specs.promises.Blocks.{JoinAdds, SubmitAdds, DiscoverAdds, PauseAdds, ResumeAdds, CloseAdds};
ghost use Rattle.rdm_log.specs.promises.Blocks.{TakeAdds, DeliverAdds, CollectAdds};
ghost use Rattle.rdm_log.specs.log.Broken.{oldest_may_be_incomplete};
ghost use Rattle.rdm_log.specs.promises.Outcomes.{oldest_kind, request_outcome, discovery_outcome};
ghost use Rattle.rdm_queue.specs.promises.BadUids.{AreBadUids, HasMoreBadUids};
ghost use Rattle.rdm_queue.specs.promises.EachLog.{ForEachLog, AddsToEach, IsSetUp};
ghost use Rattle.rdm_queue.specs.promises.Lengths.{oldest_length};
ghost use Rattle.rdm_handles.specs.Forms.{setup_status, setup_of, request_status, request_of, kind_of};
ghost use Rattle.rdm_handles.specs.Forms.{form_of_completion, form_of_end, form_of_device};
ghost use Rattle.rdm_handles.specs.Answers.{join_answer, submit_answer, ask_answer, collect_status, oldest_status};
ghost use Rattle.rdm_handles.specs.Answers.{number_of_outcome_kind};
ghost use Rattle.rdm_handles.specs.Handles.{holds, a_controller, Opens, Closes, StaysOpen, Reads, Reports};

use rdm_agent::MOST_APART;
use rdm_handles::convert::{
    completion_for_c, end_for_c, kind_of, put_bytes, put_devices, request_of, setup_of,
    status_of_join, status_of_work, write_bad_uids, write_devices,
};
use rdm_handles::status::{
    ALREADY_OPEN, BAD_KIND, BUFFER_TOO_SMALL, DONE, NOT_ASKED, NOT_OPEN, NOTHING, OTHER_OUTCOME,
    OUT_OF_MEMORY, REPLY_TOO_LONG, UNKNOWN_CLIENT,
};
use rdm_handles::{CompletionForC, DeviceForC, EndForC, Handle, RequestForC, SetupForC};
use rdm_join::{LineEvent, LineReply};
use rdm_log::ClientId;
use rdm_queue::{Controller, Oldest};
use rdm_wire::{DeviceSet, MOST_FRAME_BYTES};
use std::alloc::Global;

/// Opens a handle: a controller with this set-up, without clients.
#[unsafe(no_mangle)]
pub extern "C" fn wurst_controller_open(
    alloc: Global,
    handle: &mut Handle,
    setup: &SetupForC,
) -> u32
    ensures opens { Opens a_controller handle.old handle.new result }
    ensures bad { handle.old.is_open ≡ false → setup_status setup.now ≢ 0 → result ≡ setup_status setup.now }
    ensures statuses { handle.old.is_open ≡ false → setup_status setup.now ≡ 0 → (result ≡ OUT_OF_MEMORY)
        ⊎ (result ≡ DONE) }
    ensures opened { result ≡ DONE → IsSetUp (setup_of setup.now) handle.new.controller }
{
    on_closed!(handle, alloc => match setup_of(setup) {
        Ok(setup) => Controller::new(alloc, setup).or(Err(OUT_OF_MEMORY)),
        Err(fault) => Err(fault),
    })
}

/// Ends the controller of an open handle, frees its memory, and closes the handle. No effect on any other handle.
#[unsafe(no_mangle)]
pub extern "C" fn wurst_controller_dispose(alloc: Global, handle: &mut Handle)
    ensures closes { Closes a_controller handle.old handle.new }
{
    drop(handle.take::<Controller>(alloc));
}

/// Lets a client join with this queue depth, and writes its number.
#[unsafe(no_mangle)]
pub extern "C" fn wurst_controller_join(
    alloc: Global,
    handle: &mut Handle,
    places: u8,
    client: &mut u8,
) -> u32
    ensures stays { StaysOpen a_controller handle.old handle.new result }
    ensures adds { holds a_controller handle.old ≡ true → AddsToEach handle.old.controller
        (λ k. JoinAdds k.opening k.entries places (join_answer result client.new)) handle.new.controller }
    ensures unchanged { result ≢ DONE → (handle.new.controller ≡ handle.old.controller) × (client.new ≡ client.old) }
{
    on_held!(controller: Controller in handle, alloc => {
        call_join!(controller, alloc, places, client)
    })
}

/// Accepts a client's request with these parameter data, and writes its number.
#[unsafe(no_mangle)]
pub extern "C" fn wurst_controller_submit(
    alloc: Global,
    handle: &mut Handle,
    client: u8,
    request: &RequestForC,
    param_bytes: &[u8],
    number: &mut u64,
) -> u32
    ensures stays { StaysOpen a_controller handle.old handle.new result }
    ensures bad { holds a_controller handle.old ≡ true → request_status request.now param_bytes.now ≢ 0 →
        result ≡ request_status request.now param_bytes.now }
    ensures adds { holds a_controller handle.old ≡ true → request_status request.now param_bytes.now ≡ 0 →
        AddsToEach handle.old.controller (λ k. SubmitAdds k.opening k.entries (record { 0 = client })
        (request_of request.now param_bytes.now)
        (submit_answer result number.new (request_of request.now param_bytes.now))) handle.new.controller }
    ensures unchanged { result ≢ DONE → (handle.new.controller ≡ handle.old.controller) × (number.new ≡ number.old) }
{
    on_held!(controller: Controller in handle, alloc => {
        call_submit!(controller, client, request, param_bytes, number)
    })
}

/// Accepts a client's discovery, 0 full or 1 incremental, and writes its number.
#[unsafe(no_mangle)]
pub extern "C" fn wurst_controller_discover(
    alloc: Global,
    handle: &mut Handle,
    client: u8,
    kind: u32,
    number: &mut u64,
) -> u32
    ensures stays { StaysOpen a_controller handle.old handle.new result }
    ensures bad { holds a_controller handle.old ≡ true → 1 < kind → result ≡ BAD_KIND }
    ensures adds { holds a_controller handle.old ≡ true → kind ≤ 1 → AddsToEach handle.old.controller
        (λ k. DiscoverAdds k.opening k.entries (record { 0 = client }) (kind_of kind) (ask_answer result number.new))
        handle.new.controller }
    ensures unchanged { result ≢ DONE → (handle.new.controller ≡ handle.old.controller) × (number.new ≡ number.old) }
{
    on_held!(controller: Controller in handle, alloc => {
        call_discover!(controller, client, kind, number)
    })
}

/// Begins no run and sends no request until `wurst_controller_resume`.
#[unsafe(no_mangle)]
pub extern "C" fn wurst_controller_pause(alloc: Global, handle: &mut Handle) -> u32
    ensures stays { StaysOpen a_controller handle.old handle.new result }
    ensures adds { holds a_controller handle.old ≡ true → (result ≡ DONE) × AddsToEach handle.old.controller
        (λ k. PauseAdds k.opening k.entries) handle.new.controller }
    ensures unchanged { holds a_controller handle.old ≡ true → ForEachLog handle.old.controller
        (λ o h. can_pause o h ≡ false → handle.new.controller ≡ handle.old.controller) }
{
    on_held!(controller: Controller in handle, alloc => done!(controller.pause()))
}

/// Begins runs and sends requests again.
#[unsafe(no_mangle)]
pub extern "C" fn wurst_controller_resume(alloc: Global, handle: &mut Handle) -> u32
    ensures stays { StaysOpen a_controller handle.old handle.new result }
    ensures adds { holds a_controller handle.old ≡ true → (result ≡ DONE) × AddsToEach handle.old.controller
        (λ k. ResumeAdds k.opening k.entries) handle.new.controller }
    ensures unchanged { holds a_controller handle.old ≡ true → ForEachLog handle.old.controller
        (λ o h. can_resume o h ≡ false → handle.new.controller ≡ handle.old.controller) }
{
    on_held!(controller: Controller in handle, alloc => done!(controller.resume()))
}

/// Refuses all later joins, submits and discovers, and sends nothing more.
#[unsafe(no_mangle)]
pub extern "C" fn wurst_controller_close(alloc: Global, handle: &mut Handle) -> u32
    ensures stays { StaysOpen a_controller handle.old handle.new result }
    ensures adds { holds a_controller handle.old ≡ true → (result ≡ DONE) × AddsToEach handle.old.controller
        (λ k. CloseAdds k.opening k.entries) handle.new.controller }
    ensures unchanged { holds a_controller handle.old ≡ true → ForEachLog handle.old.controller
        (λ o h. is_closed o h ≡ true → handle.new.controller ≡ handle.old.controller) }
{
    on_held!(controller: Controller in handle, alloc => done!(controller.close()))
}

/// Writes the next frame for the line at the front of a buffer of 257 bytes, and how many bytes it has.
#[unsafe(no_mangle)]
pub extern "C" fn wurst_controller_take(
    alloc: Global,
    handle: &mut Handle,
    frame: &mut [u8],
    len: &mut usize,
) -> u32
    ensures stays { StaysOpen a_controller handle.old handle.new result }
    ensures small { holds a_controller handle.old ≡ true → (result ≡ BUFFER_TOO_SMALL) ↔ (length frame.old < 257) }
    ensures given { result ≡ DONE → (sent : Bytes ℕ) × (len.new ≡ length sent.items)
        × (take len.new frame.new ≡ sent.items) × AddsToEach handle.old.controller
        (λ k. TakeAdds k.opening k.entries (Some sent)) handle.new.controller }
    ensures nothing { result ≡ NOTHING → AddsToEach handle.old.controller (λ k. TakeAdds k.opening k.entries None)
        handle.new.controller }
    ensures statuses { holds a_controller handle.old ≡ true → (result ≡ BUFFER_TOO_SMALL)
        ⊎ ((result ≡ NOTHING) ⊎ (result ≡ DONE)) }
    ensures unchanged { result ≢ DONE → (handle.new.controller ≡ handle.old.controller) × (len.new ≡ len.old)
        × (frame.new ≡ frame.old) }
{
    on_held!(controller: Controller in handle, alloc => if frame.len() < MOST_FRAME_BYTES {
        BUFFER_TOO_SMALL
    } else {
        match controller.take() {
            Some(bytes) => {
                *len = put_bytes(frame, &bytes);
                DONE
            }
            None => NOTHING,
        }
    })
}

/// Takes the bytes that the line answered to the last frame. No bytes are silence.
#[unsafe(no_mangle)]
pub extern "C" fn wurst_controller_deliver(alloc: Global, handle: &mut Handle, reply: &[u8]) -> u32
    ensures stays { StaysOpen a_controller handle.old handle.new result }
    ensures long { holds a_controller handle.old ≡ true → 257 < length reply.now → result ≡ REPLY_TOO_LONG }
    ensures statuses { holds a_controller handle.old ≡ true → length reply.now ≤ 257 → (result ≡ DONE)
        ⊎ (result ≡ NOT_ASKED) }
    ensures heard { result ≡ DONE → AddsToEach handle.old.controller
        (λ k. DeliverAdds k (Reply (record { items = reply.now })) (Ok tt)) handle.new.controller }
    ensures not_asked { result ≡ NOT_ASKED → ForEachLog handle.old.controller (λ o h. awaited h ≡ false) }
    ensures unchanged { result ≢ DONE → handle.new.controller ≡ handle.old.controller }
{
    on_held!(controller: Controller in handle, alloc => call_deliver!(controller, alloc, reply))
}

/// Records that the line failed at the last frame.
#[unsafe(no_mangle)]
pub extern "C" fn wurst_controller_fail(alloc: Global, handle: &mut Handle) -> u32
    ensures stays { StaysOpen a_controller handle.old handle.new result }
    ensures statuses { holds a_controller handle.old ≡ true → (result ≡ DONE) ⊎ (result ≡ NOT_ASKED) }
    ensures heard { result ≡ DONE → AddsToEach handle.old.controller (λ k. DeliverAdds k Failed (Ok tt))
        handle.new.controller }
    ensures not_asked { result ≡ NOT_ASKED → ForEachLog handle.old.controller (λ o h. awaited h ≡ false) }
    ensures unchanged { result ≢ DONE → handle.new.controller ≡ handle.old.controller }
{
    on_held!(controller: Controller in handle, alloc => {
        done_or!(NOT_ASKED, controller.deliver(alloc, LineEvent::Failed))
    })
}

/// Writes the kind of a client's oldest outcome: 0 for a request's, 1 for a discovery's.
#[unsafe(no_mangle)]
pub extern "C" fn wurst_controller_oldest(
    alloc: Global,
    handle: &mut Handle,
    client: u8,
    kind: &mut u32,
) -> u32
    ensures reads { Reads a_controller handle.old handle.new result }
    ensures status { holds a_controller handle.old ≡ true → ForEachLog handle.old.controller
        (λ o h. result ≡ oldest_status o h client) }
    ensures kind { result ≡ DONE → ForEachLog handle.old.controller
        (λ o h. option_map number_of_outcome_kind (oldest_kind o h client) ≡ Some kind.new) }
    ensures unchanged { result ≢ DONE → kind.new ≡ kind.old }
{
    on_held!(controller: Controller in handle, alloc => call_oldest!(controller, client, kind))
}

/// Collects a client's oldest outcome if it is a request's, and writes how it ended, with its data at the front of
/// a buffer. `BUFFER_TOO_SMALL` writes how many bytes it needs into `len`.
#[unsafe(no_mangle)]
#[tactic(auto, using(crate::proofs::AnswerLemmas::length_of_oldest))]
pub extern "C" fn wurst_controller_next_completion(
    alloc: Global,
    handle: &mut Handle,
    client: u8,
    completion: &mut CompletionForC,
    buffer: &mut [u8],
) -> u32
    ensures stays { StaysOpen a_controller handle.old handle.new result }
    ensures status { holds a_controller handle.old ≡ true → ForEachLog handle.old.controller
        (λ o h. result ≡ collect_status o h client kinds.Request (length buffer.old)) }
    ensures needed { result ≡ BUFFER_TOO_SMALL → ForEachLog handle.old.controller
        (λ o h. oldest_length o h client ≡ Some completion.new.len) }
    ensures collected { result ≡ DONE → (number : ℕ) × (done : Completion)
        × (completion.new ≡ form_of_completion number done completion.new.may_be_incomplete)
        × AddsToEach handle.old.controller (λ k. CollectAdds k.opening k.entries (record { 0 = client })
        (Some (request_outcome (number, done)))) handle.new.controller
        × ForEachLog handle.old.controller (λ o h. take completion.new.len buffer.new ≡ done.bytes.items) }
    ensures may_be_incomplete { result ≡ DONE → ForEachLog handle.old.controller
        (λ o h. oldest_may_be_incomplete o h client ≡ Some completion.new.may_be_incomplete) }
    ensures only_len { result ≡ BUFFER_TOO_SMALL →
        completion.new ≡ record completion.old { len = completion.new.len } }
    ensures kept { result ≢ DONE → result ≢ BUFFER_TOO_SMALL → completion.new ≡ completion.old }
    ensures unchanged { result ≢ DONE → (handle.new.controller ≡ handle.old.controller) × (buffer.new ≡ buffer.old) }
{
    on_held!(controller: Controller in handle, alloc => {
        call_next_completion!(controller, client, completion, buffer)
    })
}

/// Collects a client's oldest outcome if it is a discovery's, and writes how it ended, with its devices at the
/// front of a buffer. `BUFFER_TOO_SMALL` writes how many devices it needs into `count`.
#[unsafe(no_mangle)]
#[tactic(auto, using(crate::proofs::AnswerLemmas::length_of_oldest))]
pub extern "C" fn wurst_controller_next_discovery(
    alloc: Global,
    handle: &mut Handle,
    client: u8,
    end: &mut EndForC,
    devices: &mut [DeviceForC],
) -> u32
    ensures stays { StaysOpen a_controller handle.old handle.new result }
    ensures status { holds a_controller handle.old ≡ true → ForEachLog handle.old.controller
        (λ o h. result ≡ collect_status o h client kinds.Discovery (length devices.old)) }
    ensures needed { result ≡ BUFFER_TOO_SMALL → ForEachLog handle.old.controller
        (λ o h. oldest_length o h client ≡ Some end.new.count) }
    ensures collected { result ≡ DONE → (ended : DiscoveryEnd) × (set : List Device)
        × (end.new ≡ form_of_end ended (length set)) × AddsToEach handle.old.controller
        (λ k. CollectAdds k.opening k.entries (record { 0 = client }) (Some (discovery_outcome ended set)))
        handle.new.controller × ForEachLog handle.old.controller (λ o h. take (length set) devices.new
        ≡ map form_of_device set) }
    ensures only_count { result ≡ BUFFER_TOO_SMALL → end.new ≡ record end.old { count = end.new.count } }
    ensures kept { result ≢ DONE → result ≢ BUFFER_TOO_SMALL → end.new ≡ end.old }
    ensures unchanged { result ≢ DONE → (handle.new.controller ≡ handle.old.controller)
        × (devices.new ≡ devices.old) }
{
    on_held!(controller: Controller in handle, alloc => {
        call_next_discovery!(controller, client, end, devices)
    })
}

/// Writes the devices of the last run without fault at the front of a buffer, and how many there are; with
/// `BUFFER_TOO_SMALL` only that.
#[unsafe(no_mangle)]
pub extern "C" fn wurst_controller_devices(
    alloc: Global,
    handle: &mut Handle,
    devices: &mut [DeviceForC],
    count: &mut usize,
) -> u32
    ensures reads { Reads a_controller handle.old handle.new result }
    ensures count { holds a_controller handle.old ≡ true → ForEachLog handle.old.controller
        (λ o h. count.new ≡ length (known_devices o h)) }
    ensures kept { result ≡ NOT_OPEN → count.new ≡ count.old }
    ensures status { holds a_controller handle.old ≡ true →
        result ≡ (if nat_lt (length devices.old) count.new then BUFFER_TOO_SMALL else DONE) }
    ensures written { result ≡ DONE → ForEachLog handle.old.controller
        (λ o h. take count.new devices.new ≡ map form_of_device (known_devices o h)) }
    ensures unchanged { result ≢ DONE → devices.new ≡ devices.old }
{
    on_held!(controller: Controller in handle, alloc => {
        write_devices(controller.devices(), devices, count)
    })
}

/// Writes the number of the run that found the devices; 0 before the first.
#[unsafe(no_mangle)]
pub extern "C" fn wurst_controller_devices_run(
    alloc: Global,
    handle: &mut Handle,
    run: &mut u64,
) -> u32
    ensures reports { Reports a_controller handle.old handle.new result
        (ForEachLog handle.old.controller (λ o h. run.new ≡ devices_run o h)) (run.new ≡ run.old) }
{
    on_held!(controller: Controller in handle, alloc => done!(*run = controller.devices_run()))
}

/// Writes the bad UIDs of the run that began last at the front of a buffer, how many there are, and whether there were
/// more; with `BUFFER_TOO_SMALL` only how many.
#[unsafe(no_mangle)]
pub extern "C" fn wurst_controller_bad_uids(
    alloc: Global,
    handle: &mut Handle,
    uids: &mut [u64],
    count: &mut usize,
    more: &mut bool,
) -> u32
    ensures reads { Reads a_controller handle.old handle.new result }
    ensures count { holds a_controller handle.old ≡ true → (us : List ℕ) × (count.new ≡ length us)
        × (length us ≤ MOST_APART) × ForEachLog handle.old.controller (λ o h. AreBadUids o h us) }
    ensures kept { result ≡ NOT_OPEN → count.new ≡ count.old }
    ensures status { holds a_controller handle.old ≡ true →
        result ≡ (if nat_lt (length uids.old) count.new then BUFFER_TOO_SMALL else DONE) }
    ensures written { result ≡ DONE → ForEachLog handle.old.controller
        (λ o h. AreBadUids o h (take count.new uids.new)) }
    ensures more { result ≡ DONE → ForEachLog handle.old.controller (λ o h. HasMoreBadUids o h more.new) }
    ensures unchanged { result ≢ DONE → (uids.new ≡ uids.old) × (more.new ≡ more.old) }
{
    on_held!(controller: Controller in handle, alloc => {
        let has_more = controller.has_more_bad_uids();
        write_bad_uids(controller.bad_uids(), has_more, uids, count, more)
    })
}

/// Writes the number of that run; 0 before the first.
#[unsafe(no_mangle)]
pub extern "C" fn wurst_controller_bad_uids_run(
    alloc: Global,
    handle: &mut Handle,
    run: &mut u64,
) -> u32
    ensures reports { Reports a_controller handle.old handle.new result
        (ForEachLog handle.old.controller (λ o h. run.new ≡ next_run o h - 1)) (run.new ≡ run.old) }
{
    on_held!(controller: Controller in handle, alloc => done!(*run = controller.bad_uids_run()))
}

/// Writes whether the queue is idle: no call waits or is being served, and no outcome is uncollected.
#[unsafe(no_mangle)]
pub extern "C" fn wurst_controller_is_idle(
    alloc: Global,
    handle: &mut Handle,
    answer: &mut bool,
) -> u32
    ensures reports { Reports a_controller handle.old handle.new result
        (ForEachLog handle.old.controller (λ o h. answer.new ≡ is_idle h)) (answer.new ≡ answer.old) }
{
    on_held!(controller: Controller in handle, alloc => done!(*answer = controller.is_idle()))
}

/// Writes whether sending is paused.
#[unsafe(no_mangle)]
pub extern "C" fn wurst_controller_is_paused(
    alloc: Global,
    handle: &mut Handle,
    answer: &mut bool,
) -> u32
    ensures reports { Reports a_controller handle.old handle.new result
        (ForEachLog handle.old.controller (λ o h. answer.new ≡ is_paused o h)) (answer.new ≡ answer.old) }
{
    on_held!(controller: Controller in handle, alloc => done!(*answer = controller.is_paused()))
}

/// Writes whether the queue is closed.
#[unsafe(no_mangle)]
pub extern "C" fn wurst_controller_is_closed(
    alloc: Global,
    handle: &mut Handle,
    answer: &mut bool,
) -> u32
    ensures reports { Reports a_controller handle.old handle.new result
        (ForEachLog handle.old.controller (λ o h. answer.new ≡ is_closed o h)) (answer.new ≡ answer.old) }
{
    on_held!(controller: Controller in handle, alloc => done!(*answer = controller.is_closed()))
}

/// Writes whether a reply is awaited.
#[unsafe(no_mangle)]
pub extern "C" fn wurst_controller_awaits(
    alloc: Global,
    handle: &mut Handle,
    answer: &mut bool,
) -> u32
    ensures reports { Reports a_controller handle.old handle.new result
        (ForEachLog handle.old.controller (λ o h. answer.new ≡ awaited h)) (answer.new ≡ answer.old) }
{
    on_held!(controller: Controller in handle, alloc => done!(*answer = controller.awaits()))
}
