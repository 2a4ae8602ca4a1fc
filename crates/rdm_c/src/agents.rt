//! C's calls on a discovery run without a queue. Each is the library's call with that name, on what the handle holds.
ghost use Rattle.std.specs.Prelude.{◌≡◌, ◌≢◌, ◌++◌, ◌∷◌, ◌+◌, ◌%◌, ◌^◌, ◌⊎◌, ◌==◌, [], length, take, map, true, false};
ghost use Rattle.std.specs.Prelude.{Some, None, nat_lt, if◌then◌else◌};
ghost use Rattle.std.specs.List.{AllByRecursion};
ghost use Rattle.rdm_agent.specs.Machine.{fed, fault_of};
ghost use Rattle.rdm_agent.specs.Cause.{WasBad};
ghost use Rattle.rdm_agent.specs.Run.{heard_by, seen_op, IsReport};
ghost use Rattle.rdm_agent.specs.Calls.{next_op, fits, ended_by_abort, HasRunBy, AfterEach};
ghost use Rattle.rdm_agent.specs.OpFrames.{op_frame};
ghost use Rattle.rdm_agent.specs.declared.op.OpReply.{OpReply};
ghost use Rattle.rdm_agent.specs.declared.op.Op.TheVariants.{End};
ghost use Rattle.rdm_handles.specs.Forms.{search_of, kind_of, corrupt_uid, number_of_fault, form_of_device};
ghost use Rattle.rdm_handles.specs.Packets.{first_of, frame_status};
ghost use Rattle.rdm_handles.specs.Agents.{start_status, known_status, known_set, operation_status, operation_of};
ghost use Rattle.rdm_handles.specs.Agents.{heard_of};
ghost use Rattle.rdm_handles.specs.Handles.{holds, a_discovery, Opens, Closes, StaysOpen, Reads, Reports};

use rdm_agent::Op;
use rdm_handles::agents::{self, operation_of};
use rdm_handles::convert::{corrupt_uid, number_of_fault, write_bad_uids, write_devices};
use rdm_handles::packets::put_frame;
use rdm_handles::status::{
    ALREADY_OPEN, BUFFER_TOO_SMALL, DONE, HAS_ENDED, NOT_ENDED, NOT_OPEN, NOTHING, OUT_OF_MEMORY,
};
use rdm_handles::{DeviceForC, Discovery, Handle, StartForC};
use std::alloc::Global;

/// Opens a handle: a run that begins like this, and knows these UIDs.
#[unsafe(no_mangle)]
pub extern "C" fn wurst_agent_start(
    alloc: Global,
    handle: &mut Handle,
    start: &StartForC,
    known: &[u64],
) -> u32
    ensures opens { Opens a_discovery handle.old handle.new result }
    ensures bad { handle.old.is_open ≡ false → first_of (start_status start.now) (known_status [] known.now) ≢ 0 →
        result ≡ first_of (start_status start.now) (known_status [] known.now) }
    ensures statuses { handle.old.is_open ≡ false → first_of (start_status start.now) (known_status [] known.now)
        ≡ 0 → (result ≡ OUT_OF_MEMORY) ⊎ (result ≡ DONE) }
    ensures begun { result ≡ DONE → (handle.new.discovery.source ≡ start.now.source)
        × (handle.new.discovery.tn ≡ start.now.tn) × HasRunBy (search_of start.now.search) (kind_of start.now.kind)
        (known_set [] known.now) start.now.budget false [] handle.new.discovery.agent }
{
    on_closed!(handle, alloc => agents::start(start, known))
}

/// Ends the run of an open handle, frees its memory, and closes the handle. No effect on any other handle.
#[unsafe(no_mangle)]
pub extern "C" fn wurst_agent_dispose(alloc: Global, handle: &mut Handle)
    ensures closes { Closes a_discovery handle.old handle.new }
{
    drop(handle.take::<Discovery>(alloc));
}

/// Writes what the run asks next, 0 for an unmute of all, 1 for a mute, 2 for a branch, and its frame at the front of a
/// buffer of 257 bytes.
#[unsafe(no_mangle)]
pub extern "C" fn wurst_agent_next(
    alloc: Global,
    handle: &mut Handle,
    operation: &mut u32,
    frame: &mut [u8],
    len: &mut usize,
) -> u32
    ensures reads { Reads a_discovery handle.old handle.new result }
    ensures status { holds a_discovery handle.old ≡ true →
        result ≡ first_of (operation_status (next_op handle.old.discovery.agent)) (frame_status (length frame.old)) }
    ensures frame { result ≡ DONE → take len.new frame.new ≡ op_frame (next_op handle.old.discovery.agent)
        handle.old.discovery.source handle.old.discovery.tn }
    ensures operation { result ≡ DONE → operation.new ≡ operation_of (next_op handle.old.discovery.agent) }
    ensures unchanged { result ≢ DONE → (operation.new ≡ operation.old) × (len.new ≡ len.old)
        × (frame.new ≡ frame.old) }
{
    on_held!(discovery: Discovery in handle, alloc => {
        let op = discovery.agent.next();
        if op == Op::End {
            NOTHING
        } else {
            let status = put_frame(frame, &op.frame(discovery.source, discovery.tn), len);
            if status == DONE {
                *operation = operation_of(&op);
            }
            status
        }
    })
}

/// Takes the bytes that the line answered to the run's frame. No bytes are silence.
#[unsafe(no_mangle)]
pub extern "C" fn wurst_agent_hear(alloc: Global, handle: &mut Handle, reply: &[u8]) -> u32
    ensures stays { StaysOpen a_discovery handle.old handle.new result }
    ensures status { holds a_discovery handle.old ≡ true →
        result ≡ (if operation_status (next_op handle.old.discovery.agent) == 0 then DONE else HAS_ENDED) }
    ensures heard { result ≡ DONE → handle.new.discovery.agent ≡ heard_of handle.old.discovery (Some reply.now) }
    ensures has_run { result ≡ DONE → (heard : OpReply) × (fits heard (next_op handle.old.discovery.agent) ≡ true)
        × (handle.new.discovery.agent ≡ fed handle.old.discovery.agent (heard_by heard))
        × AfterEach handle.old.discovery.agent (λ run. HasRunBy run.search run.kind run.known run.budget false
        (run.exchanges ++ seen_op (next_op handle.old.discovery.agent, heard) ∷ []) handle.new.discovery.agent) }
    ensures numbers { result ≡ DONE → (handle.new.discovery.tn ≡ (handle.old.discovery.tn + 1) % 2 ^ 8)
        × (handle.new.discovery.source ≡ handle.old.discovery.source) }
    ensures unchanged { result ≢ DONE → handle.new.discovery ≡ handle.old.discovery }
{
    on_held!(discovery: Discovery in handle, alloc => agents::hear(discovery, Some(reply)))
}

/// Records that the line failed, which ends the run.
#[unsafe(no_mangle)]
pub extern "C" fn wurst_agent_fail(alloc: Global, handle: &mut Handle) -> u32
    ensures stays { StaysOpen a_discovery handle.old handle.new result }
    ensures status { holds a_discovery handle.old ≡ true →
        result ≡ (if operation_status (next_op handle.old.discovery.agent) == 0 then DONE else HAS_ENDED) }
    ensures heard { result ≡ DONE → handle.new.discovery.agent ≡ heard_of handle.old.discovery None }
    ensures has_run { result ≡ DONE → (heard : OpReply) × (fits heard (next_op handle.old.discovery.agent) ≡ true)
        × (handle.new.discovery.agent ≡ fed handle.old.discovery.agent (heard_by heard))
        × AfterEach handle.old.discovery.agent (λ run. HasRunBy run.search run.kind run.known run.budget false
        (run.exchanges ++ seen_op (next_op handle.old.discovery.agent, heard) ∷ []) handle.new.discovery.agent) }
    ensures numbers { result ≡ DONE → (handle.new.discovery.tn ≡ (handle.old.discovery.tn + 1) % 2 ^ 8)
        × (handle.new.discovery.source ≡ handle.old.discovery.source) }
    ensures unchanged { result ≢ DONE → handle.new.discovery ≡ handle.old.discovery }
{
    on_held!(discovery: Discovery in handle, alloc => agents::hear(discovery, None))
}

/// Ends the run, as aborted. No effect if it has ended.
#[unsafe(no_mangle)]
pub extern "C" fn wurst_agent_stop(alloc: Global, handle: &mut Handle) -> u32
    ensures stays { StaysOpen a_discovery handle.old handle.new result }
    ensures done { holds a_discovery handle.old ≡ true → result ≡ DONE }
    ensures stopped { holds a_discovery handle.old ≡ true → next_op handle.old.discovery.agent ≢ End →
        handle.new.discovery.agent ≡ ended_by_abort handle.old.discovery.agent }
    ensures has_run { holds a_discovery handle.old ≡ true → next_op handle.old.discovery.agent ≢ End →
        AfterEach handle.old.discovery.agent (λ run. HasRunBy run.search run.kind run.known run.budget true
        run.exchanges handle.new.discovery.agent) }
    ensures unchanged { holds a_discovery handle.old ≡ true → next_op handle.old.discovery.agent ≡ End →
        handle.new.discovery.agent ≡ handle.old.discovery.agent }
{
    on_held!(discovery: Discovery in handle, alloc => done!(discovery.agent.stop()))
}

/// Writes the devices found so far at the front of a buffer, and how many there are; with `BUFFER_TOO_SMALL` only that.
#[unsafe(no_mangle)]
pub extern "C" fn wurst_agent_devices(
    alloc: Global,
    handle: &mut Handle,
    devices: &mut [DeviceForC],
    count: &mut usize,
) -> u32
    ensures reads { Reads a_discovery handle.old handle.new result }
    ensures count { holds a_discovery handle.old ≡ true → count.new ≡ length handle.old.discovery.agent.found }
    ensures kept { result ≡ NOT_OPEN → count.new ≡ count.old }
    ensures status { holds a_discovery handle.old ≡ true →
        result ≡ (if nat_lt (length devices.old) count.new then BUFFER_TOO_SMALL else DONE) }
    ensures written { result ≡ DONE → take count.new devices.new ≡ map form_of_device
        handle.old.discovery.agent.found }
    ensures report { holds a_discovery handle.old ≡ true → AfterEach handle.old.discovery.agent
        (λ run. IsReport run.exchanges handle.old.discovery.agent.found) }
    ensures unchanged { result ≢ DONE → devices.new ≡ devices.old }
{
    on_held!(discovery: Discovery in handle, alloc => {
        write_devices(discovery.agent.found(), devices, count)
    })
}

/// Writes the bad UIDs at the front of a buffer, how many there are, and whether there were more; with
/// `BUFFER_TOO_SMALL` only how many.
#[unsafe(no_mangle)]
pub extern "C" fn wurst_agent_bad_uids(
    alloc: Global,
    handle: &mut Handle,
    uids: &mut [u64],
    count: &mut usize,
    more: &mut bool,
) -> u32
    ensures reads { Reads a_discovery handle.old handle.new result }
    ensures count { holds a_discovery handle.old ≡ true → count.new ≡ length handle.old.discovery.agent.apart }
    ensures kept { result ≡ NOT_OPEN → count.new ≡ count.old }
    ensures status { holds a_discovery handle.old ≡ true →
        result ≡ (if nat_lt (length uids.old) count.new then BUFFER_TOO_SMALL else DONE) }
    ensures written { result ≡ DONE → take count.new uids.new ≡ handle.old.discovery.agent.apart }
    ensures more { result ≡ DONE → more.new ≡ handle.old.discovery.agent.more }
    ensures answered { holds a_discovery handle.old ≡ true → AfterEach handle.old.discovery.agent
        (λ run. AllByRecursion (λ u. WasBad u run.exchanges) handle.old.discovery.agent.apart) }
    ensures unchanged { result ≢ DONE → (uids.new ≡ uids.old) × (more.new ≡ more.old) }
{
    on_held!(discovery: Discovery in handle, alloc => {
        let has_more = discovery.agent.has_more_bad_uids();
        write_bad_uids(discovery.agent.bad_uids(), has_more, uids, count, more)
    })
}

/// Writes why the run ended early: the fault's number, or 0 if it has none, and the fault's UID, or 0.
#[unsafe(no_mangle)]
pub extern "C" fn wurst_agent_fault(
    alloc: Global,
    handle: &mut Handle,
    fault: &mut u32,
    corrupt: &mut u64,
) -> u32
    ensures reads { Reads a_discovery handle.old handle.new result }
    ensures status { holds a_discovery handle.old ≡ true →
        result ≡ (if operation_status (next_op handle.old.discovery.agent) == 0 then NOT_ENDED else DONE) }
    ensures fault { result ≡ DONE → (fault.new ≡ number_of_fault (fault_of handle.old.discovery.agent.phase))
        × (corrupt.new ≡ corrupt_uid (fault_of handle.old.discovery.agent.phase)) }
    ensures unchanged { result ≢ DONE → (fault.new ≡ fault.old) × (corrupt.new ≡ corrupt.old) }
{
    on_held!(discovery: Discovery in handle, alloc => if discovery.agent.next() == Op::End {
        *fault = number_of_fault(discovery.agent.fault());
        *corrupt = corrupt_uid(discovery.agent.fault());
        DONE
    } else {
        NOT_ENDED
    })
}

/// Writes how many exchanges the run has made.
#[unsafe(no_mangle)]
pub extern "C" fn wurst_agent_frames(alloc: Global, handle: &mut Handle, frames: &mut u64) -> u32
    ensures reports { Reports a_discovery handle.old handle.new result (frames.new ≡ handle.old.discovery.agent.frames)
        (frames.new ≡ frames.old) }
{
    on_held!(discovery: Discovery in handle, alloc => done!(*frames = discovery.agent.frames()))
}
