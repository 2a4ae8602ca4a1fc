//! The meaning of C's structs, and how they are written.
ghost use Rattle.std.specs.Prelude.{◌≡◌, ◌≢◌, ◌≤◌, length, take, map, IfOk, IfErr, Some, if◌then◌else◌, nat_lt};
ghost use Rattle.rdm_log.specs.log.Config.{IsConfig};
ghost use Rattle.rdm_handles.specs.Forms.{setup_status, setup_of, search_of, uid_status, request_status, request_of};
ghost use Rattle.rdm_handles.specs.Forms.{kind_of, number_of_ack, number_of_class, form_of_completion, form_of_end};
ghost use Rattle.rdm_handles.specs.Forms.{form_of_device, number_or_0, number_of_fault, corrupt_uid, class_of};
ghost use Rattle.rdm_handles.specs.Forms.{form_with_head, uid_of_fault};
ghost use Rattle.rdm_handles.specs.Answers.{join_fault_of, submit_fault_of};

use crate::forms::{CompletionForC, DeviceForC, EndForC, RequestForC, SetupForC};
use crate::status::{self, BUFFER_TOO_SMALL, DONE};
use arrayvec::ArrayVec;
use rdm_agent::{AgentFault, Kind, Search};
use rdm_join::ReplyHead;
use rdm_log::{Completion, Config, DiscoveryEnd, JoinFault, MOST_PLACES, Setup, WorkFault};
use rdm_wire::{
    AckType, Device, DeviceSet, MOST_PARAMETER_BYTES, ReqClass, Request, RespClass, Uid,
};

/// The UID with this number, which must be a device's or a controller's own.
/// Err: its status.
pub fn own_uid(number: u64) -> Result<Uid, u32>
    ensures ok { IfOk result (λ u. (u ≡ number) × (uid_status number ≡ 0)) }
    ensures err { IfErr result (λ fault. (fault ≡ uid_status number) × (fault ≢ 0)) }
{
    let Some(uid) = Uid::from_number(number) else {
        return Err(status::BAD_UID);
    };
    if uid.is_broadcast() {
        Err(status::BROADCAST_UID)
    } else {
        Ok(uid)
    }
}

/// The set-up of a controller.
/// Err: the status of its first fault.
pub fn setup_of(setup: &SetupForC) -> Result<Setup, u32>
    ensures ok { IfOk result (λ s. (s ≡ setup_of setup.now) × IsConfig s.config × (setup_status setup.now ≡ 0)) }
    ensures err { IfErr result (λ fault. (fault ≡ setup_status setup.now) × (fault ≢ 0)) }
{
    let source = own_uid(setup.source)?;
    if setup.places > MOST_PLACES {
        return Err(status::TOO_MANY_PLACES);
    }
    if setup.budget == 0 {
        return Err(status::NO_BUDGET);
    }
    if setup.search > 1 {
        return Err(status::BAD_SEARCH);
    }
    Ok(Setup {
        config: Config {
            source,
            places: setup.places,
            budget: setup.budget,
        },
        search: search_of(setup.search),
    })
}

/// The search with this number: 0 steady, any other quick.
pub fn search_of(number: u32) -> Search
    ensures { result ≡ search_of number }
{
    if number == 0 {
        Search::Steady
    } else {
        Search::Quick
    }
}

/// The kind of discovery with this number: 0 full, any other incremental.
pub fn kind_of(number: u32) -> Kind
    ensures { result ≡ kind_of number }
{
    if number == 0 {
        Kind::Full
    } else {
        Kind::Incremental
    }
}

/// The request with these data.
/// Err: the status of its first fault.
pub fn request_of(request: &RequestForC, param_bytes: &[u8]) -> Result<Request, u32>
    ensures ok { IfOk result (λ r. (r ≡ request_of request.now param_bytes.now)
        × (request_status request.now param_bytes.now ≡ 0)) }
    ensures err { IfErr result (λ fault. (fault ≡ request_status request.now param_bytes.now) × (fault ≢ 0)) }
{
    let Some(target) = Uid::from_number(request.target) else {
        return Err(status::BAD_UID);
    };
    if request.command_class > 1 {
        return Err(status::BAD_CLASS);
    }
    if param_bytes.len() > MOST_PARAMETER_BYTES {
        return Err(status::DATA_TOO_LONG);
    }
    let mut param = ArrayVec::new();
    param.try_extend_from_slice(param_bytes).unwrap();
    Ok(Request {
        target,
        sub_device: request.sub_device,
        class: class_of(request.command_class),
        pid: request.pid,
        param,
    })
}

// The command class with this number: 0 GET, any other SET.
fn class_of(number: u32) -> ReqClass
    ensures { result ≡ class_of number }
{
    if number == 0 {
        ReqClass::Get
    } else {
        ReqClass::Set
    }
}

/// The status of a join's fault.
pub fn status_of_join(fault: JoinFault) -> u32
    ensures fault { join_fault_of result ≡ Some fault }
    ensures refused { result ≢ 0 }
{
    match fault {
        JoinFault::Closed => status::CLOSED,
        JoinFault::TooManyClients => status::TOO_MANY_CLIENTS,
        JoinFault::NoPlaces => status::NO_PLACES,
        JoinFault::NoMemory => status::OUT_OF_MEMORY,
        JoinFault::LogFull => status::LOG_FULL,
    }
}

/// The status of a submit's fault, or of a discover's.
pub fn status_of_work(fault: WorkFault) -> u32
    ensures fault { submit_fault_of result ≡ Some fault }
    ensures refused { result ≢ 0 }
{
    match fault {
        WorkFault::Closed => status::CLOSED,
        WorkFault::UnknownClient => status::UNKNOWN_CLIENT,
        WorkFault::Full => status::FULL,
        WorkFault::LogFull => status::LOG_FULL,
    }
}

/// How the request with this number ended, and whether its answer may be incomplete.
pub fn completion_for_c(number: u64, done: &Completion, may_be_incomplete: bool) -> CompletionForC
    ensures { result ≡ form_of_completion number done.now may_be_incomplete }
{
    CompletionForC {
        may_be_incomplete,
        ..form_with_head(
            number,
            done.bytes.len(),
            u32::from(done.status.number()),
            done.reply,
        )
    }
}

// The same from its parts; without a head its fields are 0.
fn form_with_head(number: u64, len: usize, status: u32, head: Option<ReplyHead>) -> CompletionForC
    ensures { result ≡ form_with_head number len status head }
{
    match head {
        None => CompletionForC {
            number,
            len,
            status,
            ack: 0,
            response_class: 0,
            sub_device: 0,
            pid: 0,
            has_head: false,
            may_be_incomplete: false,
        },
        Some(head) => CompletionForC {
            number,
            len,
            status,
            ack: number_of_ack(head.ack),
            response_class: number_of_class(head.class),
            sub_device: head.sub_device,
            pid: head.pid,
            has_head: true,
            may_be_incomplete: false,
        },
    }
}

/// The number of a response's type: 0 ACK, 1 ACK_TIMER, 2 NACK, 3 ACK_OVERFLOW.
pub fn number_of_ack(ack: AckType) -> u32
    ensures { result ≡ number_of_ack ack }
{
    match ack {
        AckType::Ack => 0,
        AckType::Timer => 1,
        AckType::Nack => 2,
        AckType::Overflow => 3,
    }
}

/// The number of a response's class: 0 discovery, 1 GET, 2 SET.
pub fn number_of_class(class: RespClass) -> u32
    ensures { result ≡ number_of_class class }
{
    match class {
        RespClass::Discovery => 0,
        RespClass::Get => 1,
        RespClass::Set => 2,
    }
}

/// How a discovery that found this many devices ended.
pub fn end_for_c(end: &DiscoveryEnd, count: usize) -> EndForC
    ensures { result ≡ form_of_end end.now count }
{
    EndForC {
        number: end.number,
        run: end.run,
        corrupt: corrupt_uid(end.fault),
        count,
        fault: number_of_fault(end.fault),
    }
}

/// The number of a run's fault; 0 for none.
pub fn number_of_fault(fault: Option<AgentFault>) -> u32
    ensures { result ≡ number_of_fault fault }
{
    match fault {
        None => 0,
        Some(fault) => u32::from(fault.number()),
    }
}

/// The UID in a fault; 0 without a fault.
pub fn corrupt_uid(fault: Option<AgentFault>) -> u64
    ensures { result ≡ corrupt_uid fault }
{
    match fault {
        None => 0,
        Some(fault) => uid_of_fault(fault),
    }
}

// The UID in a fault; 0 if it has none.
fn uid_of_fault(fault: AgentFault) -> u64
    ensures { result ≡ uid_of_fault fault }
{
    match fault {
        AgentFault::Corrupt(uid) => uid.number(),
        AgentFault::TooMany
        | AgentFault::Exhausted
        | AgentFault::LineFailed
        | AgentFault::Aborted => 0,
    }
}

/// A device.
pub fn device_for_c(device: &Device) -> DeviceForC
    ensures { result ≡ form_of_device device.now }
{
    DeviceForC {
        uid: device.uid.number(),
        binding: number_or_0(device.binding),
        control: device.control,
        has_binding: device.binding.is_some(),
    }
}

/// The number of a UID that may be missing; 0 for none.
pub fn number_or_0(uid: Option<Uid>) -> u64
    ensures { result ≡ number_or_0 uid }
{
    match uid {
        None => 0,
        Some(uid) => uid.number(),
    }
}

/// Writes bytes at the front of a buffer, as many as fit. Returns how many these are.
pub fn put_bytes(buffer: &mut [u8], bytes: &[u8]) -> usize
    ensures len { length buffer.new ≡ length buffer.old }
    ensures all { length bytes.now ≤ length buffer.old → result ≡ length bytes.now }
    ensures front { length bytes.now ≤ length buffer.old → take result buffer.new ≡ bytes.now }
{
    let len = bytes.len().min(buffer.len());
    buffer[..len].copy_from_slice(&bytes[..len]);
    len
}

/// Writes devices at the front of a buffer, as many as fit.
pub fn put_devices(buffer: &mut [DeviceForC], devices: &[Device])
    ensures len { length buffer.new ≡ length buffer.old }
    ensures front { length devices.now ≤ length buffer.old →
        take (length devices.now) buffer.new ≡ map form_of_device devices.now }
{
    let len = devices.len().min(buffer.len());
    'copying: for i in 0..len {
        buffer[i] = device_for_c(&devices[i]);
    }
}

/// Writes UIDs at the front of a buffer, as many as fit.
pub fn put_uids(buffer: &mut [u64], uids: &[Uid])
    ensures len { length buffer.new ≡ length buffer.old }
    ensures front { length uids.now ≤ length buffer.old → take (length uids.now) buffer.new ≡ uids.now }
{
    let len = uids.len().min(buffer.len());
    'copying: for i in 0..len {
        buffer[i] = uids[i].number();
    }
}

/// Writes devices at the front of a buffer, and how many there are; with `BUFFER_TOO_SMALL` only that.
pub fn write_devices(set: &DeviceSet, devices: &mut [DeviceForC], count: &mut usize) -> u32
    ensures count { count.new ≡ length set.now }
    ensures status { result ≡ (if nat_lt (length devices.old) (length set.now) then BUFFER_TOO_SMALL else DONE) }
    ensures written { result ≡ DONE → take count.new devices.new ≡ map form_of_device set.now }
    ensures unchanged { result ≢ DONE → devices.new ≡ devices.old }
{
    *count = set.len();
    if set.len() > devices.len() {
        return BUFFER_TOO_SMALL;
    }
    put_devices(devices, set.as_slice());
    DONE
}

/// Writes bad UIDs at the front of a buffer, how many there are, and whether there were more; with `BUFFER_TOO_SMALL`
/// only how many.
pub fn write_bad_uids(
    uids: &[Uid],
    has_more: bool,
    buffer: &mut [u64],
    count: &mut usize,
    more: &mut bool,
) -> u32
    ensures count { count.new ≡ length uids.now }
    ensures status { result ≡ (if nat_lt (length buffer.old) (length uids.now) then BUFFER_TOO_SMALL else DONE) }
    ensures written { result ≡ DONE → take count.new buffer.new ≡ uids.now }
    ensures more { result ≡ DONE → more.new ≡ has_more }
    ensures unchanged { result ≢ DONE → (buffer.new ≡ buffer.old) × (more.new ≡ more.old) }
{
    *count = uids.len();
    if uids.len() > buffer.len() {
        return BUFFER_TOO_SMALL;
    }
    put_uids(buffer, uids);
    *more = has_more;
    DONE
}
