//! Entries of a log, as C reads them.
ghost use Rattle.std.specs.Prelude.{◌≡◌, ◌≢◌, length, take, Some, slice_get};
ghost use Rattle.rdm_join.specs.Statuses.{number_of_status};
ghost use Rattle.rdm_log.specs.declared.entry.Entry.{Entry};
ghost use Rattle.rdm_log.specs.log.LogState.{stored};
ghost use Rattle.rdm_handles.specs.Forms.{corrupt_uid, number_of_fault};
ghost use Rattle.rdm_handles.specs.Entries.{plain_entry, entry_with_client, entry_with_caller, entry_with_request};
ghost use Rattle.rdm_handles.specs.Entries.{entry_with_call, entry_with_owner, entry_with_event, form_of_entry};
ghost use Rattle.rdm_handles.specs.Entries.{bytes_of_call, bytes_of_event, bytes_of_entry, number_of_kind};
ghost use Rattle.rdm_handles.specs.Entries.{entry_status, entry_in};

use crate::convert::{corrupt_uid, number_of_fault, put_bytes};
use crate::forms::EntryForC;
use crate::packets::number_of_request;
use crate::status::{BUFFER_TOO_SMALL, DONE, NO_ENTRY};
use rdm_agent::{AgentFault, Kind};
use rdm_join::{LineEvent, Status};
use rdm_log::{Call, Cause, ClientId, Entry, Log, Owner};
use rdm_wire::Request;

/// Writes the entry with this index, from 0, with its bytes at the front of a buffer. `BUFFER_TOO_SMALL` writes how
/// many bytes it needs into `len`.
pub fn read(log: &Log, index: usize, form: &mut EntryForC, buffer: &mut [u8]) -> u32
    ensures status { result ≡ entry_status (stored log.now) index (length buffer.old) }
    ensures needed { (e : Entry) → slice_get (stored log.now) index ≡ Some e → result ≡ BUFFER_TOO_SMALL →
        form.new.len ≡ length (bytes_of_entry e) }
    ensures written { (e : Entry) → slice_get (stored log.now) index ≡ Some e → result ≡ DONE →
        (form.new ≡ form_of_entry e) × (take form.new.len buffer.new ≡ bytes_of_entry e) }
    ensures only_len { result ≡ BUFFER_TOO_SMALL → form.new ≡ record form.old { len = form.new.len } }
    ensures none { result ≡ NO_ENTRY → form.new ≡ form.old }
    ensures unchanged { result ≢ DONE → buffer.new ≡ buffer.old }
{
    let Some(entry) = log.entries().get(index) else {
        return NO_ENTRY;
    };
    let bytes = bytes_of_entry(entry);
    if bytes.len() > buffer.len() {
        form.len = bytes.len();
        return BUFFER_TOO_SMALL;
    }
    *form = entry_for_c(entry);
    put_bytes(buffer, bytes);
    DONE
}

/// Each entry can be read back from its form and its bytes. So no two entries have the same.
#[tactic(auto, using(crate::proofs::EntryLemmas::read_back))]
pub fn entries_can_be_read()
    ensures { (e : Entry) → entry_in (form_of_entry e) (bytes_of_entry e) ≡ e }
{}

// An entry's bytes: the frame that was sent, the reply that came, or the parameter data of a request.
fn bytes_of_entry(entry: &Entry) -> &[u8]
    ensures { result.now ≡ bytes_of_entry entry.now }
{
    match entry {
        Entry::Refuse { call, .. } => bytes_of_call(call),
        Entry::Accept { request, .. } => request.param.as_slice(),
        Entry::Send { frame, .. } => frame.as_slice(),
        Entry::Came { event } => bytes_of_event(event),
        _ => &[],
    }
}

fn bytes_of_call(call: &Call) -> &[u8]
    ensures { result.now ≡ bytes_of_call call.now }
{
    match call {
        Call::Submit(request) => request.param.as_slice(),
        Call::Join(_) | Call::Discover(_) => &[],
    }
}

fn bytes_of_event(event: &LineEvent) -> &[u8]
    ensures { result.now ≡ bytes_of_event event.now }
{
    match event {
        LineEvent::Reply(reply) => reply.as_slice(),
        LineEvent::Failed => &[],
    }
}

// An entry without its bytes.
fn entry_for_c(entry: &Entry) -> EntryForC
    ensures { result ≡ form_of_entry entry.now }
{
    match entry {
        Entry::Join { client, places } => joined(*client, *places),
        Entry::Refuse {
            client,
            call,
            cause,
        } => with_call(call, with_caller(*client, refused(*cause))),
        Entry::Accept {
            client,
            number,
            request,
        } => with_request(request, with_client(*client, numbered(2, *number))),
        Entry::Ask {
            client,
            number,
            kind,
        } => asked(*client, *number, *kind),
        Entry::Send { owner, frame } => sent(*owner, frame.len()),
        Entry::Came { event } => with_event(event, plain(5)),
        Entry::Finish {
            number,
            status,
            len,
        } => finished(*number, *status, *len),
        Entry::Answer { number, run, fault } => answered(*number, *run, fault),
        Entry::Collect { client } => with_client(*client, plain(8)),
        Entry::Pause => plain(9),
        Entry::Resume => plain(10),
        Entry::Close => plain(11),
    }
}

// An entry of this kind without other fields.
fn plain(kind: u32) -> EntryForC
    ensures { result ≡ plain_entry kind }
{
    EntryForC {
        number: 0,
        run: 0,
        corrupt: 0,
        target: 0,
        len: 0,
        joined: 0,
        kind,
        call: 0,
        owner: 0,
        discovery: 0,
        status: 0,
        fault: 0,
        command_class: 0,
        sub_device: 0,
        pid: 0,
        client: 0,
        places: 0,
        cause: 0,
        has_client: false,
        has_failed: false,
    }
}

// The same with a number.
fn numbered(kind: u32, number: u64) -> EntryForC
    ensures { result ≡ record (plain_entry kind) { number = number } }
{
    let mut form = plain(kind);
    form.number = number;
    form
}

fn joined(client: ClientId, places: u8) -> EntryForC
    ensures { result ≡ record (entry_with_client client (plain_entry 0)) { places = places } }
{
    let mut form = with_client(client, plain(0));
    form.places = places;
    form
}

fn refused(cause: Cause) -> EntryForC
    ensures { result ≡ record (plain_entry 1) { cause = cause.0 } }
{
    let mut form = plain(1);
    form.cause = cause.0;
    form
}

fn asked(client: ClientId, number: u64, kind: Kind) -> EntryForC
    ensures { result ≡ entry_with_client client
        (record (plain_entry 3) { number = number; discovery = number_of_kind kind }) }
{
    let mut form = numbered(3, number);
    form.discovery = number_of_kind(kind);
    with_client(client, form)
}

fn sent(owner: Owner, len: usize) -> EntryForC
    ensures { result ≡ entry_with_owner owner (record (plain_entry 4) { len = len }) }
{
    let mut form = plain(4);
    form.len = len;
    with_owner(owner, form)
}

fn finished(number: u64, status: Status, len: usize) -> EntryForC
    ensures { result ≡ record (plain_entry 6) { number = number; joined = len; status = number_of_status status } }
{
    let mut form = numbered(6, number);
    form.joined = len;
    form.status = u32::from(status.number());
    form
}

fn answered(number: u64, run: u64, fault: &Option<AgentFault>) -> EntryForC
    ensures { result ≡ record (plain_entry 7) {
      number = number;
      run = run;
      corrupt = corrupt_uid fault.now;
      fault = number_of_fault fault.now;
    } }
{
    let mut form = numbered(7, number);
    form.run = run;
    form.corrupt = corrupt_uid(*fault);
    form.fault = number_of_fault(*fault);
    form
}

// The entry with a client.
fn with_client(client: ClientId, mut form: EntryForC) -> EntryForC
    ensures { result ≡ entry_with_client client form }
{
    form.client = client.0;
    form.has_client = true;
    form
}

// The entry with the client that called, if there is one.
fn with_caller(client: Option<ClientId>, form: EntryForC) -> EntryForC
    ensures { result ≡ entry_with_caller client form }
{
    match client {
        None => form,
        Some(client) => with_client(client, form),
    }
}

// The entry with a request without its parameter data.
fn with_request(request: &Request, mut form: EntryForC) -> EntryForC
    ensures { result ≡ entry_with_request request.now form }
{
    form.target = request.target.number();
    form.len = request.param.len();
    form.command_class = number_of_request(request.class);
    form.sub_device = request.sub_device;
    form.pid = request.pid;
    form
}

// The entry with the call that was refused.
fn with_call(call: &Call, mut form: EntryForC) -> EntryForC
    ensures { result ≡ entry_with_call call.now form }
{
    match call {
        Call::Join(places) => {
            form.call = 0;
            form.places = *places;
            form
        }
        Call::Submit(request) => {
            form.call = 1;
            with_request(request, form)
        }
        Call::Discover(kind) => {
            form.call = 2;
            form.discovery = number_of_kind(*kind);
            form
        }
    }
}

// The entry with the owner of its frame.
fn with_owner(owner: Owner, mut form: EntryForC) -> EntryForC
    ensures { result ≡ entry_with_owner owner form }
{
    match owner {
        Owner::Request(number) => {
            form.owner = 0;
            form.number = number;
        }
        Owner::Run(run) => {
            form.owner = 1;
            form.run = run;
        }
    }
    form
}

// The entry with what came, without its bytes.
fn with_event(event: &LineEvent, mut form: EntryForC) -> EntryForC
    ensures { result ≡ entry_with_event event.now form }
{
    match event {
        LineEvent::Reply(reply) => form.len = reply.len(),
        LineEvent::Failed => form.has_failed = true,
    }
    form
}

// The number of a kind of discovery: 0 full, 1 incremental.
fn number_of_kind(kind: Kind) -> u32
    ensures { result ≡ number_of_kind kind }
{
    match kind {
        Kind::Full => 0,
        Kind::Incremental => 1,
    }
}
