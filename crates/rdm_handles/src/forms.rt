//! The structs that C and Rattle pass to each other. They hold numbers and flags.
use std::mem::size_of;

/// How a controller or a session is set up.
#[repr(C)]
#[derive(Clone, Copy)]
pub struct SetupForC {
    /// The controller's own UID, which isn't broadcast.
    pub source: u64,
    /// How many frames a discovery run may send, from 1.
    pub budget: u64,
    /// How its runs search: 0 steady, 1 quick.
    pub search: u32,
    /// The greatest sum of the clients' queue depths: 0 to 4,080.
    pub places: u16,
}

/// A request without its parameter data.
#[repr(C)]
#[derive(Clone, Copy)]
pub struct RequestForC {
    /// The device's UID, or a broadcast one.
    pub target: u64,
    /// 0 GET, 1 SET.
    pub command_class: u32,
    /// The sub-device: 0 is the root, `ffff` all of them.
    pub sub_device: u16,
    /// The parameter's identifier.
    pub pid: u16,
}

/// How a request ended, without its data.
#[repr(C)]
#[derive(Clone, Copy)]
pub struct CompletionForC {
    /// The request's number.
    pub number: u64,
    /// How many bytes of data there are.
    pub len: usize,
    /// How it ended: the number of its status, 0 to 18.
    pub status: u32,
    /// The last reply's type: 0 ACK, 1 ACK_TIMER, 2 NACK, 3 ACK_OVERFLOW; 0 if there is no head.
    pub ack: u32,
    /// The last reply's class: 0 discovery, 1 GET, 2 SET; 0 if there is no head.
    pub response_class: u32,
    /// The last reply's sub-device; 0 if there is no head.
    pub sub_device: u16,
    /// The last reply's parameter; 0 if there is no head.
    pub pid: u16,
    /// Whether there is a head: only with status 0.
    pub has_head: bool,
    /// Whether the answer may lack its first parts: such a GET broke off before, and none was answered whole since.
    pub may_be_incomplete: bool,
}

/// How a discovery ended, without its devices.
#[repr(C)]
#[derive(Clone, Copy)]
pub struct EndForC {
    /// The discovery's number.
    pub number: u64,
    /// The run that served it; 0 if none was begun for it.
    pub run: u64,
    /// The UID of fault 1; else 0.
    pub corrupt: u64,
    /// How many devices there are.
    pub count: usize,
    /// Why the run ended early: 0 it didn't, 1 to 5 the number of its fault.
    pub fault: u32,
}

/// A device, with its control field and its binding UID.
#[repr(C)]
#[derive(Clone, Copy)]
pub struct DeviceForC {
    /// Its UID.
    pub uid: u64,
    /// Its binding UID; 0 if it gave none.
    pub binding: u64,
    /// Its control field.
    pub control: u16,
    /// Whether it gave a binding UID.
    pub has_binding: bool,
}

/// A response without its parameter data.
#[repr(C)]
#[derive(Clone, Copy)]
pub struct ResponseForC {
    /// The device's UID.
    pub source: u64,
    /// The UID of the controller that it answers.
    pub dest: u64,
    /// How many bytes of parameter data there are.
    pub len: usize,
    /// 0 ACK, 1 ACK_TIMER, 2 NACK, 3 ACK_OVERFLOW.
    pub ack: u32,
    /// 0 discovery, 1 GET, 2 SET.
    pub response_class: u32,
    /// The sub-device.
    pub sub_device: u16,
    /// The parameter's identifier.
    pub pid: u16,
    /// The transaction number of the command that it answers.
    pub tn: u8,
    /// How many messages wait in the device's queue.
    pub count: u8,
}

/// A command without its parameter data. Fields that its kind doesn't have are 0.
#[repr(C)]
#[derive(Clone, Copy)]
pub struct CommandForC {
    /// The controller's UID.
    pub source: u64,
    /// The UID that a mute or a request goes to.
    pub target: u64,
    /// The lower bound of a branch.
    pub lo: u64,
    /// The upper bound of a branch.
    pub hi: u64,
    /// How many bytes of parameter data a request has.
    pub len: usize,
    /// 0 unmute, 1 branch, 2 mute, 3 request.
    pub kind: u32,
    /// A request's class: 0 GET, 1 SET.
    pub command_class: u32,
    /// A request's sub-device.
    pub sub_device: u16,
    /// A request's parameter.
    pub pid: u16,
    /// The transaction number.
    pub tn: u8,
}

/// The data with which a device acknowledges a mute.
#[repr(C)]
#[derive(Clone, Copy)]
pub struct MuteAckForC {
    /// Its binding UID; 0 if it gave none.
    pub binding: u64,
    /// Its control field.
    pub control: u16,
    /// Whether it gave a binding UID.
    pub has_binding: bool,
}

/// How a discovery run without a queue begins.
#[repr(C)]
#[derive(Clone, Copy)]
pub struct StartForC {
    /// The UID of the controller that sends the frames. It must not be broadcast.
    pub source: u64,
    /// How many exchanges the run may make.
    pub budget: u64,
    /// 0 full, 1 incremental.
    pub kind: u32,
    /// How it searches: 0 steady, 1 quick.
    pub search: u32,
    /// The transaction number of its first frame.
    pub tn: u8,
}

/// An entry of a log without its bytes. Fields that its kind doesn't have are 0.
#[repr(C)]
#[derive(Clone, Copy)]
pub struct EntryForC {
    /// The request's number, or the discovery's.
    pub number: u64,
    /// The number of the run that sent a frame, or that served a discovery; 0 if none was begun for it.
    pub run: u64,
    /// The UID of fault 1; else 0.
    pub corrupt: u64,
    /// A request's device, or a broadcast UID.
    pub target: u64,
    /// How many bytes there are: of a frame, a reply or a request's parameter data.
    pub len: usize,
    /// How many bytes the joined data of a finished request have.
    pub joined: usize,
    /// 0 Join, 1 Refuse, 2 Accept, 3 Ask, 4 Send, 5 Came, 6 Finish, 7 Answer, 8 Collect, 9 Pause, 10 Resume, 11 Close.
    pub kind: u32,
    /// What was refused: 0 a join, 1 a submit, 2 a discover.
    pub call: u32,
    /// The owner of a frame: 0 a request, 1 a run.
    pub owner: u32,
    /// What a discovery asks for: 0 full, 1 incremental.
    pub discovery: u32,
    /// How a request ended: the number of its status, 0 to 18.
    pub status: u32,
    /// Why a run ended early: 0 it didn't, 1 to 5 the number of its fault.
    pub fault: u32,
    /// A request's class: 0 GET, 1 SET.
    pub command_class: u32,
    /// A request's sub-device.
    pub sub_device: u16,
    /// A request's parameter.
    pub pid: u16,
    /// The client.
    pub client: u8,
    /// The queue depth of a client that joined or was refused.
    pub places: u8,
    /// Why a call was refused: the number of its fault, from 1.
    pub cause: u8,
    /// Whether there is a client.
    pub has_client: bool,
    /// Whether the line failed, in place of a reply.
    pub has_failed: bool,
}

// The sizes that the header states.
const _: () = prove!(size_of::<SetupForC>() == 24);

const _: () = prove!(size_of::<RequestForC>() == 16);

const _: () = prove!(size_of::<CompletionForC>() == 40);

const _: () = prove!(size_of::<EndForC>() == 40);

const _: () = prove!(size_of::<DeviceForC>() == 24);

const _: () = prove!(size_of::<ResponseForC>() == 40);

const _: () = prove!(size_of::<CommandForC>() == 56);

const _: () = prove!(size_of::<MuteAckForC>() == 16);

const _: () = prove!(size_of::<StartForC>() == 32);

const _: () = prove!(size_of::<EntryForC>() == 88);
