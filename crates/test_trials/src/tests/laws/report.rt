//! What a client does and gets, if it shares its session with a worker.
//!
//! It looks at the devices. It asks for a full discovery, and submits a GET and a SET of parameters that the device
//! doesn't have. Once these have ended it looks again, and asks for an incremental discovery. Then it looks once more.
use crate::tests::*;
use rdm_client::Collected;
use rdm_join::ReplyHead;
use rdm_wire::{AckType, ReqClass, Request, RespClass};

/// How many exchanges are made before the incremental discovery, if the first device and the one that leaves are both
/// found.
pub const LEAVES: u64 = 36;

/// The tags of the full discovery, the GET, the SET and the incremental discovery.
pub const TAGS: [u64; 4] = [7, 8, 9, 10];

/// What a client got.
#[derive(Clone, Copy, Debug, PartialEq, Eq)]
pub struct Report {
    /// The devices that it saw, at first and after each discovery.
    pub seen: [ActResult; 3],
    /// Its discoveries' outcomes.
    pub found: [ActResult; 2],
    /// The tag and the reply's head of the GET and of the SET.
    pub replies: [Option<(u64, ReplyHead)>; 2],
}

impl Report {
    /// The report of a client that got nothing.
    pub fn new() -> Report {
        Report {
            seen: [Nothing; 3],
            found: [Nothing; 2],
            replies: [None; 2],
        }
    }
}

/// What the client gets if its discoveries find these devices.
pub fn report_of(first: Found, second: Found) -> Report {
    Report {
        seen: [Sees(0, Nobody), Sees(1, first), Sees(2, second)],
        found: [
            Discovery(TAGS[0], 1, Faultless, first),
            Discovery(TAGS[3], 2, Faultless, second),
        ],
        replies: [
            Some((TAGS[1], refusal(RespClass::Get, 0x0201, 0x0102))),
            Some((TAGS[2], refusal(RespClass::Set, 0x00f0, 0x01ff))),
        ],
    }
}

// The head of a device's refusal.
fn refusal(class: RespClass, pid: u16, sub_device: u16) -> ReplyHead {
    ReplyHead {
        ack: AckType::Nack,
        class,
        pid,
        sub_device,
    }
}

/// A GET of SENSOR_VALUE of sensor 3 of the sub-device 0102 of `1234:00000001`.
pub fn get() -> Request {
    let mut get = request(0);
    get.sub_device = 0x0102;
    get.pid = 0x0201;
    let _ = get.param.try_push(3);
    get
}

/// A SET of DMX_START_ADDRESS of its sub-device 01ff to 300.
pub fn set() -> Request {
    let mut set = request(0);
    set.sub_device = 0x01ff;
    set.class = ReqClass::Set;
    set.pid = 0x00f0;
    let _ = set.param.try_extend_from_slice(&[0x01, 0x2c]);
    set
}

/// The tag and the reply's head of a request whose parameter a device doesn't have. None: it is something else.
#[inline(never)]
pub fn reply_in(collected: &Option<Collected>) -> Option<(u64, ReplyHead)> {
    let Some(Collected::Request(told)) = collected else {
        return None;
    };
    if told.done.bytes.as_slice() != [0, 0].as_slice() {
        return None;
    }
    match &told.done.reply {
        Some(head) => Some((told.tag, *head)),
        None => None,
    }
}
