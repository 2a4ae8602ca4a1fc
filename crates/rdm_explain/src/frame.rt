//! What a frame asks, byte for byte.
ghost use Rattle.std.specs.Prelude.{◌≡◌, ◌≤◌, ◌++◌, ◌+◌, ℕ, List, length, true, false, bytes_eq, Some, IfNone, IfSome};
ghost use Rattle.rdm_wire.specs.Bytes.{number_at, uid_bytes, checksum as checksum_of};
ghost use Rattle.rdm_wire.specs.Packet.{packet, fields_at, header_of, body_of};
ghost use Rattle.rdm_wire.specs.CommandFrames.{discovery_fields, branch_frame};
ghost use Rattle.rdm_wire.specs.Frames.{asked_in, heard_in, heard_bytes, lower_bound, upper_bound};
ghost use Rattle.rdm_explain.specs.Exchanges.{asked_of};
ghost use Rattle.rdm_explain.specs.body.FrameTests.{is_branch_frame};

use crate::exchange::Asked;
use rdm_wire::{Frame, Uid};

// How many bytes precede the parameter data (E1.20, packet format).
const HEADER_LENGTH: usize = 24;

// How many bytes the shortest packet has.
const LEAST_FRAME_BYTES: usize = HEADER_LENGTH + 2;

// How many bytes of data a branch has: its two bounds.
const BOUNDS_LENGTH: usize = 12;

// Where the fields are that the reader needs (E1.20, packet format).
const DESTINATION: usize = 3;

const SOURCE: usize = 9;

const TRANSACTION_NUMBER: usize = 15;

const PDL: usize = 23;

// The parameters of a discovery (E1.20).
const DISC_UNIQUE_BRANCH: u8 = 1;

const DISC_MUTE: u8 = 2;

const DISC_UN_MUTE: u8 = 3;

/// What a frame asks, and by whom.
#[derive(Clone, Copy)]
pub(crate) struct Sent {
    /// What it asks.
    pub(crate) asked: Asked,
    /// The controller that sent it.
    pub(crate) source: Uid,
    /// Its transaction number.
    pub(crate) tn: u8,
}

/// What a frame asks. If it is shorter than any packet, it asks nothing, and its source is of no use.
pub(crate) fn read_frame(frame: &[u8]) -> Sent
    ensures asked { asked_of result.asked ≡ asked_in frame.now }
    ensures heard { (bytes : List ℕ) → heard_bytes result.source result.tn (asked_in frame.now) bytes
        ≡ heard_in frame.now (Some bytes) }
{
    if frame.len() < LEAST_FRAME_BYTES {
        return Sent {
            asked: Asked::Other,
            source: Uid::ALL,
            tn: 0,
        };
    }
    let source = uid_at(frame, SOURCE);
    let tn = frame[TRANSACTION_NUMBER];
    let asked = asked_by(frame, source, tn);
    Sent { asked, source, tn }
}

// What a frame with this source and transaction number asks.
fn asked_by(frame: &[u8], source: Uid, tn: u8) -> Asked
    requires long { 26 ≤ length frame.now }
    requires source { source ≡ (fields_at frame.now).source }
    requires tn { tn ≡ (fields_at frame.now).tn }
    ensures { asked_of result ≡ asked_in frame.now }
{
    let unmute = discovery_frame(Uid::ALL, source, tn, DISC_UN_MUTE, &[]);
    if frame == unmute.as_slice() {
        return Asked::Unmute;
    }
    if let Some((lo, hi)) = branch_in(frame, source, tn) {
        return Asked::Branch { lo, hi };
    }
    let target = uid_at(frame, DESTINATION);
    let mute = discovery_frame(target, source, tn, DISC_MUTE, &[]);
    if frame == mute.as_slice() {
        Asked::Mute(target)
    } else {
        Asked::Other
    }
}

// The bounds of a branch, if the frame is one, with this source and transaction number.
fn branch_in(frame: &[u8], source: Uid, tn: u8) -> Option<(Uid, Uid)>
    requires { 26 ≤ length frame.now }
    ensures none { IfNone result (is_branch_frame frame.now source tn ≡ false) }
    ensures some { IfSome result (λ bounds. is_branch_frame frame.now source tn ≡ true) }
    ensures lo { IfSome result (λ bounds. bounds.0 ≡ lower_bound (fields_at frame.now)) }
    ensures hi { IfSome result (λ bounds. bounds.1 ≡ upper_bound (fields_at frame.now)) }
{
    let Some((lo, hi)) = bounds_in(frame) else {
        return None;
    };
    let branch = discovery_frame(Uid::ALL, source, tn, DISC_UNIQUE_BRANCH, &bounds_of(lo, hi));
    if frame == branch.as_slice() {
        Some((lo, hi))
    } else {
        None
    }
}

// The bounds that a frame has if it is a branch. `None`: it is no branch.
fn bounds_in(frame: &[u8]) -> Option<(Uid, Uid)>
    requires { 26 ≤ length frame.now }
    ensures none { IfNone result ((lo hi source tn : ℕ) → bytes_eq frame.now (branch_frame lo hi source tn) ≡ false) }
    ensures lo { IfSome result (λ bounds. bounds.0 ≡ lower_bound (fields_at frame.now)) }
    ensures hi { IfSome result (λ bounds. bounds.1 ≡ upper_bound (fields_at frame.now)) }
{
    if frame.len() != LEAST_FRAME_BYTES + BOUNDS_LENGTH
        || usize::from(frame[PDL]) != BOUNDS_LENGTH
    {
        return None;
    }
    let bounds = &frame[HEADER_LENGTH..HEADER_LENGTH + BOUNDS_LENGTH];
    Some((uid_at(bounds, 0), uid_at(bounds, BOUNDS_LENGTH / 2)))
}

// The data of a branch: its two bounds.
fn bounds_of(lo: Uid, hi: Uid) -> [u8; BOUNDS_LENGTH]
    ensures { result ≡ uid_bytes lo ++ uid_bytes hi }
{
    let [l0, l1, l2, l3, l4, l5] = uid_bytes(lo);
    let [h0, h1, h2, h3, h4, h5] = uid_bytes(hi);
    [l0, l1, l2, l3, l4, l5, h0, h1, h2, h3, h4, h5]
}

// The packet of a discovery command with these data (E1.20, packet format).
fn discovery_frame(dest: Uid, source: Uid, tn: u8, pid: u8, param: &[u8]) -> Frame
    requires { length param.now ≤ 12 }
    ensures { result.items ≡ packet (discovery_fields dest pid param.now source tn) }
{
    let mut frame = Frame::new();
    frame
        .try_extend_from_slice(&header(dest, source, tn, pid, param.len() as u8))
        .unwrap();
    frame.try_extend_from_slice(param).unwrap();
    let sum = checksum(&frame);
    frame.try_extend_from_slice(&sum.to_be_bytes()).unwrap();
    frame
}

// The bytes before this many bytes of parameter data.
fn header(dest: Uid, source: Uid, tn: u8, pid: u8, pdl: u8) -> [u8; HEADER_LENGTH]
    requires { pdl ≤ 12 }
    ensures { (param : List ℕ) → length param ≡ pdl → result ≡ header_of (discovery_fields dest pid param source tn) }
{
    let [d0, d1, d2, d3, d4, d5] = uid_bytes(dest);
    let [s0, s1, s2, s3, s4, s5] = uid_bytes(source);
    [
        0xcc,
        0x01,
        HEADER_LENGTH as u8 + pdl,
        d0,
        d1,
        d2,
        d3,
        d4,
        d5,
        s0,
        s1,
        s2,
        s3,
        s4,
        s5,
        tn,
        1,
        0,
        0,
        0,
        0x10,
        0,
        pid,
        pdl,
    ]
}

// A UID's six bytes, the highest first.
fn uid_bytes(uid: Uid) -> [u8; 6]
    ensures { result ≡ uid_bytes uid }
{
    let [_, _, m0, m1, d0, d1, d2, d3] = uid.number().to_be_bytes();
    [m0, m1, d0, d1, d2, d3]
}

// The UID at an offset.
fn uid_at(bytes: &[u8], at: usize) -> Uid
    requires { at + 6 ≤ length bytes.now }
    ensures { result ≡ number_at at 6 bytes.now }
{
    let manufacturer = u16::from_be_bytes([bytes[at], bytes[at + 1]]);
    let device = u32::from_be_bytes([bytes[at + 2], bytes[at + 3], bytes[at + 4], bytes[at + 5]]);
    Uid::new(manufacturer, device)
}

// The 16-bit sum of the bytes (E1.20, checksum).
fn checksum(bytes: &[u8]) -> u16
    requires { length bytes.now ≤ 257 }
    ensures { result ≡ checksum_of bytes.now }
{
    bytes.iter().map(|byte| u16::from(*byte)).sum()
}
