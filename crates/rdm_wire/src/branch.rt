//! The reply of a device to a branch of the discovery tree.
ghost use Rattle.std.specs.Prelude.{◌≡◌, ◌↔◌, ◌≤◌, ◌*◌, ℕ, [], MatchOption, Some, None, length, ◌==◌};
ghost use Rattle.std.specs.List.{flat_map, prefix_len};
ghost use Rattle.arrayvec.specs.ArrayVec.{array_vec_len};
ghost use Rattle.rdm_wire.specs.BranchText.{BranchText, ReadsAs, branch_text, pair_of, ands as ands_of};
ghost use Rattle.rdm_wire.specs.Reading.{text_read, after_preamble as after_preamble_of, uid_of_coded};

use crate::checksum::checksum;
use crate::uid::Uid;
use arrayvec::ArrayVec;

/// What the bytes after a branch mean (E1.20, discovery unique branch).
#[derive(Clone, Copy, Debug, PartialEq, Eq)]
pub enum BranchReply {
    /// No bytes came.
    Silent,
    /// The bytes were the text of this UID.
    One(Uid),
    /// The bytes were others, such as those of several devices that reply at once.
    Collision,
}

/// How many preamble bytes a reply has at most (E1.20, discovery unique branch).
pub const LONGEST_PREAMBLE: u8 = 7;

/// How many bytes a device's reply has at most (E1.20, discovery unique branch): 24.
pub const LONGEST_BRANCH_REPLY: usize = LONGEST_PREAMBLE as usize
    + 1
    + ENCODED_UID_LEN
    + ENCODED_CHECKSUM_LEN;

const PREAMBLE: u8 = 0xfe;

const SEPARATOR: u8 = 0xaa;

// Each byte is sent twice, first with these bits set and then with the other bits set. The AND of the two is the byte.
const FIRST_SET: u8 = 0xaa;

const SECOND_SET: u8 = 0x55;

const ENCODED_UID_LEN: usize = 12;

const ENCODED_CHECKSUM_LEN: usize = 4;

/// What the bytes after a branch mean (E1.20, discovery unique branch). Bytes after a device's text are ignored.
pub fn read_branch_reply(bytes: &[u8]) -> BranchReply
    ensures one { (u : ℕ) → (result ≡ BranchReply.One u) ↔ BranchText bytes.now u }
    ensures silent { (result ≡ BranchReply.Silent) ↔ (bytes.now ≡ []) }
    ensures reads { ReadsAs bytes.now result }
{
    if bytes.is_empty() {
        return BranchReply::Silent;
    }
    match uid_of_text(bytes) {
        Some(uid) => BranchReply::One(uid),
        None => BranchReply::Collision,
    }
}

// The UID whose text the bytes are.
fn uid_of_text(bytes: &[u8]) -> Option<Uid>
    ensures { result ≡ text_read bytes.now }
{
    uid_of_encoded(after_preamble(bytes)?)
}

// What follows the preamble and the separator.
fn after_preamble(bytes: &[u8]) -> Option<&[u8]>
    ensures { MatchOption result (after_preamble_of LONGEST_PREAMBLE bytes.now ≡ None)
        (λ rest. after_preamble_of LONGEST_PREAMBLE bytes.now ≡ Some rest.now) }
{
    let preamble = preamble_len(bytes);
    if preamble > usize::from(LONGEST_PREAMBLE) {
        return None;
    }
    let (separator, rest) = bytes[preamble..].split_first()?;
    if *separator == SEPARATOR {
        Some(rest)
    } else {
        None
    }
}

// How many preamble bytes the bytes begin with.
fn preamble_len(bytes: &[u8]) -> usize
    ensures value { result ≡ prefix_len (λ byte. byte == 0xfe) bytes.now }
    ensures bound { result ≤ length bytes.now }
{
    bytes.iter().take_while(|byte| **byte == PREAMBLE).count()
}

// The UID that these bytes encode, if the checksum after it is the sum of its bytes as received.
fn uid_of_encoded(encoded: &[u8]) -> Option<Uid>
    ensures { result ≡ uid_of_coded encoded.now }
{
    let (encoded_uid, rest) = encoded.split_at_checked(ENCODED_UID_LEN)?;
    let (encoded_checksum, _) = rest.split_at_checked(ENCODED_CHECKSUM_LEN)?;
    let uid = Uid::from_bytes(ands::<6>(encoded_uid));
    let sent = u16::from_be_bytes(ands::<2>(encoded_checksum));
    let received = checksum(encoded_uid);
    if sent == received { Some(uid) } else { None }
}

// The AND of each pair.
fn ands<const N: usize>(pairs: &[u8]) -> [u8; N]
    requires { length pairs.now ≡ 2 * N }
    ensures { result ≡ ands_of pairs.now }
{
    let mut bytes = [0; N];
    'pairs: for i in 0..N {
        bytes[i] = pairs[2 * i] & pairs[2 * i + 1];
    }
    bytes
}

/// The reply of the device `uid` to a branch, after a preamble of 0 to [`LONGEST_PREAMBLE`] bytes (E1.20,
/// discovery unique branch).
pub fn write_branch_reply(uid: Uid, preamble: u8) -> ArrayVec<u8, LONGEST_BRANCH_REPLY>
    requires { preamble ≤ LONGEST_PREAMBLE }
    ensures text { result.items ≡ branch_text uid preamble }
    ensures reads { BranchText result.items uid }
{
    let encoded_uid = encoded(&uid.to_bytes());
    let encoded_checksum = encoded(&checksum(&encoded_uid).to_be_bytes());
    let mut reply = ArrayVec::new();
    'filling: for _ in 0..preamble {
        reply.push(PREAMBLE);
    }
    reply.push(SEPARATOR);
    reply.try_extend_from_slice(&encoded_uid).unwrap();
    reply.try_extend_from_slice(&encoded_checksum).unwrap();
    reply
}

// Each byte as its pair.
fn encoded(bytes: &[u8]) -> ArrayVec<u8, ENCODED_UID_LEN>
    requires { length bytes.now ≤ 6 }
    ensures items { result.items ≡ flat_map pair_of bytes.now }
    ensures len { array_vec_len result ≡ 2 * length bytes.now }
{
    let mut pairs = ArrayVec::new();
    for byte in bytes {
        pairs.push(*byte | FIRST_SET);
        pairs.push(*byte | SECOND_SET);
    }
    pairs
}
