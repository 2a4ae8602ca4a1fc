//! The packets of discovery.
ghost use Rattle.std.specs.Prelude.{◌≡◌, ◌++◌, ℕ, List, false};
ghost use Rattle.rdm_wire.specs.Uid.{is_broadcast};
ghost use Rattle.rdm_wire.specs.Bytes.{uid_bytes};
ghost use Rattle.rdm_wire.specs.body.Header.{header_fields};
ghost use Rattle.rdm_wire.specs.Packet.{Packet};
ghost use Rattle.rdm_wire.specs.CommandFrames.{branch_frame, mute_frame, unmute_frame};
ghost use Rattle.rdm_wire.specs.CommandFrames.{discovery_fields, branch_fields, mute_fields, unmute_fields};

use crate::frame::{Frame, Header, NO_MESSAGES, PORT_ID, class};
use crate::uid::Uid;
use crate::uid_range::UidRange;

/// The parameter of a branch (E1.20, DISC_UNIQUE_BRANCH).
pub(crate) const DISC_UNIQUE_BRANCH: u16 = 0x0001;

/// The parameter of a mute (E1.20, DISC_MUTE).
pub(crate) const DISC_MUTE: u16 = 0x0002;

/// The parameter of an unmute (E1.20, DISC_UN_MUTE).
pub(crate) const DISC_UN_MUTE: u16 = 0x0003;

// Discovery addresses no sub-device.
const ROOT_DEVICE: u16 = 0;

/// The packet that asks each unmuted device in `range` for its UID (E1.20, discovery unique branch), from the
/// controller `source`, with the transaction number `tn`. It goes to all devices; its data are the two bounds.
pub fn encode_branch(range: UidRange, source: Uid, tn: u8) -> Frame
    ensures frame { result.items ≡ branch_frame range.lo range.hi source tn }
    ensures packet { Packet (branch_fields range.lo range.hi source tn) result.items }
{
    discovery_header(Uid::ALL, source, tn, DISC_UNIQUE_BRANCH).encode(&bounds_of(range))
}

/// The packet that mutes a device (E1.20, discovery mute), from the controller `source`, with the transaction number
/// `tn`. It has no data. `uid` must not be broadcast ([`Uid::is_broadcast`]).
pub fn encode_mute(uid: Uid, source: Uid, tn: u8) -> Frame
    requires { is_broadcast uid ≡ false }
    ensures frame { result.items ≡ mute_frame uid source tn }
    ensures packet { Packet (mute_fields uid source tn) result.items }
{
    discovery_header(uid, source, tn, DISC_MUTE).encode(&[])
}

/// The packet that unmutes all devices (E1.20, discovery un-mute), from the controller `source`, with the transaction
/// number `tn`. It has no data, and is not answered.
pub fn encode_unmute(source: Uid, tn: u8) -> Frame
    ensures frame { result.items ≡ unmute_frame source tn }
    ensures packet { Packet (unmute_fields source tn) result.items }
{
    discovery_header(Uid::ALL, source, tn, DISC_UN_MUTE).encode(&[])
}

// The header of a discovery command.
fn discovery_header(dest: Uid, source: Uid, tn: u8, pid: u16) -> Header
    ensures { (param : List ℕ) → header_fields result param ≡ discovery_fields dest pid param source tn }
{
    Header {
        dest,
        source,
        tn,
        port_or_type: PORT_ID,
        count: NO_MESSAGES,
        sub_device: ROOT_DEVICE,
        class: class::DISCOVERY_COMMAND,
        pid,
    }
}

// The two bounds of a branch, the lower one first.
fn bounds_of(range: UidRange) -> [u8; 12]
    ensures { result ≡ uid_bytes range.lo ++ uid_bytes range.hi }
{
    let [l0, l1, l2, l3, l4, l5] = range.lo.to_bytes();
    let [h0, h1, h2, h3, h4, h5] = range.hi.to_bytes();
    [l0, l1, l2, l3, l4, l5, h0, h1, h2, h3, h4, h5]
}
