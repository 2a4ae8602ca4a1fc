//! The checksum of packets and of replies to a branch.
ghost use Rattle.std.specs.Prelude.{◌≡◌, ◌≤◌, length};
ghost use Rattle.rdm_wire.specs.Bytes.{checksum as checksum_of};

use crate::frame::MOST_FRAME_BYTES;

/// The 16-bit sum of the bytes (E1.20, checksum).
// No packet is longer, so the sum fits 16 bits.
pub(crate) fn checksum(bytes: &[u8]) -> u16
    requires { length bytes.now ≤ MOST_FRAME_BYTES }
    ensures { result ≡ checksum_of bytes.now }
{
    bytes.iter().map(|byte| u16::from(*byte)).sum()
}
