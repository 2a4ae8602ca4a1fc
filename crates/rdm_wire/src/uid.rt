//! UIDs, which name the devices on a line.
ghost use Rattle.std.specs.Prelude.{◌≡◌, ◌≢◌, ◌↔◌, ◌+◌, ◌*◌, ◌<◌, ◌^◌, ℕ, List, Some, Ok, IsSome, IfSome, IsErrOf};
ghost use Rattle.std.specs.Prelude.{length, slice_index};
ghost use Rattle.hex.specs.Hex.{decode_of};
ghost use Rattle.rdm_wire.specs.Uid.{is_broadcast};
ghost use Rattle.rdm_wire.specs.Bytes.{number_of, uid_bytes};
ghost use Rattle.rdm_wire.specs.UidText.{UidText, ParsesUid, uid_text, colon};

use hex::FromHex;
use std::marker::Model;
use std::str::FromStr;
use std::{fmt, str};
use thiserror::Error;

/// A UID: 16 bits of manufacturer and 32 of device (E1.20, unique identifier). Contracts see it as its number,
/// `manufacturer * 2^32 + device`, by which UIDs are ordered.
#[derive(Clone, Copy, Debug, Default, PartialEq, Eq, PartialOrd, Ord, Hash)]
pub struct Uid {
    number: u64,
}

impl Model for Uid {
    ghost Value = { ℕ };

    ghost view = { λ u. u.number };

    ghost invariant = { λ u. u.number < 2 ^ 48 };

    ghost inverse = { λ n. record { number = n } };
}

// The bits of the device, all of which are set in a broadcast UID.
const DEVICE_BITS: u64 = 0xffff_ffff;

// How many bytes a text has.
const TEXT_LEN: usize = 13;

// What separates the manufacturer's digits from the device's.
const SEPARATOR: u8 = b':';

// The index of the separator, after the manufacturer's digits.
const SEPARATOR_AT: usize = 4;

/// Why a text is no UID, in the order in which it is tested.
#[derive(Clone, Copy, Debug, PartialEq, Eq, Error)]
pub enum UidFault {
    /// It doesn't have 13 bytes.
    #[error("a UID has 13 characters")]
    Length,
    /// Its fifth byte isn't a colon.
    #[error("a UID has a colon after its first four digits")]
    Separator,
    /// One of the other bytes is no hexadecimal digit.
    #[error("a UID has hexadecimal digits")]
    Digit,
}

impl Uid {
    /// Addresses every device (E1.20, broadcast): `ffff:ffffffff`.
    pub const ALL: Uid = Uid {
        number: 0xffff_ffff_ffff,
    };

    /// The UID of a manufacturer's device.
    pub fn new(manufacturer: u16, device: u32) -> Uid
        ensures { result ≡ manufacturer * 2 ^ 32 + device }
    {
        Uid {
            number: u64::from(manufacturer) << 32 | u64::from(device),
        }
    }

    /// The UID with this number; `None` for a number of 2^48 or more.
    pub fn from_number(number: u64) -> Option<Uid>
        ensures found { IsSome result ↔ (number < 2 ^ 48) }
        ensures value { IfSome result (λ u. u ≡ number) }
    {
        if number < 1 << 48 {
            Some(Uid { number })
        } else {
            None
        }
    }

    /// The manufacturer's 16 bits and then the device's 32: 0 to 2^48 - 1.
    pub fn number(self) -> u64
        ensures value { result ≡ self }
        ensures in_range { self < 2 ^ 48 }
    {
        self.number
    }

    /// Whether it addresses many devices, because all bits of its device part are set (E1.20, broadcast). No device has
    /// such a UID.
    pub fn is_broadcast(self) -> bool
        ensures { result ≡ is_broadcast self }
    {
        self.number & DEVICE_BITS == DEVICE_BITS
    }

    /// The UID that a text spells: four hexadecimal digits, a colon and eight hexadecimal digits, in either case. An
    /// error is the first fault that applies, in the order of [`UidFault`]. `from_str` returns the same.
    pub fn parse(text: &str) -> Result<Uid, UidFault>
        ensures ok { (u : ℕ) → (result ≡ Ok u) ↔ UidText text.now u }
        ensures length { IsErrOf result UidFault.Length ↔ (length text.now ≢ 13) }
        // Any other fault is that of the digits.
        ensures separator { IsErrOf result UidFault.Separator
            ↔ ((length text.now ≡ 13) × (slice_index text.now 4 ≢ colon)) }
    {
        let bytes = text.as_bytes();
        if bytes.len() != TEXT_LEN {
            return Err(UidFault::Length);
        }
        if bytes[SEPARATOR_AT] != SEPARATOR {
            return Err(UidFault::Separator);
        }
        let Some(manufacturer) = bytes_of_digits::<2>(&bytes[..SEPARATOR_AT]) else {
            return Err(UidFault::Digit);
        };
        let Some(device) = bytes_of_digits::<4>(&bytes[SEPARATOR_AT + 1..]) else {
            return Err(UidFault::Digit);
        };
        let [m0, m1] = manufacturer;
        let [d0, d1, d2, d3] = device;
        Ok(Uid::from_bytes([m0, m1, d0, d1, d2, d3]))
    }

    /// Its text in lower case, as `7a70:00000001`. `{}` writes the same.
    pub fn to_text(self) -> [u8; TEXT_LEN]
        ensures text { result ≡ uid_text self }
        ensures reads { UidText result self }
    {
        let bytes = self.to_bytes();
        let mut text = [SEPARATOR; TEXT_LEN];
        hex::encode_to_slice(&bytes[..2], &mut text[..SEPARATOR_AT]).unwrap();
        hex::encode_to_slice(&bytes[2..], &mut text[SEPARATOR_AT + 1..]).unwrap();
        text
    }

    /// The UID with these six bytes, the highest first.
    pub(crate) fn from_bytes(bytes: [u8; 6]) -> Uid
        ensures number { number_of bytes ≡ result }
        ensures bytes { uid_bytes result ≡ bytes }
        ensures in_range { result < 2 ^ 48 }
    {
        let [m0, m1, d0, d1, d2, d3] = bytes;
        Uid {
            number: u64::from_be_bytes([0, 0, m0, m1, d0, d1, d2, d3]),
        }
    }

    /// Its six bytes, the highest first.
    pub(crate) fn to_bytes(self) -> [u8; 6]
        ensures bytes { result ≡ uid_bytes self }
        ensures in_range { self < 2 ^ 48 }
    {
        let [_, _, m0, m1, d0, d1, d2, d3] = self.number.to_be_bytes();
        [m0, m1, d0, d1, d2, d3]
    }
}

impl fmt::Display for Uid {
    ghost output = { λ u. Some (uid_text u) };

    fn fmt<W: fmt::Write>(&self, f: &mut fmt::Formatter<W>) -> fmt::Result {
        let bytes = self.to_text();
        let Ok(text) = str::from_utf8(&bytes) else {
            unreachable!();
        };
        f.write_str(text)
    }
}

impl FromStr for Uid {
    type Err = UidFault;

    ghost from_str_gives = { ParsesUid };

    fn from_str(text: &str) -> Result<Uid, UidFault> {
        Uid::parse(text)
    }
}

// The bytes that hexadecimal digits spell.
fn bytes_of_digits<const N: usize>(digits: &[u8]) -> Option<[u8; N]>
    requires { length digits.now ≡ 2 * N }
    ensures value { (bytes : List ℕ) → (result ≡ Some bytes) ↔ (decode_of digits.now ≡ Ok bytes) }
    ensures len { IfSome result (λ bytes. length bytes ≡ N) }
{
    <[u8; N]>::from_hex(digits).ok()
}
