//! Readers of single values.
ghost use Rattle.std.specs.Prelude.{◌≡◌};
ghost use Rattle.serde_json.specs.View.{view};
ghost use Rattle.rdm_files.specs.Forms.{Reads, IsWhole, IsUid, IsOwnUid, IsFourDigits, IsBytesText};

use crate::scene::fault::SceneFault;
use crate::scene::form::Form;
use arrayvec::ArrayVec;
use hex::{FromHex, FromHexError};
use rdm_wire::Uid;
use serde_json::Value;
use std::alloc::Global;

/// A whole number, `least` to `most`.
#[derive(Clone, Copy, Drop)]
pub(crate) struct Whole {
    pub(crate) least: u64,
    pub(crate) most: u64,
    pub(crate) expected: &'static str,
}

impl Form for Whole {
    type Out = u64;

    ghost says = { λ w d n. IsWhole w.least w.most d n };

    fn expected(&self) -> &'static str {
        self.expected
    }

    fn read(&self, _alloc: Global, value: &Value) -> Result<u64, SceneFault> {
        match value.as_u64() {
            Some(n) if self.least <= n && n <= self.most => Ok(n),
            _ => Err(SceneFault::at(value, self.expected)),
        }
    }
}

const EXPECTED_UID: &str = "a UID, such as 7a70:00000001";

/// A UID, which may be a broadcast one.
#[derive(Clone, Copy, Drop)]
pub(crate) struct AnyUid;

impl Form for AnyUid {
    type Out = Uid;

    ghost says = { λ _. IsUid };

    fn expected(&self) -> &'static str {
        EXPECTED_UID
    }

    fn read(&self, _alloc: Global, value: &Value) -> Result<Uid, SceneFault> {
        let Some(text) = value.as_str() else {
            return Err(SceneFault::at(value, EXPECTED_UID));
        };
        match Uid::parse(text) {
            Ok(uid) => Ok(uid),
            Err(_) => Err(SceneFault::at(value, EXPECTED_UID)),
        }
    }
}

/// A device's own UID.
#[derive(Clone, Copy, Drop)]
pub(crate) struct OwnUid;

impl Form for OwnUid {
    type Out = Uid;

    ghost says = { λ _. IsOwnUid };

    fn expected(&self) -> &'static str {
        EXPECTED_UID
    }

    fn read(&self, alloc: Global, value: &Value) -> Result<Uid, SceneFault> {
        match AnyUid.read(alloc, value) {
            Ok(uid) if uid.is_broadcast() => {
                Err(SceneFault::at(value, "a device's UID, not a broadcast one"))
            }
            Ok(uid) => Ok(uid),
            Err(fault) => Err(fault),
        }
    }
}

const EXPECTED_DIGITS: &str = "four hexadecimal digits";

/// Four hexadecimal digits.
#[derive(Clone, Copy, Drop)]
pub(crate) struct FourDigits;

impl Form for FourDigits {
    type Out = u16;

    ghost says = { λ _. IsFourDigits };

    fn expected(&self) -> &'static str {
        EXPECTED_DIGITS
    }

    fn read(&self, _alloc: Global, value: &Value) -> Result<u16, SceneFault> {
        let Some(text) = value.as_str() else {
            return Err(SceneFault::at(value, EXPECTED_DIGITS));
        };
        let Ok(bytes) = <[u8; 2]>::from_hex(text) else {
            return Err(SceneFault::at(value, EXPECTED_DIGITS));
        };
        let [high, low] = bytes;
        Ok(u16::from(high) << 8 | u16::from(low))
    }
}

/// At most `N` bytes as hexadecimal digits, `least` or more.
#[derive(Clone, Copy, Drop)]
pub(crate) struct Bytes<const N: usize> {
    pub(crate) least: usize,
    pub(crate) expected: &'static str,
}

impl<const N: usize> Form for Bytes<N> {
    type Out = ArrayVec<u8, N>;

    ghost says = { λ b d bytes. IsBytesText b.least N d bytes.items };

    fn expected(&self) -> &'static str {
        self.expected
    }

    fn read(&self, alloc: Global, value: &Value) -> Result<ArrayVec<u8, N>, SceneFault> {
        let Some(text) = value.as_str() else {
            return Err(SceneFault::at(value, self.expected));
        };
        let bytes = match hex::decode(alloc, text) {
            Ok(bytes) => bytes,
            Err(FromHexError::OutOfMemory) => return Err(SceneFault::NoMemory),
            Err(_) => return Err(SceneFault::at(value, self.expected)),
        };
        let mut read = ArrayVec::new();
        if bytes.len() < self.least || read.try_extend_from_slice(&bytes).is_err() {
            return Err(SceneFault::at(value, self.expected));
        }
        Ok(read)
    }
}
