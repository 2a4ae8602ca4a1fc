//! Intervals of UIDs.
ghost use Rattle.std.specs.Prelude.{◌≡◌, ◌≤◌, ◌<◌, ◌^◌, Some, None, if◌then◌else◌, ◌==◌, nat_le};
ghost use Rattle.rdm_wire.specs.Span.{whole, lower_half, upper_half};
ghost use Rattle.rdm_wire.specs.Uid.{is_within};

use crate::uid::Uid;
use std::marker::Model;

/// The UIDs from `lo` to `hi`, both included, and at least one: the range of a branch (E1.20, discovery unique
/// branch). Contracts see the two numbers.
///
/// The default, which fills the unused elements of an array, is UID 0 alone.
#[derive(Clone, Copy, Debug, Default, PartialEq, Eq)]
pub struct UidRange {
    /// The least.
    pub lo: Uid,
    /// The greatest: not below `lo`.
    pub hi: Uid,
}

impl Model for UidRange {
    ghost use Rattle.std.specs.Prelude.{◌≤◌};
    ghost use Rattle.rdm_wire.specs.Span.{Span};

    ghost Value = { Span };

    ghost view = { λ r. record { lo = r.lo; hi = r.hi } };

    ghost invariant = { λ r. r.lo ≤ r.hi };

    ghost inverse = { λ s. record { lo = s.lo; hi = s.hi } };
}

impl UidRange {
    /// The UIDs from `lo` to `hi`; `None` if `lo` is above `hi`.
    pub fn new(lo: Uid, hi: Uid) -> Option<UidRange>
        ensures { result ≡ (if nat_le lo hi then Some (record { lo = lo; hi = hi }) else None) }
    {
        if lo <= hi {
            Some(UidRange { lo, hi })
        } else {
            None
        }
    }

    /// All UIDs: 0 to 2^48 - 1.
    pub fn whole() -> UidRange
        ensures { result ≡ whole }
    {
        UidRange {
            lo: Uid::new(0, 0),
            hi: Uid::ALL,
        }
    }

    /// Whether `uid` is among them.
    pub fn contains(self, uid: Uid) -> bool
        ensures { result ≡ is_within self.lo self.hi uid }
    {
        self.lo <= uid && uid <= self.hi
    }

    /// The lower and the upper half: `lo` to `mid` and `mid + 1` to `hi`, with `mid = lo + (hi - lo) / 2`. `None` for
    /// a range of one UID.
    pub fn halves(self) -> Option<(UidRange, UidRange)>
        ensures value { result ≡ (if self.lo == self.hi then None else Some (lower_half self, upper_half self)) }
        ensures in_order { self.lo ≤ self.hi }
        ensures in_range { self.hi < 2 ^ 48 }
    {
        if self.lo == self.hi {
            return None;
        }
        let (lo, hi) = (self.lo.number(), self.hi.number());
        let middle = lo + (hi - lo) / 2;
        let below = Uid::from_number(middle).unwrap();
        let above = Uid::from_number(middle + 1).unwrap();
        Some((
            UidRange {
                lo: self.lo,
                hi: below,
            },
            UidRange {
                lo: above,
                hi: self.hi,
            },
        ))
    }
}
