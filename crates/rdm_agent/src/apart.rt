//! The UIDs that a quick run sets apart, since they can't be read or muted.
ghost use Rattle.std.specs.Prelude.{◌≡◌, ◌∷◌, ◌≤◌, ◌<◌, ◌^◌, [], length, slice_get};
ghost use Rattle.rdm_wire.specs.Uid.{has};
ghost use Rattle.rdm_agent.specs.Apart.{without, has_room, past, up_to};

use crate::limits::MOST_APART;
use arrayvec::ArrayVec;
use rdm_wire::Uid;
use std::marker::Model;

/// The greatest UID's number.
const LAST_UID: u64 = (1 << 48) - 1;

/// UIDs that were set apart, the newest first. Contracts see the list of their numbers.
#[derive(Debug, Drop)]
pub(crate) struct UidsApart {
    uids: ArrayVec<Uid, MOST_APART>,
}

impl Model for UidsApart {
    ghost use Rattle.std.specs.Prelude.{List, ℕ};

    ghost Value = { List ℕ };

    ghost view = { λ s. s.uids.items };
}

impl UidsApart {
    /// None.
    pub(crate) fn new() -> UidsApart
        ensures { result ≡ [] }
    {
        UidsApart {
            uids: ArrayVec::new(),
        }
    }

    /// The UIDs.
    pub(crate) fn as_slice(&self) -> &[Uid]
        ensures value { result.now ≡ self.now }
        ensures fits { length result.now ≤ MOST_APART }
    {
        self.uids.as_slice()
    }

    /// How many there are.
    pub(crate) fn len(&self) -> usize
        ensures value { result ≡ length self.now }
        ensures fits { result ≤ MOST_APART }
    {
        self.uids.len()
    }

    /// Whether another one fits.
    pub(crate) fn has_room(&self) -> bool
        ensures { result ≡ has_room self.now }
    {
        self.uids.len() < MOST_APART
    }

    /// Whether this is one of them.
    pub(crate) fn contains(&self, uid: Uid) -> bool
        ensures { result ≡ has self.now uid }
    {
        self.uids.as_slice().contains(&uid)
    }

    /// Adds the newest one.
    pub(crate) fn add(&mut self, uid: Uid)
        requires { length self.old < MOST_APART }
        ensures { self.new ≡ uid ∷ self.old }
    {
        self.uids.insert(0, uid);
    }

    /// Removes this one.
    pub(crate) fn remove(&mut self, uid: Uid)
        ensures { self.new ≡ without uid self.old }
    {
        self.uids.retain(|other| *other != uid);
    }

    /// The same without this one.
    pub(crate) fn without(&self, uid: Uid) -> UidsApart
        ensures { result ≡ without uid self.now }
    {
        let mut others = UidsApart::new();
        others
            .uids
            .try_extend_from_slice(self.uids.as_slice())
            .unwrap();
        others.remove(uid);
        others
    }

    /// Removes all.
    pub(crate) fn clear(&mut self)
        ensures { self.new ≡ [] }
    {
        self.uids.clear();
    }

    /// The one whose turn it is, from 0; `None` if there is none.
    pub(crate) fn get(&self, turn: u8) -> Option<Uid>
        ensures { result ≡ slice_get self.now turn }
    {
        self.uids.as_slice().get(usize::from(turn)).copied()
    }

    /// The first UID from this one on that isn't set apart. Those above the gap are ascending.
    pub(crate) fn past(&self, from: u64) -> u64
        requires { from ≤ 2 ^ 48 }
        ensures value { result ≡ past from self.now }
        ensures in_range { result ≤ 2 ^ 48 }
    {
        let mut next = from;
        for uid in self.uids.as_slice() {
            if uid.number() == next {
                next += 1;
            }
        }
        next
    }

    /// The last UID before the first one above `lo` that is set apart. The greatest UID is in no gap.
    pub(crate) fn up_to(&self, lo: u64) -> u64
        ensures value { result ≡ up_to lo self.now }
        ensures in_range { result < 2 ^ 48 }
    {
        let mut top = LAST_UID - 1;
        for uid in self.uids.as_slice() {
            let number = uid.number();
            if lo < number && number <= top {
                top = number - 1;
            }
        }
        top
    }
}
