//! The known UIDs that a run mutes, in order.
ghost use Rattle.std.specs.Prelude.{◌≡◌, ◌∷◌, [], MatchOption};
ghost use Rattle.rdm_wire.specs.Uid.{IsDeviceSet};
ghost use Rattle.rdm_agent.specs.Certificate.{known_of};

use crate::kind::Kind;
use rdm_wire::{Uid, UidSet};
use std::marker::Model;

/// The known UIDs that a run hasn't muted yet, in ascending order. Contracts see the list of their numbers.
#[derive(Debug, Drop)]
pub(crate) struct KnownLeft {
    uids: UidSet,
    used: usize,
}

impl Model for KnownLeft {
    ghost use Rattle.std.specs.Prelude.{List, ℕ, ◌≤◌, drop, length};
    ghost use Rattle.rdm_wire.specs.Uid.{IsDeviceSet};

    ghost Value = { List ℕ };

    ghost view = { λ k. drop k.used k.uids };

    ghost invariant = { λ k. IsDeviceSet k.uids × (k.used ≤ length k.uids) };
}

impl KnownLeft {
    /// The known UIDs that a run of this kind mutes first: none, or all.
    pub(crate) fn new(kind: Kind, known: &UidSet) -> KnownLeft
        ensures value { result ≡ known_of kind known.now }
        ensures devices { IsDeviceSet known.now }
    {
        // Only for the proof: a set's UIDs are devices'.
        let _devices = known.len();
        let uids = match kind {
            Kind::Full => UidSet::new(),
            Kind::Incremental => known.copied(),
        };
        KnownLeft { uids, used: 0 }
    }

    /// Becomes what [`KnownLeft::new`] returns. The cost grows with the number of UIDs that it had, and of known ones.
    pub(crate) fn reset(&mut self, kind: Kind, known: &UidSet)
        ensures value { self.new ≡ known_of kind known.now }
        ensures devices { IsDeviceSet known.now }
    {
        // Only for the proof: a set's UIDs are devices'.
        let _devices = known.len();
        self.used = 0;
        match kind {
            Kind::Full => self.uids.clear(),
            Kind::Incremental => self.uids.copy_from(known),
        }
    }

    /// Takes the least one; `None` if none is left.
    pub(crate) fn next(&mut self) -> Option<Uid>
        ensures { MatchOption result ((self.old ≡ []) × (self.new ≡ [])) (λ u. self.old ≡ u ∷ self.new) }
    {
        let uid = *self.uids.as_slice().get(self.used)?;
        self.used += 1;
        Some(uid)
    }
}
