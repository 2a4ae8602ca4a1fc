//! What a sweep remembers of the UIDs that its branches spelt. A device that breaks the rules may reply to branches of
//! ranges that it isn't in.
ghost use Rattle.std.specs.Prelude.{◌≡◌, ◌<◌, ◌^◌};
ghost use Rattle.rdm_wire.specs.Span.{Span};
ghost use Rattle.rdm_agent.specs.Beliefs.{hushing, hearing, spelt_again, is_due, is_checked_again, stray_found};
ghost use Rattle.rdm_agent.specs.Beliefs.{spelt_last, is_spelt_within, is_spelt_often, asking_spelt, asks_spelt};
ghost use Rattle.rdm_agent.specs.Beliefs.{unasked};
ghost use Rattle.rdm_agent.specs.body.Sound.{IsSmall};

use super::{Alone, Belief, LAST_UID};
use rdm_wire::{Uid, UidRange};

/// How many readings of a UID in a row are counted.
const MOST_TIMES: u32 = 1 << 20;

/// From this reading of a UID on, a silent check is made again.
const CHECKED_AGAIN: u32 = 8;

/// At this reading in a row a UID that is spelt in spite of its mutes is asked alone.
const READ_OFTEN: u32 = 4;

impl Belief {
    /// The same after a branch was silent.
    pub(crate) fn hushing(self) -> Belief
        requires small { IsSmall self }
        ensures value { result ≡ hushing self }
        ensures small { IsSmall result }
    {
        Belief {
            hushed: true,
            ..self
        }
    }

    /// The same after a branch spelt this UID.
    pub(crate) fn hearing(self, uid: Uid) -> Belief
        requires small { IsSmall self }
        ensures value { result ≡ hearing uid self }
        ensures small { IsSmall result }
    {
        if self.spelt == Some(uid) {
            return self.spelt_again();
        }
        Belief {
            spelt: Some(uid),
            times: 1,
            due: 1,
            alone: if self.asks_spelt() {
                Alone::No
            } else {
                self.alone
            },
            ..self
        }
    }

    /// Whether the UID that was spelt last is due. Its first reading counts only if no branch was silent so far.
    pub(crate) fn is_due(&self) -> bool
        ensures { result ≡ is_due self.now }
    {
        self.times == self.due && (self.times > 1 || !self.hushed)
    }

    /// Whether a check that was silent this many times is made again.
    pub(crate) fn is_checked_again(&self, silences: u8) -> bool
        ensures { result ≡ is_checked_again self.now silences }
    {
        silences == 0 && self.times >= CHECKED_AGAIN
    }

    /// The same after a device was found outside of the range that was asked.
    pub(crate) fn stray_found(self) -> Belief
        requires small { IsSmall self }
        ensures value { result ≡ stray_found self }
        ensures small { IsSmall result }
    {
        Belief {
            found_nothing: false,
            again: false,
            ..self.settled()
        }
    }

    /// Whether it asks the UID that was spelt last alone.
    pub(super) fn asks_spelt(&self) -> bool
        ensures { result ≡ asks_spelt self.now.alone }
    {
        self.alone == Alone::Spelt
    }

    /// The UID that was spelt last.
    pub(super) fn spelt_last(&self) -> u64
        ensures value { result ≡ spelt_last self.now.spelt }
        ensures in_range { result < 2 ^ 48 }
    {
        match self.spelt {
            Some(uid) => uid.number(),
            None => LAST_UID,
        }
    }

    /// Whether the UID that was spelt last is in this range, was read four times in a row, and wasn't asked alone for
    /// it yet.
    pub(super) fn is_spelt_often(&self, range: UidRange) -> bool
        ensures { result ≡ is_spelt_often range self.now }
    {
        self.times == READ_OFTEN && (self.due == READ_OFTEN && self.is_spelt_within(range))
    }

    // Whether the UID that was spelt last is in this range.
    fn is_spelt_within(&self, range: UidRange) -> bool
        ensures { result ≡ is_spelt_within self.now.spelt range }
    {
        match self.spelt {
            Some(uid) => range.contains(uid),
            None => false,
        }
    }

    /// The same if the UID that was spelt last is asked alone next.
    pub(super) fn asking_spelt(self) -> Belief
        requires small { IsSmall self }
        ensures value { result ≡ asking_spelt self }
        ensures small { IsSmall result }
    {
        Belief {
            alone: Alone::Spelt,
            due: 2 * READ_OFTEN,
            ..self
        }
    }

    /// The same if no UID is asked alone.
    pub(super) fn unasked(self) -> Belief
        requires small { IsSmall self }
        ensures value { result ≡ unasked self }
        ensures small { IsSmall result }
    {
        Belief {
            alone: Alone::No,
            ..self
        }
    }

    // The UID that was spelt last is read once more.
    fn spelt_again(self) -> Belief
        requires small { IsSmall self }
        ensures value { result ≡ spelt_again self }
        ensures small { IsSmall result }
    {
        Belief {
            times: (self.times + 1).min(MOST_TIMES),
            due: if self.times < self.due {
                self.due
            } else {
                2 * self.times
            },
            ..self
        }
    }
}
