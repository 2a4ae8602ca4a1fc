//! How a sweep judges whether a bad answer is noise.
ghost use Rattle.std.specs.Prelude.{◌≡◌, ◌≤◌};
ghost use Rattle.rdm_agent.specs.Beliefs.{louder, settled, convinced, is_doubted, asks_whole_again, is_in_vain};
ghost use Rattle.rdm_agent.specs.body.Sound.{IsSmall};

use super::Belief;

/// The highest noise level.
const MOST_LEVEL: u8 = 31;

/// By how much the noise level rises after a bad answer that wasn't repeated.
const LEVEL_OF_AN_ANSWER: u8 = 4;

/// After this many silences in a row, a bad answer of all UIDs is likely to be noise.
const SILENCES_DOUBTED: u8 = 2;

impl Belief {
    /// The same with a noise level that is higher by this, up to its maximum.
    pub(crate) fn louder(self, by: u8) -> Belief
        requires small { IsSmall self }
        requires by { by ≤ 16 }
        ensures value { result ≡ louder by self }
        ensures small { IsSmall result }
    {
        Belief {
            level: (self.level + by).min(MOST_LEVEL),
            ..self
        }
    }

    /// The same if the bad answer that was asked again, if any, was noise.
    pub(crate) fn settled(self) -> Belief
        requires small { IsSmall self }
        ensures value { result ≡ settled self }
        ensures small { IsSmall result }
    {
        if self.doubt == 0 {
            return self;
        }
        Belief {
            doubt: 0,
            ..self.louder(LEVEL_OF_AN_ANSWER)
        }
    }

    /// The same if the bad answer that was asked again, if any, is believed.
    pub(crate) fn convinced(self) -> Belief
        requires small { IsSmall self }
        ensures value { result ≡ convinced self }
        ensures small { IsSmall result }
    {
        if self.doubt == 0 {
            return self;
        }
        Belief {
            doubt: 0,
            level: self.level.saturating_sub(1),
            ..self
        }
    }

    /// Whether a range that answered badly is asked again first.
    pub(crate) fn is_doubted(&self) -> bool
        ensures { result ≡ is_doubted self.now }
    {
        self.level > 0 && self.doubt == 0
    }

    /// Whether all UIDs, which were silent this many times in a row and then answered badly, are asked again first.
    pub(crate) fn asks_whole_again(&self, silences: u8) -> bool
        ensures { result ≡ asks_whole_again silences self.now }
    {
        !self.again && (self.level > 0 || self.found_nothing || silences >= SILENCES_DOUBTED)
    }

    /// Whether a pass found nothing, and all UIDs were asked again, too.
    pub(crate) fn is_in_vain(&self) -> bool
        ensures { result ≡ is_in_vain self.now }
    {
        self.found_nothing && self.again
    }
}
