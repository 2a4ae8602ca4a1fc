//! What a sweep believes after a collision.
ghost use Rattle.std.specs.Prelude.{◌≡◌, ◌≤◌, ◌<◌, ◌^◌};
ghost use Rattle.rdm_wire.specs.Span.{Span};
ghost use Rattle.rdm_agent.specs.Beliefs.{believed_apart, part_apart, fresh_apart, lower_apart, all_apart, next_pass};
ghost use Rattle.rdm_agent.specs.Beliefs.{split_at};
ghost use Rattle.rdm_agent.specs.body.Sound.{IsSmall};

use super::{ALL_UIDS, Belief, Part, Question};
use rdm_wire::UidRange;

/// With how many UIDs below it a single UID is asked at most.
const MOST_BACK: u64 = 1 << 46;

impl Belief {
    /// After a bad answer of what was asked, which had been silent this many times in a row. A UID that it has spelt
    /// too often is asked alone first.
    pub(crate) fn apart(self, asked: Question, silences: u8) -> Belief
        requires small { IsSmall self }
        ensures value { result ≡ believed_apart asked.part asked.range silences self }
        ensures small { IsSmall result }
    {
        let is_spelt_often = self.is_spelt_often(asked.range);
        let belief = self.part_apart(asked, silences);
        if is_spelt_often {
            return belief.asking_spelt();
        }
        belief
    }

    // The same, whichever UIDs were spelt. What was asked has two devices, but if noise is likely it is asked again
    // first.
    fn part_apart(self, asked: Question, silences: u8) -> Belief
        requires small { IsSmall self }
        ensures value { result ≡ part_apart asked.part asked.range silences self }
        ensures small { IsSmall result }
    {
        match asked.part {
            Part::All => self.all_apart(asked.range),
            Part::End | Part::Apart | Part::Spelt => self,
            Part::Whole if self.asks_whole_again(silences) => Belief {
                again: true,
                ..self
            },
            Part::Whole => self.next_pass(asked.range),
            _ if self.is_doubted() => Belief { doubt: 1, ..self },
            Part::Fresh => self.convinced().fresh_apart(asked.range),
            Part::Lower | Part::Rest => self.convinced().lower_apart(asked.range),
        }
    }

    // A fresh range collided.
    fn fresh_apart(&self, range: UidRange) -> Belief
        requires small { IsSmall self.now }
        ensures value { result ≡ fresh_apart range self.now }
        ensures small { IsSmall result }
    {
        self.split_at(self.at, 0, self.back, range)
    }

    // A lower half or all the rest collided. If UIDs below it were asked too, some were missed there: the next single
    // UID is asked with four times as many.
    fn lower_apart(&self, range: UidRange) -> Belief
        requires small { IsSmall self.now }
        ensures value { result ≡ lower_apart range self.now }
        ensures small { IsSmall result }
    {
        let lo = range.lo.number();
        let back = if lo < self.at {
            (4 * self.back).min(MOST_BACK)
        } else {
            self.back
        };
        self.split_at(lo, 0, back, range)
    }

    // All of the range that answered collided again.
    fn all_apart(&self, range: UidRange) -> Belief
        requires small { IsSmall self.now }
        ensures value { result ≡ all_apart range self.now }
        ensures small { IsSmall result }
    {
        let at = if range.hi.number() < self.at {
            range.lo.number()
        } else {
            self.at
        };
        self.split_at(at, self.begun, self.back, range)
    }

    // After a pass all of the gap collided: something was missed, and another pass begins.
    fn next_pass(&self, range: UidRange) -> Belief
        requires small { IsSmall self.now }
        ensures value { result ≡ next_pass range self.now }
        ensures small { IsSmall result }
    {
        Belief {
            base: self.gap,
            width: ALL_UIDS,
            suspect: None,
            found_nothing: true,
            again: false,
            ..self.split_at(self.gap, 0, self.back, range)
        }
    }

    // This range has two devices, and is searched from `at` on.
    fn split_at(&self, at: u64, begun: u8, back: u64, range: UidRange) -> Belief
        requires small { IsSmall self.now }
        requires at { at ≤ 2 ^ 48 }
        requires begun { begun ≤ 4 }
        requires back { back ≤ 2 ^ 46 }
        ensures value { result ≡ split_at at begun back range self.now }
        ensures small { IsSmall result }
    {
        Belief {
            lo: range.lo.number(),
            at,
            end: range.hi.number(),
            need: 2,
            growth: 2,
            quiet: 0,
            begun,
            back,
            ..*self
        }
    }
}
