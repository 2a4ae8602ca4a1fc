//! What a sweep believes about the UIDs.
ghost use Rattle.std.specs.Prelude.{◌≡◌, ◌≤◌, ◌<◌, ◌^◌};
ghost use Rattle.rdm_wire.specs.Span.{Span};
ghost use Rattle.rdm_agent.specs.Beliefs.{first_belief, suspecting, begin_again, give_up, restarted, past_zero, ready};
ghost use Rattle.rdm_agent.specs.Beliefs.{spanning, fresh_range, question, with_lower, part_of};
ghost use Rattle.rdm_agent.specs.Beliefs.{fresh_silent, lower_silent, rest_silent, renewed, fresh_found, lower_found};
ghost use Rattle.rdm_agent.specs.Beliefs.{rest_found, all_found};
ghost use Rattle.rdm_agent.specs.Beliefs.{believed_silent, believed_found, above, part_silent, ask_end, end_silent};
ghost use Rattle.rdm_agent.specs.body.Sound.{IsSmall};

mod collisions;
mod gaps;
mod noise;
mod strays;

use rdm_wire::{Uid, UidRange};

/// How many UIDs there are.
const ALL_UIDS: u64 = 1 << 48;

/// The greatest UID's number.
const LAST_UID: u64 = ALL_UIDS - 1;

/// After this many silences in a row in a range that answered, all the rest of it is asked.
const BELIEVED: u8 = 3;

/// The last UID of a range is given up instead of beginning the range this often.
const BEGUN: u8 = 4;

/// By how much the width of the next range grows at most.
const MOST_GROWTH: u64 = 1 << 32;

/// By how much the noise level rises if a range that answered is then silent four times in a row.
const LEVEL_OF_A_RANGE: u8 = 16;

/// Which part of the UIDs a sweep asks.
#[derive(Clone, Copy, Debug, PartialEq, Eq)]
pub(crate) enum Part {
    /// One that wasn't swept, and as many UIDs below it.
    Fresh,
    /// The lower half of what is left of the range that answered.
    Lower,
    /// All that is left of the range that answered, after some silences.
    Rest,
    /// All of the range that answered.
    All,
    /// All of the gap, after a pass.
    Whole,
    /// The last UID of the range that answered, alone.
    End,
    /// A UID that was set apart, alone.
    Apart,
    /// A UID that was spelt in spite of its mutes, alone.
    Spelt,
}

/// Which UID a sweep asks alone for that UID's sake.
#[derive(Clone, Copy, Debug, PartialEq, Eq)]
pub(crate) enum Alone {
    /// None.
    No,
    /// The last one of the range that answered.
    End,
    /// One that was set apart.
    Apart,
    /// The one that was spelt last, in spite of its mutes.
    Spelt,
}

/// What a sweep asks: a part of the UIDs, and its range.
#[derive(Clone, Copy, Debug, PartialEq, Eq)]
pub(crate) struct Question {
    /// The part.
    pub(crate) part: Part,
    /// The range.
    pub(crate) range: UidRange,
}

/// What a sweep believes. On an honest line an answer is certain, and a silence may be a loss. So it remembers the
/// range that answered. On a noisy line it asks again before it believes a bad answer. No promise depends on this: it
/// decides only what the sweep asks.
#[derive(Clone, Copy, Debug, PartialEq, Eq)]
pub(crate) struct Belief {
    /// The UIDs below were given up in this pass.
    pub(crate) base: u64,
    /// The first UID of the range that answered.
    pub(crate) lo: u64,
    /// The first UID that wasn't swept.
    pub(crate) at: u64,
    /// The last UID of the range that answered, or the UID that was set apart and is asked.
    pub(crate) end: u64,
    /// How many devices that aren't found the range that answered has at least: 0 to 2. With 0 there is no such range.
    pub(crate) need: u8,
    /// How many UIDs the next fresh range has.
    pub(crate) width: u64,
    /// By how much the width grows after a silence.
    pub(crate) growth: u64,
    /// How many silences in a row there were in the range that answered, up to [`BELIEVED`].
    pub(crate) quiet: u8,
    /// How often the range that answered was begun again.
    pub(crate) begun: u8,
    /// How many UIDs below it a single UID is asked with.
    pub(crate) back: u64,
    /// The first UID of the gap that is searched: all UIDs, or those between two that were set apart.
    pub(crate) gap: u64,
    /// The last UID of the gap.
    pub(crate) top: u64,
    /// Which UID it asks alone.
    pub(crate) alone: Alone,
    /// Which of the UIDs that were set apart is asked, from 0, the newest.
    pub(crate) turn: u8,
    /// The UID that it muted last in vain.
    pub(crate) suspect: Option<Uid>,
    /// Whether nothing was found in this pass so far, and it isn't the first.
    pub(crate) found_nothing: bool,
    /// Whether all UIDs are asked again after a bad answer.
    pub(crate) again: bool,
    /// The noise level: 0 to 31. While it isn't 0, a range is asked again after a bad answer.
    pub(crate) level: u8,
    /// Whether a range is asked again after a bad answer: 0 if not, 1 if it is, and 2 after a silence.
    pub(crate) doubt: u8,
    /// The UID that a branch spelt last.
    pub(crate) spelt: Option<Uid>,
    /// How often in a row it was read: 2^20 at most.
    pub(crate) times: u32,
    /// The number of readings in a row at which it is looked at next: the first, the second, the fourth, the eighth ..
    pub(crate) due: u32,
    /// Whether any branch was silent.
    pub(crate) hushed: bool,
}

impl Belief {
    /// That of a sweep at its start.
    pub(crate) fn new() -> Belief
        ensures value { result ≡ first_belief }
        ensures small { IsSmall result }
    {
        Belief {
            base: 0,
            lo: 0,
            at: 0,
            end: LAST_UID,
            need: 0,
            width: ALL_UIDS,
            growth: 2,
            quiet: 0,
            begun: 0,
            back: 1,
            gap: 0,
            top: LAST_UID,
            alone: Alone::No,
            turn: 0,
            suspect: None,
            found_nothing: false,
            again: false,
            level: 0,
            doubt: 0,
            spelt: None,
            times: 0,
            due: 0,
            hushed: false,
        }
    }

    /// The same after this UID was muted in vain.
    pub(crate) fn suspecting(self, uid: Uid) -> Belief
        requires small { IsSmall self }
        ensures value { result ≡ suspecting uid self }
        ensures small { IsSmall result }
    {
        Belief {
            suspect: Some(uid),
            ..self
        }
    }

    /// What it asks next, once [`Belief::ready`].
    pub(crate) fn question(&self) -> Question
        requires small { IsSmall self.now }
        ensures value { result ≡ question self.now }
    {
        match self.alone {
            Alone::No => self.swept(),
            Alone::End => Question {
                part: Part::End,
                range: spanning(self.end, self.end),
            },
            Alone::Apart => {
                let uid = self.end.min(LAST_UID - 1);
                Question {
                    part: Part::Apart,
                    range: spanning(uid, uid),
                }
            }
            Alone::Spelt => {
                let uid = self.spelt_last();
                Question {
                    part: Part::Spelt,
                    range: spanning(uid, uid),
                }
            }
        }
    }

    /// The same, ready to ask: a range of which too little is left is begun again, and UID 0 alone is left out.
    pub(crate) fn ready(self) -> Belief
        requires small { IsSmall self }
        ensures value { result ≡ ready self }
        ensures small { IsSmall result }
    {
        self.restarted().past_zero()
    }

    /// The sweep continues above this range, which was silent four times in a row after it had answered. The next range
    /// is as wide as what answered.
    pub(crate) fn above(self, range: UidRange) -> Belief
        requires small { IsSmall self }
        ensures value { result ≡ above range self }
        ensures small { IsSmall result }
    {
        let next = range.hi.number() + 1;
        Belief {
            lo: next,
            at: next,
            need: 0,
            width: next.saturating_sub(self.lo).max(1),
            growth: 2,
            quiet: 0,
            begun: 0,
            alone: Alone::No,
            ..self.louder(LEVEL_OF_A_RANGE)
        }
    }

    /// After a silence. A UID that was asked because it was spelt isn't asked alone any more. If the range was asked
    /// again after a bad answer, only a second silence is believed.
    pub(crate) fn silent(self, asked: Question) -> Belief
        requires small { IsSmall self }
        ensures value { result ≡ believed_silent asked.part asked.range self }
        ensures small { IsSmall result }
    {
        if self.asks_spelt() {
            return self.unasked();
        }
        if self.doubt == 1 {
            return Belief { doubt: 2, ..self };
        }
        self.settled().part_silent(asked)
    }

    /// After a device was found. Nothing else answered in the range that was asked.
    pub(crate) fn found(&self, asked: Question) -> Belief
        requires small { IsSmall self.now }
        ensures value { result ≡ believed_found asked.part asked.range self.now }
        ensures small { IsSmall result }
    {
        let renewed = self.renewed();
        match asked.part {
            Part::Fresh => renewed.fresh_found(asked.range),
            Part::Lower => renewed.lower_found(asked.range),
            Part::Rest => renewed.rest_found(),
            Part::All => renewed.all_found(),
            Part::Whole => renewed,
            Part::End => Belief {
                alone: Alone::No,
                ..renewed.all_found()
            },
            Part::Apart => *self,
            Part::Spelt => renewed.unasked(),
        }
    }

    // After a silence that is believed.
    fn part_silent(self, asked: Question) -> Belief
        requires small { IsSmall self }
        ensures value { result ≡ part_silent asked.part asked.range self }
        ensures small { IsSmall result }
    {
        match asked.part {
            Part::Fresh => self.fresh_silent(asked.range),
            Part::Lower => self.lower_silent(asked.range),
            Part::Rest => self.rest_silent(),
            Part::All => self,
            Part::Whole => Belief {
                again: false,
                ..self
            },
            Part::End => self.end_silent(),
            Part::Apart | Part::Spelt => self,
        }
    }

    // One silence in the range that answered was a loss, so the range is swept again.
    fn begin_again(self) -> Belief
        requires small { IsSmall self }
        ensures value { result ≡ begin_again self }
        ensures small { IsSmall result }
    {
        Belief {
            at: self.lo,
            quiet: 0,
            begun: (self.begun + 1).min(BEGUN),
            ..self
        }
    }

    /// This UID is given up, since its range answers and can't be searched. If it was asked alone because it was spelt,
    /// it just isn't asked alone any more.
    pub(crate) fn give_up(self, uid: Uid) -> Belief
        requires small { IsSmall self }
        ensures value { result ≡ give_up uid self }
        ensures small { IsSmall result }
    {
        if self.asks_spelt() {
            return self.unasked();
        }
        let next = uid.number() + 1;
        Belief {
            base: next,
            lo: next,
            at: next,
            need: 0,
            width: 2,
            growth: 2,
            quiet: 0,
            begun: 0,
            alone: Alone::No,
            ..self
        }
    }

    // The last UID of the range that answered is asked alone.
    fn ask_end(self) -> Belief
        requires small { IsSmall self }
        ensures value { result ≡ ask_end self }
        ensures small { IsSmall result }
    {
        Belief {
            alone: Alone::End,
            quiet: 0,
            suspect: None,
            ..self
        }
    }

    // If only one UID is left of a range that has two devices, the range is begun again. The fourth time its last UID
    // is asked alone.
    fn restarted(self) -> Belief
        requires small { IsSmall self }
        ensures value { result ≡ restarted self }
        ensures small { IsSmall result }
    {
        if self.is_alone() || self.need != 2 || self.at <= self.lo || self.at < self.end {
            self
        } else if self.begun + 1 < BEGUN {
            self.begin_again()
        } else {
            self.ask_end()
        }
    }

    // UID 0 alone isn't asked, since no UID is below it.
    fn past_zero(self) -> Belief
        requires small { IsSmall self }
        ensures value { result ≡ past_zero self }
        ensures small { IsSmall result }
    {
        if self.question().range.hi.number() != 0 || self.top == 0 || self.is_alone() {
            return self;
        }
        Belief {
            base: 1,
            lo: 1,
            at: 1,
            need: self.need / 2,
            ..self
        }
    }

    // The part that is asked next, before the end of a pass.
    fn part(&self) -> Question
        requires small { IsSmall self.now }
        requires before { self.now.at < 2 ^ 48 }
        ensures value { result ≡ part_of self.now }
    {
        if self.need == 0 {
            return Question {
                part: Part::Fresh,
                range: self.fresh_range(),
            };
        }
        if self.need == 1 {
            return Question {
                part: Part::All,
                range: self.in_gap(self.lo, self.end),
            };
        }
        if self.lo < self.at && BELIEVED <= self.quiet {
            return Question {
                part: Part::Rest,
                range: self.in_gap(self.at, self.end),
            };
        }
        Question {
            part: Part::Lower,
            range: self.in_gap(self.at, self.at + self.end.saturating_sub(self.at) / 2),
        }
    }

    // The next range that wasn't swept. It looks back as far as ahead, so that a device that was missed there answers
    // now. The last one looks back to the start.
    fn fresh_range(&self) -> UidRange
        requires small { IsSmall self.now }
        ensures value { result ≡ fresh_range self.now }
    {
        let lo = if self.top < self.at + self.width {
            self.base
        } else {
            self.base.max(self.at.saturating_sub(self.width))
        };
        self.in_gap(lo, self.at + self.width.saturating_sub(1))
    }

    // One UID is asked together with UIDs below it, which were swept, because some may have been missed there. It is
    // asked alone if those below it were given up.
    fn with_lower(&self, asked: Question) -> Question
        ensures value { result ≡ with_lower self.now asked }
    {
        if asked.range.lo != asked.range.hi {
            return asked;
        }
        let number = asked.range.hi.number();
        Question {
            part: asked.part,
            range: spanning(self.base.max(number.saturating_sub(self.back)), number),
        }
    }

    // A fresh range was silent. The next one begins above it and is wider, the more so the more were silent.
    fn fresh_silent(self, range: UidRange) -> Belief
        requires small { IsSmall self }
        ensures value { result ≡ fresh_silent range self }
        ensures small { IsSmall result }
    {
        Belief {
            at: range.hi.number() + 1,
            width: self.width.saturating_mul(self.growth).min(ALL_UIDS),
            growth: self.growth.saturating_mul(self.growth).min(MOST_GROWTH),
            ..self
        }
    }

    // The last UID of the range that answered was silent alone. The second time in a row it is given up.
    fn end_silent(self) -> Belief
        requires small { IsSmall self }
        ensures value { result ≡ end_silent self }
        ensures small { IsSmall result }
    {
        if self.quiet == 0 {
            return Belief { quiet: 1, ..self };
        }
        self.give_up(Uid::from_number(self.end).unwrap())
    }

    // A lower half was silent: the devices are above it.
    fn lower_silent(self, range: UidRange) -> Belief
        requires small { IsSmall self }
        ensures value { result ≡ lower_silent range self }
        ensures small { IsSmall result }
    {
        Belief {
            at: range.hi.number() + 1,
            quiet: (self.quiet + 1).min(BELIEVED),
            ..self
        }
    }

    // All of the rest was silent: something was lost. From the second time on, and on a noisy line, it asks first
    // whether anything answers.
    fn rest_silent(self) -> Belief
        requires small { IsSmall self }
        ensures value { result ≡ rest_silent self }
        ensures small { IsSmall result }
    {
        Belief {
            need: if self.begun == 0 && self.level == 0 {
                self.need
            } else {
                1
            },
            ..self.begin_again()
        }
    }

    // What was counted since the last find begins at 0 again.
    fn renewed(&self) -> Belief
        requires small { IsSmall self.now }
        ensures value { result ≡ renewed self.now }
        ensures small { IsSmall result }
    {
        Belief {
            growth: 2,
            quiet: 0,
            begun: 0,
            back: 1,
            found_nothing: false,
            again: false,
            ..self.settled()
        }
    }

    // A device was found in a fresh range. The next one begins above it.
    fn fresh_found(self, range: UidRange) -> Belief
        requires small { IsSmall self }
        ensures value { result ≡ fresh_found range self }
        ensures small { IsSmall result }
    {
        let next = range.hi.number() + 1;
        Belief {
            lo: next,
            at: next,
            ..self
        }
    }

    // A device was found in a lower half. The range that answered has another one, above it if nothing was lost. The
    // next fresh range has the width of a find, or up to eight times that.
    fn lower_found(self, range: UidRange) -> Belief
        requires small { IsSmall self }
        ensures value { result ≡ lower_found range self }
        ensures small { IsSmall result }
    {
        let next = range.hi.number() + 1;
        let found = next.saturating_sub(self.at);
        Belief {
            lo: if self.at == self.lo { next } else { self.lo },
            at: next,
            need: 1,
            width: found.max((8 * found).min(self.width / 4 * 3)),
            ..self
        }
    }

    // A device was found in all the rest. The other one answers below, where a silence was a loss.
    fn rest_found(self) -> Belief
        requires small { IsSmall self }
        ensures value { result ≡ rest_found self }
        ensures small { IsSmall result }
    {
        Belief {
            at: self.lo,
            end: self.at.saturating_sub(1),
            need: 1,
            ..self
        }
    }

    // The last device of the range that answered was found.
    fn all_found(self) -> Belief
        requires small { IsSmall self }
        ensures value { result ≡ all_found self }
        ensures small { IsSmall result }
    {
        let next = self.end + 1;
        Belief {
            lo: next,
            at: next,
            need: 0,
            width: self.width.min(8 * next.saturating_sub(self.lo)),
            ..self
        }
    }
}

// The UIDs from `lo` to `hi`, up to the greatest UID; `hi` alone if `lo` is above it.
fn spanning(lo: u64, hi: u64) -> UidRange
    ensures { result ≡ spanning lo hi }
{
    let hi = hi.min(LAST_UID);
    UidRange {
        lo: Uid::from_number(lo.min(hi)).unwrap(),
        hi: Uid::from_number(hi).unwrap(),
    }
}
