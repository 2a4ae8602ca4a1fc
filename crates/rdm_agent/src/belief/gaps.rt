//! The gaps that a sweep searches: all UIDs, or those between UIDs that were set apart.
ghost use Rattle.std.specs.Prelude.{◌≡◌, ◌≤◌, ◌<◌, ◌^◌, ℕ};
ghost use Rattle.rdm_wire.specs.Span.{Span};
ghost use Rattle.rdm_agent.specs.Beliefs.{all_of, in_gap, swept, is_alone, end_answered};
ghost use Rattle.rdm_agent.specs.Apart.{all_again, ask_apart, ask_turn, enter_gap, gap_from, next_gap, set_apart};
ghost use Rattle.rdm_agent.specs.body.Sound.{IsSmall};

use super::{Alone, Belief, LAST_UID, Part, Question, spanning};
use crate::apart::UidsApart;
use rdm_wire::{Uid, UidRange};

impl Belief {
    /// All of the gap. Unless it is the whole range, it doesn't have the greatest UID.
    pub(crate) fn all_of(&self) -> UidRange
        ensures { result ≡ all_of self.now }
    {
        if self.top == LAST_UID {
            UidRange::whole()
        } else {
            spanning(self.gap, self.top.min(LAST_UID - 1))
        }
    }

    /// Whether it asks a UID alone for that UID's sake.
    pub(crate) fn is_alone(&self) -> bool
        ensures { result ≡ is_alone self.now.alone }
    {
        self.alone != Alone::No
    }

    /// The same after a UID was answered badly alone. The silences of the end of a range aren't in a row then.
    pub(crate) fn end_answered(self) -> Belief
        requires small { IsSmall self }
        ensures value { result ≡ end_answered self }
        ensures small { IsSmall result }
    {
        if self.is_alone() {
            return Belief { quiet: 0, ..self };
        }
        self
    }

    // The UIDs from `lo` to `hi`, up to the end of the gap.
    pub(super) fn in_gap(&self, lo: u64, hi: u64) -> UidRange
        ensures { result ≡ in_gap self.now lo hi }
    {
        spanning(lo, hi.min(self.top))
    }

    // What it asks in the gap.
    pub(super) fn swept(&self) -> Question
        requires small { IsSmall self.now }
        ensures value { result ≡ swept self.now }
    {
        if self.top < self.at {
            return Question {
                part: Part::Whole,
                range: self.all_of(),
            };
        }
        self.with_lower(self.part())
    }

    /// The same after this UID, the newest of these, was set apart. What is below it in its gap is searched first.
    pub(crate) fn set_apart(self, uid: Uid, apart: &UidsApart) -> Belief
        requires small { IsSmall self }
        ensures value { result ≡ set_apart uid apart.now self }
        ensures small { IsSmall result }
    {
        let number = uid.number();
        if number <= self.gap {
            return Belief { doubt: 0, ..self }.next_gap(number, apart);
        }
        Belief {
            lo: number,
            at: number,
            need: 0,
            quiet: 0,
            begun: 0,
            top: number - 1,
            alone: Alone::No,
            suspect: None,
            found_nothing: false,
            again: false,
            doubt: 0,
            ..self
        }
    }

    /// The next gap is searched, above this UID that was set apart. Above the last one each of these is asked alone.
    pub(crate) fn next_gap(self, number: u64, apart: &UidsApart) -> Belief
        requires small { IsSmall self }
        requires in_range { number ≤ 2 ^ 48 }
        ensures value { result ≡ next_gap number apart.now self }
        ensures small { IsSmall result }
    {
        let lo = apart.past(number);
        if LAST_UID <= lo {
            return self.ask_turn(0, apart);
        }
        self.enter_gap(lo, apart.up_to(lo))
    }

    /// The UID whose turn it is, of those that were set apart, is asked alone, or the newest one. If none is left all
    /// UIDs are asked.
    pub(crate) fn ask_turn(self, turn: u8, apart: &UidsApart) -> Belief
        requires small { IsSmall self }
        requires turn { turn ≤ 16 }
        ensures value { result ≡ ask_turn apart.now turn self }
        ensures small { IsSmall result }
    {
        if let Some(uid) = apart.get(turn) {
            self.ask_apart(turn, uid)
        } else if let Some(uid) = apart.get(0) {
            self.ask_apart(0, uid)
        } else {
            self.all_again()
        }
    }

    // The search of the gap with these UIDs begins.
    fn enter_gap(self, lo: u64, top: u64) -> Belief
        requires small { IsSmall self }
        requires in_range { (lo < 2 ^ 48) × (top < 2 ^ 48) }
        ensures value { result ≡ enter_gap lo top self }
        ensures small { IsSmall result }
    {
        Belief {
            base: lo,
            lo,
            at: lo,
            need: 0,
            width: 2,
            growth: 2,
            quiet: 0,
            begun: 0,
            back: 1,
            gap: lo,
            top,
            alone: Alone::No,
            suspect: None,
            found_nothing: false,
            again: false,
            ..self
        }
    }

    // This UID, whose turn it is, is asked alone.
    fn ask_apart(self, turn: u8, uid: Uid) -> Belief
        requires small { IsSmall self }
        requires turn { turn ≤ 16 }
        ensures value { result ≡ ask_apart turn uid self }
        ensures small { IsSmall result }
    {
        Belief {
            alone: Alone::Apart,
            turn,
            end: uid.number(),
            suspect: None,
            ..self
        }
    }

    // No UID is set apart any more, and all are asked.
    fn all_again(self) -> Belief
        requires small { IsSmall self }
        ensures value { result ≡ all_again self }
        ensures small { IsSmall result }
    {
        Belief {
            base: 0,
            lo: 0,
            at: LAST_UID + 1,
            need: 0,
            gap: 0,
            top: LAST_UID,
            alone: Alone::No,
            suspect: None,
            found_nothing: false,
            again: false,
            ..self
        }
    }
}
