//! A sweep: the part of a quick run that finds nearly all devices.
ghost use Rattle.std.specs.Prelude.{◌≡◌, ◌<◌, ◌≤◌, ◌^◌, ◌+◌};
ghost use Rattle.rdm_wire.specs.Span.{Span};
ghost use Rattle.rdm_agent.specs.Machine.{first_sweep, counted, sweep_suspecting, choose, asking};
ghost use Rattle.rdm_agent.specs.Beliefs.{is_whole, is_same};
ghost use Rattle.rdm_agent.specs.Machine.{counted_silent, counted_spelt, unassigned, is_asked_out};
ghost use Rattle.rdm_agent.specs.body.Sound.{IsSmall};

use crate::belief::{Belief, Part, Question};
use crate::limits::TRIES;
use rdm_wire::{Uid, UidRange};

/// A sweep that asks a question: what it remembers from exchange to exchange.
#[derive(Clone, Copy, Debug, PartialEq, Eq)]
pub(crate) struct Sweep {
    /// How many exchanges it has made.
    pub(crate) made: usize,
    /// How often in a row the range that it asks was silent: below [`TRIES`].
    pub(crate) silences: u8,
    /// How many bad answers in a row it had, if it asks one UID alone: below [`BAD_ANSWERS`].
    pub(crate) bads: u8,
    /// What it asks.
    pub(crate) question: Question,
    /// What it believes.
    pub(crate) belief: Belief,
}

impl Sweep {
    /// A sweep at its start, which asks all UIDs.
    pub(crate) fn new() -> Sweep
        ensures value { result ≡ first_sweep }
        ensures small { IsSmall result.belief }
    {
        Sweep {
            made: 0,
            silences: 0,
            bads: 0,
            question: Question {
                part: Part::Fresh,
                range: UidRange::whole(),
            },
            belief: Belief::new(),
        }
    }

    /// The sweep after one more exchange.
    pub(crate) fn counted(self) -> Sweep
        requires { self.made < 2 ^ 32 }
        ensures { result ≡ counted self }
    {
        Sweep {
            made: self.made + 1,
            ..self
        }
    }

    /// The sweep after one more branch, which was silent.
    pub(crate) fn counted_silent(self) -> Sweep
        requires made { self.made < 2 ^ 32 }
        requires small { IsSmall self.belief }
        ensures value { result ≡ counted_silent self }
        ensures small { IsSmall result.belief }
    {
        Sweep {
            made: self.made + 1,
            belief: self.belief.hushing(),
            ..self
        }
    }

    /// The sweep after one more branch, which spelt this UID.
    pub(crate) fn counted_spelt(self, uid: Uid) -> Sweep
        requires made { self.made < 2 ^ 32 }
        requires small { IsSmall self.belief }
        ensures value { result ≡ counted_spelt uid self }
        ensures small { IsSmall result.belief }
    {
        Sweep {
            made: self.made + 1,
            belief: self.belief.hearing(uid),
            ..self
        }
    }

    /// The sweep after it gives up this UID.
    pub(crate) fn suspecting(self, uid: Uid) -> Sweep
        requires small { IsSmall self.belief }
        ensures value { result ≡ sweep_suspecting uid self }
        ensures small { IsSmall result.belief }
    {
        Sweep {
            belief: self.belief.suspecting(uid),
            ..self
        }
    }

    /// A sweep with this belief chooses what it asks next, after this many silences or bad answers in a row of the
    /// range `last`.
    #[tactic(auto, unfolding(crate::specs::Machine::choose))]
    pub(crate) fn choose(
        made: usize,
        silences: u8,
        bads: u8,
        last: UidRange,
        belief: Belief,
    ) -> Sweep
        requires small { IsSmall belief }
        requires silences { silences < TRIES }
        requires bads { bads < 8 }
        ensures value { result ≡ choose made silences bads last belief }
        ensures small { IsSmall result.belief }
        ensures silences { result.silences < TRIES }
        ensures bads { result.bads < 8 }
        ensures made { result.made ≡ made }
    {
        let belief = belief.ready();
        let question = belief.question();
        if is_same(question.range, last) {
            Sweep::asking(made, silences, bads, question, belief)
        } else {
            Sweep::asking(made, 0, 0, question, belief)
        }
    }

    // A sweep that asks this, after this many silences or bad answers in a row. Only the gap and a UID that was set
    // apart are asked for a fifth silence: the sweep continues above any other range.
    fn asking(made: usize, again: u8, bads: u8, question: Question, belief: Belief) -> Sweep
        requires small { IsSmall belief }
        requires silences { again < TRIES }
        requires bads { bads < 8 }
        ensures value { result ≡ asking made again bads question belief }
        ensures small { IsSmall result.belief }
        ensures silences { result.silences < TRIES }
        ensures bads { result.bads < 8 }
        ensures made { result.made ≡ made }
    {
        if again + 1 == TRIES && !is_asked_out(&question, &belief) {
            let above = belief.above(question.range);
            return Sweep {
                made,
                silences: 0,
                bads: 0,
                question: above.question(),
                belief: above,
            };
        }
        Sweep {
            made,
            silences: again,
            bads,
            question,
            belief,
        }
    }
}

/// The range that no maker's device is in: the manufacturer `ffff` isn't assigned. It isn't `ffff:ffffffff` alone,
/// because bad answers of one UID alone are counted.
pub(crate) fn unassigned() -> UidRange
    ensures { result ≡ unassigned }
{
    UidRange {
        lo: Uid::from_number(0xffff_ffff_fffe).unwrap(),
        hi: Uid::ALL,
    }
}

// Whether a question is asked for a fifth silence in a row.
fn is_asked_out(question: &Question, belief: &Belief) -> bool
    ensures { result ≡ is_asked_out question.now belief.now }
{
    is_same(question.range, belief.all_of()) || question.part == Part::Apart
}

/// Whether a range is that of all UIDs.
pub(crate) fn is_whole(range: UidRange) -> bool
    ensures { result ≡ is_whole range }
{
    is_same(range, UidRange::whole())
}

// Whether two ranges are the same.
fn is_same(range: UidRange, other: UidRange) -> bool
    ensures { result ≡ is_same range other }
{
    range.lo == other.lo && range.hi == other.hi
}
