//! How a sweep goes on after a reply.
ghost use Rattle.std.specs.Prelude.{◌≡◌, ◌<◌, ◌≤◌, ◌^◌, [], length, true};
ghost use Rattle.rdm_wire.specs.Devices.{uids_of};
ghost use Rattle.rdm_agent.specs.Machine.{sweep_on_after, sweep_on, sweep_split, sweep_silent, fifth_silence};
ghost use Rattle.rdm_agent.specs.Machine.{sweep_apart, badly_alone, asks_on, put_apart, found_belief};
ghost use Rattle.rdm_agent.specs.Machine.{is_wanted, is_stray, sweep_spelt, is_last_answer, spare_of_answer};
ghost use Rattle.rdm_agent.specs.Machine.{is_turn_over, put_aside, given_up, sweep_limit};
ghost use Rattle.rdm_wire.specs.Honest.Heard.{Noise};
ghost use Rattle.rdm_agent.specs.Run.{heard_of_mute, heard_of_branch};
ghost use Rattle.rdm_agent.specs.body.Sound.{IsSmall};
ghost use Rattle.rdm_agent.specs.body.GoesOn.{GoesOn, Moves, Follows, IsConsistent};

use crate::belief::{Belief, Part};
use crate::fault::AgentFault;
use crate::limits::{APART_FRAMES, BAD_ANSWERS, BADS_ASIDE, GARBLED_MUTES, SWEEP_FRAMES, TRIES};
use crate::phase::Phase;
use crate::run_state::{RunState, device_from, searching_all};
use crate::sweep::{Sweep, is_whole};
use rdm_wire::{BranchReply, MuteAck, Uid, UidRange};

impl RunState {
    // After a branch of a sweep.
    pub(super) fn swept(&mut self, sweep: Sweep, reply: BranchReply) -> Phase
        requires { IsConsistent (Phase.Sweeping sweep) self.old }
        ensures goes_on { GoesOn (heard_of_branch reply) (Phase.Sweeping sweep) self.old result self.new }
        ensures fresh { self.new.below ≡ [] }
    {
        match reply {
            BranchReply::Silent => self.sweep_silent(sweep.counted_silent()),
            BranchReply::One(uid) => self.sweep_spelt(sweep.counted_spelt(uid), uid),
            BranchReply::Collision => self.sweep_apart(sweep.counted()),
        }
    }

    // A sweep's branch spelt this UID.
    fn sweep_spelt(&mut self, sweep: Sweep, uid: Uid) -> Phase
        requires counts { (sweep.silences < TRIES) × (sweep.bads < 8) }
        requires small { IsSmall sweep.belief }
        requires made { sweep.made ≤ 2 ^ 20 }
        requires fresh { self.old.below ≡ [] }
        ensures { Moves (λ a. sweep_spelt a sweep uid) self.old result self.new }
    {
        if self.is_wanted(uid, &sweep) {
            return Phase::MutingSwept {
                uid,
                tries: 0,
                spare: spare_of_answer(&sweep),
                sweep,
            };
        }
        if self.is_stray(uid, &sweep) {
            return Phase::Checking {
                uid,
                silences: 0,
                sweep,
            };
        }
        self.sweep_apart(sweep)
    }

    // What a sweep asked was silent.
    fn sweep_silent(&mut self, sweep: Sweep) -> Phase
        requires counts { (sweep.silences < TRIES) × (sweep.bads < 8) }
        requires small { IsSmall sweep.belief }
        requires fresh { self.old.below ≡ [] }
        ensures { Moves (λ a. sweep_silent a sweep) self.old result self.new }
    {
        match sweep.silences + 1 {
            TRIES => self.fifth_silence(sweep),
            silences => {
                let belief = sweep.belief.silent(sweep.question);
                sweep_on(sweep, silences, 0, self.limit(), belief)
            }
        }
    }

    // What a sweep asked was silent for the fifth time in a row. The whole range ends the run, and above another gap
    // the next one is searched. A UID that was set apart isn't any more.
    fn fifth_silence(&mut self, sweep: Sweep) -> Phase
        requires small { IsSmall sweep.belief }
        requires fresh { self.old.below ≡ [] }
        ensures { Moves (λ a. fifth_silence sweep.question.part a sweep) self.old result self.new }
    {
        let asked = sweep.question;
        let belief = if asked.part == Part::Apart {
            self.apart.remove(asked.range.hi);
            sweep.belief.ask_turn(sweep.belief.turn, &self.apart)
        } else if is_whole(asked.range) {
            return Phase::Ended(None);
        } else {
            sweep.belief.next_gap(sweep.belief.top + 1, &self.apart)
        };
        sweep_on(sweep, 0, 0, self.limit(), belief)
    }

    // What a sweep asked was answered badly. A range of several UIDs collided.
    fn sweep_apart(&mut self, sweep: Sweep) -> Phase
        requires bads { sweep.bads < 8 }
        requires silences { sweep.silences < TRIES }
        requires small { IsSmall sweep.belief }
        requires fresh { self.old.below ≡ [] }
        ensures { Moves (λ a. sweep_apart a sweep) self.old result self.new }
    {
        let asked = sweep.question;
        if asked.range.lo == asked.range.hi {
            return self.badly_alone(sweep, sweep.bads + 1);
        }
        sweep_split(sweep, asked.range, 0, self.limit())
    }

    // One UID that a sweep asked alone answered badly this many times in a row. The last time ends the run.
    fn badly_alone(&mut self, sweep: Sweep, bads: u8) -> Phase
        requires bads { bads ≤ 8 }
        requires small { IsSmall sweep.belief }
        requires fresh { self.old.below ≡ [] }
        ensures { Moves (λ a. badly_alone a sweep bads) self.old result self.new }
    {
        if bads == BAD_ANSWERS {
            return Phase::Ended(Some(AgentFault::Corrupt(sweep.question.range.lo)));
        }
        self.asks_on(sweep, bads)
    }

    // It is asked again, or set apart. If it was set apart before, it may be another one's turn.
    fn asks_on(&mut self, sweep: Sweep, bads: u8) -> Phase
        requires bads { bads < 8 }
        requires small { IsSmall sweep.belief }
        requires fresh { self.old.below ≡ [] }
        ensures { Moves (λ a. asks_on sweep.question.part a sweep bads) self.old result self.new }
    {
        let belief = match sweep.question.part {
            Part::Apart if self.is_turn_over(&sweep, bads) => {
                sweep.belief.ask_turn(sweep.belief.turn + 1, &self.apart)
            }
            Part::Apart => sweep.belief,
            _ if bads == BADS_ASIDE => return self.put_apart(sweep),
            _ => sweep.belief.end_answered(),
        };
        sweep_on(sweep, 0, bads, self.limit(), belief)
    }

    // The UID that was asked alone is set apart. It is given up instead if no device has it, or if too many are set
    // apart.
    fn put_apart(&mut self, sweep: Sweep) -> Phase
        requires small { IsSmall sweep.belief }
        requires fresh { self.old.below ≡ [] }
        ensures { Moves (λ a. put_apart a sweep sweep.question.range.hi) self.old result self.new }
    {
        let asked = sweep.question;
        let uid = asked.range.hi;
        if uid.is_broadcast() {
            return self.given_up(sweep);
        }
        if !self.apart.has_room() {
            return self.put_aside(sweep);
        }
        self.apart.add(uid);
        let limit = self.limit();
        let belief = sweep.belief.set_apart(uid, &self.apart);
        sweep_on(sweep, 0, BADS_ASIDE, limit, belief)
    }

    // One more UID than can be set apart is given up.
    fn put_aside(&mut self, sweep: Sweep) -> Phase
        requires small { IsSmall sweep.belief }
        requires fresh { self.old.below ≡ [] }
        ensures { Moves (λ a. put_aside a sweep sweep.question.range.hi) self.old result self.new }
    {
        self.more = true;
        self.given_up(sweep)
    }

    // The UID that was asked alone is given up.
    fn given_up(&self, sweep: Sweep) -> Phase
        requires small { IsSmall sweep.belief }
        ensures { Follows (given_up (sweep_limit (length self.now.found) (length self.now.apart)) sweep
            sweep.question.range.hi) result }
    {
        let asked = sweep.question;
        let belief = sweep.belief.give_up(asked.range.hi);
        sweep_on(sweep, 0, BADS_ASIDE, self.limit(), belief)
    }

    // Whether a UID that was set apart was asked often enough.
    fn is_turn_over(&self, sweep: &Sweep, bads: u8) -> bool
        requires { bads < 8 }
        ensures value { result ≡ is_turn_over self.now.apart sweep.now bads }
        ensures next { result ≡ true → sweep.now.belief.turn < 16 }
    {
        bads + 1 == BAD_ANSWERS && usize::from(sweep.belief.turn) + 1 < self.apart.len()
    }

    // After the mute of a UID that a sweep's branch spelt.
    pub(super) fn swept_muted(
        &mut self,
        uid: Uid,
        tries: u8,
        spare: u8,
        sweep: Sweep,
        ack: Option<MuteAck>,
    ) -> Phase
        requires { IsConsistent (Phase.MutingSwept uid tries spare sweep) self.old }
        ensures goes_on { GoesOn (heard_of_mute ack) (Phase.MutingSwept uid tries spare sweep)
            self.old result self.new }
        ensures fresh { self.new.below ≡ [] }
    {
        let counted = sweep.counted();
        if let Some(ack) = ack {
            let belief = self.found_belief(uid, &sweep);
            let limit = sweep_limit(self.found.len() + 1, self.apart.len());
            let onward = sweep_on(counted, 0, 0, limit, belief);
            return self.find(device_from(uid, ack), onward);
        }
        match tries + 1 {
            TRIES => self.sweep_apart(counted.suspecting(uid)),
            tries => Phase::MutingSwept {
                uid,
                tries,
                spare,
                sweep: counted,
            },
        }
    }

    // After bytes that aren't the acknowledgement of that mute.
    pub(super) fn swept_garbled(&mut self, uid: Uid, tries: u8, spare: u8, sweep: Sweep) -> Phase
        requires { IsConsistent (Phase.MutingSwept uid tries spare sweep) self.old }
        ensures goes_on { GoesOn Noise (Phase.MutingSwept uid tries spare sweep) self.old result self.new }
        ensures fresh { self.new.below ≡ [] }
    {
        if spare == 0 {
            return self.swept_muted(uid, tries, spare, sweep, None);
        }
        Phase::MutingSwept {
            uid,
            tries,
            spare: spare - 1,
            sweep: sweep.counted(),
        }
    }

    // What a sweep believes after it found this UID. If that was set apart, it is another one's turn.
    fn found_belief(&self, uid: Uid, sweep: &Sweep) -> Belief
        requires small { IsSmall sweep.now.belief }
        ensures value { result ≡ found_belief sweep.now.question.part uid self.now.apart sweep.now }
        ensures small { IsSmall result }
    {
        if sweep.question.part == Part::Apart {
            let others = self.apart.without(uid);
            return sweep.belief.ask_turn(sweep.belief.turn, &others);
        }
        sweep.belief.found(sweep.question)
    }

    // Whether a UID that a sweep's branch spelt is muted.
    fn is_wanted(&self, uid: Uid, sweep: &Sweep) -> bool
        requires { sweep.now.bads < 8 }
        ensures wanted { result ≡ is_wanted (uids_of self.now.found) sweep.now uid }
    {
        self.is_new(uid, sweep.question.range)
            && (sweep.belief.suspect != Some(uid) || is_last_answer(sweep))
    }

    // Whether a UID that a sweep's branch spelt is checked: it isn't in the range that was asked, wasn't found, given
    // up or set apart, and is due. If one UID was asked alone, another one is a bad answer.
    fn is_stray(&self, uid: Uid, sweep: &Sweep) -> bool
        ensures { result ≡ is_stray (uids_of self.now.found) self.now.apart sweep.now uid }
    {
        let asked = sweep.question.range;
        (!uid.is_broadcast() && !asked.contains(uid))
            && (!self.found.contains(uid) && !self.apart.contains(uid))
            && sweep.belief.suspect != Some(uid)
            && (asked.lo != asked.hi && sweep.belief.is_due())
    }

    // The sweep's limit.
    pub(super) fn limit(&self) -> usize
        ensures value { result ≡ sweep_limit (length self.now.found) (length self.now.apart) }
        ensures small { result ≤ 2 ^ 20 }
    {
        sweep_limit(self.found.len(), self.apart.len())
    }
}

// The limit of a sweep that has found this many devices, and set this many UIDs apart.
pub(super) fn sweep_limit(found: usize, apart: usize) -> usize
    requires found { found ≤ 1025 }
    requires apart { apart ≤ 16 }
    ensures value { result ≡ sweep_limit found apart }
    ensures small { result ≤ 2 ^ 20 }
{
    SWEEP_FRAMES * (found + 2) + APART_FRAMES * apart.min(found + 2)
}

// A sweep goes on with this belief, after this many silences or bad answers in a row of the range `last`. At its limit
// the steady search begins.
pub(super) fn sweep_on_after(
    sweep: Sweep,
    last: UidRange,
    silences: u8,
    bads: u8,
    limit: usize,
    belief: Belief,
) -> Phase
    requires limit { limit ≤ 2 ^ 20 }
    requires silences { silences < TRIES }
    requires bads { bads < 8 }
    requires small { IsSmall belief }
    ensures { Follows (sweep_on_after sweep last silences bads limit belief) result }
{
    if sweep.made < limit {
        return Phase::Sweeping {
            sweep: Sweep::choose(sweep.made, silences, bads, last, belief),
        };
    }
    searching_all(if is_whole(last) { silences } else { 0 })
}

// The same after silences or bad answers of the range that it asked.
pub(super) fn sweep_on(sweep: Sweep, silences: u8, bads: u8, limit: usize, belief: Belief) -> Phase
    requires limit { limit ≤ 2 ^ 20 }
    requires silences { silences < TRIES }
    requires bads { bads < 8 }
    requires small { IsSmall belief }
    ensures { Follows (sweep_on sweep silences bads limit belief) result }
{
    let asked = sweep.question;
    sweep_on_after(sweep, asked.range, silences, bads, limit, belief)
}

// What a sweep asked collided. Then the range `last` was silent this many times in a row. If all UIDs collide after a
// pass that found nothing, and were asked again, too, the steady search begins.
pub(super) fn sweep_split(sweep: Sweep, last: UidRange, silences: u8, limit: usize) -> Phase
    requires limit { limit ≤ 2 ^ 20 }
    requires silences { silences < TRIES }
    requires small { IsSmall sweep.belief }
    ensures { Follows (sweep_split sweep last silences limit) result }
{
    let asked = sweep.question;
    if asked.part == Part::Whole && sweep.belief.is_in_vain() {
        return searching_all(0);
    }
    let belief = sweep.belief.apart(asked, sweep.silences);
    sweep_on_after(sweep, last, silences, 0, limit, belief)
}

// Whether a sweep asked a UID alone for the last time.
fn is_last_answer(sweep: &Sweep) -> bool
    requires { sweep.now.bads < 8 }
    ensures { result ≡ is_last_answer sweep.now }
{
    sweep.bads + 1 == BAD_ANSWERS
}

// How many garbled replies to the mutes of a UID that was just read needn't be counted as tries.
fn spare_of_answer(sweep: &Sweep) -> u8
    requires { sweep.now.bads < 8 }
    ensures { result ≡ spare_of_answer sweep.now }
{
    if is_last_answer(sweep) {
        0
    } else {
        GARBLED_MUTES
    }
}
