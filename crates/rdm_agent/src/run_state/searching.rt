//! How a run goes on after a reply in the steady search, which also follows a sweep that failed.
ghost use Rattle.std.specs.Prelude.{◌≡◌, ◌<◌, ◌≤◌};
ghost use Rattle.rdm_wire.specs.Span.{Span};
ghost use Rattle.rdm_wire.specs.Devices.{uids_of};
ghost use Rattle.rdm_wire.specs.Honest.Heard.{Noise};
ghost use Rattle.rdm_agent.specs.Machine.{split, search_below, search_silent, search_read, search_apart, spare_at};
ghost use Rattle.rdm_agent.specs.Machine.{is_soon, asks_again};
ghost use Rattle.rdm_agent.specs.Run.{heard_of_mute, heard_of_branch};
ghost use Rattle.rdm_agent.specs.body.Sound.{IsStack};
ghost use Rattle.rdm_agent.specs.body.GoesOn.{GoesOn, MovesTo, IsConsistent};

use crate::fault::AgentFault;
use crate::limits::{BAD_ANSWERS, BADS_BELIEVED, BRANCHES_BELIEVED, MOST_SPENT, TRIES};
use crate::phase::Phase;
use crate::run_state::{RunState, device_from, spare_of};
use crate::search::Search;
use rdm_wire::{BranchReply, MuteAck, Uid, UidRange};

impl RunState {
    // After a branch of the top range.
    pub(super) fn branched(
        &mut self,
        top: UidRange,
        silences: u8,
        bads: u8,
        spent: u8,
        reply: BranchReply,
    ) -> Phase
        requires { IsConsistent (Phase.Searching top silences bads spent) self.old }
        ensures { GoesOn (heard_of_branch reply) (Phase.Searching top silences bads spent) self.old result self.new }
    {
        let spent = (spent + 1).min(MOST_SPENT);
        match reply {
            BranchReply::Silent => self.silent(top, silences, spent),
            BranchReply::One(uid) => self.spelt(top, bads + 1, spent, uid),
            BranchReply::Collision => self.apart(top, bads + 1, spent),
        }
    }

    // The top range was silent once more, and had this many branches.
    fn silent(&mut self, top: UidRange, silences: u8, spent: u8) -> Phase
        requires stack { IsStack top self.old.below }
        requires counts { (silences < TRIES) × (spent ≤ 10) }
        ensures { MovesTo (search_silent silences spent top self.old.below) self.old result self.new }
    {
        match silences + 1 {
            TRIES => self.next_range(),
            silences => Phase::Searching {
                top,
                silences,
                bads: 0,
                spent,
            },
        }
    }

    // The top range spelt this UID after this many branches. A new one is muted, if it comes soon enough. Otherwise it
    // makes this many bad answers in a row.
    fn spelt(&mut self, top: UidRange, bads: u8, spent: u8, uid: Uid) -> Phase
        requires stack { IsStack top self.old.below }
        requires counts { (bads ≤ 8) × (spent ≤ 10) }
        ensures { MovesTo (search_read self.old.search (uids_of self.old.found) bads spent top self.old.below uid)
            self.old result self.new }
    {
        if self.is_new(uid, top) && is_soon(self.search, top, spent) {
            return Phase::MutingRead {
                uid,
                tries: 0,
                spare: spare_at(self.search, top, bads),
                bads,
                top,
            };
        }
        self.apart(top, bads, spent)
    }

    // The top range had this many bad answers in a row, and this many branches. It is asked again, or split.
    fn apart(&mut self, top: UidRange, bads: u8, spent: u8) -> Phase
        requires stack { IsStack top self.old.below }
        requires counts { (bads ≤ 8) × (spent ≤ 10) }
        ensures { MovesTo (search_apart self.old.search bads spent top self.old.below) self.old result self.new }
    {
        if asks_again(self.search, top, bads, spent) {
            return Phase::Searching {
                top,
                silences: 0,
                bads,
                spent,
            };
        }
        self.split(top)
    }

    // After the mute of a UID that a branch of the top range spelt.
    pub(super) fn read_muted(
        &mut self,
        uid: Uid,
        tries: u8,
        spare: u8,
        bads: u8,
        top: UidRange,
        ack: Option<MuteAck>,
    ) -> Phase
        requires { IsConsistent (Phase.MutingRead uid tries spare bads top) self.old }
        ensures { GoesOn (heard_of_mute ack) (Phase.MutingRead uid tries spare bads top) self.old result self.new }
    {
        if let Some(ack) = ack {
            let again = Phase::Searching {
                top,
                silences: 0,
                bads: 0,
                spent: 0,
            };
            return self.find(device_from(uid, ack), again);
        }
        match tries + 1 {
            TRIES => self.apart(top, bads, MOST_SPENT),
            tries => Phase::MutingRead {
                uid,
                tries,
                spare,
                bads,
                top,
            },
        }
    }

    // After bytes that aren't the acknowledgement of that mute.
    pub(super) fn read_garbled(
        &mut self,
        uid: Uid,
        tries: u8,
        spare: u8,
        bads: u8,
        top: UidRange,
    ) -> Phase
        requires { IsConsistent (Phase.MutingRead uid tries spare bads top) self.old }
        ensures { GoesOn Noise (Phase.MutingRead uid tries spare bads top) self.old result self.new }
    {
        if spare == 0 {
            return self.read_muted(uid, tries, spare, bads, top, None);
        }
        Phase::MutingRead {
            uid,
            tries,
            spare: spare - 1,
            bads,
            top,
        }
    }

    // The range below the top one is searched. If there is none, the run ends.
    fn next_range(&mut self) -> Phase
        requires { (top : Span) × IsStack top self.old.below }
        ensures { MovesTo (search_below self.old.below) self.old result self.new }
    {
        match self.below.pop() {
            Some(top) => fresh_search(top),
            None => Phase::Ended(None),
        }
    }

    // The halves of the top range are searched, the lower one first. A range of one UID has none.
    fn split(&mut self, top: UidRange) -> Phase
        requires { IsStack top self.old.below }
        ensures { MovesTo (split top self.old.below) self.old result self.new }
    {
        match top.halves() {
            Some((lower, upper)) => {
                self.below.push(upper);
                fresh_search(lower)
            }
            None => Phase::Ended(Some(AgentFault::Corrupt(top.lo))),
        }
    }
}

// The search of a range that is taken up.
fn fresh_search(top: UidRange) -> Phase
    ensures { result ≡ Phase.Searching top 0 0 0 }
{
    Phase::Searching {
        top,
        silences: 0,
        bads: 0,
        spent: 0,
    }
}

// The same for mutes of a UID that this range spelt, as this many bad answers in a row. The last one of one UID alone
// has none to spare.
fn spare_at(search: Search, top: UidRange, bads: u8) -> u8
    ensures { result ≡ spare_at search top bads }
{
    if top.lo == top.hi && bads >= BAD_ANSWERS {
        0
    } else {
        spare_of(search)
    }
}

// Whether a new UID that a branch of this range spelt is muted, after this many branches. A quick run does so up to the
// fifth branch, and always if one UID was asked alone.
fn is_soon(search: Search, top: UidRange, spent: u8) -> bool
    ensures { result ≡ is_soon search top spent }
{
    search == Search::Steady || top.lo == top.hi || spent <= BRANCHES_BELIEVED
}

// Whether a range that had so many bad answers in a row and so many branches is asked again.
fn asks_again(search: Search, top: UidRange, bads: u8, spent: u8) -> bool
    ensures { result ≡ asks_again search top bads spent }
{
    match search {
        Search::Steady => false,
        Search::Quick if top.lo == top.hi => bads < BAD_ANSWERS,
        Search::Quick => spent <= BRANCHES_BELIEVED && bads < BADS_BELIEVED,
    }
}
