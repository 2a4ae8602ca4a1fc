//! How a run goes on after a reply.
ghost use Rattle.std.specs.Prelude.{◌≡◌, ◌<◌, ◌≤◌, ◌⊎◌, Some, [], true, false};
ghost use Rattle.std.specs.List.{AllByRecursion};
ghost use Rattle.rdm_wire.specs.Span.{Span, whole};
ghost use Rattle.rdm_wire.specs.Uid.{is_broadcast, IsDevice, IsDeviceSet};
ghost use Rattle.rdm_wire.specs.Devices.{uids_of};
ghost use Rattle.rdm_wire.specs.Honest.Heard.{Silent, Noise};
ghost use Rattle.rdm_agent.specs.Machine.{wanted, to_found, search_from, is_new, first_phase};
ghost use Rattle.rdm_agent.specs.Machine.{search_whole, spare_of};
ghost use Rattle.rdm_agent.specs.Certificate.{known_of};
ghost use Rattle.rdm_agent.specs.Run.{heard_by, heard_of_mute, device_from};
ghost use Rattle.rdm_agent.specs.Calls.{fits, op_of};
ghost use Rattle.rdm_agent.specs.declared.fault.AgentFault.TheVariants.{TooMany};
ghost use Rattle.rdm_agent.specs.body.AgentFields.{seen_phase, Steps};
ghost use Rattle.rdm_agent.specs.body.GoesOn.{GoesOn, MovesTo, Follows, IsConsistent};

mod searching;
mod straying;
mod sweeping;

use crate::apart::UidsApart;
use crate::fault::AgentFault;
use crate::kind::Kind;
use crate::known::KnownLeft;
use crate::limits::{GARBLED_MUTES, TRIES};
use crate::op::OpReply;
use crate::phase::Phase;
use crate::ranges::RangesBelow;
use crate::search::Search;
use crate::sweep::Sweep;
use rdm_wire::{Device, DeviceSet, MuteAck, Uid, UidRange, UidSet};

/// What a run has found, and what it still has to search.
#[derive(Debug, Drop)]
pub(crate) struct RunState {
    /// How the run searches.
    pub(crate) search: Search,
    /// The known UIDs that weren't muted yet.
    pub(crate) known: KnownLeft,
    /// The devices whose mute was acknowledged, each with the data of its first acknowledgement.
    pub(crate) found: DeviceSet,
    /// The open ranges but the top one.
    pub(crate) below: RangesBelow,
    /// The UIDs that are set apart.
    pub(crate) apart: UidsApart,
    /// Whether there were more.
    pub(crate) more: bool,
}

impl RunState {
    /// Becomes that of a run of this kind at its start: nothing is found, and the known UIDs are still to be muted.
    pub(crate) fn reset(&mut self, search: Search, kind: Kind, known: &UidSet)
        ensures search { self.new.search ≡ search }
        ensures known { self.new.known ≡ known_of kind known.now }
        ensures found { self.new.found ≡ [] }
        ensures below { self.new.below ≡ [] }
        ensures apart { self.new.apart ≡ [] }
        ensures more { self.new.more ≡ false }
        ensures devices { IsDeviceSet known.now }
    {
        self.search = search;
        self.known.reset(kind, known);
        self.found.clear();
        self.below.clear();
        self.apart.clear();
        self.more = false;
    }

    /// The phase after a reply that fits what the phase before it asks.
    pub(crate) fn heard(&mut self, phase: Phase, reply: OpReply) -> Phase
        requires fits { fits reply (op_of (wanted (seen_phase phase self.old))) ≡ true }
        requires consistent { IsConsistent phase self.old }
        ensures { GoesOn (heard_by reply) phase self.old result self.new }
    {
        match (phase, reply) {
            (_, OpReply::Failed) => Phase::Ended(Some(AgentFault::LineFailed)),
            (Phase::Unmuting { more }, OpReply::Done) => self.unmuted(more),
            (
                Phase::Searching {
                    top,
                    silences,
                    bads,
                    spent,
                },
                OpReply::Branch(reply),
            ) => self.branched(top, silences, bads, spent, reply),
            (Phase::Sweeping { sweep }, OpReply::Branch(reply)) => self.swept(sweep, reply),
            (
                Phase::Checking {
                    uid,
                    silences,
                    sweep,
                },
                OpReply::Branch(reply),
            ) => self.checked(uid, silences, sweep, reply),
            (phase, OpReply::Mute(ack)) => self.muted(phase, ack),
            (phase, OpReply::Garbled) => self.garbled(phase),
            _ => unreachable!(),
        }
    }

    // After a mute that was acknowledged like this, or silent.
    fn muted(&mut self, phase: Phase, ack: Option<MuteAck>) -> Phase
        requires fits { fits (OpReply.Mute ack) (op_of (wanted (seen_phase phase self.old))) ≡ true }
        requires consistent { IsConsistent phase self.old }
        ensures { GoesOn (heard_of_mute ack) phase self.old result self.new }
    {
        match phase {
            Phase::MutingKnown { uid, tries, spare } => self.known_muted(uid, tries, spare, ack),
            Phase::MutingRead {
                uid,
                tries,
                spare,
                bads,
                top,
            } => self.read_muted(uid, tries, spare, bads, top, ack),
            Phase::MutingSwept {
                uid,
                tries,
                spare,
                sweep,
            } => self.swept_muted(uid, tries, spare, sweep, ack),
            Phase::MutingStray {
                uid,
                tries,
                spare,
                sweep,
            } => self.stray_muted(uid, tries, spare, sweep, ack),
            _ => unreachable!(),
        }
    }

    // After bytes that aren't the acknowledgement of a mute. They are counted as silence, unless the series of mutes
    // has garbled replies to spare.
    fn garbled(&mut self, phase: Phase) -> Phase
        requires fits { fits OpReply.Garbled (op_of (wanted (seen_phase phase self.old))) ≡ true }
        requires consistent { IsConsistent phase self.old }
        ensures { GoesOn Noise phase self.old result self.new }
    {
        match phase {
            Phase::MutingKnown { uid, tries, spare } => self.known_garbled(uid, tries, spare),
            Phase::MutingRead {
                uid,
                tries,
                spare,
                bads,
                top,
            } => self.read_garbled(uid, tries, spare, bads, top),
            Phase::MutingSwept {
                uid,
                tries,
                spare,
                sweep,
            } => self.swept_garbled(uid, tries, spare, sweep),
            Phase::MutingStray {
                uid,
                tries,
                spare,
                sweep,
            } => self.stray_garbled(uid, tries, spare, sweep),
            _ => unreachable!(),
        }
    }

    // After an unmute.
    fn unmuted(&mut self, more: u8) -> Phase
        requires { IsConsistent (Phase.Unmuting more) self.old }
        ensures goes_on { GoesOn Silent (Phase.Unmuting more) self.old result self.new }
        ensures fresh { self.new.below ≡ [] }
    {
        if more > 1 {
            Phase::Unmuting { more: more - 1 }
        } else {
            self.next_known()
        }
    }

    // The next known UID is muted. If none is left, the search begins.
    fn next_known(&mut self) -> Phase
        requires devices { AllByRecursion IsDevice self.old.known }
        requires fresh { self.old.below ≡ [] }
        ensures moves { MovesTo (search_from self.old.search self.old.known) self.old result self.new }
        ensures fresh { self.new.below ≡ [] }
    {
        match self.known.next() {
            Some(uid) => Phase::MutingKnown {
                uid,
                tries: 0,
                spare: spare_of(self.search),
            },
            None => self.first_phase(),
        }
    }

    // The search begins; a quick one sweeps first.
    fn first_phase(&self) -> Phase
        ensures { Follows (first_phase self.now.search) result }
    {
        match self.search {
            Search::Steady => searching_all(0),
            Search::Quick => Phase::Sweeping {
                sweep: Sweep::new(),
            },
        }
    }

    // After the mute of a known UID.
    fn known_muted(&mut self, uid: Uid, tries: u8, spare: u8, ack: Option<MuteAck>) -> Phase
        requires { IsConsistent (Phase.MutingKnown uid tries spare) self.old }
        ensures goes_on { GoesOn (heard_of_mute ack) (Phase.MutingKnown uid tries spare) self.old result self.new }
        ensures fresh { self.new.below ≡ [] }
    {
        if let Some(ack) = ack {
            let onward = self.next_known();
            return self.find(device_from(uid, ack), onward);
        }
        match tries + 1 {
            TRIES => self.next_known(),
            tries => Phase::MutingKnown { uid, tries, spare },
        }
    }

    // After bytes that aren't the acknowledgement of that mute.
    fn known_garbled(&mut self, uid: Uid, tries: u8, spare: u8) -> Phase
        requires { IsConsistent (Phase.MutingKnown uid tries spare) self.old }
        ensures goes_on { GoesOn Noise (Phase.MutingKnown uid tries spare) self.old result self.new }
        ensures fresh { self.new.below ≡ [] }
    {
        if spare == 0 {
            return self.known_muted(uid, tries, spare, None);
        }
        Phase::MutingKnown {
            uid,
            tries,
            spare: spare - 1,
        }
    }

    // A device is found, and the run goes on. If the set is full, the run ends.
    fn find(&mut self, device: Device, onward: Phase) -> Phase
        requires { is_broadcast device.uid ≡ false }
        ensures state { Steps (λ a. to_found a device (seen_phase onward self.old)) onward self.old result self.new }
        ensures known { self.new.known ≡ self.old.known }
        ensures below { self.new.below ≡ self.old.below }
        ensures onward { (result ≡ onward) ⊎ (result ≡ Phase.Ended (Some TooMany)) }
    {
        let uid = device.uid;
        let Ok(is_new) = self.found.insert(device) else {
            return Phase::Ended(Some(AgentFault::TooMany));
        };
        if is_new {
            self.apart.remove(uid);
        }
        onward
    }

    // Whether a UID may be that of a device of the range that wasn't found yet.
    fn is_new(&self, uid: Uid, top: UidRange) -> bool
        ensures { result ≡ is_new (uids_of self.now.found) top uid }
    {
        !uid.is_broadcast() && top.contains(uid) && !self.found.contains(uid)
    }
}

// The search of the whole range, which was silent this many times.
fn searching_all(silences: u8) -> Phase
    requires { silences < TRIES }
    ensures { Follows (search_whole silences) result }
{
    Phase::Searching {
        top: UidRange::whole(),
        silences,
        bads: 0,
        spent: silences,
    }
}

// How many garbled replies to a series of mutes a run with this search needn't count as tries.
fn spare_of(search: Search) -> u8
    ensures { result ≡ spare_of search }
{
    match search {
        Search::Steady => 0,
        Search::Quick => GARBLED_MUTES,
    }
}

// The device with the data of the acknowledgement of its mute.
fn device_from(uid: Uid, ack: MuteAck) -> Device
    ensures { result ≡ device_from uid ack }
{
    Device {
        uid,
        control: ack.control,
        binding: ack.binding,
    }
}
