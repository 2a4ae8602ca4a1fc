//! How a sweep goes on after a UID was spelt by a range that it isn't in.
ghost use Rattle.std.specs.Prelude.{◌≡◌, ◌<◌, ◌≤◌, ◌+◌, ◌^◌, [], false};
ghost use Rattle.rdm_wire.specs.Uid.{is_broadcast};
ghost use Rattle.rdm_wire.specs.Honest.Heard.{Noise};
ghost use Rattle.rdm_agent.specs.Machine.{check_silent, check_spelt};
ghost use Rattle.rdm_agent.specs.Run.{heard_of_mute, heard_of_branch};
ghost use Rattle.rdm_agent.specs.body.Sound.{IsSmall};
ghost use Rattle.rdm_agent.specs.body.GoesOn.{GoesOn, Follows, IsConsistent};

use super::sweeping::{sweep_limit, sweep_on, sweep_split};
use crate::limits::{GARBLED_MUTES, TRIES};
use crate::phase::Phase;
use crate::run_state::{RunState, device_from};
use crate::sweep::{Sweep, unassigned};
use rdm_wire::{BranchReply, MuteAck, Uid};

impl RunState {
    // After a branch of the range without devices. If this UID answers it, the UID answers for others, and is muted.
    pub(super) fn checked(
        &mut self,
        uid: Uid,
        silences: u8,
        sweep: Sweep,
        reply: BranchReply,
    ) -> Phase
        requires { IsConsistent (Phase.Checking uid silences sweep) self.old }
        ensures goes_on { GoesOn (heard_of_branch reply) (Phase.Checking uid silences sweep) self.old result self.new }
        ensures fresh { self.new.below ≡ [] }
    {
        let limit = self.limit();
        match reply {
            BranchReply::Silent => check_silent(uid, silences, sweep.counted_silent(), limit),
            BranchReply::One(other) => check_spelt(uid, other, sweep.counted(), limit),
            BranchReply::Collision => sweep_split(sweep.counted(), unassigned(), 0, limit),
        }
    }

    // After the mute of a UID that answers for others. If it is found the same is asked again.
    pub(super) fn stray_muted(
        &mut self,
        uid: Uid,
        tries: u8,
        spare: u8,
        sweep: Sweep,
        ack: Option<MuteAck>,
    ) -> Phase
        requires { IsConsistent (Phase.MutingStray uid tries spare sweep) self.old }
        ensures goes_on { GoesOn (heard_of_mute ack) (Phase.MutingStray uid tries spare sweep)
            self.old result self.new }
        ensures fresh { self.new.below ≡ [] }
    {
        let counted = sweep.counted();
        if let Some(ack) = ack {
            let belief = counted.belief.stray_found();
            let limit = sweep_limit(self.found.len() + 1, self.apart.len());
            let onward = sweep_on(counted, 0, 0, limit, belief);
            return self.find(device_from(uid, ack), onward);
        }
        match tries + 1 {
            TRIES => sweep_split(counted.suspecting(uid), unassigned(), 0, self.limit()),
            tries => Phase::MutingStray {
                uid,
                tries,
                spare,
                sweep: counted,
            },
        }
    }

    // After bytes that aren't the acknowledgement of that mute.
    pub(super) fn stray_garbled(&mut self, uid: Uid, tries: u8, spare: u8, sweep: Sweep) -> Phase
        requires { IsConsistent (Phase.MutingStray uid tries spare sweep) self.old }
        ensures goes_on { GoesOn Noise (Phase.MutingStray uid tries spare sweep) self.old result self.new }
        ensures fresh { self.new.below ≡ [] }
    {
        if spare == 0 {
            return self.stray_muted(uid, tries, spare, sweep, None);
        }
        Phase::MutingStray {
            uid,
            tries,
            spare: spare - 1,
            sweep: sweep.counted(),
        }
    }
}

// The range without devices spelt another UID, or this one, which is muted.
fn check_spelt(uid: Uid, other: Uid, sweep: Sweep, limit: usize) -> Phase
    requires limit { limit ≤ 2 ^ 20 }
    requires device { is_broadcast uid ≡ false }
    requires counted { (sweep.silences < TRIES) × (sweep.bads < 8) × (sweep.made ≤ 2 ^ 20 + 2) }
    requires small { IsSmall sweep.belief }
    ensures { Follows (check_spelt uid other sweep limit) result }
{
    if other == uid {
        return Phase::MutingStray {
            uid,
            tries: 0,
            spare: GARBLED_MUTES,
            sweep,
        };
    }
    sweep_split(sweep, unassigned(), 0, limit)
}

// The range without devices was silent once more.
fn check_silent(uid: Uid, silences: u8, sweep: Sweep, limit: usize) -> Phase
    requires limit { limit ≤ 2 ^ 20 }
    requires silences { silences < 2 }
    requires device { is_broadcast uid ≡ false }
    requires counted { (sweep.silences < TRIES) × (sweep.bads < 8) × (sweep.made ≤ 2 ^ 20 + (silences + 1)) }
    requires small { IsSmall sweep.belief }
    ensures { Follows (check_silent uid silences sweep limit) result }
{
    if sweep.belief.is_checked_again(silences) {
        return Phase::Checking {
            uid,
            silences: silences + 1,
            sweep,
        };
    }
    sweep_split(sweep, unassigned(), silences + 1, limit)
}
