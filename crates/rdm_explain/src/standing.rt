//! What is known of one device's state after some exchanges.
ghost use Rattle.std.specs.Prelude.{◌≡◌, ◌<◌, ◌^◌, ℕ};
ghost use Rattle.rdm_explain.specs.Exchanges.{asked_of, heard_of};

use crate::exchange::{Asked, Exchange, Heard};
use rdm_wire::Uid;

// How many replies in a row may be lost.
const MOST_LOST: u64 = 4;

// How many unmutes in a row unmute each device.
const UNMUTES: u64 = 3;

/// Whether a device may be muted, and whether it may be unmuted. If it may be neither, the line wasn't honest to it.
#[derive(Clone, Copy)]
pub(crate) struct Standing {
    /// It may be muted.
    pub(crate) muted: bool,
    /// It may be unmuted. Then this many of its replies to branches were lost in a row.
    pub(crate) unmuted: bool,
    /// Replies to branches that were lost in a row.
    pub(crate) lost_branches: u64,
    /// Acknowledgements of its mutes that were lost in a row.
    pub(crate) lost_mutes: u64,
    /// Unmutes in a row.
    pub(crate) unmutes: u64,
    /// The line has failed, and nothing is known of what follows.
    pub(crate) stopped: bool,
}

impl Standing {
    ghost use Rattle.rdm_explain.specs.Exchanges.{seen_of};
    ghost use Rattle.rdm_explain.specs.body.Standings.{is_alive, with_counts, after_branch, after_mute, after_unmute};
    ghost use Rattle.rdm_explain.specs.body.Standings.{after, at_start};

    /// Before a run.
    pub(crate) fn start() -> Standing
        ensures { result ≡ at_start }
    {
        Standing {
            muted: true,
            unmuted: true,
            lost_branches: 0,
            lost_mutes: 0,
            unmutes: 0,
            stopped: false,
        }
    }

    /// Whether the device may be in some state.
    pub(crate) fn is_alive(&self) -> bool
        ensures { result ≡ is_alive self.now }
    {
        self.muted || self.unmuted
    }

    /// The device with this UID hears an exchange.
    #[inline(always)]
    pub(crate) fn hear(&mut self, uid: Uid, exchange: &Exchange)
        requires branches { self.old.lost_branches < 2 ^ 63 }
        requires mutes { self.old.lost_mutes < 2 ^ 63 }
        requires unmutes { self.old.unmutes < 2 ^ 63 }
        ensures { self.new ≡ after uid self.old (seen_of exchange.now) }
    {
        if self.stopped {
            return;
        }
        if exchange.heard.is_failed() {
            self.stopped = true;
            return;
        }
        match exchange.asked {
            Asked::Unmute => self.hear_unmute(),
            Asked::Branch { lo, hi } => {
                let is_lost = lo <= uid && uid <= hi && exchange.heard.is_silent();
                self.hear_branch(if is_lost { self.lost_branches + 1 } else { 0 });
            }
            Asked::Mute(muted) if uid == muted => self.hear_mute(&exchange.heard),
            _ => self.count(0, 0, 0),
        }
    }

    fn count(&mut self, branches: u64, mutes: u64, unmutes: u64)
        ensures { self.new ≡ with_counts self.old branches mutes unmutes }
    {
        self.lost_branches = branches;
        self.lost_mutes = mutes;
        self.unmutes = unmutes;
    }

    // A branch by which so many of its replies would be lost in a row.
    fn hear_branch(&mut self, lost: u64)
        ensures { self.new ≡ after_branch self.old lost }
    {
        self.unmuted = self.unmuted && lost <= MOST_LOST;
        self.count(lost, 0, 0);
    }

    // A mute of the device.
    fn hear_mute(&mut self, heard: &Heard)
        requires { self.old.lost_mutes < 2 ^ 63 }
        ensures { self.new ≡ after_mute self.old (heard_of heard.now) }
    {
        let is_alive = self.is_alive();
        if heard.is_acked() {
            self.muted = is_alive;
            self.unmuted = false;
            self.count(0, 0, 0);
        } else if heard.is_silent() && self.lost_mutes < MOST_LOST {
            self.muted = is_alive;
            self.count(0, self.lost_mutes + 1, 0);
        } else {
            self.muted = false;
            self.unmuted = false;
            self.count(0, 0, 0);
        }
    }

    // An unmute.
    fn hear_unmute(&mut self)
        requires { self.old.unmutes < 2 ^ 63 }
        ensures { self.new ≡ after_unmute self.old }
    {
        let unmutes = self.unmutes + 1;
        self.unmuted = self.is_alive();
        self.muted = self.muted && unmutes < UNMUTES;
        self.count(0, 0, unmutes);
    }
}
