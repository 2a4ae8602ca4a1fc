//! The answers that broke off, so that what comes next isn't taken for a whole answer.
ghost use Rattle.std.specs.Prelude.{◌≡◌};
ghost use Rattle.rdm_log.specs.log.Broken.{key_of, is_ack, is_whole, breaks_off};

use arrayvec::ArrayVec;
use rdm_join::{ReplyHead, Status};
use rdm_wire::{AckType, ReqClass, Request, Uid};
use std::marker::Model;
use std::mem::size_of;

/// How many keys a [`BrokenAnswers`] lists.
pub const MOST_BROKEN: usize = 1_024;

/// What a GET asks for. A device keeps one position in its answer for each.
#[derive(Clone, Copy, Debug, Default, PartialEq, Eq)]
pub struct AnswerKey {
    /// The device, or a broadcast UID.
    pub target: Uid,
    /// The sub-device: 0 is the root.
    pub sub_device: u16,
    /// The parameter's identifier.
    pub pid: u16,
}

impl AnswerKey {
    ghost use Rattle.std.specs.Prelude.{◌≡◌};
    ghost use Rattle.rdm_log.specs.log.BrokenKeys.{same_key};

    /// What the request asks for; None if it is a SET.
    pub fn of(request: &Request) -> Option<AnswerKey>
        ensures { result ≡ key_of request.now }
    {
        match request.class {
            ReqClass::Get => Some(AnswerKey {
                target: request.target,
                sub_device: request.sub_device,
                pid: request.pid,
            }),
            ReqClass::Set => None,
        }
    }

    // Whether it is the same as the other.
    fn is(&self, other: &AnswerKey) -> bool
        ensures { result ≡ same_key self.now other.now }
    {
        self.target == other.target && self.sub_device == other.sub_device && self.pid == other.pid
    }
}

/// For which keys the last GET of which a frame was sent ended without a whole answer, and none was whole since: they
/// are *open*. It has memory for [`MOST_BROKEN`] keys. If more are open at once, from then on it lists as many that
/// were closed last, and each other counts as open. So it may take a key for open without need, and never the other
/// way round.
#[derive(Debug, Drop)]
pub struct BrokenAnswers {
    inverted: bool,
    keys: ArrayVec<AnswerKey, MOST_BROKEN>,
}

const _: () = prove!(size_of::<BrokenAnswers>() == 16 * MOST_BROKEN + 16);

impl Model for BrokenAnswers {
    ghost use Rattle.rdm_log.specs.log.BrokenKeys.{BrokenKeys};

    ghost Value = { BrokenKeys };

    ghost view = { λ b. record { inverted = b.inverted; keys = b.keys.items } };
}

impl BrokenAnswers {
    ghost use Rattle.std.specs.Prelude.{◌≡◌};
    ghost use Rattle.rdm_log.specs.log.BrokenKeys.{is_open, none_open, with_open, with_closed, without, lists};
    ghost use Rattle.rdm_log.specs.log.Broken.{after_end, is_end_flagged};

    /// No key is open.
    pub fn new() -> BrokenAnswers
        ensures { result ≡ none_open }
    {
        BrokenAnswers {
            inverted: false,
            keys: ArrayVec::new(),
        }
    }

    /// The same set again. It allocates nothing.
    pub fn copied(&self) -> BrokenAnswers
        ensures { result ≡ self.now }
    {
        BrokenAnswers {
            inverted: self.inverted,
            keys: ArrayVec::try_from(self.keys.as_slice()).unwrap(),
        }
    }

    /// Whether the key is open.
    pub fn is_open(&self, key: &AnswerKey) -> bool
        ensures { result ≡ is_open self.now key.now }
    {
        if self.inverted {
            !self.lists(key)
        } else {
            self.lists(key)
        }
    }

    /// Opens the key. Each other that is open stays open (law [`open_keys_stay`](crate::laws::open_keys_stay)).
    pub fn insert(&mut self, key: AnswerKey)
        ensures { self.new ≡ with_open key self.old }
    {
        self.strike(&key);
        if self.inverted {
            return;
        }
        if self.keys.is_full() {
            self.keys.clear();
            self.inverted = true;
        } else {
            self.keys.push(key);
        }
    }

    /// Closes the key. Each other that is open stays open (law [`open_keys_stay`](crate::laws::open_keys_stay)).
    pub fn remove(&mut self, key: AnswerKey)
        ensures { self.new ≡ with_closed key self.old }
    {
        self.strike(&key);
        if !self.inverted {
            return;
        }
        if self.keys.is_full() {
            self.keys.remove(0);
        }
        self.keys.push(key);
    }

    /// Takes the end of a request with this key, of which a frame was sent or not. The result says whether the
    /// answer may lack its first parts: it is whole, and the key was open.
    pub fn end(
        &mut self,
        key: Option<AnswerKey>,
        sent: bool,
        status: Status,
        head: Option<ReplyHead>,
    ) -> bool
        ensures ended { self.new ≡ after_end key sent status head self.old }
        ensures flagged { result ≡ is_end_flagged key status head self.old }
    {
        let Some(key) = key else {
            return false;
        };
        if is_whole(status, head) {
            let was_open = self.is_open(&key);
            self.remove(key);
            return was_open;
        }
        if sent && breaks_off(status) {
            self.insert(key);
        }
        false
    }

    // Whether it lists the key.
    fn lists(&self, key: &AnswerKey) -> bool
        ensures { result ≡ lists key.now self.now.keys }
    {
        self.keys.iter().any(|listed| key.is(listed))
    }

    // Removes the key from its list.
    fn strike(&mut self, key: &AnswerKey)
        ensures { self.new ≡ record self.old { keys = without key.now self.old.keys } }
    {
        self.keys.retain(|listed| !key.is(listed));
    }
}

// Whether a request that ends like this has read its answer to the end.
fn is_whole(status: Status, head: Option<ReplyHead>) -> bool
    ensures { result ≡ is_whole status head }
{
    let Some(head) = head else {
        return false;
    };
    matches!(status, Status::Completed) && matches!(head.ack, AckType::Ack)
}

// Whether a request of which a frame was sent, and that ends like this, broke off.
fn breaks_off(status: Status) -> bool
    ensures { result ≡ breaks_off status }
{
    !matches!(
        status,
        Status::Completed | Status::NoMemory | Status::WasBroadcast
    )
}
