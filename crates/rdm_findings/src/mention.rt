//! The devices that a run's lines about bytes name.
ghost use Rattle.std.specs.Prelude.{◌≡◌, Some};
ghost use Rattle.rdm_findings.specs.DeviceText.{mentioned, is_before};
ghost use Rattle.rdm_findings.specs.Mentions.{spelt_or, source_or, named_in};
ghost use Rattle.rdm_findings.specs.Mentions.{garbled_mention, signed_in, stray_mention};

use crate::flaw::Flaw;
use crate::head::Start;
use crate::misread::Misreads;
use crate::stray_bytes::{Sign, sign_of};
use rdm_explain::{Asked, Exchange, Heard, Sighting};
use rdm_wire::Uid;

/// The devices that a line about an exchange names.
#[derive(Clone, Copy)]
pub(crate) struct Mention {
    /// The number of the exchange.
    pub(crate) number: u64,
    pub(crate) uid: Uid,
    /// Another one, or the same.
    pub(crate) other: Uid,
}

/// What lines of devices depend on beside their findings.
#[derive(Clone, Copy)]
pub(crate) struct RunFacts {
    /// With which exchange the log begins to have the run.
    pub(crate) start: Start,
    /// Whether the log has all of the run.
    pub(crate) whole: bool,
    /// The first exchange that failed, if one did.
    pub(crate) failure: Option<usize>,
    /// What the line about bytes that no honest line allows names.
    pub(crate) garbled: Option<Mention>,
    /// What the line about bytes that nobody was due to send names.
    pub(crate) stray: Option<Mention>,
}

impl RunFacts {
    ghost use Rattle.std.specs.Prelude.{◌≡◌};
    ghost use Rattle.rdm_findings.specs.DeviceText.{seen_at, misread_at, suspect_at, first_number, mentioned};

    /// The exchange at which a line about bytes names the device, or that such a line counts.
    pub(crate) fn seen_at(&self, misreads: &Misreads, uid: Uid) -> Option<u64>
        ensures { result ≡ seen_at self.now misreads.now uid }
    {
        match mentioned(&self.garbled, uid) {
            Some(number) => Some(number),
            None => self.seen_later(misreads, uid),
        }
    }

    fn seen_later(&self, misreads: &Misreads, uid: Uid) -> Option<u64>
        ensures { result ≡ first_number (misread_at self.now misreads.now uid) (mentioned self.now.stray uid) }
    {
        match self.misread_at(misreads, uid) {
            Some(number) => Some(number),
            None => mentioned(&self.stray, uid),
        }
    }

    /// The first exchange in which other bytes than its text answered a branch of a UID alone, unless the line about
    /// bytes that no honest line allows names the UID.
    pub(crate) fn suspect_at(&self, misreads: &Misreads, uid: Uid) -> Option<u64>
        ensures { result ≡ suspect_at self.now misreads.now uid }
    {
        if mentioned(&self.garbled, uid).is_some() {
            None
        } else {
            self.misread_at(misreads, uid)
        }
    }

    // The first exchange in which other bytes than its text answered a branch of the device alone.
    fn misread_at(&self, misreads: &Misreads, uid: Uid) -> Option<u64>
        ensures { result ≡ misread_at self.now misreads.now uid }
    {
        if self.garbled.is_none() {
            return None;
        }
        match misreads.first(uid) {
            Some(at) if is_before(self.failure, at) => Some(self.start.number(at)),
            _ => None,
        }
    }
}

fn is_before(failure: Option<usize>, at: usize) -> bool
    ensures { result ≡ is_before failure at }
{
    match failure {
        None => true,
        Some(failure) => at < failure,
    }
}

// The number of the exchange of a line that names the device.
fn mentioned(mention: &Option<Mention>, uid: Uid) -> Option<u64>
    ensures { result ≡ mentioned mention.now uid }
{
    match mention {
        Some(mention) if mention.uid == uid || mention.other == uid => Some(mention.number),
        _ => None,
    }
}

/// What the line of the first exchange with bytes that no honest line allows names, if there is one.
pub(crate) fn garbled_mention(
    start: Start,
    flaw: Option<Flaw>,
    exchanges: &[Exchange],
    garbled: Option<Sighting>,
) -> Option<Mention>
    ensures { result ≡ garbled_mention start flaw exchanges.now garbled }
{
    let Some(first) = garbled else {
        return None;
    };
    match exchanges.get(first.at) {
        Some(exchange) => named_in(
            start.number(first.at),
            flaw,
            exchange.asked,
            &exchange.heard,
        ),
        None => None,
    }
}

// The UID that was asked, and the one that the bytes read as, or that they are from.
fn named_in(number: u64, flaw: Option<Flaw>, asked: Asked, heard: &Heard) -> Option<Mention>
    ensures { result ≡ named_in number flaw asked heard.now }
{
    match asked {
        Asked::Branch { lo, .. } => Some(Mention {
            number,
            uid: lo,
            other: spelt_or(lo, heard),
        }),
        Asked::Mute(uid) => Some(Mention {
            number,
            uid,
            other: source_or(uid, flaw),
        }),
        _ => None,
    }
}

// The UID that an answer to a mute is from, if that is what is wrong with it, or else this one.
fn source_or(uid: Uid, flaw: Option<Flaw>) -> Uid
    ensures { result ≡ source_or uid flaw }
{
    match flaw {
        Some(flaw) => source_of(uid, &flaw),
        None => uid,
    }
}

fn source_of(uid: Uid, flaw: &Flaw) -> Uid
    ensures { result ≡ source_or uid (Some flaw.now) }
{
    match flaw {
        Flaw::Source(source) => *source,
        _ => uid,
    }
}

// The UID that bytes read as, or else this one.
fn spelt_or(uid: Uid, heard: &Heard) -> Uid
    ensures { result ≡ spelt_or uid heard.now }
{
    match heard {
        Heard::One(spelt) => *spelt,
        _ => uid,
    }
}

/// What the line of the first exchange with bytes that nobody was due to send names, if there is one. `listed` also has
/// the devices that come or leave.
pub(crate) fn stray_mention(
    start: Start,
    listed: &[Uid],
    exchanges: &[Exchange],
    stray: Option<Sighting>,
) -> Option<Mention>
    ensures { result ≡ stray_mention start listed.now exchanges.now stray }
{
    let Some(first) = stray else {
        return None;
    };
    match exchanges.get(first.at) {
        Some(exchange) => signed_in(start.number(first.at), sign_of(listed, exchange)),
        None => None,
    }
}

// The listed UID that the bytes read as.
fn signed_in(number: u64, sign: Sign) -> Option<Mention>
    ensures { result ≡ signed_in number sign }
{
    match sign {
        Sign::Listed(uid) => Some(Mention {
            number,
            uid,
            other: uid,
        }),
        _ => None,
    }
}
