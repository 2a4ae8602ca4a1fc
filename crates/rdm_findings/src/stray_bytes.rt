//! What stray bytes read as.
ghost use Rattle.std.specs.Prelude.{◌≡◌};
ghost use Rattle.rdm_findings.specs.StrayBytes.{sign_of_text, sign_of};

use crate::listing::has;
use rdm_explain::{Asked, Exchange, Heard};
use rdm_wire::Uid;

/// What stray bytes read as.
#[derive(Clone, Copy)]
pub(crate) enum Sign {
    /// After a branch: the UID of a device that is listed, or comes or leaves.
    Listed(Uid),
    /// After a branch: the UID of another device.
    Other(Uid),
    /// Anything else.
    Unread,
}

/// What the stray bytes of an exchange read as, if these devices are listed, or come or leave.
pub(crate) fn sign_of(listed: &[Uid], exchange: &Exchange) -> Sign
    ensures { result ≡ sign_of listed.now exchange.now.asked exchange.now.heard }
{
    match (exchange.asked, exchange.heard) {
        (Asked::Branch { .. }, Heard::One(uid)) => sign_of_text(listed, uid),
        _ => Sign::Unread,
    }
}

// The sign of bytes that are the text of this UID.
fn sign_of_text(listed: &[Uid], uid: Uid) -> Sign
    ensures { result ≡ sign_of_text listed.now uid }
{
    if uid.is_broadcast() {
        Sign::Unread
    } else if has(listed, uid) {
        Sign::Listed(uid)
    } else {
        Sign::Other(uid)
    }
}
