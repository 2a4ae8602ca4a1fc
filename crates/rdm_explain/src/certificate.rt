//! Whether the exchanges of a run certify a set of devices, and where each part of the certificate fails first.
ghost use Rattle.std.specs.Prelude.{◌≡◌, IfOk};
ghost use Rattle.rdm_agent.specs.Certificate.{known_of};
ghost use Rattle.rdm_explain.specs.Certificates.{ExplainsRun, ExplainsKnown};

use crate::cover::{first_uncovered, last_uncovered};
use crate::exchange::Exchange;
use crate::known::{first_not_muted_first, first_unread};
use crate::order::{first_failure, first_missing_unmute};
use crate::reported::{first_misreported, first_other_data};
use crate::tried::first_untried;
use rdm_agent::Kind;
use rdm_wire::{Device, DeviceSet, NoMemory, Uid};
use std::alloc::Global;

/// For each part of a certificate of a set, the first place where it fails; `None` if the part holds. An exchange is
/// named by its index. The first has 0.
#[derive(Clone, Copy, Debug)]
pub struct RunFinding {
    /// A run begins with three unmutes. This one, 0 to 2, is another exchange or isn't there.
    pub missing_unmute: Option<usize>,
    /// No exchange fails. This one did.
    pub failure: Option<usize>,
    /// The set is that of the acknowledged UIDs. This one is in the set alone, or was acknowledged and isn't in the
    /// set.
    pub misreported: Option<Uid>,
    /// Each muted UID is a device's, and was acknowledged, or was muted five times in a row without acknowledgement.
    /// This exchange mutes another one.
    pub untried: Option<usize>,
    /// Each other UID was in a range that was silent five times in a row. This one wasn't.
    pub uncovered: Option<Uid>,
    /// If there is such a UID, the last of those in a row from it that weren't.
    pub uncovered_to: Option<Uid>,
    /// Each device of the set has the data of its first acknowledgement. This one has other data.
    pub other_data: Option<Device>,
}

/// For each part of a certificate that depends on the known UIDs, the first place where it fails; `None` if the part
/// holds.
#[derive(Clone, Copy, Debug)]
pub struct KnownFinding {
    /// An incremental run mutes the known UIDs before its first branch. This one it didn't.
    pub not_muted_first: Option<Uid>,
    /// Each other muted UID was read by an earlier branch. This exchange mutes one that wasn't.
    pub unread: Option<usize>,
}

/// Where the exchanges fail to certify a set, without the parts that depend on the known UIDs. The only error: out of
/// memory.
pub fn explain_run(
    alloc: Global,
    set: &DeviceSet,
    exchanges: &[Exchange],
) -> Result<RunFinding, NoMemory>
    ensures { IfOk result (λ found. ExplainsRun set.now exchanges.now found) }
{
    let uncovered = first_uncovered(alloc, exchanges)?;
    Ok(RunFinding {
        missing_unmute: first_missing_unmute(exchanges),
        failure: first_failure(exchanges),
        misreported: first_misreported(alloc, set, exchanges)?,
        untried: first_untried(alloc, exchanges)?,
        uncovered,
        uncovered_to: last_uncovered(alloc, uncovered, exchanges)?,
        other_data: first_other_data(alloc, set, exchanges)?,
    })
}

/// Where the exchanges fail to certify a set because of the known UIDs. A full run mutes none of them first, so that
/// `known` doesn't matter. The only error: out of memory.
pub fn explain_known(
    alloc: Global,
    kind: Kind,
    known: &[Uid],
    exchanges: &[Exchange],
) -> Result<KnownFinding, NoMemory>
    ensures { IfOk result (λ found. ExplainsKnown (known_of kind known.now) exchanges.now found) }
{
    let first = muted_first(kind, known);
    Ok(KnownFinding {
        not_muted_first: first_not_muted_first(alloc, first, exchanges)?,
        unread: first_unread(alloc, first, exchanges)?,
    })
}

// The known UIDs that a run of this kind mutes first.
fn muted_first(kind: Kind, known: &[Uid]) -> &[Uid]
    ensures { result.now ≡ known_of kind known.now }
{
    match kind {
        Kind::Full => &[],
        Kind::Incremental => known,
    }
}
