//! What became of a client's oldest outcome.
use rdm_client::BoxedAsk;
use rdm_log::{Completion, OutcomeKind};

/// What became of a client's oldest outcome when it was to be collected. It has no set of devices in its value.
#[derive(Drop)]
pub(crate) enum OldestOutcome {
    /// It was a request's, and was collected.
    Request(Completion),
    /// It was a discovery's, and was collected.
    Discovery(BoxedAsk),
    /// It is of this kind, which wasn't to be collected, and stays.
    Stays(OutcomeKind),
    /// There is none, or it is a discovery's and stays, since each set is shared.
    Nothing,
}
