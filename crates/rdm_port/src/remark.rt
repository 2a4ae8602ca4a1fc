//! What people should know about a file before its work begins.
use rdm_files::{Remark, UnknownKey, five_losses};
use rdm_reports::Progress;
use std::alloc::Global;

/// Reports the first unknown key, if there is one, and then five losses in a row, if this key has them. If memory runs
/// out, losses aren't reported.
pub(crate) fn remark_on<P: Progress>(
    alloc: Global,
    unknown: Option<UnknownKey>,
    path: &'static str,
    losses: &[u64],
    progress: &mut P,
) {
    if let Some(key) = unknown {
        progress.remark(&Remark::UnknownKey(key));
    }
    if let Ok(Some(first)) = five_losses(alloc, losses) {
        progress.remark(&Remark::FiveLosses { path, first });
    }
}
