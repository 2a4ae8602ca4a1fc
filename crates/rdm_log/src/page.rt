//! What a log hands out.
use crate::entry::Entry;

/// Entries that a log has handed out, oldest first. Pages one after another, and then what the log stores, are all its
/// entries.
#[derive(Debug, Drop)]
pub struct Page {
    /// The number of the first entry. The first entry that the log ever had has number 0.
    pub first: u64,
    /// The entries.
    pub entries: Vec<Entry>,
}
