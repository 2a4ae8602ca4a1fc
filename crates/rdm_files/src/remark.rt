//! What people should know about a file before its work begins.
use crate::scene::UnknownKey;
use std::fmt;

/// What people should know about a file that is read anyway.
#[derive(Drop)]
pub enum Remark {
    /// A key isn't known, and is ignored.
    UnknownKey(UnknownKey),
    /// The scene loses five exchanges in a row. Then a report may miss a device without a fault.
    FiveLosses {
        /// The path of the key with their numbers.
        path: &'static str,
        /// The number of the first one.
        first: u64,
    },
}

impl fmt::Display for Remark {
    fn fmt<W: fmt::Write>(&self, f: &mut fmt::Formatter<W>) -> fmt::Result {
        match self {
            Remark::UnknownKey(key) => fmt::Display::fmt(key, f),
            Remark::FiveLosses { path, first } => {
                let last = first.saturating_add(4);
                write!(
                    f,
                    "{path}: exchanges {first} to {last} are all lost; \
                     with five lost in a row a device may be missed"
                )
            }
        }
    }
}
