//! What a run starts from.

/// What a discovery run starts from.
#[derive(Clone, Copy, Debug, PartialEq, Eq)]
pub enum Kind {
    /// No known devices: the whole range of UIDs is searched.
    Full,
    /// Known devices: each of them is muted first, and then the whole range is searched.
    Incremental,
}
