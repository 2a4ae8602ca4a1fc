//! Rows of moves on lanes whose line fails at once.
use crate::tests::*;
use std::process::Abort;

/// Lanes, moves on them, and the result.
pub struct Row {
    /// What the row shows.
    pub shows: &'static str,
    /// How many free entries the log has.
    pub free: usize,
    /// How many slots each ring has.
    pub ring: u8,
    /// The queue depth of each client.
    pub places: &'static [u8],
    /// The acts, each with its expected result.
    pub moves: &'static [Move],
    /// For each client, how many calls it sent, how many outcomes it collected, and how many callbacks it held.
    pub counts: &'static [(u64, u64, u64)],
    /// Whether the session is paused at the end.
    pub is_paused: bool,
    /// Whether it is closed at the end.
    pub is_closed: bool,
    /// The expected log, if it is compared.
    pub log: Option<&'static [Said]>,
}

/// What is usual in a row. The log has 100 free entries and isn't compared. At the end the session is neither paused
/// nor closed.
pub const USUAL: Row = Row {
    shows: "",
    free: 100,
    ring: 1,
    places: &[],
    moves: &[],
    counts: &[],
    is_paused: false,
    is_closed: false,
    log: None,
};

/// Plays all these rows.
pub fn play_all<R: Wait + Abort>(rt: &R, alloc: Global, rows: &[Row]) {
    for row in rows {
        let shows = row.shows;
        assert_eq!(rt; plays(rt, alloc, row), Ok(()), "{shows}");
    }
}

fn plays<R: Wait>(rt: &R, alloc: Global, row: &Row) -> Result<(), Failed> {
    let setup = Setup::new(row.free, row.ring, row.places);
    let over = play_lanes(rt, alloc, setup, silent(alloc, 0)?, row.moves)?;
    counts_are(&over.left, row.counts)?;
    if over.state.is_paused != row.is_paused || over.state.is_closed != row.is_closed {
        return Err(Failed::Unmatched);
    }
    if let Some(log) = row.log {
        says(&over.log, log)?;
    }
    Ok(())
}
