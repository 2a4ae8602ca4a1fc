//! How a run searches.

/// How a discovery run searches. Both searches promise the same, except for the number of frames. The numbers below
/// are for an honest line with `k` known UIDs and `n` devices that stay, at most 1,024.
#[derive(Clone, Copy, Debug, PartialEq, Eq)]
pub enum Search {
    /// Each range is branched until it was silent five times in a row. It sends at most `8 + 370 n + 5 k` frames.
    Steady,
    /// A sweep searches from the lowest UID to the greatest. It accepts one silence of a range, but remembers which
    /// range answered, and searches that one again if silences contradict it. Five silences of the whole range in a
    /// row end the run. If the sweep fails, the steady search of the whole range follows. It sends at most
    /// `213 + 370 n + 5 k` frames. On nearly all lines it sends far fewer than a steady search, also if replies are
    /// lost.
    ///
    /// On a noisy line each disturbed exchange adds at most 15 frames, if no more than seven branches in a row are
    /// disturbed. It asks one UID alone again after a bad answer, up to [`BAD_ANSWERS`](crate::BAD_ANSWERS) times in a
    /// row. While the line seems noisy, the sweep asks other ranges again, too. Garbled replies to a mute, up to eight
    /// of them, don't count as lost.
    Quick,
}
