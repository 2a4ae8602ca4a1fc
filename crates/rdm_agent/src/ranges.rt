//! The ranges that are searched after the top one.
ghost use Rattle.std.specs.Prelude.{◌≡◌, ◌∷◌, ◌<◌, ◌≤◌, [], length, MatchOption};

use crate::limits::MOST_RANGES;
use arrayvec::ArrayVec;
use rdm_wire::UidRange;
use std::marker::Model;

/// How many there are at most: all open ranges but the top one.
pub(crate) const MOST_BELOW: usize = MOST_RANGES - 1;

/// The ranges below the top one. Contracts see their list, the next one first.
#[derive(Debug, Drop)]
pub(crate) struct RangesBelow {
    ranges: ArrayVec<UidRange, MOST_BELOW>,
}

impl Model for RangesBelow {
    ghost use Rattle.std.specs.Prelude.{List, reverse};
    ghost use Rattle.rdm_wire.specs.Span.{Span};

    ghost Value = { List Span };

    ghost view = { λ b. reverse b.ranges.items };
}

impl RangesBelow {
    /// No range.
    pub(crate) fn new() -> RangesBelow
        ensures { result ≡ [] }
    {
        RangesBelow {
            ranges: ArrayVec::new(),
        }
    }

    /// How many there are.
    pub(crate) fn len(&self) -> usize
        ensures value { result ≡ length self.now }
        ensures fits { result ≤ MOST_BELOW }
    {
        self.ranges.len()
    }

    /// Puts a range on top.
    pub(crate) fn push(&mut self, range: UidRange)
        requires { length self.old < MOST_BELOW }
        ensures { self.new ≡ range ∷ self.old }
    {
        self.ranges.push(range);
    }

    /// Drops all.
    pub(crate) fn clear(&mut self)
        ensures { self.new ≡ [] }
    {
        self.ranges.clear();
    }

    /// Removes the top one; `None` if there is none.
    pub(crate) fn pop(&mut self) -> Option<UidRange>
        ensures { MatchOption result ((self.old ≡ []) × (self.new ≡ [])) (λ r. self.old ≡ r ∷ self.new) }
    {
        self.ranges.pop()
    }
}
