//! A client's share of the calls in a log.
ghost use Rattle.std.specs.Prelude.{◌≡◌, ◌+◌, ◌≤◌, []};
ghost use Rattle.rdm_locked.specs.body.Own.{AreCallsOf};

use crate::history::{Ledger, LoggedCall};
use rdm_ledger::Share as History;
use std::sync::ledger::{Book, Share};

/// How many of the log's calls are a client's: its submits and discovers, even if they were refused, and the outcomes
/// that it collected. A call that a full log or a full desk refused isn't counted, since it has no entry. The shares of
/// all clients add up to the number of calls in the log, as [`Port::finish`](crate::Port::finish) says.
#[derive(Drop)]
pub struct CallShare<L: Ledger> {
    pub(crate) share: Share<L>,
    pub(crate) count: u64,
    pub(crate) history: History<LoggedCall, L>,
    ghost one_part: { share.parts ≡ 1 },
    ghost counted: { share.amount ≡ count },
    ghost own: { AreCallsOf history.index history.items },
}

impl<L: Ledger> CallShare<L> {
    // The share of a client that has made no call.
    pub(crate) fn new(share: Share<L>, history: History<LoggedCall, L>) -> CallShare<L>
        requires { (share.parts ≡ 1) × (share.amount ≡ 0) × (history.items ≡ []) }
        ensures count { result.count ≡ 0 }
        ensures history { result.history ≡ history }
    {
        CallShare {
            share,
            count: 0,
            history,
        }
    }

    // Counts this many more calls, and adds them to the book, which then has `most` at most.
    pub(crate) fn add_calls(&mut self, book: &mut Book<L>, calls: u64, most: u64)
        requires { book.old.total + calls ≤ most }
        ensures count { self.new.count ≡ self.old.count + calls }
        ensures total { book.new.total ≡ book.old.total + calls }
        ensures history { self.new.history ≡ self.old.history }
    {
        let CallShare { share, count, .. } = self;
        book.add(share, calls);
        // Only for the proof: the share has no more than the book, so its count doesn't overflow.
        book.audit(share);
        *count += calls;
    }

    /// How many calls these are.
    pub fn count(&self) -> u64
        ensures { result ≡ self.now.count }
    {
        self.count
    }
}
