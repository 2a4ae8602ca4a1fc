//! How a session is taken out of its mutex.
ghost use Rattle.std.specs.Prelude.{◌≡◌, ◌≢◌, true, [], OnErr, ◌≤◌, ◌<◌, ◌+◌, length, Some, IfOk, IfErr, IfNone};
ghost use Rattle.rdm_locked.specs.body.Found.{AreMerged};
ghost use Rattle.std.specs.List.{sum_by};
ghost use Rattle.rdm_log.specs.log.Entries.{exchanges as log_exchanges};
ghost use Rattle.rdm_log.specs.log.LogState.{stored};
ghost use Rattle.rdm_locked.specs.Exchanges.{recorded};
ghost use Rattle.rdm_locked.specs.Inside.{IsTakenOut};

use crate::exchange::{Exchange, has_exchanges};
use crate::fault::FinishFault;
use crate::history::{Ledger, LoggedCall, Mark};
use crate::inside::Inside;
use crate::share::CallShare;
use rdm_ledger::{Book as Lists, Items};
use rdm_queue::Session;
use std::sync::ledger::{Book, Share};

/// A session that was taken out of its mutex, and how many calls its clients made.
#[derive(Debug, Drop)]
pub struct SessionEnd {
    /// The session.
    pub session: Session,
    /// How many calls of clients its log has.
    pub calls: u64,
}

impl<L: Ledger> Inside<L> {
    /// Ends it, if the share of each client that joined is there, and the log's exchanges are those of the record. Then
    /// these hold:
    /// - there is one share for each client;
    /// - their sum is the number of calls in the log;
    /// - the log keeps all that clients are promised.
    ///
    /// Err: SharesMissing, or else NotKept, or else ExchangesDiffer; the session and the shares are returned
    /// unchanged.
    pub fn finish(
        self,
        shares: Vec<CallShare<L>>,
        exchanges: &[Exchange],
    ) -> Result<SessionEnd, (FinishFault, Inside<L>, Vec<CallShare<L>>)>
        requires { L.parts ≡ 17 }
        ensures taken_out { IfOk result (λ e. IsTakenOut self shares.items e) }
        ensures exchanges { IfOk result (λ e. log_exchanges e.session.entries ≡ recorded exchanges.now) }
        ensures back { IfErr result (λ e. (e.1 ≡ self) × (e.2 ≡ shares)) }
        ensures missing { IfErr result (λ e. e.0 ≡ FinishFault.SharesMissing → length shares.items < self.joined) }
        ensures not_kept { IfErr result (λ e. e.0 ≡ FinishFault.NotKept
            → self.session.keeps ≡ true → self.session.gone ≢ 0) }
        ensures kept { IfOk result (λ e. stored e.session ≡ e.session.entries) }
        ensures differ { IfErr result (λ e. e.0 ≡ FinishFault.ExchangesDiffer → (self.joined ≤ length shares.items)
            × (log_exchanges self.session.entries ≢ recorded exchanges.now)) }
    {
        if let Some(fault) = self.finish_fault(shares.len(), exchanges) {
            return Err((fault, self, shares));
        }
        Ok(self.add_up(shares))
    }

    /// Ends it, if the share of each client that joined is there, but compares no exchanges.
    /// Err: shares are missing; the session and the shares are returned unchanged.
    pub fn end(
        self,
        shares: Vec<CallShare<L>>,
    ) -> Result<SessionEnd, (Inside<L>, Vec<CallShare<L>>)>
        requires { L.parts ≡ 17 }
        ensures taken_out { IfOk result (λ e. IsTakenOut self shares.items e) }
        ensures back { IfErr result (λ e. (e.0 ≡ self) × (e.1 ≡ shares)) }
        ensures missing { OnErr result (length shares.items < self.joined) }
    {
        if shares.len() < usize::from(self.joined) {
            return Err((self, shares));
        }
        Ok(self.add_up(shares))
    }

    // Why it can't be ended with this many shares and these exchanges.
    fn finish_fault(&self, shares: usize, exchanges: &[Exchange]) -> Option<FinishFault>
        ensures missing { result ≡ Some FinishFault.SharesMissing → shares < self.now.joined }
        ensures not_kept { result ≡ Some FinishFault.NotKept
            → self.now.session.keeps ≡ true → self.now.session.gone ≢ 0 }
        ensures differ { result ≡ Some FinishFault.ExchangesDiffer → (self.now.joined ≤ shares)
            × (log_exchanges self.now.session.entries ≢ recorded exchanges.now) }
        ensures kept { IfNone result (stored self.now.session ≡ self.now.session.entries) }
        ensures none { IfNone result ((self.now.joined ≤ shares)
            × (log_exchanges self.now.session.entries ≡ recorded exchanges.now)) }
    {
        if shares < usize::from(self.joined) {
            return Some(FinishFault::SharesMissing);
        }
        if !self.session.log().keeps_all() {
            return Some(FinishFault::NotKept);
        }
        if !has_exchanges(self.session.log(), exchanges) {
            return Some(FinishFault::ExchangesDiffer);
        }
        None
    }

    // Adds up the shares, of which there is one for each client.
    fn add_up(self, shares: Vec<CallShare<L>>) -> SessionEnd
        requires parts { L.parts ≡ 17 }
        requires each { self.joined ≤ length shares.items }
        ensures { IsTakenOut self shares.items result }
    {
        let most = self.session().log().len_in_all();
        let Inside {
            session,
            calls: mut book,
            mut rest,
            mut lists,
            joined: _,
            left: _,
        } = self;
        let calls = gather(&mut book, &mut rest, &mut lists, shares, most);
        book.audit(&mut rest);
        SessionEnd { session, calls }
    }
}

// Merges the shares, and adds up their counts. The book has this many calls at most. Each client's half of its list is
// the other half, which gets a mark: so no two shares are of one client.
fn gather<L: Ledger>(
    book: &mut Book<L>,
    rest: &mut Share<L>,
    lists: &mut Lists<LoggedCall, L>,
    shares: Vec<CallShare<L>>,
    most: u64,
) -> u64
    requires { (rest.old.amount ≡ 0) × (book.old.total ≤ most) × (rest.old.parts ≤ L.parts) }
    ensures within { rest.new.parts ≤ L.parts }
    ensures total { book.new.total ≡ book.old.total }
    ensures sum { result ≡ sum_by (λ s. s.count) shares.items }
    ensures amount { rest.new.amount ≡ result }
    ensures parts { rest.new.parts ≡ rest.old.parts + length shares.items }
    ensures merged { AreMerged lists.old.lists lists.new.lists shares.items [] }
{
    let mut shares = shares;
    let mut calls = 0;
    let mark = Items::shown::<(), (), (), Mark>(&(), &(), &());
    while let Some(
        CallShare {
            share,
            count,
            mut history,
        },
    ) = shares.pop()
    {
        lists.add(&mut history, &mark);
        rest.merge(share);
        book.audit(rest);
        calls += count;
    }
    calls
}
