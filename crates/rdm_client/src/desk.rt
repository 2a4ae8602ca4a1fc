//! A desk, which holds the callbacks of what is outstanding.
ghost use Rattle.std.specs.Prelude.{◌≡◌, ◌<◌, ◌≤◌, ℕ, [], ◌∷◌, ◌++◌, length, drop, nat_le};
ghost use Rattle.std.specs.Prelude.{Some, None, OnOk, OnErr, IfOk, IfErr};
ghost use Rattle.rdm_log.specs.promises.Outcomes.{unboxed};
ghost use Rattle.rdm_client.specs.Desks.{spent, ask_spent, settled, without_oldest, OldestCalled, Called};

use crate::ask_callback::{AskCallback, TellsAsk};
use crate::boxed_ask::BoxedAsk;
use crate::callback::{Callback, Tells};
use crate::fault::{Full, Misdelivered};
use crate::told::{AskTold, Collected, Told};
use crate::unspent::Unspent;
use rdm_log::{BoxedOutcome, Completion};
use rdm_wire::NoMemory;
use std::alloc::Global;
use std::collections::VecDeque;
use std::marker::Model;

/// How many discoveries' callbacks a desk holds at most: 4, as many as a client may have outstanding.
pub const MOST_ASKS_HELD: usize = 4;

/// The callbacks of one client's outstanding requests and discoveries, oldest first. It holds at most as many requests'
/// callbacks as the client's queue depth, and [`MOST_ASKS_HELD`] of discoveries. Contracts see the two lists and the
/// queue depth.
///
/// A desk isn't [`Drop`]: [`Desk::end`] returns what it holds. All its memory is allocated when it is made.
pub struct Desk<C = Callback, A = AskCallback> {
    requests: VecDeque<C>,
    asks: VecDeque<A>,
    places: usize,
}

impl<C, A> Model for Desk<C, A> {
    ghost use Rattle.std.specs.Prelude.{◌≤◌};
    ghost use Rattle.std.specs.VecDeque.{deque_len, deque_capacity};
    ghost use Rattle.rdm_client.specs.Desks.{Held};

    ghost Value = { Held C A };

    ghost view = { λ d. record { requests = d.requests.items; asks = d.asks.items; places = d.places } };

    ghost invariant = { λ d. (deque_len d.requests ≤ d.places) × (d.places ≤ deque_capacity d.requests)
        × (deque_len d.asks ≤ 4) × (4 ≤ deque_capacity d.asks) };
}

impl<C: Tells, A: TellsAsk> Desk<C, A> {
    /// A desk without callbacks, for this queue depth, 0 to 255.
    /// Err: out of memory.
    pub fn new(alloc: Global, places: u8) -> Result<Desk<C, A>, NoMemory>
        ensures { IfOk result (λ desk. desk ≡ record { requests = []; asks = []; places = places }) }
    {
        let Ok(requests) = VecDeque::with_capacity(alloc, usize::from(places)) else {
            return Err(NoMemory);
        };
        let Ok(asks) = VecDeque::with_capacity(alloc, MOST_ASKS_HELD) else {
            requests.destroy_empty();
            return Err(NoMemory);
        };
        Ok(Desk {
            requests,
            asks,
            places: usize::from(places),
        })
    }

    /// Whether it can't hold another request's callback.
    pub fn is_full(&self) -> bool
        ensures { result ≡ nat_le self.now.places (length self.now.requests) }
    {
        self.requests_held() >= self.places
    }

    /// Whether it can't hold another discovery's callback.
    pub fn is_full_of_asks(&self) -> bool
        ensures { result ≡ nat_le 4 (length self.now.asks) }
    {
        self.asks_held() >= MOST_ASKS_HELD
    }

    /// How many requests' callbacks are held.
    pub fn requests_held(&self) -> usize
        ensures held { result ≡ length self.now.requests }
        ensures fits { result ≤ self.now.places }
    {
        self.requests.len()
    }

    /// How many discoveries' callbacks are held.
    pub fn asks_held(&self) -> usize
        ensures held { result ≡ length self.now.asks }
        ensures fits { result ≤ 4 }
    {
        self.asks.len()
    }

    /// Holds the callback of a request, after those that are held already. [`Full`]: as many are held as the queue
    /// depth allows; the callback is returned, and the desk is unchanged.
    pub fn hold(&mut self, callback: C) -> Result<(), (Full, C)>
        ensures held { OnOk result (self.new ≡ record self.old { requests = self.old.requests ++ callback ∷ [] }) }
        ensures had_a_place { OnOk result (length self.old.requests < self.old.places) }
        ensures full { OnErr result (length self.old.requests ≡ self.old.places) }
        ensures back { IfErr result (λ e. (e.1 ≡ callback) × (self.new ≡ self.old)) }
    {
        if self.is_full() {
            return Err((Full, callback));
        }
        self.requests.push_back_reserved(callback);
        Ok(())
    }

    /// Holds the callback of a discovery, after those that are held already. [`Full`]: [`MOST_ASKS_HELD`] are held; the
    /// callback is returned, and the desk is unchanged.
    pub fn hold_ask(&mut self, callback: A) -> Result<(), (Full, A)>
        ensures held { OnOk result (self.new ≡ record self.old { asks = self.old.asks ++ callback ∷ [] }) }
        ensures had_a_place { OnOk result (length self.old.asks < 4) }
        ensures full { OnErr result (length self.old.asks ≡ 4) }
        ensures back { IfErr result (λ e. (e.1 ≡ callback) × (self.new ≡ self.old)) }
    {
        if self.is_full_of_asks() {
            return Err((Full, callback));
        }
        self.asks.push_back_reserved(callback);
        Ok(())
    }

    /// Calls the oldest request's callback with how its request ended. [`Misdelivered`]: no request's callback is held;
    /// the completion is returned, and the desk is unchanged.
    pub fn settle_request(&mut self, done: Completion) -> Result<Told, (Misdelivered, Completion)>
        ensures called { IfOk result (λ told. OldestCalled C.calls self.old.requests done told) }
        ensures told { IfOk result (λ told. spent C.tag_of self.old.requests done ≡ Some told) }
        ensures removed { OnOk result (self.new ≡ record self.old { requests = drop 1 self.old.requests }) }
        ensures misdelivered { OnErr result (self.old.requests ≡ []) }
        ensures back { IfErr result (λ e. (e.1 ≡ done) × (self.new ≡ self.old)) }
    {
        match self.requests.pop_front() {
            Some(callback) => Ok(callback.spend(done)),
            None => Err((Misdelivered, done)),
        }
    }

    /// Calls the oldest discovery's callback with how its discovery ended. [`Misdelivered`]: no discovery's callback is
    /// held; the completion is returned, and the desk is unchanged.
    pub fn settle_ask(&mut self, done: BoxedAsk) -> Result<AskTold, (Misdelivered, BoxedAsk)>
        ensures called { IfOk result (λ told. OldestCalled A.calls self.old.asks done told) }
        ensures told { IfOk result (λ told. ask_spent A.tag_of self.old.asks done ≡ Some told) }
        ensures removed { OnOk result (self.new ≡ record self.old { asks = drop 1 self.old.asks }) }
        ensures misdelivered { OnErr result (self.old.asks ≡ []) }
        ensures back { IfErr result (λ e. (e.1 ≡ done) × (self.new ≡ self.old)) }
    {
        if self.asks.is_empty() {
            return Err((Misdelivered, done));
        }
        Ok(self.settle_held_ask(done))
    }

    /// Calls the oldest discovery's callback with how its discovery ended. A discovery's callback must be held, which
    /// [`Desk::asks_held`] tests. Unlike [`Desk::settle_ask`] it has no error that returns the completion.
    pub fn settle_held_ask(&mut self, done: BoxedAsk) -> AskTold
        requires held { 0 < length self.old.asks }
        ensures called { OldestCalled A.calls self.old.asks done result }
        ensures told { ask_spent A.tag_of self.old.asks done ≡ Some result }
        ensures removed { self.new ≡ record self.old { asks = drop 1 self.old.asks } }
    {
        self.asks.pop_front().unwrap().spend(done)
    }

    /// Calls the oldest callback of the outcome's kind with the outcome's completion, as [`Desk::settle_request`] or
    /// [`Desk::settle_ask`] does. [`Misdelivered`]: no callback of that kind is held; the outcome is returned, and the
    /// desk is unchanged.
    pub fn settle(
        &mut self,
        outcome: BoxedOutcome,
    ) -> Result<Collected, (Misdelivered, BoxedOutcome)>
        ensures called { IfOk result (λ told. Called C.calls A.calls self.old (unboxed outcome) told) }
        ensures told { IfOk result (λ told. settled C.tag_of A.tag_of self.old (unboxed outcome) ≡ Some told) }
        ensures removed { OnOk result (self.new ≡ without_oldest self.old (unboxed outcome)) }
        ensures misdelivered { OnErr result (settled C.tag_of A.tag_of self.old (unboxed outcome) ≡ None) }
        ensures back { IfErr result (λ e. (e.1 ≡ outcome) × (self.new ≡ self.old)) }
    {
        match outcome {
            BoxedOutcome::Request { number, done } => match self.settle_request(done) {
                Ok(told) => Ok(Collected::Request(told)),
                Err((refused, done)) => Err((refused, BoxedOutcome::Request { number, done })),
            },
            BoxedOutcome::Discovery { end, set } => {
                if self.asks.is_empty() {
                    return Err((Misdelivered, BoxedOutcome::Discovery { end, set }));
                }
                let done = BoxedAsk::new(end.run, end.fault, Some(set));
                Ok(Collected::Ask(self.settle_held_ask(done)))
            }
        }
    }

    /// Ends the desk, and returns all callbacks that it holds.
    pub fn end(self) -> Unspent<C, A>
        ensures { result ≡ record { requests = self.requests; asks = self.asks } }
    {
        let Desk {
            requests,
            asks,
            places: _,
        } = self;
        Unspent::new(requests, asks)
    }
}
