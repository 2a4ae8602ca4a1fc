//! What is left of a desk.
ghost use Rattle.std.specs.Prelude.{◌≡◌, ◌<◌, ◌+◌, ◌==◌, OnOk, OnErr, IfErr, IfNone, OnSome};
ghost use Rattle.rdm_client.specs.Desks.{nothing_left, count_left, next_left, after_next};

use crate::ask_callback::{AskCallback, TellsAsk};
use crate::callback::{Callback, Tells};
use std::collections::VecDeque;
use std::marker::Model;

/// The callbacks that a desk held at its end, oldest first. Contracts see the requests' callbacks and the discoveries'.
///
/// It isn't [`Drop`]: its callbacks are taken out and called, cancelled or passed on. Then it is closed.
pub struct Unspent<C = Callback, A = AskCallback> {
    requests: VecDeque<C>,
    asks: VecDeque<A>,
}

impl<C, A> Model for Unspent<C, A> {
    ghost use Rattle.rdm_client.specs.Desks.{Left};

    ghost Value = { Left C A };

    ghost view = { λ u. record { requests = u.requests.items; asks = u.asks.items } };
}

/// A callback that wasn't called.
pub enum Unfinished<C = Callback, A = AskCallback> {
    /// A request's.
    Request(C),
    /// A discovery's.
    Ask(A),
}

impl<C: Tells, A: TellsAsk> Unspent<C, A> {
    // What a desk returns at its end.
    pub(crate) fn new(requests: VecDeque<C>, asks: VecDeque<A>) -> Unspent<C, A>
        ensures { result ≡ record { requests = requests.items; asks = asks.items } }
    {
        Unspent { requests, asks }
    }

    /// Takes out the next callback: the requests' first, then the discoveries', each oldest first. `None`: nothing is
    /// left.
    pub fn next(&mut self) -> Option<Unfinished<C, A>>
        ensures next { result ≡ next_left self.old.requests self.old.asks }
        ensures left { self.new ≡ after_next self.old.requests self.old.asks }
        ensures none { IfNone result ((self.old ≡ nothing_left) × (self.new ≡ self.old)) }
        ensures fewer { OnSome result (count_left self.new + 1 ≡ count_left self.old) }
    {
        if let Some(callback) = self.requests.pop_front() {
            return Some(Unfinished::Request(callback));
        }
        let callback = self.asks.pop_front()?;
        Some(Unfinished::Ask(callback))
    }

    /// Whether nothing is left.
    pub fn is_empty(&self) -> bool
        ensures { result ≡ (count_left self.now == 0) }
    {
        self.requests.is_empty() && self.asks.is_empty()
    }

    /// Ends it. Nothing may be left, which [`Unspent::is_empty`] tests.
    pub fn close_empty(self)
        requires { self ≡ nothing_left }
    {
        let Unspent { requests, asks } = self;
        requests.destroy_empty();
        asks.destroy_empty();
    }

    /// Ends it. Err: something is left; it is returned unchanged.
    pub fn close(self) -> Result<(), Unspent<C, A>>
        ensures closed { OnOk result (self ≡ nothing_left) }
        ensures refused { OnErr result (0 < count_left self) }
        ensures back { IfErr result (λ unspent. unspent ≡ self) }
    {
        if !self.is_empty() {
            return Err(self);
        }
        self.close_empty();
        Ok(())
    }
}
