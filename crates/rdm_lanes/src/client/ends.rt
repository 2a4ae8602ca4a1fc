//! What is left of a client.
ghost use Rattle.std.specs.Prelude.{◌≡◌, ◌+◌, length};
ghost use Rattle.rtrb.specs.Ring.{sent as pushed, received as popped, producer_capacity, consumer_capacity};
ghost use Rattle.rdm_lanes.specs.Calls.{work_in};
ghost use Rattle.rdm_lanes.specs.Callbacks.{HoldsItsOwn};
ghost use Rattle.rdm_lanes.specs.Told.{values_in};
ghost use Rattle.rdm_lanes.specs.body.Counts.{IsCounted};
ghost use Rattle.rdm_lanes.specs.Views.{last_view_run};

use crate::call::ClientCall;
use crate::ring_outcome::RingOutcome;
use crate::views::history::ViewHistory;
use crate::views::reading::ViewReader;
use rdm_client::{AskCallback, Callback, Unspent};
use rtrb::{Consumer, Producer};
use std::alloc::Global;

/// What is left of a client at its end, and how much it did. It isn't [`Drop`]: the callbacks that weren't called are
/// taken out of it.
pub struct ClientEnd<J: ViewHistory, C = Callback, A = AskCallback> {
    /// The callbacks that weren't called: one for each of the client's calls of that kind without an outcome.
    pub unspent: Unspent<C, A>,
    /// How many submits and discovers it sent.
    pub sent: u64,
    /// How many outcomes it collected.
    pub collected: u64,
    /// The run of the last published view that it read; 0 if it read none of a run.
    pub run: u64,
    pub(crate) calls: Producer<ClientCall, Global>,
    pub(crate) replies: Consumer<RingOutcome, Global>,
    pub(crate) views: ViewReader<J>,
    pub(crate) left: bool,
    ghost counted: { IsCounted calls replies sent collected left },
    ghost held: { collected + (length unspent.requests + length unspent.asks) ≡ sent },
    ghost own: { HoldsItsOwn (work_in (pushed calls)) (values_in (popped replies)) unspent.requests unspent.asks },
    ghost run_is: { run ≡ last_view_run views },
}

impl<J: ViewHistory, C, A> ClientEnd<J, C, A> {
    /// How many slots its rings had: the one for its calls, and the one for its outcomes.
    pub fn slots(&self) -> (usize, usize)
        ensures { result ≡ (producer_capacity self.now.calls, consumer_capacity self.now.replies) }
    {
        (self.calls.capacity(), self.replies.capacity())
    }

    /// The callbacks that weren't called; the rest is dropped.
    pub fn into_unspent(self) -> Unspent<C, A>
        ensures { result ≡ self.unspent }
    {
        let ClientEnd {
            unspent,
            sent: _,
            collected: _,
            run: _,
            calls: _,
            replies: _,
            views: _,
            left: _,
        } = self;
        unspent
    }
}
