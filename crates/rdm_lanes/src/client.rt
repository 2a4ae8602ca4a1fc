//! A client of the rings.
ghost use Rattle.std.specs.Prelude.{◌≡◌, ◌+◌, [], length, false};
ghost use Rattle.rtrb.specs.Ring.{sent as pushed, received as popped};
ghost use Rattle.rdm_lanes.specs.body.Counts.{IsCounted};
ghost use Rattle.rdm_lanes.specs.Calls.{work_in};
ghost use Rattle.rdm_lanes.specs.Callbacks.{HoldsItsOwn};
ghost use Rattle.rdm_lanes.specs.Told.{values_in};
ghost use Rattle.rdm_lanes.specs.Views.{last_found, opening_view};

pub(crate) mod any_client;
pub(crate) mod calls;
pub(crate) mod ends;
pub(crate) mod found;
pub(crate) mod settle;
mod waiting;

use crate::call::ClientCall;
use crate::ring_outcome::RingOutcome;
use crate::sleeping::{ClientSleep, WorkerSleep};
use crate::views::history::ViewHistory;
use crate::views::reading::ViewReader;
use rdm_client::{AskCallback, Callback, Desk, DeviceView};
use rtrb::{Consumer, Producer};
use std::alloc::Global;
use std::sync::Arc;

/// A client with a ring for its calls, one for its outcomes, and a reader of the worker's views. None of its calls
/// waits for anybody, and none allocates. Contracts see:
/// - what it sent, the submits and discovers in order;
/// - what it got, the outcomes in order;
/// - the published views up to the last one that it read, in order.
///
/// It isn't [`Drop`]: [`RingClient::end`] returns the callbacks that it holds.
pub struct RingClient<J: ViewHistory, C = Callback, A = AskCallback> {
    desk: Desk<C, A>,
    calls: Producer<ClientCall, Global>,
    replies: Consumer<RingOutcome, Global>,
    views: ViewReader<J>,
    // What the client's last discovery without fault found.
    found: Box<DeviceView>,
    sent: u64,
    collected: u64,
    left: bool,
    // What the worker and the client sleep on.
    worker: Arc<WorkerSleep>,
    sleep: Arc<ClientSleep>,
    ghost counted: { IsCounted calls replies sent collected left },
    ghost held: { collected + (length desk.requests + length desk.asks) ≡ sent },
    ghost own: { HoldsItsOwn (work_in (pushed calls)) (values_in (popped replies)) desk.requests desk.asks },
    ghost last: { found.value ≡ last_found (values_in (popped replies)) },
}

impl<J: ViewHistory, C, A> RingClient<J, C, A> {
    // A client that has made no call. Nobody has used its desk and its ends of the rings, and `found` is the view of
    // run 0.
    pub(crate) fn new(
        desk: Desk<C, A>,
        calls: Producer<ClientCall, Global>,
        replies: Consumer<RingOutcome, Global>,
        views: ViewReader<J>,
        found: Box<DeviceView>,
        worker: Arc<WorkerSleep>,
        sleep: Arc<ClientSleep>,
    ) -> RingClient<J, C, A>
        requires idle { (desk.requests ≡ []) × (desk.asks ≡ []) }
        requires unused { (pushed calls ≡ []) × (popped replies ≡ []) }
        requires found_is { found.value ≡ opening_view }
        ensures holds { (result.desk ≡ desk) × (result.views ≡ views) }
        ensures rings { (result.calls ≡ calls) × (result.replies ≡ replies) }
        ensures not_left { result.left ≡ false }
    {
        RingClient {
            desk,
            calls,
            replies,
            views,
            found,
            sent: 0,
            collected: 0,
            left: false,
            worker,
            sleep,
        }
    }
}
