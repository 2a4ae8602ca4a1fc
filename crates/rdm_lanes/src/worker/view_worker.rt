//! The worker, which has the session and one end of each ring, and publishes views of the devices.
ghost use Rattle.rdm_lanes.specs.body.Showing.{Publishes, AreShownFirst};

use crate::sleeping::WorkerSleep;
use crate::views::history::ViewHistory;
use crate::views::publishing::{Publisher, Shown};
use crate::worker::Worker;
use left_right::Absorb;
use rdm_client::DeviceView;
use std::sync::{Arc, Wait};

/// Who makes the calls of the clients and of the operator, and the exchanges with the line. It has the session, and
/// publishes the views of its log, in order: the devices that each run without fault found. It publishes a run's view
/// before it moves an outcome of that run. What it has received from each client is that client's calls in the log.
/// What it has sent to each client is that client's outcomes in the log, except those not collected from the session
/// yet. Nobody else has joined or called anything. Dropping it waits for reads that are under way. `T` is `Shown<J>`.
#[derive(Drop)]
pub struct ViewWorker<
    J: ViewHistory,
    T: Absorb<Shown<J>, State = [DeviceView; 0]> + Drop,
    R: Wait + Drop,
> {
    pub(crate) server: Worker,
    pub(crate) views: Publisher<J, T, R>,
    // How many turns the last call of `work` made, and 0 before the first.
    pub(crate) turns_made: u64,
    // What the worker sleeps on.
    pub(crate) sleep: Arc<WorkerSleep>,
    ghost publishes: { Publishes server.session views },
    ghost shown_first: { AreShownFirst views.shown server.lanes.items },
}
