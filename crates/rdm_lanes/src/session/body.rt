//! What clients do beside the worker.
ghost use Rattle.rdm_lanes.specs.Clients.{SameClient};

use crate::client::RingClient;
use crate::views::history::ViewHistory;

/// The point at which a session's worker arrives once it has stopped: it puts no more outcomes on the rings.
pub const WORKER_STOPPED: u8 = 255;

/// Where the bodies of a session meet. Points 0 to 254 are theirs.
pub trait Gate {
    /// Records that this point is reached.
    fn arrive(&self, point: u8);

    /// Whether somebody has arrived at this point.
    fn passed(&self, point: u8) -> bool;
}

/// What a client does in a session. It has to leave the client's rings in place.
pub trait Body<C, A> {
    /// Runs once, in a thread of its own if one can be made. A body that waits for another one has to give up after a
    /// fixed number of tries: without threads they run one by one.
    fn run<J: ViewHistory, G: Gate>(&mut self, client: &mut RingClient<J, C, A>, gate: &G)
        ensures { SameClient client.old client.new };
}
