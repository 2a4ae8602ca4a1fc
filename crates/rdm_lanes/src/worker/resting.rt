//! When a worker sleeps.
use crate::views::history::ViewHistory;
use crate::views::publishing::Shown;
use crate::worker::Worker;
use crate::worker::view_worker::ViewWorker;
use rdm_log::ClientId;
use std::sync::Wait;

impl<J: ViewHistory, R: Wait + Drop> ViewWorker<J, Shown<J>, R> {
    /// Lets clients sleep while the worker serves them, and wakes them once it doesn't.
    pub(crate) fn serve_sleepers(&self, is_served: bool) {
        for lane in &self.server.lanes {
            lane.sleep.serve(is_served);
        }
    }

    /// Sleeps if the last turn did nothing, and the next one would do nothing either. The log had this many entries
    /// before it.
    pub(crate) fn rest<W: Wait>(&self, rt: &W, logged: u64) {
        if self.server.is_idle(logged) && self.has_shown_all() {
            self.sleep.sleep(rt);
        }
    }

    // Whether each view is published. If not, there was no memory, and the next turn tries again.
    fn has_shown_all(&self) -> bool {
        self.server.session.devices_run() <= self.views.run() && self.views.is_shown()
    }
}

impl Worker {
    // Whether the last turn did nothing: no call, exchange or collected outcome is new in the log, and the operator has
    // sent no more than what was received. The log had this many entries before it.
    fn is_idle(&self, logged: u64) -> bool {
        self.session.log().len_in_all() == logged
            && self.operator.cached_slots() == 0
            && !self.lacks_memory()
    }

    // Whether an outcome waits though its ring has a free slot. Then there was no memory for it, and the next turn
    // tries again.
    fn lacks_memory(&self) -> bool {
        for at in 0..self.lanes.len() {
            let has_slot = self.lanes[at].replies.cached_slots() > 0;
            if has_slot && self.session.oldest(ClientId(at as u8)).is_some() {
                return true;
            }
        }
        false
    }
}
