//! How a client sleeps until an outcome comes.
use crate::client::RingClient;
use crate::views::history::ViewHistory;
use rdm_client::{Tells, TellsAsk};
use std::sync::Wait;

impl<J: ViewHistory, C: Tells, A: TellsAsk> RingClient<J, C, A> {
    /// Sleeps until an outcome is on the client's ring, for [`collect`](RingClient::collect) and its like, which return
    /// what they return without it. It returns at once if no outcome can come: the client holds no callback, or its
    /// worker isn't in [`work_or_sleep`](crate::ViewWorker::work_or_sleep). So it never sleeps in a program with one
    /// thread.
    pub fn wait_for_outcome<R: Wait>(&self, rt: &R) {
        if self.desk.requests_held() > 0 || self.desk.asks_held() > 0 {
            self.sleep.sleep(rt, self.collected);
        }
    }
}
