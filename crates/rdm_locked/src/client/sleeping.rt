//! How a port's client sleeps until an outcome comes.
use crate::client::LockedClient;
use crate::history::Ledger;
use rdm_client::{Tells, TellsAsk};
use std::sync::Wait;

impl<L: Ledger, C: Tells, A: TellsAsk> LockedClient<'_, L, C, A> {
    /// Sleeps until the client has an outcome, for [`collect`](LockedClient::collect) and its like, which return what
    /// they return without it. It returns at once if no outcome can come: the client holds no callback or collects
    /// nothing any more, or no worker is in [`work_or_sleep`](crate::Port::work_or_sleep). So it never sleeps in a
    /// program with one thread.
    pub fn wait_for_outcome<R: Wait>(&self, rt: &R) {
        let holds_none = self.desk.requests_held() == 0 && self.desk.asks_held() == 0;
        if self.stranded || holds_none {
            return;
        }
        let LockedClient { port, number, .. } = self;
        let inside = port.inside.lock(rt);
        drop(
            port.sleepers.clients.wait_while(rt, inside, |inside| {
                port.sleepers.has_worker() && inside.oldest(*number).is_none()
            }),
        );
    }
}
