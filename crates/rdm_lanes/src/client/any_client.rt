//! [`Client`] for clients with ring buffers.
ghost use Rattle.std.specs.Prelude.{◌≡◌, ◌++◌, ◌∷◌, [], None, MatchOption};
ghost use Rattle.std.proofs.Common.{rules};
ghost use Rattle.rdm_lanes.specs.declared.call.ClientCall.TheVariants.{Submit, Discover};
ghost use Rattle.rdm_lanes.specs.Clients.{StaysClient, Collects, sent_by, got_by, submit_fault, discover_fault};
ghost use Rattle.rdm_lanes.specs.Faults.{shown_fault};

use crate::client::RingClient;
use crate::views::history::ViewHistory;
use rdm_agent::Kind;
use rdm_client::{CallFault, Client, Collected, Tells, TellsAsk, Told};
use rdm_wire::Request;

/// It waits for nobody, so its runtime may be of any type.
impl<J: ViewHistory, C: Tells, A: TellsAsk, R> Client<C, A, R> for RingClient<J, C, A> {
    ghost held = { λ client. client.desk };

    ghost same = { StaysClient };

    ghost submits = { λ old request number new. (number ≡ None)
        × (sent_by new ≡ sent_by old ++ Submit request ∷ []) × (got_by new ≡ got_by old) };

    ghost refuses_submit = { λ old request fault new. (fault ≡ shown_fault (submit_fault old))
        × (sent_by new ≡ sent_by old) × (got_by new ≡ got_by old) };

    ghost discovers = { λ old kind number new. (number ≡ None)
        × (sent_by new ≡ sent_by old ++ Discover kind ∷ []) × (got_by new ≡ got_by old) };

    ghost refuses_discover = { λ old kind fault new. (fault ≡ shown_fault (discover_fault old))
        × (sent_by new ≡ sent_by old) × (got_by new ≡ got_by old) };

    ghost collects = { λ old collected new. (sent_by new ≡ sent_by old)
        × MatchOption collected (got_by new ≡ got_by old)
        (λ told. Collects C.calls C.tag_of A.calls A.tag_of old told new) };

    fn submit(
        &mut self,
        _rt: &R,
        request: Request,
        callback: C,
    ) -> Result<Option<u64>, (CallFault, Request, C)> {
        match RingClient::submit(self, request, callback) {
            Ok(()) => Ok(None),
            Err((fault, request, callback)) => Err((CallFault::from(fault), request, callback)),
        }
    }

    fn discover(
        &mut self,
        _rt: &R,
        kind: Kind,
        callback: A,
    ) -> Result<Option<u64>, (CallFault, A)> {
        match RingClient::discover(self, kind, callback) {
            Ok(()) => Ok(None),
            Err((fault, callback)) => Err((CallFault::from(fault), callback)),
        }
    }

    fn collect(&mut self, _rt: &R) -> Option<Collected> {
        RingClient::collect(self)
    }

    fn collect_request(&mut self, _rt: &R) -> Option<Told> {
        RingClient::collect_request(self)
    }

    ghost stays = { Prim.search rules };

    ghost follows = { Prim.search rules };
}
