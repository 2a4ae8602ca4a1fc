//! A client, whichever port it has.
ghost use Rattle.std.specs.Prelude.{◌≡◌, ◌≤◌, ◌⊎◌, ◌++◌, ◌∷◌, [], ℕ, length, Option, OnOk, IfOk, IfErr};
ghost use Rattle.std.specs.Prelude.{IsErrAnd, IfSome, IfNone, option_map};
ghost use Rattle.rdm_wire.specs.declared.request.Request.{Request as RequestState};
ghost use Rattle.rdm_agent.specs.declared.kind.Kind.{Kind as KindState};
ghost use Rattle.rdm_client.specs.declared.fault.CallFault.{CallFault as CallFaultState};
ghost use Rattle.rdm_client.specs.declared.told.Collected.{Collected as CollectedState};
ghost use Rattle.rdm_client.specs.declared.told.Collected.TheVariants.{Request as RequestTold};
ghost use Rattle.rdm_client.specs.Desks.{Held};
ghost use Rattle.rdm_client.specs.Collects.{Collects, CollectsRequest};

use crate::ask_callback::TellsAsk;
use crate::callback::Tells;
use crate::fault::CallFault;
use crate::told::{Collected, Told};
use rdm_agent::Kind;
use rdm_wire::Request;

/// A client of a session in threads, with a mutex (`rdm_locked::LockedClient`) or with ring buffers
/// (`rdm_lanes::RingClient`), and the callbacks of what it has outstanding. A program that is generic in this trait
/// works with either. Its calls wait with a runtime of type `R`; a client with ring buffers waits for nobody, and takes
/// a runtime of any type.
pub trait Client<C: Tells, A: TellsAsk, R> {
    /// The callbacks that it holds, and its queue depth.
    ghost held: { Self → Held C A };

    /// What stays of a client over its calls: with a mutex its number; with ring buffers its rings, what it has read,
    /// and whether it has left.
    ghost same: { Self → Self → Type 0 };

    /// What a submit of this request changes besides the callbacks, if it returns this number.
    ghost submits: { Self → RequestState → Option ℕ → Self → Type 0 };

    /// What a submit of this request shows that is refused with this fault.
    ghost refuses_submit: { Self → RequestState → CallFaultState → Self → Type 0 };

    /// What a discover of this kind changes besides the callbacks, if it returns this number.
    ghost discovers: { Self → KindState → Option ℕ → Self → Type 0 };

    /// What a discover of this kind shows that is refused with this fault.
    ghost refuses_discover: { Self → KindState → CallFaultState → Self → Type 0 };

    /// What a collect that returns this changes besides the callbacks.
    ghost collects: { Self → Option CollectedState → Self → Type 0 };

    /// Submits a request. The callback is held, after those that are held already, until it is called with the
    /// request's completion. Returns the request's number, if it has one yet: with ring buffers the worker numbers it
    /// later.
    /// Err: the fault, as the client's own `submit` says. Nothing more is held, and the request and the callback are
    /// returned.
    fn submit(
        &mut self,
        rt: &R,
        request: Request,
        callback: C,
    ) -> Result<Option<u64>, (CallFault, Request, C)>
        ensures held { OnOk result (held self.new
            ≡ record (held self.old) { requests = (held self.old).requests ++ callback ∷ [] }) }
        ensures submitted { IfOk result (λ number. submits self.old request number self.new) }
        ensures refused { IfErr result (λ e. refuses_submit self.old request e.0 self.new) }
        // A client with ring buffers may have left.
        ensures full { (held self.old).places ≤ length (held self.old).requests
            → IsErrAnd result (λ e. (e.0 ≡ CallFault.Full) ⊎ (e.0 ≡ CallFault.Left)) }
        ensures back { IfErr result (λ e. (e.1 ≡ request) × (e.2 ≡ callback) × (held self.new ≡ held self.old)) }
        ensures same { same self.old self.new };

    /// Asks for a discovery. The callback is held, after those that are held already, until it is called with the
    /// discovery's completion. Returns the discovery's number, if it has one yet.
    /// Err: the fault, as the client's own `discover` says. Nothing more is held, and the callback is returned.
    fn discover(&mut self, rt: &R, kind: Kind, callback: A) -> Result<Option<u64>, (CallFault, A)>
        ensures held { OnOk result (held self.new
            ≡ record (held self.old) { asks = (held self.old).asks ++ callback ∷ [] }) }
        ensures discovered { IfOk result (λ number. discovers self.old kind number self.new) }
        ensures refused { IfErr result (λ e. refuses_discover self.old kind e.0 self.new) }
        ensures full { 4 ≤ length (held self.old).asks
            → IsErrAnd result (λ e. (e.0 ≡ CallFault.Full) ⊎ (e.0 ≡ CallFault.Left)) }
        ensures back { IfErr result (λ e. (e.1 ≡ callback) × (held self.new ≡ held self.old)) }
        ensures same { same self.old self.new };

    /// Collects the oldest outcome: the oldest callback of its kind is called with its completion.
    /// None: no outcome can be collected, as the client's own `collect` says. The same callbacks are held.
    fn collect(&mut self, rt: &R) -> Option<Collected>
        ensures collected { IfSome result (λ told.
            Collects C.calls C.tag_of A.calls A.tag_of (held self.old) told (held self.new)) }
        ensures none { IfNone result (held self.new ≡ held self.old) }
        ensures returned { collects self.old result self.new }
        ensures same { same self.old self.new };

    /// Collects the oldest outcome if that is a request's, as `collect` does.
    /// None: no outcome can be collected, or it is a discovery's. The same callbacks are held.
    fn collect_request(&mut self, rt: &R) -> Option<Told>
        ensures collected { IfSome result (λ told.
            CollectsRequest C.calls C.tag_of (held self.old) told (held self.new)) }
        ensures none { IfNone result (held self.new ≡ held self.old) }
        ensures returned { collects self.old (option_map RequestTold result) self.new }
        ensures same { same self.old self.new };

    /// A client is the same as itself.
    ghost stays: { (a : Self) → same a a };

    /// It stays the same over several calls.
    ghost follows: { (a b c : Self) → same a b → same b c → same a c };
}
