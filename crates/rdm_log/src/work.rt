//! What a client wants of a queue.
use crate::entry::{Call, Cause, ClientId, Entry};
use crate::fault::WorkFault;
use rdm_agent::Kind;
use rdm_wire::Request;

/// What a client wants: a request's answer, or a discovery.
#[derive(Debug, Drop)]
pub enum Work {
    /// This request is to be sent.
    Submit(Request),
    /// A discovery of this kind is to be made.
    Discover(Kind),
}

impl Work {
    ghost use Rattle.std.specs.Prelude.{◌≡◌};
    ghost use Rattle.rdm_wire.specs.declared.request.Request.{Request};
    ghost use Rattle.rdm_log.specs.declared.work.Work.TheVariants.{Submit};
    ghost use Rattle.rdm_log.specs.promises.Blocks.{work_accepted, work_refused};

    /// The same work again. It allocates nothing.
    pub fn copied(&self) -> Work
        ensures { result ≡ self.now }
    {
        match self {
            Work::Submit(request) => Work::Submit(request.copied()),
            Work::Discover(kind) => Work::Discover(*kind),
        }
    }

    /// The request that it submits. It must submit one.
    pub fn into_request(self) -> Request
        requires { (request : Request) × (self ≡ Submit request) }
        ensures { self ≡ Submit result }
    {
        match self {
            Work::Submit(request) => request,
            Work::Discover(_) => unreachable!(),
        }
    }

    /// The entry that says that it was accepted from a client under this number.
    pub fn accepted(self, client: ClientId, number: u64) -> Entry
        ensures { result ≡ work_accepted client number self }
    {
        match self {
            Work::Submit(request) => Entry::Accept {
                client,
                number,
                request,
            },
            Work::Discover(kind) => Entry::Ask {
                client,
                number,
                kind,
            },
        }
    }

    /// The entry that says that it was refused to a client because of this fault.
    pub fn refused(self, client: ClientId, fault: WorkFault) -> Entry
        ensures { result ≡ work_refused client self fault }
    {
        Entry::Refuse {
            client: Some(client),
            call: match self {
                Work::Submit(request) => Call::Submit(request),
                Work::Discover(kind) => Call::Discover(kind),
            },
            cause: Cause(fault.number()),
        }
    }
}
