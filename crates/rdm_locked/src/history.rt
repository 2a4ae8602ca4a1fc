//! What each client called and got. It exists only in proofs: one half is in the mutex, and the other is the client's.
ghost use Rattle.std.specs.Prelude.{◌≡◌};

use rdm_ledger::{Named, Shows};
use rdm_log::{ClientId, Completion, DiscoveryEnd, Entry, Outcome, Work, WorkFault};
use rdm_queue::TakesDevices;
use std::marker::{Brand, Model, PhantomData};
use std::snapshot::Snapshot;

/// Which port it is. The program picks it as [`Brand`] in the call that opens the port.
pub trait Ledger: std::sync::ledger::Ledger + Named {}

impl Ledger for Brand {}

/// What a port is opened with: a book with this many parts, and lists, which no type names yet. Contracts see their
/// names.
#[derive(Drop)]
pub struct Blank {
    pub(crate) calls: std::sync::ledger::Blank,
    pub(crate) lists: rdm_ledger::Blank,
}

impl Model for Blank {
    ghost use Rattle.rdm_locked.specs.Openings.{BlankNames};

    ghost Value = { BlankNames };

    ghost view = { λ b. record { name = b.calls.name; parts = b.calls.parts; lists = b.lists.name } };
}

impl Blank {
    /// A new book with this many parts, and lists. It allocates nothing.
    pub fn new(parts: u64) -> Blank
        ensures { result.parts ≡ parts }
    {
        Blank {
            calls: std::sync::ledger::Blank::new(parts),
            lists: rdm_ledger::Blank::new(),
        }
    }
}

/// A client's call that is in the log. Only contracts speak of it, and no value of it is made.
pub struct LoggedCall {
    /// The call's entry.
    pub entry: Entry,
    /// The outcome, if it collected one.
    pub outcome: Option<Outcome>,
}

// How work that was accepted or refused is logged.
pub(crate) struct Accepted;

impl Shows<ClientId, Snapshot<Work>, Result<u64, (WorkFault, Work)>, LoggedCall> for Accepted {
    ghost use Rattle.rdm_log.specs.promises.Blocks.{number_or_fault};
    ghost use Rattle.rdm_locked.specs.Clients.{logged};

    ghost shown = { λ client work answer. logged client work.value (number_or_fault answer) };
}

// How a request's outcome is logged that was collected.
pub(crate) struct Completed;

impl Shows<ClientId, (u64, Completion), (), LoggedCall> for Completed {
    ghost use Rattle.std.specs.Prelude.{[], ◌∷◌};
    ghost use Rattle.rdm_log.specs.promises.Outcomes.{request_outcome};
    ghost use Rattle.rdm_locked.specs.Clients.{got};

    ghost shown = { λ client outcome nothing. got client (request_outcome outcome) ∷ [] };
}

// How a discovery's outcome is logged that was collected, with the devices that this memory took.
pub(crate) struct Ended<T: TakesDevices> {
    of: PhantomData<T>,
}

impl<T: TakesDevices> Shows<ClientId, DiscoveryEnd, T, LoggedCall> for Ended<T> {
    ghost use Rattle.std.specs.Prelude.{[], ◌∷◌};
    ghost use Rattle.rdm_log.specs.promises.Outcomes.{discovery_outcome};
    ghost use Rattle.rdm_locked.specs.Clients.{got};

    ghost shown = { λ client end set. got client (discovery_outcome end (T.devices set)) ∷ [] };
}

// A mark behind a client's calls, which is none of them.
pub(crate) struct Mark;

impl Shows<(), (), (), LoggedCall> for Mark {
    ghost use Rattle.std.specs.Prelude.{[], ◌∷◌};
    ghost use Rattle.rdm_log.specs.declared.entry.Entry.TheVariants.{Close};
    ghost use Rattle.rdm_locked.specs.Clients.{called};

    ghost shown = { λ x y z. called Close ∷ [] };
}
