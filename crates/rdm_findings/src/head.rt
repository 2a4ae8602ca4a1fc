//! What is known of a run beside its exchanges.
use crate::flaw::Flaw;
use rdm_agent::{AgentFault, Kind, Search};

/// With which exchange of a run a log begins to have it.
#[derive(Clone, Copy, Debug, PartialEq, Eq)]
pub enum Start {
    /// With the one that has this number, from 0. With another than 0, the log begins within the run.
    At(u64),
    /// With a later one than the first: an earlier log has the run's beginning.
    Later,
    /// That isn't known: the log may begin within the run.
    Unknown,
}

impl Start {
    ghost use Rattle.std.specs.Prelude.{◌≡◌};
    ghost use Rattle.rdm_findings.specs.Starts.{has_start, number_at};

    /// Whether the log has the run's beginning.
    pub(crate) fn is_first(self) -> bool
        ensures { result ≡ has_start self }
    {
        match self {
            Start::At(number) => number == 0,
            Start::Later | Start::Unknown => false,
        }
    }

    /// The number of the exchange at this index. If it isn't known, the log's first one counts as 0.
    pub(crate) fn number(self, at: usize) -> u64
        ensures { result ≡ number_at self at }
    {
        match self {
            Start::At(first) => first.wrapping_add(at as u64),
            Start::Later | Start::Unknown => at as u64,
        }
    }
}

/// What is known of a run beside its exchanges.
#[derive(Clone, Copy, Debug)]
pub struct RunHead {
    /// Its number in its session. `None`: it is a discovery's.
    pub number: Option<u64>,
    /// Its kind, if that is known.
    pub kind: Option<Kind>,
    /// How it searched, if that is known.
    pub search: Option<Search>,
    /// With which of its exchanges the log begins to have it.
    pub start: Start,
    /// How many frames it may send, if that is known.
    pub budget: Option<u64>,
    /// How it ended, if the log says so: its fault, or none.
    pub fault: Option<Option<AgentFault>>,
    /// Why the first bytes that are no right answer to a mute, or to a branch of one UID alone, are none; if there are
    /// any.
    pub flaw: Option<Flaw>,
}
