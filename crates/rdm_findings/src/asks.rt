//! What a session's log shows of the discoveries that its next run serves.
ghost use Rattle.std.specs.Prelude.{◌≡◌};
ghost use Rattle.rdm_findings.specs.Asked.{earlier, run_after};

use crate::head::Start;
use rdm_agent::Kind;

/// What a session's log shows so far of its discoveries and of its runs.
#[derive(Clone, Copy)]
pub(crate) struct Asks {
    /// The first discovery of which the log has the request, if that is known.
    pub(crate) first: Option<u64>,
    /// Each run that is still to come has its beginning in the log if its number isn't below this one. `None`: that
    /// isn't known.
    pub(crate) first_run: Option<u64>,
    /// The last full discovery that was asked for.
    pub(crate) full: Option<u64>,
    /// The last discovery that was answered.
    pub(crate) answered: Option<u64>,
}

/// Nothing is known.
pub(crate) const NO_ASKS: Asks = Asks {
    first: None,
    first_run: None,
    full: None,
    answered: None,
};

impl Asks {
    ghost use Rattle.std.specs.Prelude.{◌≡◌};
    ghost use Rattle.rdm_findings.specs.Asked.{asks_from, is_answered, has_all_waiting, full_waits, next_kind};
    ghost use Rattle.rdm_findings.specs.Asked.{start_of, kind_of_run, after_ask, after_answer, after_run};

    /// A log continues a session in which so many discoveries were asked for, and whose next run has this number.
    pub(crate) fn from(ask: u64, run: u64) -> Asks
        ensures { result ≡ asks_from ask run }
    {
        Asks {
            first: Some(ask),
            first_run: Some(run),
            full: None,
            answered: None,
        }
    }

    /// Whether a discovery was answered: they are answered in the order of their numbers.
    pub(crate) fn is_answered(self, number: u64) -> bool
        ensures { result ≡ is_answered number self.answered }
    {
        match self.answered {
            Some(last) => number <= last,
            None => false,
        }
    }

    // Whether the log has the request of each discovery that waits for its answer.
    fn has_all_waiting(self) -> bool
        ensures { result ≡ has_all_waiting self }
    {
        match self.first {
            Some(first) => first == 0 || self.is_answered(first - 1),
            None => false,
        }
    }

    // Whether a full discovery waits for its answer.
    fn full_waits(self) -> bool
        ensures { result ≡ full_waits self }
    {
        match self.full {
            Some(number) => !self.is_answered(number),
            None => false,
        }
    }

    // The kind of a run that begins now, if that is known.
    fn next_kind(self) -> Option<Kind>
        ensures { result ≡ next_kind self }
    {
        if self.full_waits() {
            Some(Kind::Full)
        } else if self.has_all_waiting() {
            Some(Kind::Incremental)
        } else {
            None
        }
    }

    /// With which exchange the log begins to have the run with this number.
    pub(crate) fn start_of(self, run: u64) -> Start
        ensures { result ≡ start_of run self }
    {
        match self.first_run {
            Some(first) => {
                if run < first {
                    Start::Later
                } else {
                    Start::At(0)
                }
            }
            None => Start::Unknown,
        }
    }

    /// The kind of the run with this number, whose first frame in the log comes now, if that is known.
    pub(crate) fn kind_of_run(self, run: u64) -> Option<Kind>
        ensures { result ≡ kind_of_run run self }
    {
        if self.start_of(run).is_first() {
            self.next_kind()
        } else {
            None
        }
    }

    /// A discovery is asked for.
    pub(crate) fn ask(&mut self, number: u64, kind: Kind)
        ensures { self.new ≡ after_ask number kind self.old }
    {
        self.first = earlier(self.first, number);
        if number == 0 {
            self.first_run = earlier(self.first_run, 1);
        }
        if kind == Kind::Full {
            self.full = Some(number);
        }
    }

    /// A discovery is answered by the run with this number.
    pub(crate) fn answer(&mut self, number: u64, run: u64)
        ensures { self.new ≡ after_answer number run self.old }
    {
        self.answered = Some(number);
        if self.first_run.is_none() {
            self.first_run = run_after(run);
        }
    }

    /// The first frame of a run in the log.
    pub(crate) fn run(&mut self, number: u64)
        ensures { self.new ≡ after_run number self.old }
    {
        self.first_run = earlier(self.first_run, number);
    }
}

// The number of the run after one that has ended, if there can be one.
fn run_after(run: u64) -> Option<u64>
    ensures { result ≡ run_after run }
{
    if run == 0 || run == u64::MAX {
        None
    } else {
        Some(run + 1)
    }
}

// The number that is there, or else this one.
fn earlier(there: Option<u64>, number: u64) -> Option<u64>
    ensures { result ≡ earlier there number }
{
    match there {
        Some(first) => Some(first),
        None => Some(number),
    }
}
