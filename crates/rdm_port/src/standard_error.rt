//! Standard error, for people: why something isn't done, what they should know about a file, and how many exchanges a
//! session or a discovery has made.
use crate::reason::Reason;
use rdm_arguments::Complaint;
use rdm_files::Remark;
use rdm_reports::Progress;
use std::io;
use std::rt::Clock;
use std::time::Instant;

/// Prints a reason. Err: the error of standard error, which may have received a prefix of the line.
pub fn print_reason(rt: &impl Eprint, reason: &Reason<'_>) -> io::Result<()> {
    eprintln!(rt; "wurstlinen: {reason}")
}

/// Prints what is wrong with arguments that fit no command, or the usage, if they ask for it. Err: the error of
/// standard error, which may have received a prefix of the text.
pub fn print_usage(rt: &impl Eprint, complaint: &Complaint<'_>) -> io::Result<()> {
    match complaint {
        Complaint::Help | Complaint::Version => eprintln!(rt; "{complaint}"),
        _ => eprintln!(rt; "wurstlinen: {complaint}"),
    }
}

// How often progress is reported.
const SECONDS: u64 = 2;

// How many exchanges are made before the clock is looked at: a simulated line makes thousands of them in a second, and
// a real one a few tens.
const SIMULATED: usize = 1000;

const REAL: usize = 100;

/// Prints each remark at once, and every two seconds how many exchanges a session or a discovery has made.
#[derive(Drop)]
pub struct Progressing<'a, R: Clock + Eprint> {
    rt: &'a R,
    // It may report at each multiple of this.
    every: usize,
    // When it began; none if there is no clock.
    began: Option<Instant>,
    // The seconds at which it reports next.
    next: u64,
}

impl<'a, R: Clock + Eprint> Progressing<'a, R> {
    /// On a simulated line, from now on. Without a clock nothing is reported.
    pub fn new(rt: &'a R) -> Progressing<'a, R> {
        Progressing::each(rt, SIMULATED)
    }

    /// On a line of the caller's own, from now on. Without a clock nothing is reported.
    pub fn on_line(rt: &'a R) -> Progressing<'a, R> {
        Progressing::each(rt, REAL)
    }

    fn each(rt: &'a R, every: usize) -> Progressing<'a, R> {
        Progressing {
            rt,
            every,
            began: Instant::now(rt).ok(),
            next: SECONDS,
        }
    }

    fn seconds(&self) -> Option<u64> {
        let began = self.began?;
        Some(began.elapsed(self.rt).ok()?.as_secs())
    }
}

impl<'a, R: Clock + Eprint> Progress for Progressing<'a, R> {
    fn remark(&mut self, remark: &Remark) {
        let _ = eprintln!(self.rt; "wurstlinen: {remark}");
    }

    fn report_exchanges(&mut self, exchanges: usize) {
        let Some(0) = exchanges.checked_rem(self.every) else {
            return;
        };
        let Some(seconds) = self.seconds() else {
            return;
        };
        if seconds < self.next {
            return;
        }
        self.next = seconds.saturating_add(SECONDS);
        let _ = eprintln!(self.rt; "wurstlinen: {exchanges} exchanges after {seconds} seconds");
    }
}
