//! How a piece of work is timed, and how that is reported.
use std::alloc::Global;
use std::rt::Files;
use std::time::CpuClock;

// How many samples are timed. It is odd, so one is in the middle.
const SAMPLES: usize = 21;

/// Work that is timed.
pub trait Sample {
    /// Does the work once, and returns how many steps that were. None: a call didn't return what it should.
    fn perform(&mut self) -> Option<u64>;
}

/// What times work, and prints lines.
pub trait Times: CpuClock + Print + Eprint {}

impl<R: CpuClock + Print + Eprint> Times for R {}

/// What prints lines, and reads how much memory the process holds.
pub trait Prints: Files + AllocGlobal + Print + Eprint {}

impl<R: Files + AllocGlobal + Print + Eprint> Prints for R {}

/// What is measured, and how each piece of work is timed.
#[derive(Drop)]
pub struct Bench<'a, R> {
    /// The clock, and where lines are printed.
    pub rt: &'a R,
    /// Where memory comes from.
    pub alloc: Global,
    /// The size of the subject.
    pub size: usize,
    /// How often a sample repeats its work.
    pub rounds: usize,
}

/// Some only if this holds.
pub fn holds(it: bool) -> Option<()> {
    if it { Some(()) } else { None }
}

impl<R> Bench<'_, R> {
    /// How often all samples together repeat their work.
    pub fn repeats(&self) -> usize {
        self.rounds.wrapping_mul(SAMPLES)
    }
}

impl<R: Times> Bench<'_, R> {
    /// Times this work. How many steps a sample has goes to standard output. The processor time of a step goes to
    /// standard error, in picoseconds: that of the sample in the middle, and that of the fastest one.
    pub fn time<S: Sample>(&self, work: &str, sample: &mut S) -> Option<()> {
        let mut times = [0; SAMPLES];
        let mut steps: u64 = 0;
        for time in times.iter_mut() {
            let (each, count) = self.sample(sample)?;
            *time = each;
            steps = count;
        }
        times.sort_unstable();
        let (rt, middle, least) = (self.rt, times[SAMPLES / 2], times[0]);
        println!(rt; "{work}: {steps}").ok()?;
        eprintln!(rt; "{work}: {middle} ps each, {least} at least").ok()
    }

    // The processor time of a sample's step in picoseconds, and how many steps it has.
    fn sample<S: Sample>(&self, sample: &mut S) -> Option<(u64, u64)> {
        let began = self.now()?;
        let mut steps: u64 = 0;
        for _ in 0..self.rounds {
            steps = steps.wrapping_add(sample.perform()?);
        }
        let time = self.now()?.saturating_sub(began);
        let steps = steps.max(1);
        Some((time.saturating_mul(1_000) / steps, steps))
    }

    // The processor time of this process so far, in nanoseconds.
    fn now(&self) -> Option<u64> {
        let time = self.rt.process_cpu_time().ok()?;
        let seconds = time.as_secs().wrapping_mul(1_000_000_000);
        Some(seconds.wrapping_add(u64::from(time.subsec_nanos())))
    }
}
