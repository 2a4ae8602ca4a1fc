//! Which UIDs the exchanges of a run cover.
ghost use Rattle.std.specs.Prelude.{◌≡◌, ◌+◌, ◌<◌, ◌≤◌, ◌^◌, ◌++◌, ◌∷◌, [], IfOk, nat_le, if◌then◌else◌};
ghost use Rattle.rdm_explain.specs.declared.cover.Stretch.{Stretch};
ghost use Rattle.std.specs.List.Sorted.{IsNonDecreasingBy};
ghost use Rattle.rdm_explain.specs.Exchanges.{seen_all, seen_of};
ghost use Rattle.rdm_explain.specs.Covers.{FirstUncovered, LastUncovered};
ghost use Rattle.rdm_explain.specs.body.Covering.{cover_of, cover_start, covered_after, silence_after};
ghost use Rattle.rdm_explain.specs.body.Covering.{acked_after, cover_state, nearer, IsIn, FirstGap, GapEnd};

use crate::exchange::{Asked, Exchange};
use rdm_wire::{NoMemory, Uid};
use std::alloc::Global;

// How often a branch of a range must be silent in a row.
const TRIES: u64 = 5;

// The number after the greatest UID.
const END: u64 = 0x1_0000_0000_0000;

/// The UIDs from `lo` to `hi`.
#[derive(Clone, Copy, Drop)]
pub(crate) struct Stretch {
    /// The least.
    pub(crate) lo: Uid,
    /// The greatest.
    pub(crate) hi: Uid,
}

/// What the exchanges so far show: the last `count` of them were silent branches of `lo` to `hi`, and what they cover.
#[derive(Drop)]
pub(crate) struct Cover {
    lo: Uid,
    hi: Uid,
    count: u64,
    /// What they cover.
    pub(crate) covered: Vec<Stretch>,
}

impl Cover {
    /// Before the first exchange.
    pub(crate) fn new(alloc: Global) -> Cover
        ensures { cover_of result ≡ cover_start }
    {
        Cover {
            lo: Uid::ALL,
            hi: Uid::ALL,
            count: 0,
            covered: Vec::new(alloc),
        }
    }

    /// After an exchange.
    pub(crate) fn after(self, exchange: &Exchange) -> Result<Cover, NoMemory>
        requires { self.count < 2 ^ 63 }
        ensures next { IfOk result (λ c. cover_of c ≡ covered_after (cover_of self) (seen_of exchange.now)) }
        ensures count { IfOk result (λ c. c.count ≤ self.count + 1) }
    {
        match exchange.asked {
            Asked::Branch { lo, hi } if exchange.heard.is_silent() => self.after_silence(lo, hi),
            Asked::Mute(uid) if exchange.heard.is_acked() => self.after_ack(uid),
            _ => Ok(Cover {
                lo: self.lo,
                hi: self.hi,
                count: 0,
                covered: self.covered,
            }),
        }
    }

    // After a silent branch.
    fn after_silence(self, lo: Uid, hi: Uid) -> Result<Cover, NoMemory>
        requires { self.count < 2 ^ 63 }
        ensures next { IfOk result (λ c. cover_of c ≡ silence_after (cover_of self) lo hi) }
        ensures count { IfOk result (λ c. c.count ≤ self.count + 1) }
    {
        let count = if lo == self.lo && hi == self.hi {
            self.count + 1
        } else {
            1
        };
        let covered = if TRIES <= count {
            with(self.covered, Stretch { lo, hi })?
        } else {
            self.covered
        };
        Ok(Cover {
            lo,
            hi,
            count,
            covered,
        })
    }

    // After an acknowledged mute.
    fn after_ack(self, uid: Uid) -> Result<Cover, NoMemory>
        ensures next { IfOk result (λ c. cover_of c ≡ acked_after (cover_of self) uid) }
        ensures count { IfOk result (λ c. c.count ≡ 0) }
    {
        let covered = with(self.covered, Stretch { lo: uid, hi: uid })?;
        Ok(Cover {
            lo: self.lo,
            hi: self.hi,
            count: 0,
            covered,
        })
    }
}

// The stretches with another one at the end.
fn with(stretches: Vec<Stretch>, stretch: Stretch) -> Result<Vec<Stretch>, NoMemory>
    ensures { IfOk result (λ v. v.items ≡ stretches.items ++ stretch ∷ []) }
{
    let mut more = stretches;
    match more.push(stretch) {
        Ok(()) => Ok(more),
        Err(_) => Err(NoMemory),
    }
}

// The least number that isn't below `next` and not up to `hi`.
fn after_stretch(next: u64, hi: u64) -> u64
    requires { hi < 2 ^ 48 }
    ensures { result ≡ (if nat_le next hi then hi + 1 else next) }
{
    if next <= hi { hi + 1 } else { next }
}

// The least UID in none of these stretches, which ascend by their lower bounds.
fn first_gap(stretches: &[Stretch]) -> Option<Uid>
    requires { IsNonDecreasingBy (λ (s : Stretch). s.lo) stretches.now }
    ensures { FirstGap stretches.now result }
{
    let mut next = 0;
    for stretch in stretches {
        let (lo, hi) = (stretch.lo.number(), stretch.hi.number());
        if next < lo {
            return Uid::from_number(next);
        }
        next = after_stretch(next, hi);
    }
    if next < END {
        Uid::from_number(next)
    } else {
        None
    }
}

// The nearer one of two numbers that end a gap after `first`, if a stretch begins by `lo`.
fn nearer(first: u64, lo: u64, hi: u64, next: u64) -> u64
    ensures { result ≡ nearer first lo hi next }
{
    if first < lo && (lo <= hi && lo < next) {
        lo
    } else {
        next
    }
}

// The last of the UIDs in a row from this one that are in none of these stretches.
fn gap_end(stretches: &[Stretch], first: Uid) -> Option<Uid>
    requires { IsIn stretches.now first → ⊥ }
    ensures { GapEnd stretches.now first result }
{
    let from = first.number();
    let mut next = END;
    for stretch in stretches {
        next = nearer(from, stretch.lo.number(), stretch.hi.number(), next);
    }
    Uid::from_number(next - 1)
}

// What the exchanges cover.
fn covered(alloc: Global, exchanges: &[Exchange]) -> Result<Vec<Stretch>, NoMemory>
    ensures { IfOk result (λ v. v.items ≡ (cover_state (seen_all exchanges.now)).covered) }
{
    let mut cover = Cover::new(alloc);
    for exchange in exchanges {
        cover = cover.after(exchange)?;
    }
    Ok(cover.covered)
}

/// The least UID that the exchanges don't cover. They cover a UID that was acknowledged, or that is in a range that was
/// branched five times in a row without a byte. `None`: they cover all of the 2^48 UIDs. The only error: out of memory.
pub fn first_uncovered(alloc: Global, exchanges: &[Exchange]) -> Result<Option<Uid>, NoMemory>
    ensures { IfOk result (λ found. FirstUncovered exchanges.now found) }
{
    let mut covered = covered(alloc, exchanges)?;
    covered.sort_unstable_by_key(|stretch| stretch.lo.number());
    Ok(first_gap(&covered))
}

/// The last of the UIDs in a row, from this first one on, that the exchanges don't cover. The only error: out of
/// memory.
pub fn last_uncovered(
    alloc: Global,
    first: Option<Uid>,
    exchanges: &[Exchange],
) -> Result<Option<Uid>, NoMemory>
    requires { FirstUncovered exchanges.now first }
    ensures { IfOk result (λ last. LastUncovered exchanges.now first last) }
{
    match first {
        Some(first) => last_after(alloc, first, exchanges),
        None => Ok(None),
    }
}

fn last_after(alloc: Global, first: Uid, exchanges: &[Exchange]) -> Result<Option<Uid>, NoMemory>
    requires { FirstUncovered exchanges.now (Some first) }
    ensures { IfOk result (λ last. LastUncovered exchanges.now (Some first) last) }
{
    let covered = covered(alloc, exchanges)?;
    Ok(gap_end(&covered, first))
}
