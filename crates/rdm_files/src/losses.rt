//! Losses of five exchanges in a row, which an honest line never has.
ghost use Rattle.std.specs.Prelude.{◌≡◌, ◌+◌, ◌<◌, ℕ, false, true, IfOk, IfSome, IfNone};
ghost use Rattle.std.specs.List.Sorted.{IsPermutation, IsNonDecreasing};
ghost use Rattle.rdm_wire.specs.Uid.{has};
ghost use Rattle.rdm_line.specs.SimSteps.{NoFiveSuccessive};
ghost use Rattle.rdm_files.specs.Losses.{IsFirstOfFive};
ghost use Rattle.rdm_files.specs.body.Losses.{has_five};

use std::alloc::{AllocError, Global};

/// The first of five consecutive numbers that are all among these. They may be in any order, and have repeats. If there
/// are several such numbers, the least is returned. None: no five are consecutive, so a line with these losses is
/// honest.
///
/// Err: out of memory.
pub fn five_losses(alloc: Global, losses: &[u64]) -> Result<Option<u64>, AllocError>
    ensures some { IfOk result (λ found. IfSome found (IsFirstOfFive losses.now)) }
    ensures none { IfOk result (λ found. IfNone found (NoFiveSuccessive losses.now)) }
{
    let sorted = ascending(alloc, losses)?;
    Ok(first_of_five(&sorted))
}

// The same numbers in ascending order.
fn ascending(alloc: Global, numbers: &[u64]) -> Result<Vec<u64>, AllocError>
    ensures same { IfOk result (λ v. IsPermutation numbers.now v.items) }
    ensures ascending { IfOk result (λ v. IsNonDecreasing v.items) }
{
    let mut sorted = Vec::from_slice(alloc, numbers)?;
    sorted.sort_unstable();
    Ok(sorted)
}

fn first_of_five(sorted: &[u64]) -> Option<u64>
    requires { IsNonDecreasing sorted.now }
    ensures some { IfSome result (IsFirstOfFive sorted.now) }
    ensures none { IfNone result (NoFiveSuccessive sorted.now) }
{
    'ends: for i in 0..sorted.len() {
        if let Some(first) = five_to(sorted, sorted[i]) {
            return Some(first);
        }
    }
    None
}

// The first of the five consecutive numbers that end with this one, if all are in the list.
fn five_to(sorted: &[u64], end: u64) -> Option<u64>
    requires { IsNonDecreasing sorted.now }
    ensures some { IfSome result (λ first. (first + 4 ≡ end) × (has_five sorted.now first ≡ true)) }
    ensures none { IfNone result ((first : ℕ) → first + 4 ≡ end → has_five sorted.now first ≡ false) }
{
    if end < 4 {
        return None;
    }
    let first = end - 4;
    if has_five(sorted, first) {
        Some(first)
    } else {
        None
    }
}

// Whether the five consecutive numbers from this one on are all in the list.
fn has_five(sorted: &[u64], first: u64) -> bool
    requires sorted { IsNonDecreasing sorted.now }
    requires fits { first + 4 < 18446744073709551616 }
    ensures { result ≡ has_five sorted.now first }
{
    has(sorted, first)
        && has(sorted, first + 1)
        && has(sorted, first + 2)
        && has(sorted, first + 3)
        && has(sorted, first + 4)
}

fn has(sorted: &[u64], number: u64) -> bool
    requires { IsNonDecreasing sorted.now }
    ensures { result ≡ has sorted.now number }
{
    sorted.binary_search(&number).is_ok()
}
