//! How a run begins, and whether it fails.
ghost use Rattle.std.specs.Prelude.{◌≡◌, ◌↔◌, true, ◌<◌};
ghost use Rattle.rdm_wire.specs.Honest.Asked.{Unmute};
ghost use Rattle.rdm_explain.specs.Exchanges.{asked_of};
ghost use Rattle.rdm_explain.specs.Certificates.{FirstMissing, FirstWithout, NoFailure};

use crate::exchange::{Asked, Exchange};

// How many unmutes begin a run.
const UNMUTES: usize = 3;

/// A certificate's part: a run begins with three unmutes. The first of them, 0 to 2, that is another exchange, or that
/// isn't there. `None`: all are there.
pub fn first_missing_unmute(exchanges: &[Exchange]) -> Option<usize>
    ensures { FirstMissing exchanges.now result }
{
    for (at, exchange) in exchanges.iter().enumerate() {
        if at == UNMUTES {
            return None;
        }
        if !is_unmute(&exchange.asked) {
            return Some(at);
        }
    }
    if exchanges.len() < UNMUTES {
        Some(exchanges.len())
    } else {
        None
    }
}

fn is_unmute(asked: &Asked) -> bool
    ensures { (result ≡ true) ↔ (asked_of asked.now ≡ Unmute) }
{
    matches!(asked, Asked::Unmute)
}

/// A certificate's part: no exchange fails. The index of the first that does. `None`: none does.
pub fn first_failure(exchanges: &[Exchange]) -> Option<usize>
    ensures { FirstWithout NoFailure exchanges.now result }
{
    for (at, exchange) in exchanges.iter().enumerate() {
        if exchange.heard.is_failed() {
            return Some(at);
        }
    }
    None
}
