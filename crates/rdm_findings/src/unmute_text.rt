//! What is printed about bytes after an unmute. No device may answer one, since it is for all.
ghost use Rattle.std.specs.Prelude.{◌≡◌, ◌++◌, OnOk};
ghost use Rattle.std.specs.List.{position};
ghost use Rattle.rdm_findings.specs.UnmuteText.{answered_at, answered_finding, answers_unmute, is_answered_unmute};
ghost use Rattle.rdm_findings.specs.UnmuteText.{is_loud};

use crate::form::{Form, Judgement};
use crate::head::Start;
use crate::writing::write_exchange_finding;
use rdm_explain::{Asked, Exchange, Heard};
use std::alloc::AllocError;

/// Writes the finding about the first unmute that was answered, if there is one.
pub(crate) fn write_answered(
    text: &mut Vec<u8>,
    form: Form,
    start: Start,
    exchanges: &[Exchange],
) -> Result<(), AllocError>
    ensures { OnOk result (text.new.items ≡ text.old.items ++ answered_finding form start exchanges.now) }
{
    write_answered_at(text, form, start, first_answered(exchanges))
}

const ANSWERED: &str = ": bytes came after an unmute, which no device may answer";

fn write_answered_at(
    text: &mut Vec<u8>,
    form: Form,
    start: Start,
    at: Option<usize>,
) -> Result<(), AllocError>
    ensures { OnOk result (text.new.items ≡ text.old.items ++ answered_at form start at) }
{
    match at {
        Some(at) => {
            write_exchange_finding(text, form, Judgement::Answered, start.number(at), ANSWERED)
        }
        None => Ok(()),
    }
}

/// The first unmute after which bytes came.
pub(crate) fn first_answered(exchanges: &[Exchange]) -> Option<usize>
    ensures { result ≡ position is_answered_unmute exchanges.now }
{
    exchanges.iter().position(is_answered_unmute)
}

fn is_answered_unmute(exchange: &Exchange) -> bool
    ensures { result ≡ is_answered_unmute exchange.now }
{
    match exchange.asked {
        Asked::Unmute => is_loud(&exchange.heard),
        _ => false,
    }
}

fn is_loud(heard: &Heard) -> bool
    ensures { result ≡ is_loud heard.now }
{
    !matches!(heard, Heard::Failed | Heard::Silent)
}
