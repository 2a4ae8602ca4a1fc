//! Which devices broke a rule of an honest line, where first, and which rule.
ghost use Rattle.std.specs.Prelude.{◌≡◌, IfOk};
ghost use Rattle.rdm_explain.specs.Exchanges.{seen_of};
ghost use Rattle.rdm_explain.specs.Rules.{AreFirstBreaches, uids_of_findings};
ghost use Rattle.rdm_explain.specs.body.Watching.{rule_by};

use crate::exchange::{Asked, Exchange, Heard};
use crate::watch::{findings, hear_all, watch_all};
use rdm_wire::{NoMemory, Uid};
use std::alloc::Global;

/// A rule of a line that is honest to a device. Such a line loses at most four replies of that device in a row. On an
/// honest line the losses of all devices count together, so a line may not be honest although each followed the rules.
#[derive(Clone, Copy, Debug, PartialEq, Eq)]
pub enum Rule {
    /// Five branches in a row of ranges with its UID were silent, although it was unmuted.
    SilentBranches,
    /// Five mutes of it in a row were silent.
    SilentMutes,
    /// A mute of it was answered by bytes that don't acknowledge it. They may be another device's.
    GarbledMute,
}

/// The first exchange with which the line wasn't honest to a device.
#[derive(Clone, Copy, Debug, PartialEq, Eq)]
pub struct Breach {
    /// The index of the exchange. The first has 0.
    pub at: usize,
    /// The rule that it breaks.
    pub rule: Rule,
}

/// What the exchanges show of a device that is on the line during the whole run. About others it says nothing.
#[derive(Clone, Copy, Debug)]
pub struct DeviceFinding {
    /// The device.
    pub uid: Uid,
    /// Where it first broke a rule. `None`: it followed the rules.
    pub breach: Option<Breach>,
}

/// The rule that an exchange breaks, if it breaks one.
pub(crate) fn rule_by(exchange: &Exchange) -> Rule
    ensures { result ≡ rule_by (seen_of exchange.now) }
{
    match (exchange.asked, exchange.heard) {
        (Asked::Branch { .. }, _) => Rule::SilentBranches,
        (_, Heard::Silent) => Rule::SilentMutes,
        _ => Rule::GarbledMute,
    }
}

/// For each device of a list, in order, the first exchange that breaks a rule towards it. One pass serves all
/// devices; each of them hears each exchange. Nothing that follows a failure of the line breaks a rule. The only error:
/// out of memory.
///
/// The list has UIDs of devices that are on the line during the whole run. A finding says nothing about a device that
/// came or left. This is for runs of this project's agent, or of another that sends no mute to several devices and no
/// unmute to one.
pub fn first_breaches(
    alloc: Global,
    uids: &[Uid],
    exchanges: &[Exchange],
) -> Result<Vec<DeviceFinding>, NoMemory>
    ensures devices { IfOk result (λ found. uids_of_findings found.items ≡ uids.now) }
    ensures first { IfOk result (λ found. AreFirstBreaches exchanges.now found.items) }
{
    let mut watches = watch_all(alloc, uids)?;
    for (at, exchange) in exchanges.iter().enumerate() {
        hear_all(&mut watches, at, exchange);
    }
    findings(alloc, &watches)
}
