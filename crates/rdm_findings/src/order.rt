//! What to do about a run, if no line about bytes that no honest line allows says it.
ghost use Rattle.std.specs.Prelude.{◌≡◌, ◌++◌, OnOk, slice_get};
ghost use Rattle.std.specs.List.{find};
ghost use Rattle.rdm_findings.specs.Forms.{finding};
ghost use Rattle.rdm_findings.specs.Orders.{again_order, breach_order, broken_order, device_order, first_order};
ghost use Rattle.rdm_findings.specs.Orders.{has_breach, has_order, is_irregular, late_order, of_order, off_order};
ghost use Rattle.rdm_findings.specs.Orders.{or_order, order_by_sign, order_finding, order_of, order_text, order_uid};
ghost use Rattle.rdm_findings.specs.Orders.{order_with_stray, rule_order, staying_order, stray_order};
ghost use Rattle.rdm_findings.specs.Orders.{unfailed_order};

use crate::blame::is_passing;
use crate::device_text::is_noticed;
use crate::ending::{decides_stray, is_known_complete};
use crate::explaining::Findings;
use crate::form::{About, Form, Judgement, begin, end};
use crate::gap_text::hear_nothing;
use crate::head::RunHead;
use crate::stray_bytes::{Sign, sign_of};
use crate::unmute_text::first_answered;
use crate::writing::{write, write_around};
use rdm_explain::{DeviceFinding, Exchange, KnownFinding, Rule, Sighting};
use rdm_wire::Uid;
use std::alloc::AllocError;

/// What to do about a run.
#[derive(Clone, Copy)]
pub(crate) enum Order {
    /// Nothing, or what another line says.
    Nothing,
    /// Take this one off the line.
    Off(Uid),
    /// Name this one as present.
    Name(Uid),
    /// Look for noise and other devices.
    Look,
    /// Check the devices that didn't answer.
    Check,
    /// Check the adapter and the cable.
    Adapter,
    /// Look for noise, or split the line.
    Noise,
    /// Discover again.
    Again,
}

/// Writes the last finding of a run, if there is anything to do that no other line says.
pub(crate) fn write_order(
    text: &mut Vec<u8>,
    form: Form,
    head: &RunHead,
    exchanges: &[Exchange],
    found: &Findings,
) -> Result<(), AllocError>
    ensures { OnOk result (text.new.items ≡ text.old.items
        ++ order_finding form (order_of head.now exchanges.now found.now)) }
{
    write_found(text, form, order_of(head, exchanges, found))
}

fn write_found(text: &mut Vec<u8>, form: Form, order: Order) -> Result<(), AllocError>
    ensures { OnOk result (text.new.items ≡ text.old.items ++ order_finding form order) }
{
    match order {
        Order::Nothing => Ok(()),
        Order::Off(uid) => write_some(text, form, &Order::Off(uid)),
        Order::Name(uid) => write_some(text, form, &Order::Name(uid)),
        Order::Look => write_some(text, form, &Order::Look),
        Order::Check => write_some(text, form, &Order::Check),
        Order::Adapter => write_some(text, form, &Order::Adapter),
        Order::Noise => write_some(text, form, &Order::Noise),
        Order::Again => write_some(text, form, &Order::Again),
    }
}

fn write_some(text: &mut Vec<u8>, form: Form, order: &Order) -> Result<(), AllocError>
    ensures { OnOk result (text.new.items ≡ text.old.items
        ++ finding form (of_order order.now) (order_text order.now)) }
{
    begin(text, form, &about(order))?;
    write_words(text, order)?;
    end(text, form)
}

fn about(order: &Order) -> About
    ensures { result ≡ of_order order.now }
{
    About {
        judgement: Judgement::Order,
        uid: order_uid(order),
        exchange: None,
    }
}

// The UID that it names.
fn order_uid(order: &Order) -> Option<Uid>
    ensures { result ≡ order_uid order.now }
{
    match order {
        Order::Off(uid) => Some(*uid),
        Order::Name(uid) => Some(*uid),
        _ => None,
    }
}

fn write_words(text: &mut Vec<u8>, order: &Order) -> Result<(), AllocError>
    ensures { OnOk result (text.new.items ≡ text.old.items ++ order_text order.now) }
{
    match order {
        Order::Nothing => Ok(()),
        Order::Off(uid) => write_around(
            text,
            "what to do: take ",
            *uid,
            " off the line and discover again",
        ),
        Order::Name(uid) => write_around(
            text,
            "what to do: name ",
            *uid,
            " by --present, if your rig has it",
        ),
        Order::Look => write(text, LOOK),
        Order::Check => write(text, CHECK),
        Order::Adapter => write(text, "what to do: check the adapter and the cable"),
        Order::Noise => write(text, "what to do: look for noise, or split the line"),
        Order::Again => write(text, AGAIN),
    }
}

const LOOK: &str =
    "what to do: look for noise, a device that isn't listed, or one that answers when it should be silent";

const CHECK: &str =
    "what to do: check the power, the cable and the UID of each device that didn't answer, and that RDM is on";

const AGAIN: &str =
    "what to do: discover again; if this comes again, suspect the controller or its log";

// What to do, if no other line says it.
fn order_of(head: &RunHead, exchanges: &[Exchange], found: &Findings) -> Order
    ensures { result ≡ order_of head.now exchanges.now found.now }
{
    if found.certificate.failure.is_some() {
        Order::Adapter
    } else {
        unfailed_order(head, exchanges, found)
    }
}

// The same, if no exchange failed.
fn unfailed_order(head: &RunHead, exchanges: &[Exchange], found: &Findings) -> Order
    ensures { result ≡ unfailed_order head.now exchanges.now found.now }
{
    if has_order(head, exchanges, found) {
        Order::Nothing
    } else {
        first_order(head, exchanges, found)
    }
}

// Whether another line has an order.
fn has_order(head: &RunHead, exchanges: &[Exchange], found: &Findings) -> bool
    ensures { result ≡ has_order head.now exchanges.now found.now }
{
    found.garbled.is_some() || (decides_stray(head, &found.certificate) && hear_nothing(exchanges))
}

fn first_order(head: &RunHead, exchanges: &[Exchange], found: &Findings) -> Order
    ensures { result ≡ first_order head.now exchanges.now found.now }
{
    let decided = decides_stray(head, &found.certificate);
    let stray = stray_order(decided, &found.due, exchanges, found.stray);
    let first = order_with_stray(decided, found, staying_order(found, stray));
    or_order(first, late_order(head, exchanges, found))
}

// An order, but none to take a device off the line that comes or leaves.
fn staying_order(found: &Findings, order: Order) -> Order
    ensures { result ≡ staying_order found.now order }
{
    match order {
        Order::Off(uid) => {
            if is_passing(found, uid) {
                Order::Look
            } else {
                Order::Off(uid)
            }
        }
        Order::Nothing => Order::Nothing,
        Order::Name(uid) => Order::Name(uid),
        Order::Look => Order::Look,
        Order::Check => Order::Check,
        Order::Adapter => Order::Adapter,
        Order::Noise => Order::Noise,
        Order::Again => Order::Again,
    }
}

// About an unmute that was answered, or else a run that isn't regular.
fn late_order(head: &RunHead, exchanges: &[Exchange], found: &Findings) -> Order
    ensures { result ≡ late_order head.now exchanges.now found.now }
{
    if first_answered(exchanges).is_some() {
        Order::Noise
    } else {
        again_order(head, found)
    }
}

fn again_order(head: &RunHead, found: &Findings) -> Order
    ensures { result ≡ again_order head.now found.now }
{
    if decides_stray(head, &found.certificate) && is_irregular(&found.names) {
        Order::Again
    } else {
        Order::Nothing
    }
}

// Whether a part of the certificate that depends on known UIDs fails.
fn is_irregular(names: &Option<KnownFinding>) -> bool
    ensures { result ≡ is_irregular names.now }
{
    match names {
        Some(names) => !is_known_complete(names),
        None => false,
    }
}

// The one about bytes that nobody was due to send comes first if they show that a rule was broken.
fn order_with_stray(decided: bool, found: &Findings, stray: Order) -> Order
    ensures { result ≡ order_with_stray decided found.now stray }
{
    if decided {
        or_order(stray, broken_order(found))
    } else {
        or_order(broken_order(found), stray)
    }
}

// About UIDs that didn't mute, and listed devices.
fn broken_order(found: &Findings) -> Order
    ensures { result ≡ broken_order found.now }
{
    or_order(
        off_order(first_uid(&found.culprits)),
        device_order(found, first_broken(&found.devices)),
    )
}

fn first_uid(uids: &[Uid]) -> Option<Uid>
    ensures { result ≡ slice_get uids.now 0 }
{
    uids.get(0).copied()
}

fn off_order(uid: Option<Uid>) -> Order
    ensures { result ≡ off_order uid }
{
    match uid {
        Some(uid) => Order::Off(uid),
        None => Order::Nothing,
    }
}

// The first order, or else the second.
fn or_order(first: Order, second: Order) -> Order
    ensures { result ≡ or_order first second }
{
    match first {
        Order::Nothing => second,
        Order::Off(uid) => Order::Off(uid),
        Order::Name(uid) => Order::Name(uid),
        Order::Look => Order::Look,
        Order::Check => Order::Check,
        Order::Adapter => Order::Adapter,
        Order::Noise => Order::Noise,
        Order::Again => Order::Again,
    }
}

// About the first exchange with bytes that nobody was due to send.
fn stray_order(
    decided: bool,
    listed: &[Uid],
    exchanges: &[Exchange],
    stray: Option<Sighting>,
) -> Order
    ensures { result ≡ stray_order decided listed.now exchanges.now stray }
{
    let Some(first) = stray else {
        return Order::Nothing;
    };
    match exchanges.get(first.at) {
        Some(exchange) => order_by_sign(decided, &sign_of(listed, exchange)),
        None => Order::Nothing,
    }
}

fn order_by_sign(decided: bool, sign: &Sign) -> Order
    ensures { result ≡ order_by_sign decided sign.now }
{
    match sign {
        Sign::Listed(uid) => {
            if decided {
                Order::Off(*uid)
            } else {
                Order::Nothing
            }
        }
        Sign::Other(uid) => Order::Name(*uid),
        Sign::Unread => { if decided { Order::Look } else { Order::Nothing } }
    }
}

// The first device that broke a rule.
fn first_broken(devices: &[DeviceFinding]) -> Option<DeviceFinding>
    ensures { result ≡ find has_breach devices.now }
{
    for device in devices {
        if device.breach.is_some() {
            return Some(*device);
        }
    }
    None
}

fn device_order(found: &Findings, device: Option<DeviceFinding>) -> Order
    ensures { result ≡ device_order found.now device }
{
    match device {
        Some(device) => breach_order(found, &device),
        None => Order::Nothing,
    }
}

fn breach_order(found: &Findings, device: &DeviceFinding) -> Order
    ensures { result ≡ breach_order found.now device.now }
{
    let heard = is_noticed(&found.heard, &found.misreads, device.uid);
    let acked = found.acked.contains(device.uid);
    match device.breach {
        Some(breach) => rule_order(heard, acked, breach.rule, device.uid),
        None => Order::Nothing,
    }
}

fn rule_order(heard: bool, acked: bool, rule: Rule, uid: Uid) -> Order
    ensures { result ≡ rule_order heard acked rule uid }
{
    match rule {
        Rule::SilentBranches => Order::Check,
        Rule::SilentMutes => {
            if heard && !acked {
                Order::Off(uid)
            } else {
                Order::Check
            }
        }
        Rule::GarbledMute => Order::Off(uid),
    }
}
