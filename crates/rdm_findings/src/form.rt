//! How a finding is printed: as a line, or as an object of JSON.
ghost use Rattle.std.specs.Prelude.{◌≡◌, ◌++◌, OnOk, Some, codes, decimal};
ghost use Rattle.rdm_wire.specs.UidText.{uid_text};
ghost use Rattle.rdm_findings.specs.Forms.{judgement_name, uid_member, exchange_member, found_member, object_start};
ghost use Rattle.rdm_findings.specs.Forms.{before_sentence, after_sentence};

use crate::writing::{write, write_number, write_uid};
use rdm_wire::Uid;
use std::alloc::AllocError;

/// How findings are printed.
#[derive(Clone, Copy, Debug, PartialEq, Eq)]
pub enum Form {
    /// As lines for people.
    Lines,
    /// As one JSON document, with the same sentences.
    Json,
}

/// What a finding says, for programs.
#[derive(Clone, Copy)]
pub(crate) enum Judgement {
    /// The run's certificate is complete.
    Complete,
    /// It is incomplete.
    Incomplete,
    /// The log doesn't decide whether it is.
    Undecided,
    /// The log has no run.
    NoRun,
    /// A part of the certificate fails.
    Gap,
    /// An exchange failed.
    Failure,
    /// No byte came in the whole run.
    Quiet,
    /// A device acknowledged a mute, and broke no rule.
    Found,
    /// A device acknowledged no mute in the whole run, and broke no rule.
    Missed,
    /// A device acknowledged no mute, and broke no rule in the exchanges that the log has.
    Pending,
    /// A device broke a rule. The flag says that it acknowledged a mute.
    Broke(bool),
    /// A UID answered alone, and then acknowledged no mute.
    Unmuted,
    /// A known device acknowledged no mute.
    Gone,
    /// Bytes came though no device was due, and show that a rule was broken.
    Stray,
    /// Bytes came though no listed device was due.
    Unexplained,
    /// Bytes came that no honest line allows.
    Garbled,
    /// Bytes came after an unmute.
    Answered,
    /// What to do.
    Order,
    /// A device isn't judged: it comes or leaves.
    Passing,
    /// A device isn't judged: the log has no run.
    Unjudged,
}

/// What a finding is about.
#[derive(Clone, Copy)]
pub(crate) struct About {
    /// What it says.
    pub(crate) judgement: Judgement,
    /// The device or the UID, if it is about one.
    pub(crate) uid: Option<Uid>,
    /// The number of an exchange of the run, if it names one.
    pub(crate) exchange: Option<u64>,
}

impl About {
    ghost use Rattle.std.specs.Prelude.{◌≡◌};
    ghost use Rattle.rdm_findings.specs.Forms.{of_run, of_exchange, of_uid};

    /// A finding about a run as a whole.
    pub(crate) fn run(judgement: Judgement) -> About
        ensures { result ≡ of_run judgement }
    {
        About {
            judgement,
            uid: None,
            exchange: None,
        }
    }

    /// A finding about an exchange.
    pub(crate) fn exchange(judgement: Judgement, number: u64) -> About
        ensures { result ≡ of_exchange judgement number }
    {
        About {
            judgement,
            uid: None,
            exchange: Some(number),
        }
    }

    /// A finding about a UID.
    pub(crate) fn uid(judgement: Judgement, uid: Uid) -> About
        ensures { result ≡ of_uid judgement uid }
    {
        About {
            judgement,
            uid: Some(uid),
            exchange: None,
        }
    }
}

/// Writes what precedes the sentence of a finding after the first one.
pub(crate) fn begin(text: &mut Vec<u8>, form: Form, about: &About) -> Result<(), AllocError>
    ensures { OnOk result (text.new.items ≡ text.old.items ++ before_sentence form about.now) }
{
    match form {
        Form::Lines => Ok(()),
        Form::Json => {
            write(text, ",")?;
            write_start(text, about)
        }
    }
}

/// Writes what follows the sentence of a finding.
pub(crate) fn end(text: &mut Vec<u8>, form: Form) -> Result<(), AllocError>
    ensures { OnOk result (text.new.items ≡ text.old.items ++ after_sentence form) }
{
    match form {
        Form::Lines => write(text, "\n"),
        Form::Json => write(text, "\"}"),
    }
}

/// Writes the beginning of an object, up to its sentence.
pub(crate) fn write_start(text: &mut Vec<u8>, about: &About) -> Result<(), AllocError>
    ensures { OnOk result (text.new.items ≡ text.old.items ++ object_start about.now) }
{
    write_judgement(text, about.judgement)?;
    write_places(text, about)?;
    write(text, ",\"sentence\":\"")
}

fn write_judgement(text: &mut Vec<u8>, judgement: Judgement) -> Result<(), AllocError>
    ensures { OnOk result (text.new.items ≡ text.old.items
        ++ (codes "{\"judgement\":\"" ++ judgement_name judgement ++ codes "\"")) }
{
    write(text, "{\"judgement\":\"")?;
    write_name(text, judgement)?;
    write(text, "\"")
}

fn write_name(text: &mut Vec<u8>, judgement: Judgement) -> Result<(), AllocError>
    ensures { OnOk result (text.new.items ≡ text.old.items ++ judgement_name judgement) }
{
    write(text, judgement_name(judgement))
}

fn write_places(text: &mut Vec<u8>, about: &About) -> Result<(), AllocError>
    ensures { OnOk result (text.new.items ≡ text.old.items
        ++ (uid_member about.now.uid ++ exchange_member about.now.exchange ++ found_member about.now.judgement)) }
{
    write_uid_member(text, about.uid)?;
    write_exchange_member(text, about.exchange)?;
    write(text, found_member(about.judgement))
}

/// Writes a member with a UID, if there is one.
pub(crate) fn write_uid_member(text: &mut Vec<u8>, uid: Option<Uid>) -> Result<(), AllocError>
    ensures { OnOk result (text.new.items ≡ text.old.items ++ uid_member uid) }
{
    match uid {
        Some(uid) => write_own_uid(text, uid),
        None => Ok(()),
    }
}

fn write_own_uid(text: &mut Vec<u8>, uid: Uid) -> Result<(), AllocError>
    ensures { OnOk result (text.new.items ≡ text.old.items ++ uid_member (Some uid)) }
{
    write(text, ",\"uid\":\"")?;
    write_uid(text, uid)?;
    write(text, "\"")
}

fn write_exchange_member(text: &mut Vec<u8>, exchange: Option<u64>) -> Result<(), AllocError>
    ensures { OnOk result (text.new.items ≡ text.old.items ++ exchange_member exchange) }
{
    match exchange {
        Some(number) => {
            write(text, ",\"exchange\":")?;
            write_number(text, number)
        }
        None => Ok(()),
    }
}

// Whether a device that broke a rule was found.
fn found_member(judgement: Judgement) -> &'static str
    ensures { result.now ≡ found_member judgement }
{
    match judgement {
        Judgement::Broke(true) => ",\"found\":true",
        Judgement::Broke(false) => ",\"found\":false",
        _ => "",
    }
}

fn judgement_name(judgement: Judgement) -> &'static str
    ensures { result.now ≡ judgement_name judgement }
{
    match judgement {
        Judgement::Complete => "complete",
        Judgement::Incomplete => "incomplete",
        Judgement::Undecided => "undecided",
        Judgement::NoRun => "no run",
        Judgement::Gap => "gap",
        Judgement::Failure => "failure",
        Judgement::Quiet => "quiet",
        Judgement::Found => "found",
        Judgement::Missed => "missed",
        Judgement::Pending => "pending",
        Judgement::Broke(_) => "broke",
        Judgement::Unmuted => "unmuted",
        Judgement::Gone => "gone",
        Judgement::Stray => "stray",
        Judgement::Unexplained => "unexplained",
        Judgement::Garbled => "garbled",
        Judgement::Answered => "answered",
        Judgement::Order => "order",
        Judgement::Passing => "passing",
        Judgement::Unjudged => "unjudged",
    }
}
