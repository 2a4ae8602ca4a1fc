//! C's calls on a discovery run without a queue, with their statuses.
ghost use Rattle.std.specs.Prelude.{◌≡◌, ◌≢◌, ◌++◌, ◌∷◌, [], true, false, IfOk, IfErr, if◌then◌else◌, ◌%◌, ◌^◌, ◌+◌};
ghost use Rattle.std.specs.Prelude.{◌==◌, option_copied};
ghost use Rattle.rdm_agent.specs.Machine.{fed};
ghost use Rattle.rdm_agent.specs.Run.{heard_by, seen_op};
ghost use Rattle.rdm_agent.specs.Calls.{next_op, fits, HasRunBy, AfterEach};
ghost use Rattle.rdm_agent.specs.declared.op.OpReply.{OpReply};
ghost use Rattle.rdm_agent.specs.declared.op.Op.TheVariants.{End};
ghost use Rattle.rdm_handles.specs.Forms.{search_of, kind_of};
ghost use Rattle.rdm_handles.specs.Packets.{first_of};
ghost use Rattle.rdm_handles.specs.Agents.{start_status, known_status, known_set, added_status, operation_status};
ghost use Rattle.rdm_handles.specs.Agents.{operation_of, heard_of};
ghost use Rattle.rdm_wire.specs.Uid.{with_uid};

use crate::convert::{kind_of, own_uid, search_of};
use crate::discovery::Discovery;
use crate::forms::StartForC;
use crate::status::{BAD_KIND, BAD_SEARCH, DONE, HAS_ENDED, TOO_MANY_DEVICES};
use rdm_agent::{Agent, Op};
use rdm_wire::{Uid, UidSet};

/// A run that begins like this, and knows these UIDs.
/// Err: the status of the first fault. Those of the start come before those of the UIDs.
pub fn start(start: &StartForC, known: &[u64]) -> Result<Discovery, u32>
    ensures begun { IfOk result (λ d. (first_of (start_status start.now) (known_status [] known.now) ≡ 0)
        × (d.source ≡ start.now.source) × (d.tn ≡ start.now.tn)
        × HasRunBy (search_of start.now.search) (kind_of start.now.kind) (known_set [] known.now)
        start.now.budget false [] d.agent) }
    ensures refused { IfErr result (λ fault.
        (fault ≡ first_of (start_status start.now) (known_status [] known.now)) × (fault ≢ 0)) }
{
    let source = source_of(start)?;
    let mut set = UidSet::new();
    let fault = add_known(&mut set, known);
    if fault != DONE {
        return Err(fault);
    }
    Ok(Discovery {
        agent: Agent::start_by(
            search_of(start.search),
            kind_of(start.kind),
            &set,
            start.budget,
        ),
        source,
        tn: start.tn,
    })
}

// The UID of the controller, or the status of the start's first fault.
fn source_of(start: &StartForC) -> Result<Uid, u32>
    ensures ok { IfOk result (λ u. (u ≡ start.now.source) × (start_status start.now ≡ 0)) }
    ensures err { IfErr result (λ fault. (fault ≡ start_status start.now) × (fault ≢ 0)) }
{
    let source = own_uid(start.source)?;
    if start.kind > 1 {
        return Err(BAD_KIND);
    }
    if start.search > 1 {
        return Err(BAD_SEARCH);
    }
    Ok(source)
}

// Adds the UIDs to the set, in order, up to the first fault. Returns its status.
fn add_known(set: &mut UidSet, known: &[u64]) -> u32
    ensures status { result ≡ known_status set.old known.now }
    ensures added { result ≡ DONE → set.new ≡ known_set set.old known.now }
{
    'adding: for i in 0..known.len() {
        let fault = add_uid(set, known[i]);
        if fault != DONE {
            return fault;
        }
    }
    DONE
}

// Adds a UID to the set. Returns the status.
fn add_uid(set: &mut UidSet, number: u64) -> u32
    ensures status { result ≡ added_status set.old number }
    ensures added { result ≡ DONE → set.new ≡ with_uid number set.old }
{
    let uid = match own_uid(number) {
        Ok(uid) => uid,
        Err(fault) => return fault,
    };
    match set.insert(uid) {
        Ok(_) => DONE,
        Err(_) => TOO_MANY_DEVICES,
    }
}

/// The number of an operation.
pub fn operation_of(op: &Op) -> u32
    ensures { result ≡ operation_of op.now }
{
    match op {
        Op::UnmuteAll => 0,
        Op::Mute(_) => 1,
        Op::Branch(_) => 2,
        Op::End => 3,
    }
}

/// Takes the bytes that the line answered, or None if it failed.
pub fn hear(discovery: &mut Discovery, answer: Option<&[u8]>) -> u32
    ensures status { result ≡ (if operation_status (next_op discovery.old.agent) == 0 then DONE else HAS_ENDED) }
    ensures heard { result ≡ DONE → discovery.new.agent ≡ heard_of discovery.old (option_copied answer.entry) }
    ensures has_run { result ≡ DONE → (reply : OpReply) × (fits reply (next_op discovery.old.agent) ≡ true)
        × (discovery.new.agent ≡ fed discovery.old.agent (heard_by reply))
        × AfterEach discovery.old.agent (λ run. HasRunBy run.search run.kind run.known run.budget false
        (run.exchanges ++ seen_op (next_op discovery.old.agent, reply) ∷ []) discovery.new.agent) }
    ensures numbers { result ≡ DONE → (discovery.new.tn ≡ (discovery.old.tn + 1) % 2 ^ 8)
        × (discovery.new.source ≡ discovery.old.source) }
    ensures unchanged { result ≢ DONE → discovery.new ≡ discovery.old }
{
    let op = discovery.agent.next();
    if op == Op::End {
        return HAS_ENDED;
    }
    let reply = op.read_reply(discovery.source, discovery.tn, answer);
    discovery.agent.hear(reply);
    discovery.tn = discovery.tn.wrapping_add(1);
    DONE
}
