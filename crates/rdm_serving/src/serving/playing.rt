//! Makes the calls of a client and collects their outcomes, whichever port it has.
ghost use Rattle.std.specs.Prelude.{◌≡◌, ◌⊎◌, ◌+◌, ◌≤◌, Bool, true, Option, None, Err, length, OnOk, IfErr};
ghost use Rattle.rdm_client.specs.declared.told.Collected.{Collected as CollectedState};
ghost use Rattle.rdm_serving.specs.body.Scripts.{Notes, has_all, done_by};

use crate::serving::ServeFault;
use crate::serving::script::{Next, Script};
use crate::serving::ticket::{AskTicket, RequestTicket};
use rdm_client::{CallFault, Client, Tells, TellsAsk};
use rdm_files::ClientCall;
use rdm_reports::Outcomes;
use std::alloc::Global;
use std::thread;

/// Where a client sees whether its worker has stopped.
pub trait Watch<C> {
    /// That this client sees this when it looks whether the worker has stopped.
    ghost sees: { Self → C → Bool → Type 0 };

    /// Whether the client's worker has stopped. It may sleep first, until the client has an outcome or that stops.
    fn has_stopped(&self, client: &C) -> bool
        ensures { sees self.now client.now result };
}

/// Makes these calls in order, and collects until each has its outcome. Returns the outcomes, with the number of turns
/// made, and whether the turns sufficed. A turn is one submit, discover or collect, with or without success.
///
/// Ok only if each call has its outcome. Err: there was no memory; the log is full; or not all outcomes have come,
/// though all turns are made, or the worker was seen to have stopped before a last collect that found nothing. The
/// outcomes that came are returned too.
pub fn play<R, C: Client<RequestTicket, AskTicket, R>, W: Watch<C>>(
    rt: &R,
    alloc: Global,
    calls: &[ClientCall],
    client: &mut C,
    watch: &W,
    turns: u64,
) -> (Outcomes, Result<(), ServeFault>)
    ensures settled { OnOk result.1
        (length result.0.requests.items + length result.0.discoveries.items ≡ length calls.now) }
    ensures in_turns { result.0.turns ≤ turns }
    ensures counted { OnOk result.1
        (length result.0.requests.items + length result.0.discoveries.items ≤ result.0.turns) }
    ensures all_turns { result.1 ≡ Err ServeFault.Turns → (result.0.turns ≡ turns)
        ⊎ ((before : C) × C.same client.old before × W.sees watch.now before true
        × C.collects before None client.new) }
    ensures same { C.same client.old client.new }
{
    let mut script = Script::new(alloc, calls);
    let end = play_script(rt, alloc, &mut script, client, watch, turns);
    (script.into_outcomes(), end)
}

fn play_script<R, C: Client<RequestTicket, AskTicket, R>, W: Watch<C>>(
    rt: &R,
    alloc: Global,
    script: &mut Script<'_>,
    client: &mut C,
    watch: &W,
    turns: u64,
) -> Result<(), ServeFault>
    requires fresh { script.old.outcomes.turns ≡ 0 }
    ensures settled { OnOk result (has_all script.new ≡ true) }
    ensures in_turns { script.new.outcomes.turns ≤ turns }
    ensures counted { OnOk result (done_by script.new ≤ done_by script.old + script.new.outcomes.turns) }
    ensures all_turns { result ≡ Err ServeFault.Turns → (script.new.outcomes.turns ≡ turns)
        ⊎ ((before : C) × C.same client.old before × W.sees watch.now before true
        × C.collects before None client.new) }
    ensures calls { script.new.calls ≡ script.old.calls }
    ensures same { C.same client.old client.new }
{
    'turns: for _turn in 0..turns {
        match script.next() {
            Next::Call(call, call_index) => {
                script.count_turn();
                let is_accepted = make(rt, alloc, client, call, call_index)?;
                script.tried(is_accepted);
            }
            Next::Collect => {
                script.count_turn();
                collect(rt, alloc, script, client, watch)?;
            }
            Next::Done => return Ok(()),
        }
    }
    script.at_last_turn()
}

// Makes a call, with its index among the client's calls. Returns whether it is accepted. If not, the queue or the ring
// is full, since nobody closes it, and no client calls after it has left. Err: the log is full.
fn make<R, C: Client<RequestTicket, AskTicket, R>>(
    rt: &R,
    alloc: Global,
    client: &mut C,
    call: &ClientCall,
    call_index: u64,
) -> Result<bool, ServeFault>
    ensures fault { IfErr result (λ e. e ≡ ServeFault.Log) }
    ensures same { C.same client.old client.new }
{
    let fault = match call {
        ClientCall::Submit(request) => {
            match client.submit(rt, request.copied(), RequestTicket(call_index)) {
                Ok(_) => return Ok(true),
                Err((fault, _, callback)) => {
                    drop(callback.cancel(alloc));
                    fault
                }
            }
        }
        ClientCall::Discover(kind) => match client.discover(rt, *kind, AskTicket(call_index)) {
            Ok(_) => return Ok(true),
            Err((fault, callback)) => {
                drop(callback.cancel());
                fault
            }
        },
    };
    if fault == CallFault::LogFull {
        return Err(ServeFault::Log);
    }
    Ok(false)
}

// Collects. It looks for the worker's stop before: if the worker had stopped, the collect finds all that is left. So it
// gives up only if it saw the stop before a collect that found nothing.
fn collect<R, C: Client<RequestTicket, AskTicket, R>, W: Watch<C>>(
    rt: &R,
    alloc: Global,
    script: &mut Script<'_>,
    client: &mut C,
    watch: &W,
) -> Result<(), ServeFault>
    ensures gives_up { IfErr result (λ e. (e ≡ ServeFault.Memory) ⊎ ((e ≡ ServeFault.Turns)
        × W.sees watch.now client.old true × C.collects client.old None client.new)) }
    ensures noted { OnOk result ((collected : Option CollectedState) × C.collects client.old collected client.new
        × Notes collected script.old.outcomes script.new.outcomes) }
    ensures script { (script.new.calls ≡ script.old.calls) × (script.new.accepted ≡ script.old.accepted)
        × (script.new.outcomes.turns ≡ script.old.outcomes.turns) }
    ensures same { C.same client.old client.new }
{
    let has_stopped = watch.has_stopped(client);
    let collected = client.collect(rt);
    if collected.is_none() {
        thread::yield_now();
    }
    script.collected(alloc, collected, has_stopped)
}
