//! Discovery runs on a line.
ghost use Rattle.std.specs.Prelude.{◌≡◌, ◌≢◌, ◌<◌, ◌^◌, ◌%◌, true, IfOk, OnErr};
ghost use Rattle.rdm_wire.specs.Frames.{heard_in};
ghost use Rattle.rdm_join.specs.Exchange.{bytes_heard};
ghost use Rattle.rdm_agent.specs.Calls.{fits, next_op};
ghost use Rattle.rdm_agent.specs.Machine.{AgentState, fed};
ghost use Rattle.rdm_agent.specs.OpFrames.{op_frame};
ghost use Rattle.rdm_agent.specs.Run.{heard_by};
ghost use Rattle.rdm_agent.specs.declared.op.Op.TheVariants.{End};
ghost use Rattle.rdm_line.specs.SimSteps.{NoFiveSuccessive};
ghost use Rattle.rdm_reports.specs.Discovery.{GoesOn, IsDiscovery};
ghost use Rattle.rdm_reports.specs.SceneDiscovery.{IsSceneDiscovery, IsHonestReport};
ghost use Rattle.rdm_reports.specs.Writing.{Logs};
ghost use Rattle.rdm_reports.specs.LogText.{exchange_line, exchanges_text};
ghost use Rattle.rdm_reports.specs.OpeningText.{discovery_log};

use crate::log_output::LogOutput;
use crate::log_text::write_exchange;
use crate::opening_text::write_discovery_opening;
use crate::progress::{Progress, write_often};
use rdm_agent::{Agent, AgentFault, Kind, Op, OpReply, Search};
use rdm_join::LineEvent;
use rdm_line::{Line, Scene, SimLine};
use rdm_wire::{DeviceSet, NoMemory, Uid, UidSet};
use std::alloc::Global;
use std::io::Write;

/// What a discovery run reports.
#[derive(Debug, Drop)]
pub struct Discovery {
    /// The devices found, or why the run ended before its end and the devices found until then.
    pub found: Result<DeviceSet, (AgentFault, DeviceSet)>,
    /// How many exchanges it made.
    pub frames: u64,
}

/// Makes a discovery run with this search on a line, from the controller `source`. The agent's frames, numbered from 0,
/// are sent on the line, and the agent takes the replies, until it asks nothing more. The log's opening is written
/// first, each exchange when it has been made, and every hundredth is reported.
pub fn discover<L: Line, P: Progress, W: Write>(
    alloc: Global,
    line: &mut L,
    source: Uid,
    search: Search,
    kind: Kind,
    known: &UidSet,
    budget: u64,
    progress: &mut P,
    log: &mut LogOutput<W>,
) -> Discovery
    ensures run { IsDiscovery L L.step source search kind known.now budget
        line.old line.new result.found result.frames }
    ensures countable { result.frames < 2 ^ 64 }
    ensures logged { (run : IsDiscovery L L.step source search kind known.now budget
        line.old line.new result.found result.frames)
        × Logs log.old log.new (discovery_log source search kind known.now budget run.driven.exchanges) }
{
    write_discovery_opening(alloc, log, source, search, kind, known.as_slice(), budget);
    make_run(
        alloc, line, source, search, kind, known, budget, progress, log,
    )
}

// Makes the run, after its opening.
fn make_run<L: Line, P: Progress, W: Write>(
    alloc: Global,
    line: &mut L,
    source: Uid,
    search: Search,
    kind: Kind,
    known: &UidSet,
    budget: u64,
    progress: &mut P,
    log: &mut LogOutput<W>,
) -> Discovery
    ensures run { IsDiscovery L L.step source search kind known.now budget
        line.old line.new result.found result.frames }
    ensures countable { result.frames < 2 ^ 64 }
    ensures logged { (run : IsDiscovery L L.step source search kind known.now budget
        line.old line.new result.found result.frames) × Logs log.old log.new (exchanges_text run.driven.exchanges) }
{
    let mut agent = Agent::start_by(search, kind, known, budget);
    'exchanges: for made in 0..budget {
        if agent.next() == Op::End {
            break;
        }
        ask(alloc, &mut agent, line, source, made, log);
        write_often(progress, (made + 1) as usize);
    }
    // Only for the proof: after as many exchanges as the budget allows, nothing is asked next.
    let _end = agent.next();
    Discovery {
        frames: agent.frames(),
        found: agent.end(),
    }
}

// The agent sends its next frame, and takes the reply. The exchange is written to the log.
fn ask<L: Line, W: Write>(
    alloc: Global,
    agent: &mut Agent,
    line: &mut L,
    source: Uid,
    made: u64,
    log: &mut LogOutput<W>,
)
    requires { next_op agent.old ≢ End }
    ensures { (e : GoesOn L L.step source (made % 256) agent.old line.old agent.new line.new)
        × Logs log.old log.new (exchange_line made e.exchange) }
{
    let tn = (made % 256) as u8;
    let op = agent.next();
    let frame = op.frame(source, tn);
    let event = LineEvent::from(line.exchange(&frame));
    write_exchange(alloc, log, made, &frame, &event);
    agent.hear(read(op, source, tn, &event));
}

// What came after the frame of this operation.
fn read(op: Op, source: Uid, tn: u8, event: &LineEvent) -> OpReply
    requires { op ≢ Op.End }
    ensures fits { fits result op ≡ true }
    ensures fed { (a : AgentState) → next_op a ≡ op → fed a (heard_by result)
        ≡ fed a (heard_in (op_frame op source tn) (bytes_heard event.now)) }
{
    match event {
        LineEvent::Reply(bytes) => op.read_reply(source, tn, Some(bytes.as_slice())),
        LineEvent::Failed => op.read_reply(source, tn, None),
    }
}

/// Makes a discovery run on a simulated line of this scene. A run's fault is in the result. [`NoMemory`]: there was no
/// memory, and no run was made. The scene isn't returned, and nothing is written to the log.
///
/// A run without fault finds each device that is on the line throughout, and no run finds one that never is. The
/// premise: no five replies of a kind are lost in a row. The opening and each exchange are written to the log, and
/// every hundredth is reported.
pub fn discover_in<P: Progress, W: Write>(
    alloc: Global,
    scene: Scene,
    search: Search,
    kind: Kind,
    known: &UidSet,
    budget: u64,
    progress: &mut P,
    log: &mut LogOutput<W>,
) -> Result<Discovery, NoMemory>
    ensures run { IfOk result (λ d. IsSceneDiscovery scene search kind known.now budget d.found d.frames) }
    ensures honest { NoFiveSuccessive scene.losses.items
        → IfOk result (λ d. IsHonestReport scene search kind known.now budget d.found d.frames) }
    ensures logged { IfOk result (λ d.
        (run : IsSceneDiscovery scene search kind known.now budget d.found d.frames)
        × Logs log.old log.new
        (discovery_log scene.source search kind known.now budget run.discovery.driven.exchanges)) }
    ensures unlogged { OnErr result (log.new ≡ log.old) }
{
    let source = scene.source;
    match SimLine::new(alloc, scene) {
        Ok(mut line) => {
            let run = discover(
                alloc, &mut line, source, search, kind, known, budget, progress, log,
            );
            Ok(run)
        }
        Err((NoMemory, _)) => Err(NoMemory),
    }
}
