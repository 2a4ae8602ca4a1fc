//! The laws of `rdm_scenes` on sessions with a mutex and with ring buffers. What the laws conclude is the contract of
//! [`stays`] and [`changes`], whose line comes from `SimLine::new`. The tests meet the premises on real scenes, and
//! compare each value that the client gets.
ghost use Rattle.std.specs.Prelude.{◌≡◌, ℕ, true, List, [], ◌∷◌, ◌++◌, Option, None, IfSome};
ghost use Rattle.std.specs.List.{AllByRecursion};
ghost use Rattle.rdm_wire.specs.Uid.{has};
ghost use Rattle.rdm_wire.specs.Devices.{uids_of};
ghost use Rattle.rdm_wire.specs.Honest.{HonestTrace};
ghost use Rattle.rdm_agent.specs.declared.fault.AgentFault.{AgentFault};
ghost use Rattle.rdm_agent.specs.declared.limits.TheConstants.{DEFAULT_BUDGET as default_budget};
ghost use Rattle.rdm_agent.specs.declared.search.Search.TheVariants.{Steady};
ghost use Rattle.rdm_line.specs.Scenes.{Stays, present_at, uids_of_scene};
ghost use Rattle.rdm_line.specs.Sim.{SimState};
ghost use Rattle.rdm_line.specs.SimSteps.{NoFiveSuccessive};
ghost use Rattle.rdm_log.specs.declared.entry.Entry.{Entry};
ghost use Rattle.rdm_log.specs.declared.entry.Entry.TheVariants.{Answer};
ghost use Rattle.rdm_log.specs.log.Runs.{answer_devices, run_exchanges};
ghost use Rattle.rdm_log.specs.promises.Promised.{Promised};
ghost use Rattle.rdm_scenes.specs.Reports.{IsLogOver, FaultsFollowAClose};

mod mutex;
mod report;
mod rings;
mod scenes;

use self::report::{LEAVES, Report, report_of};
use self::scenes::{changing_scene, staying_scene};
use crate::tests::*;
use rdm_agent::Search;
use rdm_line::{Scene, SimLine};
use rdm_queue::Session;
use rdm_scenes::laws;

// How the client and the worker share the session.
#[derive(Clone, Copy, Debug, PartialEq, Eq)]
enum With {
    Mutex,
    Rings,
}

// Runs a session over this line. Returns the client's report, and the session after its end. None: out of memory.
fn serves<R: Threads + Wait + Sync>(
    rt: &R,
    alloc: Global,
    with: With,
    line: SimLine,
) -> Option<(Report, Session)>
    ensures { IfSome result (λ ran. (t : SimState) × IsLogOver line t ran.1) }
{
    match with {
        With::Mutex => mutex::serves(rt, alloc, line),
        With::Rings => rings::serves(rt, alloc, line),
    }
}

// Whether the session searches steadily with the default budget, and knew no device at first. No clause of
// `Port::finish` says so.
fn is_by_default(session: &Session) -> bool
    ensures budget { result ≡ true → session.now.opening.budget ≡ default_budget }
    ensures search { result ≡ true → session.now.opening.search ≡ Steady }
    ensures devices { result ≡ true → session.now.opening.devices ≡ [] }
    ensures promised { Promised session.now }
{
    let log = session.log();
    let opening = log.opening();
    opening.devices.is_empty()
        && opening.budget == DEFAULT_BUDGET
        && matches!(opening.search, Search::Steady)
}

// Runs a session in which devices stay and no exchange fails.
fn stays<R: Threads + Wait + Sync>(
    rt: &R,
    alloc: Global,
    with: With,
    scene: Scene,
) -> Option<(Report, Session)>
    requires few_losses { NoFiveSuccessive scene.losses.items }
    requires stay { AllByRecursion Stays scene.devices }
    requires no_fails { scene.fails.items ≡ [] }
    // Each discovery that is answered without fault has exactly the scene's devices.
    ensures exactly { IfSome result (λ ran. (front back : List Entry) (n r : ℕ)
        → ran.1.entries ≡ front ++ Answer n r None ∷ back
        → uids_of (answer_devices r ran.1.entries) ≡ uids_of_scene scene.devices) }
    ensures honest { IfSome result (λ ran. (r : ℕ)
        → HonestTrace (uids_of_scene scene.devices) (run_exchanges r ran.1.entries)) }
    ensures no_fault { IfSome result (λ ran. FaultsFollowAClose ran.1) }
{
    laws::new_lines_are_scenes();
    laws::runs_are_honest();
    laws::answers_are_the_devices();
    laws::answers_have_no_fault();
    let Ok(line) = SimLine::new(alloc, scene) else {
        return None;
    };
    let ran = serves(rt, alloc, with, line)?;
    if is_by_default(&ran.1) {
        Some(ran)
    } else {
        None
    }
}

// Runs a session in which devices may come and leave.
fn changes<R: Threads + Wait + Sync>(
    rt: &R,
    alloc: Global,
    with: With,
    scene: Scene,
) -> Option<(Report, Session)>
    requires few_losses { NoFiveSuccessive scene.losses.items }
    // Each discovery that is answered without fault has each device that is always there.
    ensures staying { IfSome result (λ ran. (front back : List Entry) (n r u : ℕ)
        → ran.1.entries ≡ front ++ Answer n r None ∷ back
        → ((i : ℕ) → has (present_at scene.devices i) u ≡ true)
        → has (uids_of (answer_devices r ran.1.entries)) u ≡ true) }
    // No discovery has a device that is never there.
    ensures no_stranger { IfSome result (λ ran. (front back : List Entry) (n r : ℕ) (fault : Option AgentFault) (u : ℕ)
        → ran.1.entries ≡ front ++ Answer n r fault ∷ back
        → has (uids_of (answer_devices r ran.1.entries)) u ≡ true
        → (i : ℕ) × (has (present_at scene.devices i) u ≡ true)) }
{
    laws::new_lines_are_scenes();
    laws::answers_follow_the_devices();
    let Ok(line) = SimLine::new(alloc, scene) else {
        return None;
    };
    serves(rt, alloc, with, line)
}

#[test]
fn devices_that_stay_are_reported_whole(rt: HostRuntime) -> Result<(), Fail> {
    for _session in 0..50 {
        for with in [With::Mutex, With::Rings] {
            let scene = staying_scene(rt.alloc()).ok_or("no scene")?;
            let ran = stays(&rt, rt.alloc(), with, scene).ok_or("no session")?;
            let both = FirstAndSecond;
            assert_eq!(rt; ran.0, report_of(both, both), "{with:?}");
            assert_eq!(rt; state_of(&ran.1).counts.frames, (37, 0), "{with:?}");
        }
    }
    Ok(())
}

#[test]
fn a_device_that_left_is_reported_no_more(rt: HostRuntime) -> Result<(), Fail> {
    for _session in 0..50 {
        for with in [With::Mutex, With::Rings] {
            let scene = changing_scene(rt.alloc(), LEAVES).ok_or("no scene")?;
            let ran = changes(&rt, rt.alloc(), with, scene).ok_or("no session")?;
            assert_eq!(rt; ran.0, report_of(FirstAndGone, First), "{with:?}");
        }
    }
    Ok(())
}
