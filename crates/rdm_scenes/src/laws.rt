//! Laws of logs over a simulated line, each the contract of a function that does nothing. The definitions are in
//! `specs`.
//!
//! # Where the premises come from
//!
//! [`new_lines_are_scenes`] says what a line from [`SimLine::new`](rdm_line::SimLine::new) is. The rest is what
//! `IsLogOver` says: the log is legal, and its exchanges are the line's steps.
//!
//! - In one thread, `Session::log` promises that the log is legal. The exchanges are those that the caller made.
//! - With a mutex, `Port::finish` promises that the log is legal and that its exchanges are the record's. Each
//!   `Port::work` says which exchanges of the line it added to the record, and [`steps_follow_on`] joins them.
//! - With ring buffers, the clause `over.session` of `run_session` says both.
ghost use Rattle.std.specs.Prelude.{◌≡◌, ◌++◌, ℕ, List, []};
ghost use Rattle.std.specs.List.{AllByRecursion};
ghost use Rattle.rdm_agent.specs.Bound.{IsCalm};
ghost use Rattle.rdm_wire.specs.Honest.{HonestTrace};
ghost use Rattle.rdm_line.specs.Events.{Exchange, Makes};
ghost use Rattle.rdm_line.specs.Scenes.{Stays, uids_of_scene};
ghost use Rattle.rdm_line.specs.Sim.{SimState};
ghost use Rattle.rdm_line.specs.SimSteps.{NoFiveSuccessive};
ghost use Rattle.rdm_line.specs.declared.scene.Scene.{Scene};
ghost use Rattle.rdm_log.specs.declared.entry.Opening.{Opening};
ghost use Rattle.rdm_log.specs.declared.entry.Entry.{Entry};
ghost use Rattle.rdm_log.specs.log.Legal.{Legal};
ghost use Rattle.rdm_log.specs.log.LogState.{LogState};
ghost use Rattle.rdm_log.specs.log.Runs.{run_exchanges};
ghost use Rattle.rdm_log.specs.promises.LogInBound.{InBound};
ghost use Rattle.rdm_scenes.specs.Exchanges.{RunPart};
ghost use Rattle.rdm_scenes.specs.Scenes.{IsNewLine, IsLossyScene, IsStayingScene, IsCalmScene};
ghost use Rattle.rdm_scenes.specs.Reports.{IsLogOver, IsHonestRun, AnswersAreTheDevices, AnswersFollowTheDevices};
ghost use Rattle.rdm_scenes.specs.Reports.{IsEnough, IsByDefault, FaultsFollowAClose};

use rdm_line::Line;

/// A line that [`SimLine::new`](rdm_line::SimLine::new) makes meets the premises of the laws below, if its scene does.
/// The scene mustn't list five consecutive numbers of exchanges as lost. If all of its devices stay, so do the line's.
/// If the scene lists no failing exchange, none of the line's exchanges fails.
pub fn new_lines_are_scenes()
    ensures lossy { (scene : Scene) (s : SimState) → IsNewLine scene s → NoFiveSuccessive scene.losses.items
        → IsLossyScene s }
    ensures staying { (scene : Scene) (s : SimState) → IsNewLine scene s → NoFiveSuccessive scene.losses.items
        → AllByRecursion Stays scene.devices → IsStayingScene s }
    ensures calm { (scene : Scene) (s : SimState) → IsNewLine scene s → NoFiveSuccessive scene.losses.items
        → AllByRecursion Stays scene.devices → scene.fails.items ≡ [] → IsCalmScene s }
{}

/// In a legal log the exchanges of a discovery run are consecutive, without any other exchange between them. So what
/// holds for every contiguous part of a line's exchanges holds for each run. This holds on any line.
pub fn runs_are_parts()
    ensures { (o : Opening) (h : List Entry) (r : ℕ) → Legal o h → RunPart r h }
{}

/// If a line makes some exchanges and then some more, it makes all of them in sequence. This holds on any line.
pub fn steps_follow_on<X: Line>()
    ensures { (a b c : X) (xs ys : List Exchange) → Makes X X.step a xs b → Makes X X.step b ys c
        → Makes X X.step a (xs ++ ys) c }
{}

/// The exchanges of each run in such a log are those of an honest line. The premise is that the line doesn't lose five
/// exchanges with consecutive numbers. If devices come and leave, the line is honest towards a set of devices at each
/// exchange, and each of these sets has exactly the devices that are present at some exchange. It isn't said at which.
/// If devices stay, the line is honest towards all of them. If the scene lists no failing exchange, none of the run's
/// exchanges fails.
pub fn runs_are_honest()
    ensures changing { (s t : SimState) (k : LogState) (r : ℕ) → IsLogOver s t k → IsLossyScene s
        → IsHonestRun s (run_exchanges r k.entries) }
    ensures staying { (s t : SimState) (k : LogState) (r : ℕ) → IsLogOver s t k → IsStayingScene s
        → HonestTrace (uids_of_scene s.devices) (run_exchanges r k.entries) }
    ensures calm { (s t : SimState) (k : LogState) (r : ℕ) → IsLogOver s t k → IsCalmScene s
        → IsCalm (uids_of_scene s.devices) (run_exchanges r k.entries) }
{}

/// Each discovery in such a log that is answered without fault reports exactly the line's devices. These are the
/// devices known afterwards. The premises: the line doesn't lose five exchanges with consecutive numbers, and its
/// devices stay. Exchanges may fail.
pub fn answers_are_the_devices()
    ensures { (s t : SimState) (k : LogState) → IsLogOver s t k → IsStayingScene s → AnswersAreTheDevices s k }
{}

/// If devices come and leave, each discovery that is answered without fault reports each device that is always there.
/// No discovery reports a device that is never there, even with a fault.
pub fn answers_follow_the_devices()
    ensures { (s t : SimState) (k : LogState) → IsLogOver s t k → IsLossyScene s → AnswersFollowTheDevices s k }
{}

/// If the scene also lists no failing exchange, a discovery is answered with a fault only after the queue was closed.
/// When the log was opened, no more devices may be known than the scene has. A session begins with none, and a rotated
/// one with those of its last run. The budget has to be at least the search's bound on frames. For a steady search, the
/// default budget is. `Session::log` promises `InBound`, within `Promised`.
pub fn answers_have_no_fault()
    ensures enough { (s t : SimState) (k : LogState) → IsLogOver s t k → IsCalmScene s → InBound k → IsEnough s k
        → FaultsFollowAClose k }
    ensures by_default { (s t : SimState) (k : LogState) → IsLogOver s t k → IsCalmScene s → InBound k
        → IsByDefault s k → FaultsFollowAClose k }
{}
