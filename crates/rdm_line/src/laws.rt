//! Laws of the simulated line, each the contract of a function that does nothing. The definitions are in `specs`.
ghost use Rattle.std.specs.Prelude.{◌≡◌, ◌≢◌, ℕ, List, [], map};
ghost use Rattle.rdm_wire.specs.Honest.{HonestTrace};
ghost use Rattle.rdm_wire.specs.Honest.Heard.{Failed};
ghost use Rattle.rdm_wire.specs.HonestOver.{HonestOver};
ghost use Rattle.rdm_line.specs.Events.{Exchange, Makes};
ghost use Rattle.rdm_line.specs.Sim.{SimState, SimStep};
ghost use Rattle.rdm_line.specs.SimSteps.{Step, AreSteps, LosesFew, NoFiveSuccessive, KeepsScene, FailsAsNamed};
ghost use Rattle.rdm_line.specs.SimSteps.{present_in, seen_in};
ghost use Rattle.rdm_line.specs.Scenes.{IsScene, Stays, present_at, uids_of_scene};
ghost use Rattle.rdm_line.specs.declared.scene.SceneDevice.{SceneDevice};
ghost use Rattle.std.specs.List.{AllByRecursion};

/// A simulated line is honest towards the devices that are present at each exchange. The condition is that no five
/// replies of a kind are lost in a row. The kinds are replies to branches that a device is due to answer, and to mutes
/// of a present device. This holds for a run of exchanges that begins at any moment, up to its first failure, if there
/// is one. It holds for any frames and collisions, and for any devices that come and leave.
pub fn simulated_line_is_honest()
    ensures { (s new : SimState) (steps : List Step) →
        AreSteps s steps new → LosesFew steps → HonestOver (map present_in steps) (map seen_in steps) }
{}

/// A line is honest towards its devices if all of them are there from the first exchange on and never leave. This is
/// the premise of the promises on lines with fixed devices.
pub fn staying_line_is_honest()
    ensures { (s new : SimState) (steps : List Step) → IsScene s.devices → AllByRecursion Stays s.devices →
        AreSteps s steps new → LosesFew steps → HonestTrace (uids_of_scene s.devices) (map seen_in steps) }
{}

/// An exchange fails if and only if the scene names its number. If it names none, none fails.
pub fn fails_are_named()
    ensures named { (s new : SimState) (steps : List Step) →
        AreSteps s steps new → AllByRecursion (FailsAsNamed s.fails) steps }
    ensures none { (s new : SimState) (steps : List Step) →
        AreSteps s steps new → s.fails ≡ [] → AllByRecursion (λ x. (seen_in x).heard ≢ Failed) steps }
{}

/// No exchange changes when which devices are present, nor which exchanges are lost and fail.
pub fn scene_is_kept()
    ensures after { (s new : SimState) (steps : List Step) → AreSteps s steps new → KeepsScene s new }
    ensures amid { (s new : SimState) (steps : List Step) →
        AreSteps s steps new → AllByRecursion (λ x. KeepsScene s x.before) steps }
{}

/// Consecutive exchanges of a simulated line are its steps.
pub fn exchanges_are_steps()
    ensures { (s new : SimState) (xs : List Exchange) → Makes SimState SimStep s xs new →
        (steps : List Step) × AreSteps s steps new × (map (λ x. x.exchange) steps ≡ xs) }
{}

/// If no five losses have consecutive numbers, they are few enough, whatever the frames are.
pub fn few_losses_suffice()
    ensures { (s new : SimState) (steps : List Step) →
        AreSteps s steps new → NoFiveSuccessive s.losses → LosesFew steps }
{}

/// If no device of a scene comes late or leaves, all are present at each exchange.
pub fn devices_may_stay()
    ensures { (devices : List SceneDevice) (i : ℕ) → AllByRecursion Stays devices →
        present_at devices i ≡ uids_of_scene devices }
{}
