//! Laws of runs, each the contract of a function that does nothing. The definitions are in `specs`.
ghost use Rattle.std.specs.Prelude.{ℕ, List, Result};
ghost use Rattle.rdm_wire.specs.declared.device.Device.{Device};
ghost use Rattle.rdm_agent.specs.declared.fault.AgentFault.{AgentFault};
ghost use Rattle.rdm_agent.specs.declared.kind.Kind.{Kind};
ghost use Rattle.rdm_agent.specs.declared.search.Search.{Search};
ghost use Rattle.rdm_line.specs.SimSteps.{LosesFew};
ghost use Rattle.rdm_line.specs.declared.scene.Scene.{Scene};
ghost use Rattle.rdm_reports.specs.SceneDiscovery.{IsSceneDiscovery, IsHonestReport};

/// A run on the line of a scene reports honestly (`IsHonestReport`), if its steps lost no five replies of a kind in a
/// row. These are the replies to branches that a device was due to answer, and to mutes of a present device.
pub fn few_losses_are_honest()
    ensures { (scene : Scene) (search : Search) (kind : Kind) (known : List ℕ) (budget : ℕ)
        (found : Result (List Device) (AgentFault × List Device)) (frames : ℕ)
        (run : IsSceneDiscovery scene search kind known budget found frames)
        → LosesFew run.steps → IsHonestReport scene search kind known budget found frames }
{}
