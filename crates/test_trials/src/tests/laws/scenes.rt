//! Scenes that meet the premises of the laws.
ghost use Rattle.std.specs.Prelude.{◌≡◌, [], None, IfSome};
ghost use Rattle.std.specs.List.{AllByRecursion};
ghost use Rattle.rdm_line.specs.Scenes.{Stays};
ghost use Rattle.rdm_line.specs.SimSteps.{NoFiveSuccessive};

use crate::tests::*;
use rdm_line::{Collision, Parameters, Scene, SceneDevice, SceneDevices};
use rdm_wire::Uid;

/// Two devices that stay, on a line that loses two replies: one to a branch, and one to a mute.
pub fn staying_scene(alloc: Global) -> Option<Scene>
    ensures few_losses { IfSome result (λ scene. NoFiveSuccessive scene.losses.items) }
    ensures stay { IfSome result (λ scene. AllByRecursion Stays scene.devices) }
    ensures no_fails { IfSome result (λ scene. scene.fails.items ≡ []) }
{
    let mut devices = SceneDevices::new(alloc);
    put(alloc, &mut devices, Who::First, None)?;
    put(alloc, &mut devices, Who::Second, None)?;
    let mut losses = Vec::new(alloc);
    losses.push(9).ok()?;
    losses.push(11).ok()?;
    scene_of(alloc, devices, losses)
}

/// A device that stays, and one that leaves at this exchange.
pub fn changing_scene(alloc: Global, leaves: u64) -> Option<Scene>
    ensures { IfSome result (λ scene. NoFiveSuccessive scene.losses.items) }
{
    let mut devices = SceneDevices::new(alloc);
    put(alloc, &mut devices, Who::First, None)?;
    put(alloc, &mut devices, Who::Gone, Some(leaves))?;
    scene_of(alloc, devices, Vec::new(alloc))
}

// Adds a device without parameters that is there from the start, and leaves at `until` if that is given.
fn put(alloc: Global, devices: &mut SceneDevices, who: Who, until: Option<u64>) -> Option<()>
    ensures { until ≡ None → AllByRecursion Stays devices.old → AllByRecursion Stays devices.new }
{
    let device = device_of(who);
    if device.uid.is_broadcast() {
        return None;
    }
    let added = devices.add(SceneDevice {
        device,
        preamble: 7,
        params: Parameters::new(Vec::new(alloc)),
        from: 0,
        until,
    });
    match added {
        Ok(()) => Some(()),
        Err(_) => None,
    }
}

// These devices, on a line that loses the replies of these exchanges. If replies collide, the text of `5555:00000003`
// comes, a device that isn't there.
fn scene_of(alloc: Global, devices: SceneDevices, losses: Vec<u64>) -> Option<Scene>
    ensures devices { IfSome result (λ scene. scene.devices ≡ devices) }
    ensures losses { IfSome result (λ scene. scene.losses.items ≡ losses.items) }
    ensures fails { IfSome result (λ scene. scene.fails.items ≡ []) }
{
    let mut collisions = Vec::new(alloc);
    match collisions.push(Collision::Uid(Uid::new(0x5555, 3))) {
        Ok(()) => Some(Scene {
            source: Uid::new(0x7a70, 0x100),
            devices,
            collisions,
            losses,
            fails: Vec::new(alloc),
        }),
        Err(_) => None,
    }
}
