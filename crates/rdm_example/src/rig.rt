//! The simulated rig.
use arrayvec::ArrayVec;
use rdm::{Device, Parameter, Parameters, Scene, SceneDevice, SceneDevices, Uid};
use std::alloc::Global;

/// The PID of a fixture's label.
pub(crate) const DEVICE_LABEL: u16 = 0x0082;

/// A rig of two fixtures, of which the first has a label.
pub(crate) fn rig(alloc: Global, source: Uid) -> Option<Scene> {
    let (mut parts, mut labels) = (Vec::new(alloc), Vec::new(alloc));
    parts
        .push(ArrayVec::try_from(b"Spot 1".as_slice()).ok()?)
        .ok()?;
    labels.push(Parameter::new(DEVICE_LABEL, parts)).ok()?;
    let mut devices = SceneDevices::new(alloc);
    add(&mut devices, 0x1234, labels)?;
    add(&mut devices, 0x9abc, Vec::new(alloc))?;
    let (collisions, losses, fails) = (Vec::new(alloc), Vec::new(alloc), Vec::new(alloc));
    Some(Scene {
        source,
        devices,
        collisions,
        losses,
        fails,
    })
}

fn add(devices: &mut SceneDevices, manufacturer: u16, parameters: Vec<Parameter>) -> Option<()> {
    let device = Device {
        uid: Uid::new(manufacturer, 1),
        control: 0,
        binding: None,
    };
    let (params, from, until) = (Parameters::new(parameters), 0, None);
    devices
        .add(SceneDevice {
            device,
            preamble: 7,
            params,
            from,
            until,
        })
        .ok()
}
