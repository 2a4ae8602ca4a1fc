//! Lines of simulated devices.
use crate::device::{Who, device_of};
use crate::setup::controller;
use crate::wrong::Wrong;
use arrayvec::ArrayVec;
use rdm_join::LineReply;
use rdm_line::{
    Collision, CollisionBytes, Parameter, ParameterPart, Parameters, Scene, SceneDevice,
    SceneDevices, SimLine,
};
use rdm_wire::{NoMemory, Uid};
use std::alloc::Global;

/// A device of a scene, and when it is there.
#[derive(Clone, Copy)]
pub struct TimedDevice {
    /// The device.
    pub who: Who,
    /// The exchange at which it comes, 0 to 1,000,000,000.
    pub from: u64,
    /// The exchange at which it has left, if it ever leaves.
    pub until: Option<u64>,
}

impl TimedDevice {
    /// A device that is there from the start and never leaves.
    pub fn stays(who: Who) -> TimedDevice {
        TimedDevice {
            who,
            from: 0,
            until: None,
        }
    }
}

/// What the line carries if replies to a branch collide.
#[derive(Clone, Copy)]
pub enum Meeting {
    /// The bitwise OR of the replies.
    Or,
    /// A byte that spells no UID.
    Noise,
    /// The text of `5555:00000003`, a device that isn't there.
    Phantom,
}

/// A scene in short. Each device has two parameters: `0060`, in one part with the bytes 1 and 2, and `8001`, in three
/// parts of 231 bytes.
#[derive(Clone, Copy)]
pub struct LineOf<'a> {
    /// The devices.
    pub devices: &'a [TimedDevice],
    /// What the line carries if replies collide.
    pub meeting: Meeting,
    /// The exchanges whose reply is lost.
    pub losses: &'a [u64],
    /// The exchanges at which the line fails.
    pub fails: &'a [u64],
}

/// A line of this scene. If an allocation fails, the line is made with the scene that was returned.
pub fn line_of(alloc: Global, of: LineOf) -> Result<SimLine, Wrong> {
    match SimLine::new(alloc, scene_of(alloc, of)?) {
        Ok(line) => Ok(line),
        Err((NoMemory, scene)) if is_of(&scene, of) => match SimLine::new(alloc, scene) {
            Ok(line) => Ok(line),
            Err(_) => Err(Wrong::NotAgain),
        },
        Err(_) => Err(Wrong::NotAgain),
    }
}

// Whether the scene that was returned has these losses and failures.
fn is_of(scene: &Scene, of: LineOf) -> bool {
    scene.source == controller()
        && scene.losses.as_slice() == of.losses
        && scene.fails.as_slice() == of.fails
}

/// A line with only [`Who::First`], which fails at these exchanges.
pub fn one_device(alloc: Global, fails: &[u64]) -> Result<SimLine, Wrong> {
    let devices = [TimedDevice::stays(Who::First)];
    line_of(
        alloc,
        LineOf {
            devices: &devices,
            meeting: Meeting::Noise,
            losses: &[],
            fails,
        },
    )
}

/// A line with these two devices, whose colliding replies spell no UID.
pub fn two_devices(alloc: Global, devices: [Who; 2]) -> Result<SimLine, Wrong> {
    let [one, other] = devices;
    let devices = [TimedDevice::stays(one), TimedDevice::stays(other)];
    line_of(
        alloc,
        LineOf {
            devices: &devices,
            meeting: Meeting::Noise,
            losses: &[],
            fails: &[],
        },
    )
}

fn scene_of(alloc: Global, of: LineOf) -> Result<Scene, Wrong> {
    let mut devices = SceneDevices::new(alloc);
    for timed in of.devices {
        add(alloc, &mut devices, *timed)?;
    }
    let mut collisions = Vec::new(alloc);
    if collisions.push(collision_of(of.meeting)?).is_err() {
        return Err(Wrong::NoMemory);
    }
    Ok(Scene {
        source: controller(),
        devices,
        collisions,
        losses: numbers(alloc, of.losses)?,
        fails: numbers(alloc, of.fails)?,
    })
}

fn numbers(alloc: Global, of: &[u64]) -> Result<Vec<u64>, Wrong> {
    match Vec::from_slice(alloc, of) {
        Ok(numbers) => Ok(numbers),
        Err(_) => Err(Wrong::NoMemory),
    }
}

fn collision_of(meeting: Meeting) -> Result<Collision, Wrong> {
    match meeting {
        Meeting::Or => Ok(Collision::Or),
        Meeting::Phantom => Ok(Collision::Uid(Uid::new(0x5555, 3))),
        Meeting::Noise => noise(),
    }
}

fn noise() -> Result<Collision, Wrong> {
    let mut bytes = LineReply::new();
    let _ = bytes.try_push(0xff);
    match CollisionBytes::new(bytes) {
        Some(bytes) => Ok(Collision::Bytes(bytes)),
        None => Err(Wrong::Device),
    }
}

// Puts a device into a scene.
fn add(alloc: Global, devices: &mut SceneDevices, timed: TimedDevice) -> Result<(), Wrong> {
    let params = params_of(alloc)?;
    let device = device_of(timed.who);
    if device.uid.is_broadcast() || timed.from > 1_000_000_000 {
        return Err(Wrong::Device);
    }
    let added = devices.add(SceneDevice {
        device,
        preamble: 7,
        params,
        from: timed.from,
        until: timed.until,
    });
    match added {
        Ok(()) => Ok(()),
        Err(_) => Err(Wrong::NoMemory),
    }
}

// The parameters `0060` and `8001`.
fn params_of(alloc: Global) -> Result<Parameters, Wrong> {
    let mut params = Vec::new(alloc);
    add_param(alloc, &mut params, 0x0060, &[&[1, 2]])?;
    let part: &[u8] = &[0x5a; 231];
    add_param(alloc, &mut params, 0x8001, &[part, part, part])?;
    Ok(Parameters::new(params))
}

// Adds a parameter in these parts, of which there is at least one.
fn add_param(
    alloc: Global,
    params: &mut Vec<Parameter>,
    pid: u16,
    of: &[&[u8]],
) -> Result<(), Wrong> {
    let mut parts = Vec::new(alloc);
    for bytes in of {
        let mut part: ParameterPart = ArrayVec::new();
        let _ = part.try_extend_from_slice(bytes);
        if parts.push(part).is_err() {
            return Err(Wrong::NoMemory);
        }
    }
    if parts.is_empty() || params.push(Parameter::new(pid, parts)).is_err() {
        return Err(Wrong::NoMemory);
    }
    Ok(())
}
