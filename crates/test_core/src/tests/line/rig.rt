//! Scenes, lines made from them, and the lines' replies.
use crate::tests::*;
use rdm_line::{Parameter, ParameterPart, Parameters, Scene, SceneDevice, SceneDevices};
use rdm_wire::{encode_branch, encode_mute, encode_request};

fn controller() -> Uid {
    Uid::new(0x7a70, 0x100)
}

pub fn first() -> Uid {
    Uid::new(0x1234, 1)
}

fn second() -> Uid {
    Uid::new(0x9abc, 2)
}

fn plain(uid: Uid) -> Device {
    Device {
        uid,
        control: 0,
        binding: None,
    }
}

// Adds a device without preamble bytes.
fn add(rt: &impl Abort, devices: &mut SceneDevices, device: Device, params: Parameters) {
    check(rt, !device.uid.is_broadcast());
    let added = devices.add(SceneDevice {
        device,
        preamble: 0,
        params,
        from: 0,
        until: None,
    });
    check(rt, added.is_ok());
}

/// A scene's devices: both, without parameters.
pub fn two_devices(rt: &impl Abort, alloc: Global) -> SceneDevices {
    let mut devices = SceneDevices::new(alloc);
    for uid in [first(), second()] {
        let params = Parameters::new(Vec::new(alloc));
        add(rt, &mut devices, plain(uid), params);
    }
    devices
}

// A part of a parameter, with these bytes.
fn part(rt: &impl Abort, bytes: &[u8]) -> ParameterPart {
    let mut part = ParameterPart::new();
    check(rt, part.try_extend_from_slice(bytes).is_ok());
    part
}

// The parameter `0060` in these parts.
fn params_of(rt: &impl Abort, alloc: Global, parts: Vec<ParameterPart>) -> Parameters {
    check(rt, !parts.is_empty());
    let mut params = Vec::new(alloc);
    check(rt, params.push(Parameter::new(0x0060, parts)).is_ok());
    Parameters::new(params)
}

// A scene's devices: only the first device, with these parameters.
fn device_with(rt: &impl Abort, alloc: Global, params: Parameters) -> SceneDevices {
    let mut devices = SceneDevices::new(alloc);
    add(rt, &mut devices, plain(first()), params);
    devices
}

/// A scene's devices: only the first device, with the parameter `0060` in two parts, `0102` and `03`.
pub fn two_parts(rt: &impl Abort, alloc: Global) -> SceneDevices {
    let mut parts = Vec::new(alloc);
    check(rt, parts.push(part(rt, &[1, 2])).is_ok());
    check(rt, parts.push(part(rt, &[3])).is_ok());
    device_with(rt, alloc, params_of(rt, alloc, parts))
}

fn numbers(rt: &impl Abort, alloc: Global, of: &[u64]) -> Vec<u64> {
    Vec::from_slice(alloc, of).expect(rt, "memory")
}

/// A collision that is a byte of noise.
pub fn noise(rt: &impl Abort) -> Collision {
    let mut bytes = LineReply::new();
    check(rt, bytes.try_push(0xff).is_ok());
    Collision::Bytes(CollisionBytes::new(bytes).expect(rt, "a byte"))
}

/// These two collisions, one after the other.
pub fn collisions(
    rt: &impl Abort,
    alloc: Global,
    one: Collision,
    other: Collision,
) -> Vec<Collision> {
    let mut collisions = Vec::new(alloc);
    check(rt, collisions.push(one).is_ok());
    check(rt, collisions.push(other).is_ok());
    collisions
}

/// A line with these devices and collisions. It fails at the exchanges in `fails`.
pub fn line_of(
    rt: &impl Abort,
    alloc: Global,
    devices: SceneDevices,
    collisions: Vec<Collision>,
    fails: &[u64],
) -> SimLine {
    let scene = Scene {
        source: controller(),
        devices,
        collisions,
        losses: Vec::new(alloc),
        fails: numbers(rt, alloc, fails),
    };
    match SimLine::new(alloc, scene) {
        Ok(line) => line,
        Err(_) => panic!(rt; "memory"),
    }
}

/// A frame that is sent to a line.
#[derive(Clone, Copy)]
pub enum Ask {
    /// A branch of the whole range with this number.
    Branch(u8),
    /// A mute of the first device with this number.
    Mute(u8),
    /// The GET of the first device's parameter `0060` with number 0.
    Get,
    /// A frame with these bytes, in hexadecimal.
    Bytes(&'static str),
}

/// A frame, and the bytes that come after it in hexadecimal. None: the line fails.
pub type Row<'a> = (Ask, Option<&'a str>);

/// The line answers each frame as its row says, and its failures are counted.
pub fn plays(rt: &impl Abort, alloc: Global, mut line: SimLine, rows: &[Row<'_>]) {
    let mut failures = 0u64;
    for (ask, wanted) in rows {
        let frame = frame_for(rt, alloc, *ask);
        match (line.exchange(&frame), wanted) {
            (Ok(reply), Some(text)) => is_text(rt, alloc, &reply, text),
            (Err(LineFault), None) => failures = failures.wrapping_add(1),
            _ => panic!(rt; "it failed, or did not"),
        }
        check(rt, line.failures() == failures);
    }
}

// The bytes are what a text gives in hexadecimal.
fn is_text(rt: &impl Abort, alloc: Global, bytes: &[u8], text: &str) {
    assert!(rt; bytes == bytes_of(rt, alloc, text).as_slice(), "{text}");
}

// The frame of this `Ask`.
fn frame_for(rt: &impl Abort, alloc: Global, ask: Ask) -> Frame {
    match ask {
        Ask::Branch(tn) => encode_branch(UidRange::whole(), controller(), tn),
        Ask::Mute(tn) => {
            let uid = first();
            check(rt, !uid.is_broadcast());
            encode_mute(uid, controller(), tn)
        }
        Ask::Get => get(),
        Ask::Bytes(text) => frame_of(rt, alloc, text),
    }
}

fn get() -> Frame {
    let request = Request {
        target: first(),
        sub_device: 0,
        class: ReqClass::Get,
        pid: 0x0060,
        param: ParameterPart::new(),
    };
    encode_request(&request, controller(), 0)
}

/// The line's reply to a frame of two bytes, whose text is `cc01`, is these bytes. None: the line fails.
pub fn meets<L: Line>(rt: &impl Abort, line: &mut L, wanted: Option<&[u8]>) {
    let mut frame = Frame::new();
    let _ = frame.try_extend_from_slice(&[0xcc, 0x01]);
    match line.exchange(&frame) {
        Ok(reply) => check(rt, wanted == Some(reply.as_slice())),
        Err(LineFault) => check(rt, wanted.is_none()),
    }
}
