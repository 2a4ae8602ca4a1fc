//! Simulated lines, and what comes in discovery runs on them.
ghost use Rattle.std.specs.Prelude.{◌≡◌, ◌≢◌, true};
ghost use Rattle.rdm_agent.specs.Calls.{next_op, fits};
ghost use Rattle.rdm_agent.specs.declared.op.Op.TheVariants.{End};

use crate::bench::holds;
use rdm_agent::{Agent, DEFAULT_BUDGET, Kind, Op, OpReply};
use rdm_join::{LineFault, LineReply};
use rdm_line::{
    Asks, Collision, CollisionBytes, Counted, Line, Parameters, Scene, SceneDevice, SceneDevices,
    SimLine,
};
use rdm_wire::{Device, Frame, MuteAck, Uid, UidSet, read_branch_reply};
use std::alloc::Global;
use test_rig::{Who, controller, two_devices};

/// These bytes as what came.
pub fn bytes_of(bytes: &[u8]) -> Option<LineReply> {
    let mut reply = LineReply::new();
    reply.try_extend_from_slice(bytes).ok()?;
    Some(reply)
}

/// A device, as its acknowledgement says it.
pub fn device_of(uid: Uid) -> Device
    ensures { result.uid ≡ uid }
{
    Device {
        uid,
        control: 0,
        binding: None,
    }
}

// A scene of these devices.
fn scene(alloc: Global, devices: &UidSet) -> Option<Scene> {
    let mut collisions = Vec::new(alloc);
    collisions.push(noise()?).ok()?;
    Some(Scene {
        source: controller(),
        devices: staying(alloc, devices)?,
        collisions,
        losses: Vec::new(alloc),
        fails: Vec::new(alloc),
    })
}

// A byte that spells nothing.
fn noise() -> Option<Collision> {
    CollisionBytes::new(bytes_of(&[0xff])?).map(Collision::Bytes)
}

// These devices, which stay.
fn staying(alloc: Global, uids: &UidSet) -> Option<SceneDevices> {
    let mut devices = SceneDevices::new(alloc);
    for uid in uids.as_slice() {
        add(alloc, &mut devices, *uid)?;
    }
    Some(devices)
}

fn add(alloc: Global, devices: &mut SceneDevices, uid: Uid) -> Option<()> {
    if uid.is_broadcast() {
        return None;
    }
    let device = SceneDevice {
        device: device_of(uid),
        preamble: 7,
        params: Parameters::new(Vec::new(alloc)),
        from: 0,
        until: None,
    };
    devices.add(device).ok()
}

/// What came after an operation of a run.
#[derive(Drop)]
pub struct Taped {
    op: Op,
    pub reply: LineReply,
}

impl Taped {
    /// What an agent hears of it.
    pub fn heard(&self) -> OpReply {
        match self.op {
            Op::UnmuteAll | Op::End => OpReply::Done,
            Op::Mute(_) if self.reply.is_empty() => OpReply::Mute(None),
            Op::Mute(_) => OpReply::Mute(Some(ACK)),
            Op::Branch(_) => OpReply::Branch(read_branch_reply(&self.reply)),
        }
    }
}

// The acknowledgement that each device gives.
const ACK: MuteAck = MuteAck {
    control: 0,
    binding: None,
};

/// A line that loses nothing, and on which a collision is noise.
#[derive(Drop)]
pub struct TestLine {
    line: SimLine,
    /// What came in runs.
    pub tape: Vec<Taped>,
}

impl TestLine {
    /// A line with these devices.
    pub fn new(alloc: Global, devices: &UidSet) -> Option<TestLine> {
        let scene = scene(alloc, devices)?;
        Some(TestLine {
            line: SimLine::new(alloc, scene).ok()?,
            tape: Vec::new(alloc),
        })
    }

    /// How many devices a steady run on this line finds.
    pub fn count(&mut self) -> Option<usize> {
        let mut agent = Agent::start(Kind::Full, &UidSet::new(), DEFAULT_BUDGET);
        for made in 0..DEFAULT_BUDGET {
            if agent.next() == Op::End {
                break;
            }
            self.answer(&mut agent, (made % 256) as u8)?;
        }
        Some(agent.found().len())
    }

    // The agent asks what it asks next, and hears what came.
    fn answer(&mut self, agent: &mut Agent, tn: u8) -> Option<()>
        requires { next_op agent.old ≢ End }
    {
        let op = agent.next();
        let frame = op.frame(controller(), tn);
        let answer = self.line.exchange(&frame);
        agent.hear(read(op, tn, &answer));
        let reply = answer.ok()?;
        self.tape.push(Taped { op, reply }).ok()
    }
}

// What came after the frame of this operation.
fn read(op: Op, tn: u8, answer: &Result<LineReply, LineFault>) -> OpReply
    requires { op ≢ End }
    ensures { fits result op ≡ true }
{
    match answer {
        Ok(bytes) => op.read_reply(controller(), tn, Some(bytes.as_slice())),
        Err(LineFault) => op.read_reply(controller(), tn, None),
    }
}

/// This many devices from anywhere, others for each seed. Of the UIDs that are tried, a few are broadcast UIDs or in
/// the set already.
pub fn devices(count: usize, seed: u64) -> Option<UidSet> {
    let mut set = UidSet::new();
    let mut random = Random::new(seed);
    for _ in 0..10_000 {
        if set.len() == count {
            return Some(set);
        }
        let uid = Uid::from_number(random.next() >> 16)?;
        holds(uid.is_broadcast() || set.insert(uid).is_ok())?;
    }
    None
}

/// A line with two devices, one of which answers requests, whose losses and failures are drawn by this seed.
pub fn drawn_line(alloc: Global, seed: u64) -> Option<Counted<Drawn>> {
    Some(Counted::new(Drawn {
        line: two_devices(alloc, [Who::First, Who::Second]).ok()?,
        random: Random::new(seed),
    }))
}

/// A line whose losses and failures are drawn as it goes: one exchange in 100 fails, and of the others the reply of one
/// in 50 is lost.
#[derive(Drop)]
pub struct Drawn {
    line: SimLine,
    random: Random,
}

impl Asks for Drawn {
    fn ask(&mut self, frame: &Frame) -> Option<LineReply> {
        if self.random.below(100) == 0 {
            return None;
        }
        let reply = self.line.exchange(frame).unwrap_or_default();
        if self.random.below(50) == 0 {
            return Some(LineReply::new());
        }
        Some(reply)
    }
}

/// A generator of numbers (xorshift64*).
#[derive(Drop)]
pub struct Random(u64);

impl Random {
    /// The generator of this seed.
    pub fn new(seed: u64) -> Random {
        let state = seed.wrapping_mul(0x9e37_79b9_7f4a_7c15);
        let mut random = Random(state.wrapping_add(0x123_4567).max(1));
        // The first few still show the seed.
        for _ in 0..4 {
            random.next();
        }
        random
    }

    /// The next number.
    pub fn next(&mut self) -> u64 {
        self.0 ^= self.0 >> 12;
        self.0 ^= self.0 << 25;
        self.0 ^= self.0 >> 27;
        self.0.wrapping_mul(2_685_821_657_736_338_717)
    }

    /// The next number below this one; 0 below 0.
    pub fn below(&mut self, most: u64) -> u64 {
        self.next().checked_rem(most).unwrap_or(0)
    }
}
