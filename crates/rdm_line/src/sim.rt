//! The simulated line.
ghost use Rattle.std.specs.Prelude.{◌≡◌, ◌<◌, ◌≤◌, [], length, IfOk, IfErr, MatchOption, map};
ghost use Rattle.std.specs.List.Sorted.{IsPermutation, IsNonDecreasing};
ghost use Rattle.hex.specs.Hex.{IsBytes};
ghost use Rattle.rdm_wire.specs.Packet.{packet};
ghost use Rattle.rdm_wire.specs.Responses.{fields_of};
ghost use Rattle.rdm_wire.specs.Commands.{command_read};
ghost use Rattle.rdm_line.specs.Overlays.{all_laid_over};
ghost use Rattle.rdm_line.specs.body.Parts.{parameter_at, SendsPart};
ghost use Rattle.rdm_line.specs.Sim.{SimStep, Acts, ActsOn, Unmutes, AnswersBranch, AnswersGet, AnswersSet, Refuses};
ghost use Rattle.rdm_line.specs.Sim.{is_among, next_exchange, answers_branch, answering, branch_reply_of, collided};
ghost use Rattle.rdm_line.specs.Sim.{later_collisions};
ghost use Rattle.rdm_line.specs.Scenes.{IsScene};
ghost use Rattle.rdm_line.specs.Sim.{response_to};

use crate::collision::Collision;
use crate::line::Line;
use crate::overlay::lay_over;
use crate::parameter::ParameterPart;
use crate::scene::{Scene, SceneDevice};
use arrayvec::ArrayVec;
use rdm_join::{LineFault, LineReply};
use rdm_wire::{
    AckType, Command, Frame, LONGEST_PREAMBLE, NoMemory, ReqClass, Request, RespClass, Response,
    Uid, UidRange, UidSet, encode_response, mute_response, read_command, write_branch_reply,
};
use std::alloc::{AllocError, Global};
use std::marker::Model;

// The reason with which a device refuses a parameter that it doesn't have (E1.20, NR_UNKNOWN_PID).
const UNKNOWN_PID: [u8; 2] = [0, 0];

/// A line of simulated devices. Contracts see its state, and its step follows the rules for simulated lines.
///
/// Exchanges are counted up to `u64::MAX`, and the count stays there. So `u64::MAX` is never the number of an exchange
/// that is lost or that fails.
#[derive(Debug, Drop)]
pub struct SimLine {
    scene: Scene,
    // The UIDs of the devices that are muted.
    muted: UidSet,
    // The index of the next collision.
    collision: usize,
    // The numbers of the exchanges that are lost and that fail, ascending.
    losses: Vec<u64>,
    fails: Vec<u64>,
    exchanges: u64,
    failures: u64,
}

impl Model for SimLine {
    ghost use Rattle.std.specs.Prelude.{drop};
    ghost use Rattle.rdm_line.specs.Sim.{SimState};
    ghost use Rattle.rdm_line.specs.SimSound.{IsSound};

    ghost Value = { SimState };

    ghost view = { λ s. record {
      devices = s.scene.devices;
      muted = s.muted;
      collisions = drop s.collision s.scene.collisions.items;
      losses = s.losses.items;
      fails = s.fails.items;
      exchanges = s.exchanges;
      failures = s.failures;
    } };

    ghost invariant = { λ s. IsSound s.scene.devices s.muted s.losses.items s.fails.items s.exchanges s.failures };
}

impl SimLine {
    /// A line of the scene's devices, all of them unmuted, before its first exchange. [`NoMemory`]: out of memory; the
    /// scene is returned.
    pub fn new(alloc: Global, scene: Scene) -> Result<SimLine, (NoMemory, Scene)>
        ensures devices { IfOk result (λ s. s.devices ≡ scene.devices) }
        // The laws on simulated lines require this of the state in which a run begins.
        ensures scene { IfOk result (λ s. IsScene s.devices) }
        ensures unmuted { IfOk result (λ s. s.muted ≡ []) }
        ensures collisions { IfOk result (λ s. s.collisions ≡ scene.collisions.items) }
        ensures losses { IfOk result (λ s. IsPermutation scene.losses.items s.losses) }
        ensures fails { IfOk result (λ s. IsPermutation scene.fails.items s.fails) }
        ensures counts { IfOk result (λ s. (s.exchanges ≡ 0) × (s.failures ≡ 0)) }
        ensures back { IfErr result (λ e. e.1 ≡ scene) }
    {
        let Ok(losses) = ascending(alloc, &scene.losses) else {
            return Err((NoMemory, scene));
        };
        let Ok(fails) = ascending(alloc, &scene.fails) else {
            return Err((NoMemory, scene));
        };
        Ok(SimLine {
            scene,
            muted: UidSet::new(),
            collision: 0,
            losses,
            fails,
            exchanges: 0,
            failures: 0,
        })
    }

    // The devices' reply to the frame of this exchange, which was counted already.
    fn act(&mut self, exchange: u64, frame: &[u8]) -> LineReply
        requires { self.old.exchanges ≡ next_exchange exchange }
        ensures acts { Acts exchange self.old (command_read frame.now) result.items self.new }
        ensures frame { IsBytes frame.now }
    {
        let Some((command, source, tn)) = read_command(frame) else {
            return LineReply::new();
        };
        match command {
            Command::Unmute => self.unmute(),
            Command::Branch(range) => self.branch(exchange, range),
            Command::Mute(uid) => self.mute(exchange, uid, source, tn),
            Command::Request(request) => self.request(exchange, &request, source, tn),
        }
    }

    fn unmute(&mut self) -> LineReply
        ensures { Unmutes self.old result.items self.new }
    {
        self.muted = UidSet::new();
        LineReply::new()
    }

    fn mute(&mut self, exchange: u64, uid: Uid, source: Uid, tn: u8) -> LineReply
        requires { self.old.exchanges ≡ next_exchange exchange }
        ensures { ActsOn exchange self.old (Command.Mute uid) source tn result.items self.new }
    {
        let Some(device) = self.scene.devices.present(uid, exchange) else {
            return LineReply::new();
        };
        let response = mute_response(&device.device, source, tn);
        // All devices of a scene fit into a set.
        let _ = self.muted.insert(uid);
        encode_response(&response)
    }

    fn branch(&mut self, exchange: u64, range: UidRange) -> LineReply
        ensures { AnswersBranch self.old (answering exchange self.old range) result.items self.new }
    {
        let (count, replies) = self.replies(exchange, range);
        if count < 2 {
            return replies;
        }
        self.collide(replies)
    }

    // How many devices answer a branch, and the OR of their replies.
    fn replies(&self, exchange: u64, range: UidRange) -> (usize, LineReply)
        ensures count { result.0 ≡ length (answering exchange self.now range) }
        ensures replies { result.1.items ≡ all_laid_over (map branch_reply_of (answering exchange self.now range)) }
    {
        let mut count = 0;
        let mut replies = LineReply::new();
        'devices: for device in self.scene.devices.as_slice() {
            if self.answers(exchange, device, range) {
                count += 1;
                let reply = write_branch_reply(device.device.uid, device.preamble);
                lay_over(&mut replies, &reply);
            }
        }
        (count, replies)
    }

    // Whether the device answers a branch: it is present, in its range and not muted.
    fn answers(&self, exchange: u64, device: &SceneDevice, range: UidRange) -> bool
        ensures { result ≡ answers_branch exchange self.now.muted range device.now }
    {
        let uid = device.device.uid;
        device.is_present(exchange) && range.contains(uid) && !self.muted.contains(uid)
    }

    // What results from a collision of replies with this OR. Then the next collision follows, or the last one again.
    fn collide(&mut self, replies: LineReply) -> LineReply
        requires { 0 < length replies.items }
        ensures some { 0 < length result.items }
        ensures bytes { result.items ≡ collided self.old.collisions replies.items }
        ensures next { self.new ≡ record self.old { collisions = later_collisions self.old.collisions } }
    {
        let reply = self.collided(replies);
        if self.collision < self.scene.collisions.len().saturating_sub(1) {
            self.collision += 1;
        }
        reply
    }

    fn collided(&self, replies: LineReply) -> LineReply
        requires { 0 < length replies.items }
        ensures value { result.items ≡ collided self.now.collisions replies.items }
        ensures some { 0 < length result.items }
    {
        match self.scene.collisions.get(self.collision) {
            None | Some(Collision::Or) => replies,
            Some(Collision::Uid(uid)) => reply_of(&write_branch_reply(*uid, LONGEST_PREAMBLE)),
            Some(Collision::Bytes(bytes)) => reply_of(bytes.as_slice()),
        }
    }

    fn request(&mut self, exchange: u64, request: &Request, source: Uid, tn: u8) -> LineReply
        ensures { ActsOn exchange self.old (Command.Request request.now) source tn result.items self.new }
    {
        let target = request.target;
        if self.scene.devices.present(target, exchange).is_none() {
            return LineReply::new();
        }
        match request.class {
            ReqClass::Get => self.get(request, source, tn),
            ReqClass::Set => self.set(request, source, tn),
        }
    }

    fn get(&mut self, request: &Request, source: Uid, tn: u8) -> LineReply
        ensures { MatchOption (parameter_at request.now.target request.now.pid self.old.devices)
            (Refuses self.old request.now source tn RespClass.Get result.items self.new)
            (λ p. AnswersGet self.old request.now source tn p result.items self.new) }
    {
        let sent = self.scene.devices.send(request.target, request.pid);
        answer_get(request, source, tn, sent)
    }

    fn set(&self, request: &Request, source: Uid, tn: u8) -> LineReply
        ensures { MatchOption (parameter_at request.now.target request.now.pid self.now.devices)
            (Refuses self.now request.now source tn RespClass.Set result.items self.now)
            (λ p. AnswersSet self.now request.now source tn result.items self.now) }
    {
        if self
            .scene
            .devices
            .has_parameter(request.target, request.pid)
        {
            respond(request, source, tn, RespClass::Set, AckType::Ack, &[])
        } else {
            respond(
                request,
                source,
                tn,
                RespClass::Set,
                AckType::Nack,
                &UNKNOWN_PID,
            )
        }
    }
}

impl Line for SimLine {
    ghost step = { SimStep };

    ghost failures_of = { λ s. s.failures };

    fn exchange(&mut self, frame: &Frame) -> Result<LineReply, LineFault> {
        let exchange = self.exchanges;
        if is_among(exchange, &self.fails) {
            self.exchanges += 1;
            self.failures += 1;
            return Err(LineFault);
        }
        let is_lost = is_among(exchange, &self.losses);
        self.exchanges = exchange.saturating_add(1);
        let reply = self.act(exchange, frame);
        if is_lost {
            Ok(LineReply::new())
        } else {
            Ok(reply)
        }
    }

    fn failures(&self) -> u64 {
        self.failures
    }
}

// Whether this exchange is one of these numbers. At the end of the count it isn't, since the count stays there.
fn is_among(exchange: u64, numbers: &[u64]) -> bool
    requires { IsNonDecreasing numbers.now }
    ensures { result ≡ is_among exchange numbers.now }
{
    exchange < u64::MAX && numbers.binary_search(&exchange).is_ok()
}

// A device's response to a GET that it answers with this part. `None`: it doesn't have the parameter.
fn answer_get(
    request: &Request,
    source: Uid,
    tn: u8,
    sent: Option<(ParameterPart, AckType)>,
) -> LineReply
    ensures { SendsPart request.now source tn sent result.items }
{
    match sent {
        Some((part, ack)) => respond(request, source, tn, RespClass::Get, ack, &part),
        None => respond(
            request,
            source,
            tn,
            RespClass::Get,
            AckType::Nack,
            &UNKNOWN_PID,
        ),
    }
}

// The frame of a device's response to a request.
fn respond(
    request: &Request,
    source: Uid,
    tn: u8,
    class: RespClass,
    ack: AckType,
    bytes: &[u8],
) -> LineReply
    requires { length bytes.now ≤ 231 }
    ensures { result.items ≡ packet (fields_of (response_to request.now source tn class ack bytes.now)) }
{
    let mut param = ArrayVec::new();
    param.try_extend_from_slice(bytes).unwrap();
    encode_response(&Response {
        source: request.target,
        dest: source,
        tn,
        ack,
        count: 0,
        sub_device: request.sub_device,
        class,
        pid: request.pid,
        param,
    })
}

fn reply_of(bytes: &[u8]) -> LineReply
    requires { length bytes.now ≤ 257 }
    ensures { result.items ≡ bytes.now }
{
    let mut reply = ArrayVec::new();
    reply.try_extend_from_slice(bytes).unwrap();
    reply
}

// The same numbers in ascending order.
fn ascending(alloc: Global, numbers: &[u64]) -> Result<Vec<u64>, AllocError>
    ensures same { IfOk result (λ v. IsPermutation numbers.now v.items) }
    ensures ascending { IfOk result (λ v. IsNonDecreasing v.items) }
{
    let mut sorted = Vec::from_slice(alloc, numbers)?;
    sorted.sort_unstable();
    Ok(sorted)
}
