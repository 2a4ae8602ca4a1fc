//! What is done in the worker's turns.
ghost use Rattle.std.specs.Prelude.{◌≡◌, ◌<◌, true, length, vec_len};
ghost use Rattle.rdm_lanes.specs.Lanes.{AllHaveLeft};
ghost use Rattle.rdm_lanes.specs.Lines.{IsBetweenTurns};
ghost use Rattle.rdm_lanes.specs.body.Doing.{DoesAt, AreServed, AreMoved, IsServed, IsMoved};
ghost use Rattle.rdm_lanes.specs.body.Quiet.{NoExchange, OnlyCollects};
ghost use Rattle.rdm_lanes.specs.body.Steps.{Attempted, SameEnds, ServesOperator};

use crate::call::OperatorCall;
use crate::worker::Worker;
use crate::worker::moving::move_outcomes;
use crate::worker::operating::operate;
use crate::worker::serve::serve_call;
use rdm_join::LineEvent;
use rdm_line::Line;
use rdm_log::{ClientId, LogFull};
use rdm_queue::Session;
use std::alloc::Global;

/// How an attempt at an exchange ended.
#[derive(Clone, Copy, PartialEq, Eq)]
pub enum Attempt {
    /// An exchange was made.
    Exchanged,
    /// There is no frame to send.
    NothingToSend,
    /// The log is full.
    LogFull,
}

impl Worker {
    // Makes at most one call of each client.
    pub(crate) fn serve_clients(&mut self, alloc: Global)
        ensures { AreServed (length self.old.lanes.items) self.old self.new }
    {
        for at in 0..self.lanes.len() {
            self.serve_client(alloc, at);
        }
    }

    // Makes at most one call of the client.
    fn serve_client(&mut self, alloc: Global, at: usize)
        requires { at < vec_len self.old.lanes }
        ensures { DoesAt NoExchange IsServed at self.old self.new }
    {
        let Worker { session, lanes, .. } = self;
        serve_call(alloc, session, ClientId(at as u8), &mut lanes[at]);
    }

    // Moves the outcomes of each client.
    pub(crate) fn move_all(&mut self, alloc: Global)
        ensures { AreMoved (length self.old.lanes.items) self.old self.new }
    {
        for at in 0..self.lanes.len() {
            self.move_for(alloc, at);
        }
    }

    // Moves the outcomes of the client.
    fn move_for(&mut self, alloc: Global, at: usize)
        requires { at < vec_len self.old.lanes }
        ensures { DoesAt OnlyCollects IsMoved at self.old self.new }
    {
        let Worker { session, lanes, .. } = self;
        move_outcomes(alloc, session, ClientId(at as u8), &mut lanes[at]);
    }

    // Makes at most one call of the operator.
    #[tactic(auto, using(crate::proofs::LineLemmas::line_same, crate::proofs::WorkLemmas::steps_none, crate::proofs::LaneLemmas::same_lanes))]
    pub(crate) fn serve_operator(&mut self)
        ensures { ServesOperator self.old self.new }
    {
        if self.operator_left || self.operator.slots() == 0 || self.session.is_full() {
            return;
        }
        let Worker {
            session,
            operator,
            operator_left,
            ..
        } = self;
        let call = operator.pop_known();
        operate(session, call);
        *operator_left = call == OperatorCall::Leave;
    }

    // Makes an exchange with the line, if there is a frame to send.
    pub(crate) fn exchange<X: Line>(&mut self, alloc: Global, line: &mut X) -> Attempt
        ensures attempted { Attempted X.step line.old self.old.session line.new self.new.session result }
        ensures ends { SameEnds self.old self.new }
    {
        make_exchange(alloc, &mut self.session, line)
    }

    // Whether all have left. Nobody sends anything after a leave, so the rings of calls are then empty.
    pub(crate) fn have_all_left(&self) -> bool
        ensures { result ≡ true → AllHaveLeft self.now.lanes.items × (self.now.operator_left ≡ true) }
    {
        self.operator_left && self.lanes.iter().all(|lane| lane.left)
    }
}

// Makes an exchange with the line, if there is a frame to send.
fn make_exchange<X: Line>(alloc: Global, session: &mut Session, line: &mut X) -> Attempt
    requires { IsBetweenTurns session.old }
    ensures { Attempted X.step line.old session.old line.new session.new result }
{
    match session.take() {
        Err(LogFull) => Attempt::LogFull,
        Ok(None) => Attempt::NothingToSend,
        Ok(Some(frame)) => {
            let event = LineEvent::from(line.exchange(&frame));
            let _ = session.deliver(alloc, event);
            Attempt::Exchanged
        }
    }
}
