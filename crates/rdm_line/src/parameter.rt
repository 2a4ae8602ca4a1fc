//! The parameters of a simulated device.
ghost use Rattle.std.specs.Prelude.{◌≡◌, ◌<◌, ◌≤◌, length, is_some};
ghost use Rattle.rdm_line.specs.Parameters.{part_of, ack_of_part, part_sent, parameter_of, sent_of};
ghost use Rattle.rdm_line.specs.body.Parts.{index_of, AnswersPart};

use arrayvec::ArrayVec;
use rdm_wire::{AckType, MOST_PARAMETER_BYTES};
use std::marker::Model;

/// A part of a parameter's data: 231 bytes at most.
pub type ParameterPart = ArrayVec<u8, MOST_PARAMETER_BYTES>;

/// A parameter of a simulated device: the parts of its data, at least one, and the part that answers the next GET.
#[derive(Debug, Drop)]
pub struct Parameter {
    pid: u16,
    parts: Vec<ParameterPart>,
    next: usize,
}

impl Model for Parameter {
    ghost use Rattle.std.specs.Prelude.{◌<◌, length};
    ghost use Rattle.rdm_line.specs.Parameters.{ParameterState};

    ghost Value = { ParameterState };

    ghost view = { λ p. record { pid = p.pid; parts = p.parts.items; next = p.next } };

    ghost invariant = { λ p. p.next < length p.parts.items };
}

impl Parameter {
    /// A parameter with these parts, which must not be empty. The first GET is answered with the first of them.
    pub fn new(pid: u16, parts: Vec<ParameterPart>) -> Parameter
        requires { 0 < length parts.items }
        ensures { result ≡ record { pid = pid; parts = parts.items; next = 0 } }
    {
        Parameter {
            pid,
            parts,
            next: 0,
        }
    }

    // The part that answers this GET, with its response type. The next GET is answered with the next part, and after
    // the last one with the first.
    fn send(&mut self) -> (ParameterPart, AckType)
        ensures part { result.0.items ≡ part_of self.old }
        ensures ack { result.1 ≡ ack_of_part self.old }
        ensures sent { self.new ≡ part_sent self.old }
    {
        let part = ArrayVec::try_from(self.parts[self.next].as_slice()).unwrap();
        if self.next + 1 < self.parts.len() {
            self.next += 1;
            (part, AckType::Overflow)
        } else {
            self.next = 0;
            (part, AckType::Ack)
        }
    }
}

/// The parameters of a simulated device. If two have the same PID, the first answers. Contracts see their list.
#[derive(Debug, Drop)]
pub struct Parameters {
    parameters: Vec<Parameter>,
}

impl Model for Parameters {
    ghost use Rattle.std.specs.Prelude.{List};
    ghost use Rattle.rdm_line.specs.Parameters.{ParameterState};

    ghost Value = { List ParameterState };

    ghost view = { λ p. p.parameters.items };
}

impl Parameters {
    /// These parameters.
    pub fn new(parameters: Vec<Parameter>) -> Parameters
        ensures { result ≡ parameters.items }
    {
        Parameters { parameters }
    }

    // How many precede the first one with this PID.
    fn count_before(&self, pid: u16) -> usize
        ensures value { result ≡ index_of pid self.now }
        ensures bound { result ≤ length self.now }
    {
        self.parameters
            .iter()
            .take_while(|parameter| parameter.pid != pid)
            .count()
    }

    // Whether there is one with this PID.
    pub(crate) fn has(&self, pid: u16) -> bool
        ensures { result ≡ is_some (parameter_of pid self.now) }
    {
        self.count_before(pid) < self.parameters.len()
    }

    // The part of the parameter with this PID that answers this GET, with its response type. The next GET is answered
    // with its next part.
    pub(crate) fn send(&mut self, pid: u16) -> Option<(ParameterPart, AckType)>
        ensures value { AnswersPart (parameter_of pid self.old) result }
        ensures sent { self.new ≡ sent_of pid self.old }
    {
        let index = self.count_before(pid);
        if index < self.parameters.len() {
            Some(self.parameters[index].send())
        } else {
            None
        }
    }
}
