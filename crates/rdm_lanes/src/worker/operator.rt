//! The operator of a session.
ghost use Rattle.std.specs.Prelude.{◌≡◌, ◌++◌, true, OnOk, OnErr};
ghost use Rattle.rtrb.specs.Ring.{sent as pushed, SameProducer};
ghost use Rattle.rdm_lanes.specs.Calls.{unless};
ghost use Rattle.rdm_lanes.specs.Workers.{called_by, has_left};
ghost use Rattle.rdm_lanes.specs.declared.call.OperatorCall.TheVariants.{Pause, Resume, Close, Leave};

use crate::call::OperatorCall;
use crate::fault::RingFull;
use crate::sleeping::WorkerSleep;
use rtrb::Producer;
use std::alloc::Global;
use std::sync::Arc;

/// Who pauses, resumes and closes a session. It has a ring for its calls. None of them waits for anybody, and none
/// allocates. The worker makes them in order, one in each of its turns. They have no effect after its leave.
#[derive(Drop)]
pub struct Operator {
    pub(crate) calls: Producer<OperatorCall, Global>,
    pub(crate) left: bool,
    // What the worker sleeps on.
    pub(crate) worker: Arc<WorkerSleep>,
}

impl Operator {
    /// Sends a pause, for the worker to call [`Session::pause`](rdm_queue::Session::pause). Err: the ring has no free
    /// slot; nothing has changed.
    pub fn pause(&mut self) -> Result<(), RingFull>
        ensures sent { OnOk result (called_by self.new ≡ called_by self.old ++ unless (has_left self.old) Pause) }
        ensures full { OnErr result (called_by self.new ≡ called_by self.old) }
        ensures ring { SameProducer self.old.calls self.new.calls }
        ensures left { has_left self.new ≡ has_left self.old }
    {
        self.send(OperatorCall::Pause)
    }

    /// Sends a resume, for the worker to call [`Session::resume`](rdm_queue::Session::resume). Err: the ring has no
    /// free slot; nothing has changed.
    pub fn resume(&mut self) -> Result<(), RingFull>
        ensures sent { OnOk result (called_by self.new ≡ called_by self.old ++ unless (has_left self.old) Resume) }
        ensures full { OnErr result (called_by self.new ≡ called_by self.old) }
        ensures ring { SameProducer self.old.calls self.new.calls }
        ensures left { has_left self.new ≡ has_left self.old }
    {
        self.send(OperatorCall::Resume)
    }

    /// Sends a close, for the worker to call [`Session::close`](rdm_queue::Session::close). Err: the ring has no free
    /// slot; nothing has changed.
    pub fn close(&mut self) -> Result<(), RingFull>
        ensures sent { OnOk result (called_by self.new ≡ called_by self.old ++ unless (has_left self.old) Close) }
        ensures full { OnErr result (called_by self.new ≡ called_by self.old) }
        ensures ring { SameProducer self.old.calls self.new.calls }
        ensures left { has_left self.new ≡ has_left self.old }
    {
        self.send(OperatorCall::Close)
    }

    /// Leaves: the operator's calls have no effect after this. Err: the ring has no free slot; nothing has changed.
    pub fn leave(&mut self) -> Result<(), RingFull>
        ensures sent { OnOk result (called_by self.new ≡ called_by self.old ++ unless (has_left self.old) Leave) }
        ensures full { OnErr result (called_by self.new ≡ called_by self.old) }
        ensures ring { SameProducer self.old.calls self.new.calls }
        ensures left { OnOk result (has_left self.new ≡ true) }
        ensures stays { OnErr result (has_left self.new ≡ has_left self.old) }
    {
        self.send(OperatorCall::Leave)?;
        self.left = true;
        Ok(())
    }

    // Sends a call, unless the operator has left.
    fn send(&mut self, call: OperatorCall) -> Result<(), RingFull>
        ensures sent { OnOk result (pushed self.new.calls ≡ pushed self.old.calls ++ unless self.old.left call) }
        ensures full { OnErr result (pushed self.new.calls ≡ pushed self.old.calls) }
        ensures ring { SameProducer self.old.calls self.new.calls }
        ensures left { self.new.left ≡ self.old.left }
    {
        if self.left {
            return Ok(());
        }
        if self.calls.slots() == 0 {
            return Err(RingFull);
        }
        self.calls.push_reserved(call);
        self.worker.wake();
        Ok(())
    }
}
