//! How requests and discoveries end: replies are heard, requests are finished, and discoveries are answered.
ghost use Rattle.std.specs.Prelude.{◌≡◌, ◌⊎◌, ◌<◌, length};
ghost use Rattle.rdm_join.specs.Result.{ended};
ghost use Rattle.rdm_join.specs.JoinerStanding.{head_of_standing};
ghost use Rattle.rdm_join.specs.declared.status.Status.TheVariants.{NoMemory as NoMemoryLeft};
ghost use Rattle.rdm_log.specs.promises.Outcomes.{completion_value};

use crate::pending::{Awaited, Running};
use crate::queue::Queue;
use rdm_agent::{AgentFault, Op};
use rdm_join::{Joiner, LineEvent, Sent, Status, Step, judge};
use rdm_log::{AnswerKey, Completion, Entry};
use std::alloc::Global;

impl Queue {
    ghost use Rattle.std.specs.Prelude.{◌≡◌, ◌≢◌, ◌&&◌, ℕ, true, false, Some, None, IfSome, IfNone, OnSome};
    ghost use Rattle.std.specs.Prelude.{is_some, option_map, slice_get};
    ghost use Rattle.rdm_join.specs.declared.verdict.Sent.{Sent};
    ghost use Rattle.rdm_agent.specs.Calls.{next_op};
    ghost use Rattle.rdm_agent.specs.declared.op.Op.TheVariants.{End};
    ghost use Rattle.rdm_queue.specs.body.Fields.{run_is};
    ghost use Rattle.rdm_log.specs.log.Entries.{Accepted, AskedDiscovery};
    ghost use Rattle.rdm_queue.specs.body.State.{end_of_oldest, due, IsFinished, owed_for, finish_of, finishes_oldest};
    ghost use Rattle.rdm_queue.specs.body.State.{is_closing, HearsRequest};
    ghost use Rattle.rdm_log.specs.log.Broken.{key_of_first};
    ghost use Rattle.rdm_queue.specs.body.Sending.{hears_run};
    ghost use Rattle.rdm_queue.specs.body.Ending.{IsEnded, AnswersByRun, AnswersUnserved, HasNothingDue};
    ghost use Rattle.rdm_queue.specs.body.Ending.{HasRunUnderWay, HasNoneUnserved, agent_at_end, devices_after};
    ghost use Rattle.rdm_queue.specs.body.Ending.{devices_run_after, answer_of, answers_oldest, one_less};
    ghost use Rattle.rdm_queue.specs.declared.pending.Awaited.TheVariants as awaiting;

    /// Takes what the line answered to the last frame. That frame belongs to the oldest request, which hasn't ended
    /// yet, or to the run, whose agent hasn't.
    pub(crate) fn hear(&mut self, alloc: Global, event: &LineEvent)
        ensures free { self.new.awaited ≡ None }
        ensures heard { (sent : Sent) → self.old.awaited ≡ Some (awaiting.Request sent)
            → HearsRequest sent event.now self.old self.new }
        ensures heard_by_run { (tn : ℕ) → self.old.awaited ≡ Some (awaiting.Run tn) → next_op self.old.agent ≢ End
            → self.new ≡ hears_run tn event.now self.old }
    {
        match self.awaited.take() {
            None => {}
            Some(Awaited::Request(sent)) => self.hear_request(alloc, &sent, event),
            Some(Awaited::Run(tn)) => self.hear_run(tn, event),
        }
    }

    // Takes what the line answered to this frame of the oldest request.
    fn hear_request(&mut self, alloc: Global, sent: &Sent, event: &LineEvent)
        requires { self.old.awaited ≡ None }
        ensures free { self.new.awaited ≡ None }
        ensures heard { HearsRequest sent.now event.now self.old self.new }
    {
        if let Step::Done(status) = self.joiner.add(judge(sent, event)) {
            let done = completion_of(&self.joiner, alloc, status);
            self.decided = Some(done);
            self.joiner.reset();
        }
    }

    // Takes what the line answered to the agent's next operation, which was sent with this transaction number.
    fn hear_run(&mut self, tn: u8, event: &LineEvent)
        requires { self.old.awaited ≡ None }
        ensures free { self.new.awaited ≡ None }
        ensures heard { next_op self.old.agent ≢ End → self.new ≡ hears_run tn event.now self.old }
    {
        let op = self.agent.next();
        if op == Op::End {
            return;
        }
        let bytes = match event {
            LineEvent::Reply(bytes) => Some(bytes.as_slice()),
            LineEvent::Failed => None,
        };
        let reply = op.read_reply(self.config.source, tn, bytes);
        self.agent.hear(reply);
    }

    /// Ends what is due next, and returns the entry of its end; None if nothing is due. These are due: the discoveries
    /// of a run that has ended, and a request that has. If the queue is closed and awaits no reply, more is due: a run
    /// that hasn't ended, the requests that wait, and last the discoveries without a run.
    // It is inlined, so that nothing is made room for where nothing is due.
    #[inline(always)]
    pub(crate) fn finish_next(&mut self) -> Option<Entry>
        ensures ended { IfSome result (λ entry. IsEnded self.old entry self.new) }
        ensures none { IfNone result (HasNothingDue self.old × (self.new ≡ self.old)) }
    {
        if self.may_end() {
            self.end_next()
        } else {
            None
        }
    }

    // Whether anything may be due.
    fn may_end(&self) -> bool
        ensures { result ≡ false → HasNothingDue self.now }
    {
        self.run.is_some() || self.decided.is_some() || self.is_closing()
    }

    // Ends what is due next, and returns the entry of its end; None if nothing is due.
    fn end_next(&mut self) -> Option<Entry>
        ensures ended { IfSome result (λ entry. IsEnded self.old entry self.new) }
        ensures none { IfNone result (HasNothingDue self.old × (self.new ≡ self.old)) }
    {
        if self.run.is_some() {
            return self.answer_by_run();
        }
        match self.finish_oldest() {
            Some(entry) => Some(entry),
            None => self.answer_unserved(),
        }
    }

    // Answers the oldest discovery by its run, if that has ended, or by a close. None if no run has ended.
    fn answer_by_run(&mut self) -> Option<Entry>
        requires { is_some self.old.run ≡ true }
        ensures ended { IfSome result (λ entry. AnswersByRun self.old entry self.new) }
        ensures none { IfNone result (HasRunUnderWay self.old × (self.new ≡ self.old)) }
    {
        self.stop_at_close();
        let run = self.run?;
        if self.agent.next() != Op::End {
            return None;
        }
        let fault = self.agent.fault();
        self.keep_devices(run.number, fault);
        Some(self.answer_served(&run, &fault))
    }

    // Stops the run if the queue is closed and awaits no reply.
    fn stop_at_close(&mut self)
        ensures { self.new ≡ record self.old { agent = agent_at_end self.old } }
    {
        if self.is_closing() {
            self.agent.stop();
        }
    }

    // If the agent of the open run has ended without a fault, the known devices are those that it has found. They are
    // copied once for the run: by its first answer.
    fn keep_devices(&mut self, run: u64, fault: Option<AgentFault>)
        requires open_ { option_map (λ r. r.number) self.old.run ≡ Some run }
        requires ended { next_op self.old.agent ≡ End }
        ensures { self.new ≡ record self.old {
          devices = devices_after fault self.old.agent.found self.old.devices;
          devices_run = devices_run_after fault run self.old.devices_run;
        } }
    {
        if fault.is_none() && self.devices_run != run {
            self.devices.copy_from(self.agent.found());
            self.devices_run = run;
        }
    }

    // Answers the oldest discovery by the run that serves it, with this fault and what its agent has found.
    fn answer_served(&mut self, run: &Running, fault: &Option<AgentFault>) -> Entry
        requires { self.old.run ≡ Some (run_is run.now) }
        ensures { (a : AskedDiscovery) × (slice_get self.old.asked 0 ≡ Some a)
            × (result ≡ answer_of a run.now.number fault.now)
            × (self.new ≡ record (answers_oldest self.old a run.now.number fault.now self.old.agent.found) {
              run = one_less (run_is run.now);
            }) }
    {
        self.run = run.one_less();
        let asked = self.asked.remove(0);
        let entry = Entry::Answer {
            number: asked.number,
            run: run.number,
            fault: *fault,
        };
        self.clients[usize::from(asked.client.0)].answer(
            asked.number,
            run.number,
            *fault,
            self.agent.found(),
        );
        entry
    }

    // Answers the oldest discovery, which no run serves, by a close. None if none is due.
    fn answer_unserved(&mut self) -> Option<Entry>
        requires { self.old.run ≡ None }
        ensures ended { IfSome result (λ entry. AnswersUnserved self.old entry self.new) }
        ensures none { IfNone result (HasNoneUnserved self.old × (self.new ≡ self.old)) }
    {
        if !self.is_closing() || self.asked.is_empty() {
            return None;
        }
        let asked = self.asked.remove(0);
        self.clients[usize::from(asked.client.0)].answer_aborted(asked.number);
        Some(Entry::Answer {
            number: asked.number,
            run: 0,
            fault: Some(AgentFault::Aborted),
        })
    }

    // Whether it is closed and awaits no reply, so that everything is to be ended.
    fn is_closing(&self) -> bool
        ensures { result ≡ is_closing self.now }
    {
        self.closed && !self.awaits()
    }

    // Finishes the oldest request, if it has ended, or by a close. None if none is due.
    fn finish_oldest(&mut self) -> Option<Entry>
        requires { self.old.run ≡ None }
        ensures finished { IfSome result (λ entry. IsFinished self.old entry self.new) }
        ensures none { IfNone result ((due self.old ≡ None) × (self.new ≡ self.old)) }
    {
        if self.decided.is_none() && !self.is_closing() {
            return None;
        }
        let (at, oldest) = self.oldest()?;
        let key = AnswerKey::of(&oldest.request);
        let done = self.end_of_oldest()?;
        Some(self.finish(at, key, done))
    }

    // Takes out how the oldest request has ended.
    fn end_of_oldest(&mut self) -> Option<Completion>
        ensures end { option_map completion_value result ≡ end_of_oldest self.old }
        ensures removed { OnSome result (self.new ≡ record self.old { decided = None }) }
        ensures none { IfNone result (self.new ≡ self.old) }
    {
        if let Some(done) = self.decided.take() {
            return Some(done);
        }
        if self.is_closing() {
            return Some(failed(*self.clients.allocator(), Status::FailedToSend));
        }
        None
    }

    // Finishes the oldest request, which is this client's and has this key, with this end, and returns its entry.
    fn finish(&mut self, at: usize, key: Option<AnswerKey>, done: Completion) -> Entry
        requires oldest { (accepted : Accepted) × (slice_get self.old.waiting 0 ≡ Some accepted)
            × (accepted.client ≡ at) }
        requires key { key ≡ key_of_first self.old.waiting }
        requires removed { self.old.decided ≡ None }
        ensures finished { (accepted : Accepted) × (slice_get self.old.waiting 0 ≡ Some accepted)
            × (result ≡ finish_of (owed_for (completion_value done) accepted))
            × (self.new ≡ finishes_oldest self.old (owed_for (completion_value done) accepted)) }
    {
        let may_be_incomplete = self
            .broken
            .end(key, self.under_way, done.status, done.reply);
        self.joiner.reset();
        self.under_way = false;
        self.owners.pop_front();
        self.clients[at].finish_oldest(done, may_be_incomplete)
    }
}

// A completion without an answer. It allocates nothing.
fn failed(alloc: Global, status: Status) -> Completion
    ensures { completion_value result ≡ ended status }
{
    Completion {
        status,
        reply: None,
        bytes: Vec::new(alloc),
    }
}

// The completion of a request with this end and its joined data, or with NoMemory if there is no memory for them.
fn completion_of(joiner: &Joiner, alloc: Global, status: Status) -> Completion
    ensures { (completion_value result
        ≡ record { status = status; data_ = joiner.now.data_; head = head_of_standing joiner.now })
        ⊎ ((completion_value result ≡ ended NoMemoryLeft) × (0 < length joiner.now.data_)) }
{
    let Ok(bytes) = joiner.take_data(alloc) else {
        return failed(alloc, Status::NoMemory);
    };
    Completion {
        status,
        reply: joiner.head(),
        bytes,
    }
}
