//! A list of events, answered one by one.
use crate::session::Session;
use rdm_log::{Answer, BoxedOutcome, ClientId, Event};
use rdm_wire::{DeviceSet, NoMemory};
use std::alloc::Global;

impl Session {
    ghost use Rattle.std.specs.Prelude.{◌≡◌, List, IfOk, OnErr, Some};
    ghost use Rattle.rdm_log.specs.log.Legal.{Legal};
    ghost use Rattle.rdm_log.specs.promises.Blocks.{CollectLogs, GrowsBy};
    ghost use Rattle.rdm_log.specs.promises.Outcomes.{oldest_kind};
    ghost use Rattle.rdm_log.specs.declared.outcome.OutcomeKind.TheVariants as kinds;
    ghost use Rattle.rdm_log.specs.promises.Explains.{IsAnswered, Explains};
    ghost use Rattle.rdm_log.specs.promises.EventsHeadline.{EventsPromised};

    /// Makes the call of an event, and returns its answer. What the call refuses is returned in the answer. A collect
    /// of a discovery's outcome allocates memory for its set; if that fails, the answer says so, and the outcome stays.
    pub fn answer(&mut self, alloc: Global, event: &Event) -> Answer
        ensures answered { IsAnswered self.old event.now result self.new }
        ensures legal { Legal self.new.opening self.new.entries }
    {
        match event {
            Event::Join(places) => Answer::Join(self.join_client(alloc, *places)),
            Event::Submit(client, request) => {
                Answer::Submit(self.submit(*client, request.copied()))
            }
            Event::Discover(client, kind) => Answer::Discover(self.discover(*client, *kind)),
            Event::Pause => Answer::Pause(self.pause()),
            Event::Resume => Answer::Resume(self.resume()),
            Event::Close => {
                self.close();
                Answer::Close
            }
            Event::Take => Answer::Take(self.take()),
            Event::Deliver(event) => Answer::Deliver(self.deliver(alloc, event.copied())),
            Event::Collect(client) => Answer::Collect(self.collect(alloc, *client)),
        }
    }

    /// Answers each event by its call, in order, and returns the answers: one for each event, as `answer` returns it.
    /// Each takes 296 bytes, and the set of each discovery that is collected 32 KB more. Err: no memory for the list of
    /// answers; the session is unchanged, and no call was made.
    pub fn run(&mut self, alloc: Global, events: &[Event]) -> Result<Vec<Answer>, NoMemory>
        ensures explains { IfOk result (λ answers. Explains self.old events.now answers.items self.new) }
        ensures promised { IfOk result (λ answers. EventsPromised self.old events.now answers.items self.new) }
        ensures legal { Legal self.new.opening self.new.entries }
        ensures unchanged { OnErr result (self.new ≡ self.old) }
    {
        // The log is legal, even if there are no events.
        self.log();
        let Ok(mut answers) = Vec::with_capacity(alloc, events.len()) else {
            return Err(NoMemory);
        };
        for event in events {
            answers.push_reserved(self.answer(alloc, event));
        }
        Ok(answers)
    }

    // Collects a client's oldest outcome; None if there is none. A discovery's has a function of its own, so that no
    // set is in the frame of what collects a request's.
    // Err: it is a discovery's, and there is no memory for its set; nothing has changed.
    fn collect(&mut self, alloc: Global, client: ClientId) -> Result<Option<BoxedOutcome>, NoMemory>
        ensures adds { GrowsBy self.old (CollectLogs self.old client result) self.new }
        ensures legal { Legal self.new.opening self.new.entries }
    {
        if let Some((number, done)) = self.next_completion(client) {
            return Ok(Some(BoxedOutcome::Request { number, done }));
        }
        if self.oldest(client).is_none() {
            return Ok(None);
        }
        self.collect_discovery(alloc, client)
    }

    // Collects a client's oldest outcome, which is a discovery's. A box, which is allocated first, is exchanged for the
    // one with its set. This isn't inlined, since a set is made in its frame.
    // Err: there is no memory for it; nothing has changed.
    #[inline(never)]
    fn collect_discovery(
        &mut self,
        alloc: Global,
        client: ClientId,
    ) -> Result<Option<BoxedOutcome>, NoMemory>
        requires oldest { oldest_kind self.old.opening self.old.entries client.0 ≡ Some kinds.Discovery }
        requires legal { Legal self.old.opening self.old.entries }
        ensures adds { GrowsBy self.old (CollectLogs self.old client result) self.new }
        ensures legal { Legal self.new.opening self.new.entries }
    {
        let Ok(mut set) = Box::new(alloc, DeviceSet::new()) else {
            return Err(NoMemory);
        };
        let Some(end) = self.next_discovery(client, &mut set) else {
            return Ok(None);
        };
        Ok(Some(BoxedOutcome::Discovery { end, set }))
    }
}
