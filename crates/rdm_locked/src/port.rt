//! A session with a mutex.
ghost use Rattle.std.specs.Prelude.{◌≡◌, [], length, false, IfOk, IfErr};
ghost use Rattle.std.specs.List.{sum_by};
ghost use Rattle.rdm_log.specs.log.Entries.{exchanges as log_exchanges};
ghost use Rattle.rdm_log.specs.log.History.{next_client};
ghost use Rattle.rdm_log.specs.log.Legal.{Legal};
ghost use Rattle.rdm_log.specs.promises.Promised.{Promised};
ghost use Rattle.rdm_log.specs.log.LogState.{stored};
ghost use Rattle.rdm_locked.specs.Calls.{count_calls};
ghost use Rattle.rdm_locked.specs.Clients.{AllAgree, made_by};
ghost use Rattle.rdm_locked.specs.Exchanges.{recorded, Records};
ghost use Rattle.rdm_locked.specs.Openings.{MayOpen};
ghost use Rattle.rdm_locked.specs.Pages.{IsPage};

use crate::client::LockedClient;
use crate::exchange::Exchange;
use crate::fault::FinishFault;
use crate::history::{Blank, Ledger};
use crate::inside::{Inside, SessionEnd};
use crate::sets::SharedSets;
use crate::share::CallShare;
use crate::sleeping::Sleepers;
use crate::turn::Turn;
use rdm_client::{Desk, Tells, TellsAsk, WorkerEnd};
use rdm_join::LineEvent;
use rdm_line::Line;
use rdm_log::{Entry, IntoSetup, JoinFault, Log, LogFull, Page};
use rdm_wire::NoMemory;
use std::alloc::Global;
use std::sync::{Mutex, Wait};
use std::thread;

/// A session with a mutex, for clients and a worker in threads of their own. The mutex is taken for one call of the
/// session at a time, and never during an exchange with the line. `client`, `pause`, `resume`, `close` and `work` wait
/// for it. `finish` and `end` don't, since whoever owns the port has it exclusively.
///
/// `L` names the book of the clients' calls. The program picks it as `Brand` in the call that opens the port. A port
/// that has to run for years has a log that keeps nothing ([`Log::nothing`]).
#[derive(Drop)]
pub struct Port<L: Ledger> {
    pub(crate) inside: Mutex<Inside<L>>,
    pub(crate) sleepers: Sleepers,
}

impl<L: Ledger> Port<L> {
    /// A session with a mutex, without clients. With a [`Config`](rdm_queue::Config) alone its runs search steadily; a
    /// [`Setup`](rdm_queue::Setup) also says how they search. The blank has 17 parts, one for each client and one for
    /// the rest, and the name of the book `L`. The other conditions are those of
    /// [`Session::new`](rdm_queue::Session::new).
    /// Err: out of memory; the blank and the log are returned unchanged.
    pub fn new<S: IntoSetup>(
        alloc: Global,
        blank: Blank,
        setup: S,
        log: Log,
    ) -> Result<Port<L>, (NoMemory, Blank, Log)>
        requires may_open { MayOpen L.name L.parts L.lists blank (S.setup_of setup).config log }
        ensures back { IfErr result (λ e. (e.1 ≡ blank) × (e.2 ≡ log)) }
    {
        let inside = Inside::new(alloc, blank, setup, log)?;
        Ok(Port::holding(inside))
    }

    /// Hands out all entries that the log stores, as [`Inside::drain`] does. What the log keeps from then on goes into
    /// the other memory, so drain again when half of it is used: a full log refuses the clients' calls. The port can
    /// still be ended by [`end`](Port::end), but no longer by `finish`.
    /// Err: as `Inside::drain` returns; nothing has changed, and the memory is returned.
    pub fn drain<R: Wait>(&self, rt: &R, next: Vec<Entry>) -> Result<Page, (LogFull, Vec<Entry>)>
        requires { next.items ≡ [] }
        ensures page { IfOk result IsPage }
        ensures back { IfErr result (λ e. e.1 ≡ next) }
    {
        self.inside.lock(rt).drain(next)
    }

    /// Ends the port, if the share of each client that joined is there, and the log's exchanges are those of the
    /// record. Then these hold, whatever the threads did:
    /// - The shares' sum is the number of calls in the log.
    /// - The log keeps all that clients are promised.
    /// - A run on an honest line that didn't fail, with a sufficient budget, was answered without fault unless the
    ///   queue was closed before.
    ///
    /// A frame whose reply is awaited is no exchange yet.
    /// Err: SharesMissing, or else NotKept, or else ExchangesDiffer, as [`Inside::finish`] returns. The port, which
    /// is as open as before, and the shares are returned.
    pub fn finish(
        self,
        shares: Vec<CallShare<L>>,
        exchanges: &[Exchange],
    ) -> Result<SessionEnd, (FinishFault, Port<L>, Vec<CallShare<L>>)>
        requires { L.parts ≡ 17 }
        ensures each { IfOk result (λ e. length shares.items ≡ next_client e.session.opening e.session.entries) }
        ensures calls { IfOk result (λ e. e.calls ≡ sum_by (λ s. s.count) shares.items) }
        ensures counted { IfOk result (λ e. e.calls ≡ count_calls e.session.entries) }
        ensures agree { IfOk result (λ e. AllAgree e.session shares.items) }
        ensures exchanges { IfOk result (λ e. log_exchanges e.session.entries ≡ recorded exchanges.now) }
        ensures kept { IfOk result (λ e. stored e.session ≡ e.session.entries) }
        ensures legal { IfOk result (λ e. Legal e.session.opening e.session.entries) }
        ensures promised { IfOk result (λ e. Promised e.session) }
        ensures back { IfErr result (λ e. e.2 ≡ shares) }
    {
        let Port { inside, .. } = self;
        match inside.into_inner().finish(shares, exchanges) {
            Ok(end) => Ok(end),
            Err((fault, inside, shares)) => Err((fault, Port::holding(inside), shares)),
        }
    }

    /// Ends the port, if the share of each client that joined is there, as [`finish`](Port::finish) does, but compares
    /// no exchanges. So the log may keep nothing, and its entries may have been handed out.
    /// Err: shares are missing. The port, which is as open as before, and the shares are returned.
    pub fn end(self, shares: Vec<CallShare<L>>) -> Result<SessionEnd, (Port<L>, Vec<CallShare<L>>)>
        requires { L.parts ≡ 17 }
        ensures each { IfOk result (λ e. length shares.items ≡ next_client e.session.opening e.session.entries) }
        ensures calls { IfOk result (λ e. e.calls ≡ sum_by (λ s. s.count) shares.items) }
        ensures counted { IfOk result (λ e. e.calls ≡ count_calls e.session.entries) }
        ensures agree { IfOk result (λ e. AllAgree e.session shares.items) }
        ensures legal { IfOk result (λ e. Legal e.session.opening e.session.entries) }
        ensures promised { IfOk result (λ e. Promised e.session) }
        ensures back { IfErr result (λ e. e.1 ≡ shares) }
    {
        let Port { inside, .. } = self;
        match inside.into_inner().end(shares) {
            Ok(end) => Ok(end),
            Err((inside, shares)) => Err((Port::holding(inside), shares)),
        }
    }

    // Puts it into a mutex.
    pub(crate) fn holding(inside: Inside<L>) -> Port<L> {
        Port {
            inside: Mutex::new(inside),
            sleepers: Sleepers::new(),
        }
    }

    /// Lets a client join with this queue depth, 0 to 255, which its desk has too. Memory for the devices of four
    /// discoveries, 128 KB, is allocated for it.
    /// Err: NoMemory if there is none for these or the desk, before all other faults and without an entry. Otherwise
    /// as [`Inside::join`] returns.
    pub fn client<C: Tells, A: TellsAsk, R: Wait>(
        &self,
        rt: &R,
        alloc: Global,
        places: u8,
    ) -> Result<LockedClient<'_, L, C, A>, JoinFault>
        ensures desk { IfOk result (λ c. c.desk ≡ record { requests = []; asks = []; places = places }) }
        ensures calls { IfOk result (λ c. c.calls.count ≡ 0) }
        ensures made { IfOk result (λ c. made_by c.calls ≡ []) }
        ensures collects { IfOk result (λ c. c.stranded ≡ false) }
    {
        let Ok(sets) = SharedSets::new(alloc) else {
            return Err(JoinFault::NoMemory);
        };
        let Ok(desk) = Desk::new(alloc, places) else {
            return Err(JoinFault::NoMemory);
        };
        let joined = self.inside.lock(rt).join(alloc, places);
        match joined {
            Ok((number, calls)) => Ok(LockedClient::new(self, number, desk, calls, sets)),
            Err(fault) => {
                desk.end().close_empty();
                Err(fault)
            }
        }
    }

    /// Pauses: nothing new is begun. It has no effect if the session is paused or closed already.
    /// Err: the log is full; nothing has changed.
    pub fn pause<R: Wait>(&self, rt: &R) -> Result<(), LogFull> {
        let answer = self.inside.lock(rt).pause();
        self.sleepers.wake_workers();
        answer
    }

    /// Resumes. It has no effect if the session isn't paused, or is closed.
    /// Err: the log is full; nothing has changed.
    pub fn resume<R: Wait>(&self, rt: &R) -> Result<(), LogFull> {
        let answer = self.inside.lock(rt).resume();
        self.sleepers.wake_workers();
        answer
    }

    /// Closes: nothing more is accepted, and what waits is ended. It has no effect if the session is closed already.
    pub fn close<R: Wait>(&self, rt: &R) {
        self.inside.lock(rt).close();
        self.sleepers.wake_all();
    }

    /// Serves the line for this many turns. It ends earlier if each client that has joined has left and no frame may be
    /// sent, or if the log is full. A turn first reserves capacity in the record; if that allocation fails, the turn
    /// does nothing else. Then it takes a frame with the mutex, makes the exchange without it, delivers what came with
    /// it, and appends the exchange to the record. It never stops between taking and delivering.
    ///
    /// A full record doubles its capacity, which copies it. If you know how many exchanges come, reserve as many first:
    /// each has 552 bytes, and then no turn allocates for it. [`end`](Port::end) needs no record, so a port that has to
    /// run for years clears it after each call.
    pub fn work<X: Line, R: Wait>(
        &self,
        rt: &R,
        alloc: Global,
        line: &mut X,
        turns: u64,
        exchanges: &mut Vec<Exchange>,
    ) -> WorkerEnd
        ensures record { Records X X.step line.old exchanges.old.items line.new exchanges.new.items turns }
        ensures no_turns { turns ≡ 0 → result ≡ WorkerEnd.Turns }
    {
        self.serve(rt, alloc, line, turns, exchanges, false)
    }

    // Serves the line for this many turns, as `work` does. If it may sleep, it does so while no frame may be sent.
    pub(crate) fn serve<X: Line, R: Wait>(
        &self,
        rt: &R,
        alloc: Global,
        line: &mut X,
        turns: u64,
        exchanges: &mut Vec<Exchange>,
        sleeps: bool,
    ) -> WorkerEnd
        ensures record { Records X X.step line.old exchanges.old.items line.new exchanges.new.items turns }
        ensures no_turns { turns ≡ 0 → result ≡ WorkerEnd.Turns }
    {
        'turns: for _turn in 0..turns {
            if exchanges.reserve(1).is_err() {
                continue;
            }
            let turn = if sleeps {
                self.turn_after_sleep(rt)
            } else {
                self.inside.lock(rt).turn()
            };
            match turn {
                Turn::Exchange(frame) => {
                    let event = LineEvent::from(line.exchange(&frame));
                    let _ = self.inside.lock(rt).deliver(alloc, event.copied());
                    self.sleepers.wake_all();
                    exchanges.push_reserved(Exchange { frame, event });
                }
                Turn::Nothing => thread::yield_now(),
                Turn::AllLeft => return WorkerEnd::AllLeft,
                Turn::LogFull => return WorkerEnd::LogFull,
            }
        }
        WorkerEnd::Turns
    }
}
