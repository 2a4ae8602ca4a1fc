//! How a port's worker sleeps while no frame may be sent.
ghost use Rattle.std.specs.Prelude.{◌≡◌};
ghost use Rattle.rdm_locked.specs.Exchanges.{Records};

use crate::exchange::Exchange;
use crate::history::Ledger;
use crate::port::Port;
use crate::turn::Turn;
use rdm_client::WorkerEnd;
use rdm_line::Line;
use std::alloc::Global;
use std::sync::atomic::{AtomicU64, Ordering};
use std::sync::{Condvar, Wait};

/// What the threads of a port sleep on. A thread looks with the mutex taken, and releases the mutex as it falls asleep.
/// Whoever changes what it looks for does so with the mutex taken too, and wakes it afterwards. So no wake-up is lost.
#[derive(Drop)]
pub(crate) struct Sleepers {
    // Workers sleep on it while no frame may be sent.
    workers: Condvar,
    /// Clients sleep on it while no outcome has come.
    pub(crate) clients: Condvar,
    // How many calls of `work_or_sleep` are being made.
    working: AtomicU64,
}

impl Sleepers {
    pub(crate) fn new() -> Sleepers {
        Sleepers {
            workers: Condvar::new(),
            clients: Condvar::new(),
            working: AtomicU64::new(0),
        }
    }

    /// Wakes the workers: a frame may be sent now, or the last client has left.
    pub(crate) fn wake_workers(&self) {
        self.workers.notify_all();
    }

    /// Wakes the workers and the clients: outcomes may have come, or a worker stops.
    pub(crate) fn wake_all(&self) {
        self.workers.notify_all();
        self.clients.notify_all();
    }

    /// Whether a worker is in `work_or_sleep`.
    pub(crate) fn has_worker(&self) -> bool {
        self.working.load(Ordering::SeqCst) > 0
    }
}

impl<L: Ledger> Port<L> {
    /// Serves the line as [`work`](Port::work) does, but sleeps while no frame may be sent, and makes no turn then.
    /// Submits and discovers, `pause`, `resume`, `close`, and clients that leave wake it. So it doesn't return before
    /// all its turns are made, all clients have left, or the log is full. Clients have to be in other threads, since
    /// nobody else wakes it.
    pub fn work_or_sleep<X: Line, R: Wait>(
        &self,
        rt: &R,
        alloc: Global,
        line: &mut X,
        turns: u64,
        exchanges: &mut Vec<Exchange>,
    ) -> WorkerEnd
        ensures record { Records X X.step line.old exchanges.old.items line.new exchanges.new.items turns }
        ensures no_turns { turns ≡ 0 → result ≡ WorkerEnd.Turns }
    {
        self.sleepers.working.fetch_add(1, Ordering::SeqCst);
        let end = self.serve(rt, alloc, line, turns, exchanges, true);
        let inside = self.inside.lock(rt);
        self.sleepers.working.fetch_sub(1, Ordering::SeqCst);
        drop(inside);
        self.sleepers.wake_all();
        end
    }

    // What the worker has to do next. It sleeps until there is something.
    pub(crate) fn turn_after_sleep<R: Wait>(&self, rt: &R) -> Turn {
        let mut turn = Turn::Nothing;
        let inside = self.inside.lock(rt);
        drop(
            self.sleepers.workers.wait_while(rt, inside, |inside| {
                turn = inside.turn();
                matches!(turn, Turn::Nothing)
            }),
        );
        turn
    }
}
