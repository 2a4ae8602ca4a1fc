//! What the worker and the clients sleep on.
use std::sync::Wait;
use std::sync::atomic::{AtomicBool, AtomicU64, Ordering};
use std::thread::Parker;

/// What a worker sleeps on while nobody calls or collects. Whoever does so changes a ring first, and wakes it then. A
/// worker that is woken before it sleeps doesn't fall asleep, so it looks at the rings again.
#[derive(Drop)]
pub struct WorkerSleep {
    parker: Parker,
    is_alone: AtomicBool,
}

impl WorkerSleep {
    pub fn new() -> WorkerSleep {
        WorkerSleep {
            parker: Parker::new(),
            is_alone: AtomicBool::new(false),
        }
    }

    /// Wakes the worker: a call was put on a ring, or a slot is free.
    pub fn wake(&self) {
        self.parker.unpark();
    }

    /// Wakes the worker for good, since nobody calls any more.
    pub fn end(&self) {
        self.is_alone.store(true, Ordering::SeqCst);
        self.wake();
    }

    /// Sleeps, unless somebody has woken the worker since it slept last.
    pub fn sleep<R: Wait>(&self, rt: &R) {
        if !self.is_alone.load(Ordering::SeqCst) {
            self.parker.park(rt);
        }
    }
}

/// What a client sleeps on until an outcome is on its ring.
#[derive(Drop)]
pub struct ClientSleep {
    parker: Parker,
    // How many outcomes were put on its ring.
    moved: AtomicU64,
    // Whether the worker is in `work_or_sleep`.
    is_served: AtomicBool,
}

impl ClientSleep {
    pub fn new() -> ClientSleep {
        ClientSleep {
            parker: Parker::new(),
            moved: AtomicU64::new(0),
            is_served: AtomicBool::new(false),
        }
    }

    /// Records whether a worker serves the client, which sleeps only then.
    pub fn serve(&self, is_served: bool) {
        self.is_served.store(is_served, Ordering::SeqCst);
        self.parker.unpark();
    }

    /// Wakes the client: an outcome was put on its ring.
    pub fn wake(&self) {
        self.moved.fetch_add(1, Ordering::SeqCst);
        self.parker.unpark();
    }

    /// Sleeps until there are more outcomes than were collected, or no worker serves the client.
    pub fn sleep<R: Wait>(&self, rt: &R, collected: u64) {
        for _ in rt.forever() {
            let has_more = self.moved.load(Ordering::SeqCst) != collected;
            if has_more || !self.is_served.load(Ordering::SeqCst) {
                return;
            }
            self.parker.park(rt);
        }
    }
}
