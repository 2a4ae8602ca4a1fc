//! The log of a session.
use crate::broken::BrokenAnswers;
use crate::entry::{Entry, Opening};
use arrayvec::ArrayVec;
use rdm_agent::Search;
use rdm_past::Past;
use rdm_wire::{DeviceSet, NoMemory, Uid};
use std::alloc::Global;
use std::marker::Model;
use std::mem;

/// The greatest number of free entries that a log may be made with.
pub const MOST_FREE_ENTRIES: usize = 1_000_000;

/// The greatest number of entries that a log ever has, those that were handed out among them.
pub const MOST_ENTRIES: u64 = 0x4000_0000_0000_0000;

/// How many entries have to be free for each call that a full log refuses.
pub const LEAST_FREE: usize = 3;

/// The entries of a session, oldest first, and the opening before them. Its memory is reserved when it is made. The
/// oldest entries can be handed out at any time. A log can also keep nothing: then it only counts its entries.
/// Contracts cover all entries in any case.
#[derive(Debug, Drop)]
pub struct Log {
    // Boxed, because it contains a device set, and a log is moved often.
    opening: Box<Opening>,
    // The entries that aren't stored, for proofs alone, and how many those are.
    past: Past<Entry>,
    gone: u64,
    entries: Vec<Entry>,
    room: usize,
    keeps: bool,
}

impl Model for Log {
    ghost use Rattle.std.specs.Prelude.{◌≤◌, ◌+◌, ◌++◌, vec_capacity, if◌then◌else◌};
    ghost use Rattle.rdm_log.specs.log.LogState.{LogState};

    ghost Value = { LogState };

    ghost use Rattle.rdm_log.specs.body.LogInvariant.{LogInvariant};

    ghost view = { λ l. record {
      opening = l.opening.value;
      entries = l.past.items ++ l.entries.items;
      room = (if l.keeps then l.gone else 0) + l.room;
      gone = if l.keeps then l.gone else 0;
      keeps = l.keeps;
    } };

    ghost invariant = { λ l. LogInvariant l.keeps l.room l.entries.items (vec_capacity l.entries) l.past.items l.gone };
}

impl Log {
    ghost use Rattle.std.specs.Prelude.{◌≡◌, ◌≢◌, ◌+◌, ◌-◌, ◌^◌, ◌<◌, ◌≤◌, true, false, [], ◌∷◌, IfOk, length};
    ghost use Rattle.std.specs.Prelude.{vec_capacity};
    ghost use Rattle.rdm_log.specs.log.LogState.{grown, stored, drained, blank_opening, blank_log, nothing_log};
    ghost use Rattle.rdm_log.specs.log.LogState.{emptied_log, filled_page};

    /// A log without entries, with capacity for this many, 0 to [`MOST_FREE_ENTRIES`], and one more for a close. Its
    /// opening has 0 everywhere, no clients and no devices, and is neither paused nor closed. It is written when a
    /// session begins. Err: out of memory.
    pub fn new(alloc: Global, free: usize) -> Result<Log, NoMemory>
        requires { free ≤ 1000000 }
        ensures { IfOk result (λ log. log ≡ blank_log (free + 1)) }
    {
        let room = free + 1;
        let Ok(entries) = Vec::with_capacity(alloc, room) else {
            return Err(NoMemory);
        };
        let Ok(opening) = Box::new(alloc, Log::blank()) else {
            return Err(NoMemory);
        };
        Ok(Log {
            opening,
            past: Past::new(),
            gone: 0,
            entries,
            room,
            keeps: true,
        })
    }

    /// A log that keeps nothing, else like a new one: it counts its entries, up to 2^62, and takes no memory for them.
    /// [`entries`](Log::entries) returns none of them. Once it is drained, it keeps entries in the memory that it then
    /// has. Err: out of memory.
    pub fn nothing(alloc: Global) -> Result<Log, NoMemory>
        ensures { IfOk result (λ log. log ≡ nothing_log) }
    {
        let Ok(opening) = Box::new(alloc, Log::blank()) else {
            return Err(NoMemory);
        };
        Ok(Log {
            opening,
            past: Past::new(),
            gone: 0,
            entries: Vec::new(alloc),
            room: MOST_ENTRIES as usize,
            keeps: false,
        })
    }

    /// Whether it keeps entries until they are handed out.
    pub fn keeps(&self) -> bool
        ensures { result ≡ self.now.keeps }
    {
        self.keeps
    }

    /// The state of the queue before the first entry.
    pub fn opening(&self) -> &Opening
        ensures { result.now ≡ self.now.opening }
    {
        &self.opening
    }

    /// The entries that it stores, oldest first: those that weren't handed out, or none if it keeps nothing.
    pub fn entries(&self) -> &[Entry]
        ensures stored { result.now ≡ stored self.now }
        ensures all { self.now.keeps ≡ true → self.now.gone + length result.now ≡ length self.now.entries }
    {
        self.entries.as_slice()
    }

    /// Whether it still stores all entries.
    pub fn keeps_all(&self) -> bool
        ensures all { result ≡ true → stored self.now ≡ self.now.entries }
        ensures gone { result ≡ false → self.now.keeps ≡ true → self.now.gone ≢ 0 }
    {
        self.keeps && self.gone == 0
    }

    /// How many entries were handed out. If the log keeps nothing, this is 0.
    pub fn gone(&self) -> u64
        ensures gone { result ≡ self.now.gone }
        ensures within { self.now.gone ≤ length self.now.entries }
    {
        if self.keeps { self.gone } else { 0 }
    }

    /// The number of the first entry that it stores, or of the next one if it stores none: how many entries it had
    /// before that.
    pub fn first_stored(&self) -> u64
        ensures before { result + length (stored self.now) ≡ length self.now.entries }
        ensures gone { self.now.keeps ≡ true → result ≡ self.now.gone }
    {
        self.gone
    }

    /// How many entries the log has had, those that it doesn't store among them.
    pub fn len_in_all(&self) -> u64
        ensures all { result ≡ length self.now.entries }
        ensures few { result ≤ 2 ^ 62 }
    {
        self.gone + self.entries.len() as u64
    }

    /// How many entries the log can store, including those that it stores, or 2^62 if it keeps nothing. It is at least
    /// 1. Only a drain changes it.
    pub fn room(&self) -> usize
        ensures room { self.now.gone + result ≡ self.now.room }
        ensures within { length self.now.entries ≤ self.now.room }
        ensures some { 1 ≤ result }
        ensures in_all { self.now.room ≤ 2 ^ 62 }
    {
        self.room
    }

    /// How many more entries fit.
    pub fn unused(&self) -> usize
        ensures { length self.now.entries + result ≡ self.now.room }
    {
        if self.keeps {
            self.room - self.entries.len()
        } else {
            self.room - self.gone as usize
        }
    }

    /// Hands out all entries that are stored, oldest first, and continues in other memory, which must be empty. It
    /// copies no entry and allocates nothing. The number of the first entry that it hands out is what
    /// [`first_stored`](Log::first_stored) returned before. If the log kept entries, what it hands out has at least the
    /// log's capacity ([`room`](Log::room)).
    pub fn drain(&mut self, next: Vec<Entry>) -> Vec<Entry>
        requires empty { next.items ≡ [] }
        requires some { 1 ≤ vec_capacity next }
        requires in_all { length self.old.entries + vec_capacity next ≤ 2 ^ 62 }
        ensures handed_out { result.items ≡ stored self.old }
        ensures memory { self.old.keeps ≡ true → self.old.room ≤ self.old.gone + vec_capacity result }
        ensures log { self.new ≡ drained self.old (vec_capacity next) }
    {
        self.gone += self.entries.len() as u64;
        self.room = next.capacity();
        self.keeps = true;
        let entries = mem::replace(&mut self.entries, next);
        self.past = self.past.and_all(&entries);
        entries
    }

    /// Hands out all entries that are stored to another log, in place of that log's own, and continues in its memory.
    /// It copies no entry and allocates nothing. The number of the first entry that it hands out is what
    /// [`gone`](Log::gone) returns of the other log then. Of that log's opening only the search changes, to this log's.
    /// The other log must keep entries.
    pub fn drain_into(&mut self, page: &mut Log)
        requires in_all { length self.old.entries + (page.old.room - page.old.gone) ≤ 2 ^ 62 }
        requires keeps { page.old.keeps ≡ true }
        ensures page { page.new ≡ filled_page page.old self.old }
        ensures log { self.new ≡ drained self.old (page.old.room - page.old.gone) }
    {
        page.entries.clear();
        mem::swap(&mut self.entries, &mut page.entries);
        mem::swap(&mut self.room, &mut page.room);
        mem::swap(&mut self.keeps, &mut page.keeps);
        let past = self.past.and_all(&page.entries);
        page.past = mem::replace(&mut self.past, past);
        page.opening.search = self.opening.search;
        page.gone = self.gone;
        self.gone += page.entries.len() as u64;
    }

    /// The same log after another opening. Its entries and its capacity are unchanged.
    pub fn after(mut self, opening: Opening) -> Log
        ensures log { result ≡ record self { opening = opening } }
        ensures some { 1 ≤ self.room }
    {
        *self.opening = opening;
        self
    }

    /// The log without its entries, with the same capacity, and with the opening of a new log.
    pub fn cleared(mut self) -> Log
        ensures cleared { result ≡ emptied_log self.keeps (self.room - self.gone) }
        ensures fresh { self.entries ≡ [] → result ≡ emptied_log self.keeps self.room }
    {
        self.past = Past::new();
        self.gone = 0;
        self.entries.clear();
        *self.opening = Log::blank();
        self
    }

    /// Adds an entry at the end, or only counts it if the log keeps nothing. At least one must be
    /// [`unused`](Log::unused), so this allocates nothing. The entries before it are unchanged. Any entry is accepted:
    /// the caller has to ensure that the log stays legal.
    // It is inlined, so that an entry that isn't stored isn't built.
    #[inline(always)]
    pub fn append(&mut self, entry: Entry)
        requires { length self.old.entries < self.old.room }
        ensures { self.new ≡ grown self.old (entry ∷ []) }
    {
        if self.keeps {
            self.entries.push_reserved(entry);
        } else {
            self.past = self.past.and(&entry);
            self.gone += 1;
        }
    }

    // The opening that a new log has.
    fn blank() -> Opening
        ensures { result ≡ blank_opening }
    {
        Opening {
            source: Uid::default(),
            greatest: 0,
            budget: 0,
            search: Search::Steady,
            places: ArrayVec::new(),
            paused: false,
            closed: false,
            devices: DeviceSet::new(),
            devices_run: 0,
            broken: BrokenAnswers::new(),
            next_request: 0,
            next_ask: 0,
            next_run: 0,
            next_tn: 0,
        }
    }
}
