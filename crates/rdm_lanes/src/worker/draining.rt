//! How the entries of a worker's log are handed out.
ghost use Rattle.std.specs.Prelude.{◌≡◌, ◌+◌, ◌≤◌, true, [], length, IfOk, IfErr, OnOk, OnErr, vec_capacity};
ghost use Rattle.rdm_log.specs.log.LogState.{stored, drained, MayGoOn};
ghost use Rattle.rdm_lanes.specs.Workers.{session_of, lanes_of, operator_has_left, published_by};
ghost use Rattle.rdm_lanes.specs.Workers.{operator_ring, turns_made_of};
ghost use Rattle.rdm_lanes.specs.body.Steps.{SameEnds};

use crate::views::history::ViewHistory;
use crate::views::publishing::Shown;
use crate::worker::Worker;
use crate::worker::view_worker::ViewWorker;
use rdm_log::{Entry, LogFull, Page};
use std::sync::Wait;

impl Worker {
    // Hands out all entries that the log stores.
    fn drain(&mut self, next: Vec<Entry>) -> Result<Page, (LogFull, Vec<Entry>)>
        requires { next.items ≡ [] }
        ensures first { IfOk result (λ page. page.first + length page.entries.items
            ≡ length self.old.session.entries) }
        ensures gone { IfOk result (λ page. self.old.session.keeps ≡ true → page.first ≡ self.old.session.gone) }
        ensures handed_out { IfOk result (λ page. page.entries.items ≡ stored self.old.session) }
        ensures memory { self.old.session.keeps ≡ true → IfOk result (λ page.
            self.old.session.room ≤ self.old.session.gone + vec_capacity page.entries) }
        ensures fits { OnOk result (MayGoOn self.old.session (vec_capacity next)) }
        ensures log { OnOk result (self.new.session ≡ drained self.old.session (vec_capacity next)) }
        ensures back { IfErr result (λ e. e.1 ≡ next) }
        ensures refused { OnErr result (MayGoOn self.old.session (vec_capacity next) → ⊥) }
        ensures unchanged { OnErr result (self.new.session ≡ self.old.session) }
        ensures opening { self.new.session.opening ≡ self.old.session.opening }
        ensures entries { self.new.session.entries ≡ self.old.session.entries }
        ensures ends { SameEnds self.old self.new }
    {
        let first = self.session.log().first_stored();
        let entries = self.session.drain(next)?;
        Ok(Page { first, entries })
    }
}

impl<J: ViewHistory, R: Wait + Drop> ViewWorker<J, Shown<J>, R> {
    /// Hands out all entries that the log stores, as [`Session::drain`](rdm_queue::Session::drain) does, with the
    /// number of the first: how many entries the log had before it. That is possible between two calls of
    /// [`work`](ViewWorker::work). Contracts still cover all its entries.
    /// Err: as `Session::drain` returns; nothing has changed, and the memory is returned.
    pub fn drain(&mut self, next: Vec<Entry>) -> Result<Page, (LogFull, Vec<Entry>)>
        requires { next.items ≡ [] }
        ensures first { IfOk result (λ page. page.first + length page.entries.items
            ≡ length (session_of self.old).entries) }
        ensures gone { IfOk result (λ page. (session_of self.old).keeps ≡ true
            → page.first ≡ (session_of self.old).gone) }
        ensures handed_out { IfOk result (λ page. page.entries.items ≡ stored (session_of self.old)) }
        ensures memory { (session_of self.old).keeps ≡ true → IfOk result (λ page.
            (session_of self.old).room ≤ (session_of self.old).gone + vec_capacity page.entries) }
        ensures fits { OnOk result (MayGoOn (session_of self.old) (vec_capacity next)) }
        ensures log { OnOk result (session_of self.new ≡ drained (session_of self.old) (vec_capacity next)) }
        ensures back { IfErr result (λ e. e.1 ≡ next) }
        ensures refused { OnErr result (MayGoOn (session_of self.old) (vec_capacity next) → ⊥) }
        ensures unchanged { OnErr result (session_of self.new ≡ session_of self.old) }
        ensures history { ((session_of self.new).opening ≡ (session_of self.old).opening)
            × ((session_of self.new).entries ≡ (session_of self.old).entries) }
        ensures lanes { lanes_of self.new ≡ lanes_of self.old }
        ensures operator { operator_has_left self.new ≡ operator_has_left self.old }
        ensures ring { operator_ring self.new ≡ operator_ring self.old }
        ensures views { published_by self.new ≡ published_by self.old }
        ensures count { turns_made_of self.new ≡ turns_made_of self.old }
    {
        self.server.drain(next)
    }
}
