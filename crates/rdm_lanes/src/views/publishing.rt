//! How the worker publishes views of the devices.
ghost use Rattle.std.specs.Prelude.{◌≡◌, ◌≢◌, ◌<◌, ◌≤◌, ◌^◌, ◌++◌, ◌∷◌, [], length, true, false, MatchBool};
ghost use Rattle.std.specs.Prelude.{IfOk, IfErr, IfSome};
ghost use mathlib.Core.List.{IsPrefix};
ghost use Rattle.left_right.specs.Handles.{published, pending};
ghost use Rattle.rdm_lanes.specs.Views.{opening_view, last_view_run};
ghost use Rattle.rdm_lanes.specs.body.Showing.{AreAll};

use crate::views::history::{BlankHistory, Book, Front, ViewHistory};
use left_right::{Absorb, ReadHandle, WriteHandle};
use rdm_client::DeviceView;
use rdm_wire::DeviceSet;
use std::alloc::{AllocError, Global};
use std::marker::Model;
use std::sync::{Arc, Wait};

// At most this many views are added; no session makes as many.
const MOST_VIEWS: u64 = 1 << 32;

/// What readers read: a view, and the views up to it. Contracts see the views.
#[derive(Drop)]
pub struct Shown<J: ViewHistory> {
    /// The last view.
    pub view: Arc<DeviceView>,
    /// All views up to it.
    pub front: Front<J>,
}

impl<J: ViewHistory> Model for Shown<J> {
    ghost use Rattle.std.specs.Prelude.{◌≡◌, List};
    ghost use Rattle.rdm_client.specs.declared.view.DeviceView.{DeviceView};
    ghost use Rattle.rdm_lanes.specs.Views.{last_view};

    ghost Value = { List DeviceView };

    ghost view = { λ s. s.front };

    ghost invariant = { λ s. s.view.value ≡ last_view s.front };
}

impl<J: ViewHistory> Shown<J> {
    /// The same view. None: the view has as many owners as can be counted.
    pub fn again(&self) -> Option<Shown<J>>
        ensures { IfSome result (λ s. s ≡ self.now) }
    {
        let Ok(view) = Arc::try_clone(&self.view) else {
            return None;
        };
        Some(Shown {
            view,
            front: self.front.again(),
        })
    }

    /// The views up to it.
    pub fn into_front(self) -> Front<J>
        ensures { result ≡ self }
    {
        let Shown { view: _, front } = self;
        front
    }

    /// The same view, if it comes after what was read. None: it doesn't, or it has as many owners as can be counted.
    pub fn after(&self, read: &Shown<J>) -> Option<Shown<J>>
        ensures same { IfSome result (λ s. s ≡ self.now) }
        ensures goes_on { IfSome result (λ s. IsPrefix read.now s) }
    {
        if self.front.len() <= read.front.len() {
            return None;
        }
        let front = read.front.longer(&self.front);
        let Ok(view) = Arc::try_clone(&self.view) else {
            return None;
        };
        Some(Shown { view, front })
    }
}

impl<J: ViewHistory> Absorb<Shown<J>> for Shown<J> {
    type State = [DeviceView; 0];

    ghost state = { λ s. s };

    ghost applied = { λ xs x. x };

    fn absorb_first(&mut self, operation: &Shown<J>, _other: &Shown<J>) -> Result<(), AllocError> {
        let Some(next) = operation.again() else {
            return Err(AllocError);
        };
        *self = next;
        Ok(())
    }
}

/// Publishes views. Contracts see the views that were added, and those that readers may read. These are the same,
/// unless the last one isn't published yet. Dropping it waits for the reads that are under way.
#[derive(Drop)]
pub struct Publisher<
    J: ViewHistory,
    T: Absorb<Shown<J>, State = [DeviceView; 0]> + Drop,
    R: Wait + Drop,
> {
    book: Book<J>,
    latest: Shown<J>,
    shown: WriteHandle<T, Shown<J>, R>,
    waiting: bool,
}

impl<J: ViewHistory, T: Absorb<Shown<J>, State = [DeviceView; 0]> + Drop, R: Wait + Drop> Model
    for Publisher<J, T, R> {
    ghost use Rattle.left_right.specs.Handles.{published, pending};
    ghost use Rattle.rdm_lanes.specs.body.Showing.{Publishing, IsPublishing};

    ghost Value = { Publishing };

    ghost view = { λ p. record { shown = T.state (published p.shown); added = p.latest } };

    ghost invariant = { λ p. IsPublishing p.waiting (T.state (published p.shown)) p.latest
        (pending p.shown) };
}

impl<J: ViewHistory, R: Wait + Drop> Publisher<J, Shown<J>, R> {
    /// A publisher that shows the opening view, with capacity for this many readers. Err: out of memory; the history is
    /// returned.
    #[tactic(auto, using(crate::proofs::ViewFacts::last_opening))]
    pub fn new(
        alloc: Global,
        rt: R,
        history: BlankHistory,
        readers: usize,
    ) -> Result<Publisher<J, Shown<J>, R>, BlankHistory>
        requires name { history.seen.book ≡ J.book }
        requires readers { (0 < readers) × (readers < 2 ^ 32) }
        ensures opening { IfOk result (λ p. (p.shown ≡ opening_view ∷ []) × (p.added ≡ opening_view ∷ [])) }
        ensures back { IfErr result (λ history. history.seen.book ≡ J.book) }
    {
        let (book, front) = history.named::<J>();
        let Some(view) = opening_shared(alloc) else {
            return Err(book.blank(front));
        };
        let latest = Shown { view, front };
        let (Some(first), Some(second)) = (latest.again(), latest.again()) else {
            return Err(book.blank(latest.into_front()));
        };
        let Ok(shown) = WriteHandle::new(alloc, rt, first, second, readers) else {
            return Err(book.blank(latest.into_front()));
        };
        Ok(Publisher {
            book,
            latest,
            shown,
            waiting: false,
        })
    }

    /// The blank history again. The publisher must not have added a view. It waits for reads that are under way.
    pub fn into_blank(self) -> BlankHistory
        requires { self.added ≡ opening_view ∷ [] }
        ensures { result.seen.book ≡ J.book }
    {
        let Publisher {
            book,
            latest,
            shown: _,
            waiting: _,
        } = self;
        book.blank(latest.into_front())
    }

    /// The run of the last view that was added.
    pub fn run(&self) -> u64
        ensures { result ≡ last_view_run self.now.added }
    {
        self.latest.view.run
    }

    /// Adds a view of a later run, without publishing it, and returns whether it did. If not, nothing changes: out of
    /// memory, the view before it isn't published, or there are 2^32 views. It doesn't either if the history is longer
    /// than this publisher's views, which only another publisher could cause.
    // It isn't inlined, so that a turn that publishes nothing has no set in its frame.
    #[inline(never)]
    #[tactic(auto, using(crate::proofs::ViewFacts::last_added))]
    pub fn add(&mut self, alloc: Global, run: u64, devices: &DeviceSet) -> bool
        requires later { last_view_run self.old.added < run }
        ensures added { MatchBool result
            (self.new.added ≡ self.old.added ++ record { run = run; set = devices.now } ∷ [])
            (self.new.added ≡ self.old.added) }
        ensures shown { self.new.shown ≡ self.old.shown }
    {
        if self.waiting || self.latest.front.len() >= MOST_VIEWS {
            return false;
        }
        let Some(view) = shared_view(alloc, run, devices) else {
            return false;
        };
        let mut front = self.latest.front.again();
        if !front.add(&self.book, &view) {
            return false;
        }
        self.latest = Shown { view, front };
        self.waiting = true;
        true
    }

    /// Publishes the view that was added last, if it isn't published yet, and returns whether it now is. It isn't if an
    /// allocation failed, or if the view has as many owners as can be counted. Readers then see what they saw before.
    /// It waits for reads of the view before the last one.
    pub fn show(&mut self) -> bool
        ensures added { self.new.added ≡ self.old.added }
        ensures shown { MatchBool result (self.new.shown ≡ self.new.added) (self.new.shown ≡ self.old.shown) }
        ensures refused { result ≡ false → self.new.shown ≢ self.new.added }
    {
        if !self.waiting {
            return true;
        }
        let Publisher { latest, shown, .. } = self;
        if !put(shown, latest) || !publish(shown, latest) {
            return false;
        }
        self.waiting = false;
        true
    }

    /// Whether the view that was added last is published.
    pub fn is_shown(&self) -> bool {
        !self.waiting
    }

    /// What readers read now. None: the view has as many owners as can be counted.
    pub fn shown_now(&self) -> Option<Shown<J>>
        ensures { IfSome result (λ s. s ≡ self.now.shown) }
    {
        self.shown.published().again()
    }

    /// A handle for a reader. Err: out of memory, each place for a reader is in use, or something has as many owners as
    /// can be counted.
    pub fn handle(&self) -> Result<ReadHandle<Shown<J>>, AllocError> {
        self.shown.handle()
    }

    /// The views that readers may read.
    pub fn front(&self) -> &Front<J>
        ensures { result.now ≡ self.now.shown }
    {
        &self.shown.published().front
    }
}

// The opening view, in memory that its owners share.
fn opening_shared(alloc: Global) -> Option<Arc<DeviceView>>
    ensures { IfSome result (λ view. view.value ≡ opening_view) }
{
    shared_view(alloc, 0, &DeviceSet::new())
}

// The view that this run found these devices, in memory that its owners share.
fn shared_view(alloc: Global, run: u64, devices: &DeviceSet) -> Option<Arc<DeviceView>>
    ensures { IfSome result (λ view. view.value ≡ record { run = run; set = devices.now }) }
{
    let mut shared = empty_view(alloc)?;
    // Nobody else owns it yet.
    let view = Arc::get_mut(&mut shared)?;
    view.run = run;
    view.set.copy_from(devices);
    Some(shared)
}

// The opening view, in memory that its owners share. It isn't inlined, since a view is made in its frame.
#[inline(never)]
fn empty_view(alloc: Global) -> Option<Arc<DeviceView>>
    ensures { IfSome result (λ view. view.value ≡ opening_view) }
{
    let view = DeviceView {
        run: 0,
        set: DeviceSet::new(),
    };
    Arc::new(alloc, view).ok()
}

// Prepares a view for publication, unless that is done.
#[tactic(auto, using(crate::proofs::PublishLemmas::all_put, crate::proofs::PublishLemmas::some_put))]
fn put<J: ViewHistory, R: Wait + Drop>(
    shown: &mut WriteHandle<Shown<J>, Shown<J>, R>,
    latest: &Shown<J>,
) -> bool
    requires { AreAll latest.now (pending shown.old) }
    ensures next { AreAll latest.now (pending shown.new) }
    ensures some { result ≡ true → 0 < length (pending shown.new) }
    ensures published { published shown.new ≡ published shown.old }
{
    if shown.has_pending_operations() {
        return true;
    }
    match latest.again() {
        Some(next) => shown.append(next).is_ok(),
        None => false,
    }
}

// Publishes the view that is prepared.
#[tactic(auto, using(crate::proofs::PublishLemmas::last_put))]
fn publish<J: ViewHistory, R: Wait + Drop>(
    shown: &mut WriteHandle<Shown<J>, Shown<J>, R>,
    latest: &Shown<J>,
) -> bool
    requires next { AreAll latest.now (pending shown.old) }
    requires some { 0 < length (pending shown.old) }
    ensures { MatchBool result ((published shown.new ≡ latest.now) × (pending shown.new ≡ []))
        ((published shown.new ≡ published shown.old) × AreAll latest.now (pending shown.new)) }
{
    shown.publish().is_ok()
}
