//! The history of the views that a session's worker publishes. It exists only in proofs; in memory there is only its
//! length. Whatever reads or writes it names it by a type parameter, so what they have seen can be compared.
ghost use Rattle.std.specs.Prelude.{◌≡◌, ◌+◌, ◌<◌, ◌≤◌, ◌^◌, ◌++◌, ◌∷◌, ◌⊎◌, [], length, MatchBool};
ghost use mathlib.Core.List.{IsPrefix};
ghost use Rattle.rdm_lanes.specs.Views.{opening_view, last_view_run, AreViews};
ghost use Rattle.rdm_lanes.specs.body.History.{head_of};

use logbook::{Gain, Offer, Plain, Play, Rule, Seen, Start, Word};
use rdm_client::DeviceView;
use std::marker::{Brand, Model, PhantomData};

/// The rule of the history.
pub struct Rising;

impl Rule<DeviceView, u64> for Rising {
    ghost use Rattle.std.specs.Prelude.{[], ◌∷◌};
    ghost use base.Fml.{ftrue};
    ghost use Rattle.rdm_lanes.specs.Views.{opening_view};
    ghost use Rattle.rdm_lanes.specs.body.History.{IsKept};

    ghost holds = { λ cells log. IsKept cells log };

    ghost first = { opening_view ∷ [] };

    ghost hinted = { λ n log. Unit {0} };

    ghost shows = { λ log. [] };

    ghost keeps = { λ names log. ftrue };

    ghost moves = { λ ask before after answer. Unit {0} };
}

/// No rights are exchanged.
pub struct Nothing;

impl Gain<DeviceView, u64> for Nothing {
    ghost use base.Fml.{ftrue};

    ghost after = { λ names about answer. ftrue };
}

/// A step that adds a view.
pub struct Add;

impl Play<DeviceView, u64> for Add {
    ghost use Rattle.rdm_lanes.specs.body.History.{Adds};

    ghost then = { Adds };
}

impl Plain<DeviceView, DeviceView, u64> for Add {
    ghost use Rattle.std.specs.Prelude.{None};

    ghost ask = { λ view. view };

    ghost state = { λ view. None };
}

/// Which history of views it is. The program's call that opens lanes picks it, as `Brand`.
pub trait ViewHistory {
    ghost use Rattle.logbook.specs.Pages.{Book};

    ghost book: { Book };
}

impl ViewHistory for Brand {
    ghost book = { record { number = 0; log_name = 0; cells_name = 0 } };
}

/// A history with only the opening view, which has no name yet.
#[derive(Drop)]
pub struct BlankHistory {
    head: Word<DeviceView, u64, Rising>,
    seen: Seen<DeviceView, u64, Rising>,
    ghost opening: { seen.log ≡ opening_view ∷ [] },
    ghost head_is: { head ≡ head_of seen.book },
}

impl BlankHistory {
    /// A new history. It allocates nothing.
    pub fn new() -> BlankHistory {
        let (seen, mut first, _second) = Seen::open(Start::alone(), 1, 0);
        BlankHistory {
            head: Word::tracked(1, &mut first),
            seen,
        }
    }

    /// The right to add to the history, and the views that have been seen so far, under a name. [`Book::blank`] undoes
    /// this.
    pub fn named<J: ViewHistory>(self) -> (Book<J>, Front<J>)
        requires { self.seen.book ≡ J.book }
        ensures { result.1 ≡ opening_view ∷ [] }
    {
        let BlankHistory { head, seen } = self;
        (
            Book {
                head,
                of: PhantomData,
            },
            Front {
                views: 1,
                seen,
                of: PhantomData,
            },
        )
    }
}

/// The right to add to the history.
#[derive(Drop)]
pub struct Book<J: ViewHistory> {
    head: Word<DeviceView, u64, Rising>,
    of: PhantomData<J>,
}

impl<J: ViewHistory> Book<J> {
    /// The blank history again. `front` must have only the opening view.
    pub fn blank(self, front: Front<J>) -> BlankHistory
        requires { front ≡ opening_view ∷ [] }
        ensures { result.seen.book ≡ J.book }
    {
        let Book { head, of: _ } = self;
        let Front {
            views: _,
            seen,
            of: _,
        } = front;
        BlankHistory { head, seen }
    }
}

impl<J: ViewHistory> Model for Book<J> {
    ghost use Rattle.std.specs.Prelude.{◌≡◌};
    ghost use Rattle.logbook.specs.Pages.{Book as Pages};
    ghost use Rattle.rdm_lanes.specs.body.History.{head_of};

    ghost Value = { Pages };

    ghost view = { λ b. b.head.book };

    ghost invariant = { λ b. b.head ≡ head_of J.book };
}

/// A prefix of the history, as far as it was seen. Contracts see the views.
#[derive(Drop)]
pub struct Front<J: ViewHistory> {
    views: u64,
    seen: Seen<DeviceView, u64, Rising>,
    of: PhantomData<J>,
}

impl<J: ViewHistory> Model for Front<J> {
    ghost use Rattle.std.specs.Prelude.{◌≡◌, List, length};
    ghost use Rattle.rdm_client.specs.declared.view.DeviceView.{DeviceView};
    ghost use Rattle.rdm_lanes.specs.Views.{AreViews};

    ghost Value = { List DeviceView };

    ghost view = { λ f. f.seen.log };

    ghost invariant = { λ f. (f.views ≡ length f.seen.log) × (f.seen.book ≡ J.book) × AreViews f.seen.log };
}

impl<J: ViewHistory> Front<J> {
    /// How many views it has, from 1.
    pub fn len(&self) -> u64
        ensures length { result ≡ length self.now }
        ensures views { AreViews self.now }
    {
        self.views
    }

    /// A copy.
    pub fn again(&self) -> Front<J>
        ensures { result ≡ self.now }
    {
        Front {
            views: self.views,
            seen: self.seen.again(),
            of: PhantomData,
        }
    }

    /// The longer of two prefixes. The other is a prefix of it.
    pub fn longer(&self, other: &Front<J>) -> Front<J>
        ensures one { (result ≡ self.now) ⊎ (result ≡ other.now) }
        ensures length { length other.now ≤ length self.now → result ≡ self.now }
        ensures longer { length self.now < length other.now → result ≡ other.now }
        ensures this { IsPrefix self.now result }
        ensures that { IsPrefix other.now result }
        ensures views { AreViews result }
    {
        let mut both = self.seen.again();
        both.learn(&other.seen);
        if self.views < other.views {
            other.again()
        } else {
            self.again()
        }
    }

    /// Adds a view of a later run to all that was seen, and returns whether it did. It doesn't if the history is longer
    /// than what was seen.
    pub fn add(&mut self, book: &Book<J>, view: &DeviceView) -> bool
        requires room { length self.old < 2 ^ 62 }
        requires later { last_view_run self.old < view.now.run }
        ensures { MatchBool result (self.new ≡ self.old ++ view.now ∷ []) (IsPrefix self.old self.new) }
    {
        let mut offer: Offer<DeviceView, u64, Rising, Nothing> = self
            .seen
            .plain::<Nothing, DeviceView, Add>(view);
        let mut pen = self.seen.no_pen();
        let views = self.views;
        let found = book
            .head
            .compare_exchange::<Add, Nothing>(
                views,
                views + 1,
                &mut self.seen,
                &mut offer,
                &mut pen,
            );
        self.views = if found == views { views + 1 } else { found };
        found == views
    }
}
