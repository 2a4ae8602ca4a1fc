//! Lists that only proofs read, each of which two values hold: they always agree.
ghost use Rattle.std.specs.Prelude.{◌≡◌, ℕ, [], ◌∷◌, ◌++◌, length, List, Some, slice_get, slice_set};
ghost use base.Stored.{coded_list};
ghost use base.Fml.{ftrue};
ghost use Rattle.rdm_ledger.specs.Owned.{blank_owns, book_owns, share_owns};

use std::marker::{Brand, Model, PhantomData};

/// Which ledger it is. The program picks it as `Brand`, in the call that opens it.
pub trait Named {
    ghost lists: { ℕ };
}

impl Named for Brand {
    ghost lists = { 0 };
}

/// Items that only proofs read.
#[derive(Drop)]
pub struct Items<T> {
    of: PhantomData<T>,
    pub ghost items: { List T } by { coded_list T.code },
}

impl<T> Model for Items<T> {
    ghost also_owns = { λ _. ftrue };
}

/// Which items three values show.
pub trait Shows<X, Y, Z, T> {
    ghost shown: { X → Y → Z → List T };
}

impl<T> Items<T> {
    /// The items that these values show.
    pub fn shown<X, Y, Z, M: Shows<X, Y, Z, T>>(x: &X, y: &Y, z: &Z) -> Items<T>
        ensures { result.items ≡ M.shown x.now y.now z.now }
    {
        let _ = x;
        let _ = y;
        let _ = z;
        Items { of: PhantomData }
    }
}

/// A ledger without lists, which is no type's yet.
#[derive(Drop)]
pub struct Blank {
    of: PhantomData<()>,
    pub ghost name: { ℕ },
}

impl Model for Blank {
    ghost also_owns = { λ b. blank_owns b.name };
}

/// One half of all lists.
#[derive(Drop)]
pub struct Book<T, L: Named> {
    of: PhantomData<(T, L)>,
    pub ghost lists: { List (List T) } by { coded_list (coded_list T.code) },
}

impl<T, L: Named> Model for Book<T, L> {
    ghost also_owns = { λ b. book_owns (coded_list T.row.coded).code L.lists b.lists };
}

/// The other half of one list.
#[derive(Drop)]
pub struct Share<T, L: Named> {
    of: PhantomData<(T, L)>,
    pub ghost index: { ℕ },
    pub ghost items: { List T } by { coded_list T.code },
}

impl<T, L: Named> Model for Share<T, L> {
    ghost also_owns = { λ s. share_owns (coded_list T.row.coded).code L.lists s.index s.items };
}

impl Blank {
    /// A new ledger.
    pub fn new() -> Blank {
        Blank { of: PhantomData }
    }
}

impl<T, L: Named> Book<T, L> {
    /// The book of a new ledger, without lists.
    pub fn open(blank: Blank) -> Book<T, L>
        requires { blank.name ≡ L.lists }
        ensures { result.lists ≡ [] }
    {
        let Blank { of: _ } = blank;
        Book { of: PhantomData }
    }

    /// A new list, without items.
    pub fn begin(&mut self) -> Share<T, L>
        ensures index { result.index ≡ length self.old.lists }
        ensures items { result.items ≡ [] }
        ensures lists { self.new.lists ≡ self.old.lists ++ [] ∷ [] }
    {
        Share { of: PhantomData }
    }

    /// Adds these items to a list. Both halves agreed before.
    pub fn add(&mut self, share: &mut Share<T, L>, more: &Items<T>)
        ensures agreed { slice_get self.old.lists share.old.index ≡ Some share.old.items }
        ensures items { share.new.items ≡ share.old.items ++ more.now.items }
        ensures index { share.new.index ≡ share.old.index }
        ensures lists { self.new.lists
            ≡ slice_set self.old.lists share.old.index (share.old.items ++ more.now.items) }
    {}
}

unsafe impl Send for Blank {}

unsafe impl<T, L: Named> Send for Book<T, L> {}

unsafe impl<T, L: Named> Send for Share<T, L> {}
