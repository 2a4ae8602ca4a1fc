//! UIDs in a tree.
use rdm_wire::{NoMemory, Uid};
use std::alloc::Global;
use std::collections::BTreeSet;

/// A set of UIDs of any size.
#[derive(Drop)]
pub(crate) struct Uids {
    tree: BTreeSet<u64>,
}

impl Uids {
    ghost use Rattle.std.specs.Prelude.{◌≡◌, ℕ, ◌||◌, ◌==◌, false, IfOk, OnOk};
    ghost use Rattle.rdm_explain.specs.body.Trees.{Holds, in_tree};

    /// The empty set.
    pub(crate) fn new(alloc: Global) -> Uids
        ensures { (u : ℕ) → in_tree result u ≡ false }
    {
        Uids {
            tree: BTreeSet::new(alloc),
        }
    }

    /// Whether the UID is in it.
    pub(crate) fn contains(&self, uid: Uid) -> bool
        ensures { result ≡ in_tree self.now uid }
    {
        self.tree.contains(&uid.number())
    }

    /// Adds a UID.
    pub(crate) fn add(&mut self, uid: Uid) -> Result<(), NoMemory>
        ensures { OnOk result ((u : ℕ) → in_tree self.new u ≡ ((u == uid) || in_tree self.old u)) }
    {
        match self.tree.insert(uid.number()) {
            Ok(_) => Ok(()),
            Err(_) => Err(NoMemory),
        }
    }

    /// Removes all UIDs.
    pub(crate) fn clear(&mut self)
        ensures { (u : ℕ) → in_tree self.new u ≡ false }
    {
        self.tree.clear();
    }

    /// The set of some UIDs.
    pub(crate) fn of(alloc: Global, uids: &[Uid]) -> Result<Uids, NoMemory>
        ensures { IfOk result (λ tree. Holds uids.now tree) }
    {
        let mut tree = Uids::new(alloc);
        for uid in uids {
            tree.add(*uid)?;
        }
        Ok(tree)
    }
}
