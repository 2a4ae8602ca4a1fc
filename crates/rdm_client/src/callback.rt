//! A request's callback.
ghost use Rattle.std.specs.Prelude.{◌≡◌, ℕ};
ghost use Rattle.rdm_log.specs.declared.outcome.Completion.{Completion};
ghost use Rattle.rdm_client.specs.declared.told.Told.{Told};
ghost use Rattle.rdm_client.specs.Callbacks.{told, BytesFit, IsInRange, IsCancelled};

use crate::told::Told;
use rdm_join::Status;
use rdm_log::Completion;
use std::alloc::Global;

/// A request's callback: it is called once with how the request ended, and returns its tag and that completion.
/// [`Callback`] is a boxed closure. A program with one kind of callback may use a type of its own, without a box.
///
/// A type that isn't [`Drop`] can't be forgotten. `spend` and `cancel` take it by value, so it is called once.
pub trait Tells {
    /// The tag that it returns.
    ghost tag_of: { Self → ℕ };

    /// That it was called with this completion, and returned this.
    ghost calls: { Self → Completion → Told → Type 0 };

    /// Calls it with how the request ended.
    fn spend(self, done: Completion) -> Told
        ensures called { calls self done result }
        ensures told { result ≡ told (tag_of self) done };

    /// Calls it with status FailedToSend, without a reply and without bytes, if its request will have no outcome. It
    /// allocates nothing, but an empty vector has an allocator too.
    fn cancel(self, alloc: Global) -> Told
        ensures called { calls self result.done result }
        ensures tag { result.tag ≡ tag_of self }
        ensures done { IsCancelled result.done };
}

/// A boxed closure that is called once with a request's completion.
///
/// It is neither [`Clone`] nor [`Drop`]: it is called, cancelled or passed on. The compiler refuses each of these:
///
/// ```text
/// fn forget(callback: Callback) {}
/// // `callback` is let go where its block ends, and `Callback` is not `Drop`
///
/// fn twice(callback: Callback, one: Completion, other: Completion) -> (Told, Told) {
///     (callback.spend(one), callback.spend(other))
/// }
/// // use of moved value: `callback`
///
/// fn copy(callback: &Callback) -> Callback {
///     callback.clone()
/// }
/// // `Callback` is not `Clone`
/// ```
pub struct Callback {
    tag: u64,
    closure: Box<dyn FnOnce(Completion) -> Told + Send>,
    ghost callable: { (c : Completion) → IsInRange c → pre closure c },
    ghost tells: { (c : Completion) (t : Told) → IsInRange c → post closure c t → t ≡ told tag c },
}

impl Callback {
    /// A callback with this tag. The closure has to accept any completion whose numbers are in the ranges of their
    /// types. It has to return `Told { tag, done }` with this tag and that completion. No test can show this: it is
    /// proved from the closure's code.
    pub fn new(tag: u64, closure: Box<dyn FnOnce(Completion) -> Told + Send>) -> Callback
        requires callable { (c : Completion) → IsInRange c → pre closure c }
        requires tells { (c : Completion) (t : Told) → IsInRange c → post closure c t → t ≡ told tag c }
        ensures tag { result.tag ≡ tag }
        ensures closure { result.closure ≡ closure }
    {
        Callback { tag, closure }
    }
}

impl Tells for Callback {
    ghost tag_of = { λ callback. callback.tag };

    ghost calls = { λ callback done told. post callback.closure done told };

    fn spend(self, done: Completion) -> Told {
        let Callback { tag: _, closure } = self;
        bytes_fit(&done.bytes);
        closure(done)
    }

    fn cancel(self, alloc: Global) -> Told {
        self.spend(Completion {
            status: Status::FailedToSend,
            reply: None,
            bytes: Vec::new(alloc),
        })
    }
}

// Only for the proof: each byte is in the range of its type.
fn bytes_fit(bytes: &[u8])
    ensures { BytesFit bytes.now }
{}
