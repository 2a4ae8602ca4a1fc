//! A discovery's callback.
ghost use Rattle.std.specs.Prelude.{◌≡◌, ℕ};
ghost use Rattle.rdm_log.specs.declared.outcome.AskCompletion.{AskCompletion};
ghost use Rattle.rdm_client.specs.declared.told.AskTold.{AskTold};
ghost use Rattle.rdm_client.specs.Callbacks.{ask_told, ask_cancelled, AskFits};

use crate::boxed_ask::BoxedAsk;
use crate::told::AskTold;
use rdm_agent::AgentFault;

/// A discovery's callback: it is called once with how the discovery ended, and returns its tag and that completion.
/// [`Tells`](crate::Tells) is the same for requests. [`AskCallback`] is a boxed closure.
pub trait TellsAsk {
    /// The tag that it returns.
    ghost tag_of: { Self → ℕ };

    /// That it was called with this completion, and returned this.
    ghost calls: { Self → AskCompletion → AskTold → Type 0 };

    /// Calls it with how the discovery ended.
    fn spend(self, done: BoxedAsk) -> AskTold
        ensures called { calls self done result }
        ensures told { result ≡ ask_told (tag_of self) done };

    /// Calls it with run 0, [`AgentFault::Aborted`] and no devices, if its discovery will have no outcome. It allocates
    /// nothing.
    fn cancel(self) -> AskTold
        ensures called { calls self ask_cancelled result }
        ensures told { result ≡ ask_told (tag_of self) ask_cancelled };
}

/// A boxed closure that is called once with a discovery's completion.
///
/// It is neither [`Clone`] nor [`Drop`]: it is called, cancelled or passed on, as a [`Callback`](crate::Callback) is.
pub struct AskCallback {
    tag: u64,
    closure: Box<dyn FnOnce(BoxedAsk) -> AskTold + Send>,
    ghost callable: { (c : AskCompletion) → AskFits c → pre closure c },
    ghost tells: { (c : AskCompletion) (t : AskTold) → AskFits c → post closure c t → t ≡ ask_told tag c },
}

impl AskCallback {
    /// A callback with this tag. The closure has to accept any completion whose numbers are in the ranges of their
    /// types, with at most 1,024 devices. It has to return `AskTold { tag, done }` with this tag and that completion.
    /// No test can show this: it is proved from the closure's code.
    pub fn new(tag: u64, closure: Box<dyn FnOnce(BoxedAsk) -> AskTold + Send>) -> AskCallback
        requires callable { (c : AskCompletion) → AskFits c → pre closure c }
        requires tells { (c : AskCompletion) (t : AskTold) → AskFits c → post closure c t → t ≡ ask_told tag c }
        ensures tag { result.tag ≡ tag }
        ensures closure { result.closure ≡ closure }
    {
        AskCallback { tag, closure }
    }
}

impl TellsAsk for AskCallback {
    ghost tag_of = { λ callback. callback.tag };

    ghost calls = { λ callback done told. post callback.closure done told };

    fn spend(self, done: BoxedAsk) -> AskTold {
        let AskCallback { tag: _, closure } = self;
        done.fits();
        closure(done)
    }

    fn cancel(self) -> AskTold {
        self.spend(BoxedAsk::new(0, Some(AgentFault::Aborted), None))
    }
}
