//! What goes through the rings of calls.
use rdm_agent::Kind;
use rdm_wire::Request;

/// What a client sends the worker.
#[derive(Debug, Drop)]
pub enum ClientCall {
    /// A submit of this request.
    Submit(Request),
    /// A discover of this kind.
    Discover(Kind),
    /// The client leaves, and sends nothing after this.
    Leave,
}

/// What an operator sends the worker.
#[derive(Clone, Copy, Debug, PartialEq, Eq)]
pub enum OperatorCall {
    /// A pause.
    Pause,
    /// A resume.
    Resume,
    /// A close.
    Close,
    /// The operator leaves, and sends nothing after this.
    Leave,
}
