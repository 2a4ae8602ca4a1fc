//! What clients of both ports need of their calls and callbacks.
use crate::serving::ticket::{AskTicket, RequestTicket};
use rdm_client::{Tells, TellsAsk, Unfinished, Unspent};
use std::alloc::Global;

/// Cancels the callbacks that a client has left.
pub fn cancel_all(alloc: Global, mut unspent: Unspent<RequestTicket, AskTicket>) {
    while let Some(left) = unspent.next() {
        match left {
            Unfinished::Request(callback) => drop(callback.cancel(alloc)),
            Unfinished::Ask(callback) => drop(callback.cancel()),
        }
    }
    unspent.close_empty();
}
