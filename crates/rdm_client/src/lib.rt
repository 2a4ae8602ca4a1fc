//! Callbacks that are called once, and the desk that holds those of one client. All of it is the profile of this
//! project.
//!
//! A client passes a callback with each request and each discovery. Its desk holds them, and calls the oldest one of a
//! kind with each outcome of that kind. A callback is neither [`Clone`] nor [`Drop`]. So it is called once, and the
//! compiler refuses a program that forgets one.
//!
//! Desks and clients are generic in their callbacks, under [`Tells`] and [`TellsAsk`]. The defaults are boxed closures:
//! [`Callback`] and [`AskCallback`].
//!
//! There are clients with a mutex (`rdm_locked`) and with ring buffers (`rdm_lanes`). [`Client`] has the calls
//! that both make alike: submit, discover and collect.
#![tactic(auto)]

mod ask_callback;
mod boxed_ask;
mod callback;
mod client;
mod desk;
mod fault;
mod found_set;
mod told;
mod unspent;
mod view;
mod worker_end;

pub use ask_callback::{AskCallback, TellsAsk};
pub use boxed_ask::BoxedAsk;
pub use callback::{Callback, Tells};
pub use client::Client;
pub use desk::{Desk, MOST_ASKS_HELD};
pub use fault::{CallFault, Full, Misdelivered};
pub use told::{AskTold, Collected, Told};
pub use unspent::{Unfinished, Unspent};
pub use view::DeviceView;
pub use worker_end::WorkerEnd;
