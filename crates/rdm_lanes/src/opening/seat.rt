//! A body and its client.
use crate::client::RingClient;
use crate::views::history::ViewHistory;
use rdm_client::{AskCallback, Callback};

/// A body and its client.
pub struct Seat<J: ViewHistory, B, C = Callback, A = AskCallback> {
    /// What the client does.
    pub body: B,
    /// The client.
    pub client: RingClient<J, C, A>,
}
