//! Sessions of clients on a line, each client in a thread of its own.
//!
//! [`serve`] serves the clients of a session file on a line, and reports to a [`Progress`](rdm_reports::Progress).
//! [`play`] makes the calls of a client, whichever port it has, and is public so that tests can give it a client of
//! their own. What is printed and logged comes from `rdm_reports`. All of it is the profile of this project.
#![tactic(auto)]

mod serving;

pub use serving::{
    AskTicket, RequestTicket, ServeFault, Served, Watch, all_entries, are_logged, play, serve,
};
