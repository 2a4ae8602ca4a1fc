//! Stages for tests, which do the acts of `test_rig`: a session with a mutex, and clients with ring buffers. Each is
//! driven in one thread by a list of moves, or has clients in threads of their own. Nothing but tests depends on this
//! crate.
#![tactic(auto)]

mod failed;
mod lanes;
mod player;
mod port;
mod port_job;
mod port_line;
mod port_threads;
mod setup;
mod threads;

pub use failed::Failed;
pub use lanes::{
    LanesOver, LanesStage, Left, counts_are, drive_lanes, open_fault, play_lanes, read_alone,
};
pub use player::{MOST_NOTED, Part, Play, Player, Points, TRIES, waits};
pub use port::{Gone, PortOver, PortSetup, PortStage, drive_port, play_port};
pub use port_job::{PortClient, PortJob, on_port, play_port_again};
pub use port_line::{ClosingLine, PortNote};
pub use port_threads::{serve_clients, serve_port};
pub use setup::Setup;
pub use threads::{
    NotServed, PlayersOver, play_threads, player_heard, serve_beside, serve_bodies, serve_players,
};
