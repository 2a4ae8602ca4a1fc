//! Capacity for what a session returns, and bodies beside their clients.
ghost use Rattle.std.specs.Prelude.{◌≡◌, ◌≤◌, [], length, map, vec_capacity, IfSome};
ghost use Rattle.rdm_lanes.specs.Ends.{end_rings};
ghost use Rattle.rdm_lanes.specs.Pairs.{client_rings};
ghost use Rattle.rdm_lanes.specs.body.Seats.{seat_rings};
ghost use Rattle.rdm_lanes.specs.body.Rooms.{HasRoomFor};

use crate::client::RingClient;
use crate::client::ends::ClientEnd;
use crate::opening::seat::Seat;
use crate::views::history::ViewHistory;
use rdm_client::{AskCallback, Callback, Tells, TellsAsk};
use std::alloc::Global;

/// Capacity for a session's seats, and for what it returns. It is allocated before any body runs.
pub struct Rooms<J: ViewHistory, B, C = Callback, A = AskCallback> {
    /// For the bodies beside their clients.
    pub seats: Vec<Seat<J, B, C, A>>,
    /// For what is left of the clients.
    pub ends: Vec<ClientEnd<J, C, A>>,
    /// For the bodies.
    pub bodies: Vec<B>,
}

/// Capacity for this many bodies. None: out of memory.
pub fn rooms_for<J: ViewHistory, B, C, A>(alloc: Global, count: usize) -> Option<Rooms<J, B, C, A>>
    ensures { IfSome result (λ rooms. HasRoomFor count rooms) }
{
    let Ok(seats) = Vec::with_capacity(alloc, count) else {
        return None;
    };
    let Ok(ends) = Vec::with_capacity(alloc, count) else {
        seats.destroy_empty();
        return None;
    };
    let Ok(bodies) = Vec::with_capacity(alloc, count) else {
        seats.destroy_empty();
        ends.destroy_empty();
        return None;
    };
    Some(Rooms {
        seats,
        ends,
        bodies,
    })
}

impl<J: ViewHistory, B, C, A> Rooms<J, B, C, A> {
    /// Frees capacity that isn't used.
    pub fn give_up(self)
        requires { (self.seats.items ≡ []) × (self.ends.items ≡ []) × (self.bodies.items ≡ []) }
    {
        let Rooms {
            seats,
            ends,
            bodies,
        } = self;
        seats.destroy_empty();
        ends.destroy_empty();
        bodies.destroy_empty();
    }
}

/// Each body beside its client, in the vector that is passed.
pub fn seated<J: ViewHistory, B, C, A>(
    bodies: Vec<B>,
    clients: Vec<RingClient<J, C, A>>,
    room: Vec<Seat<J, B, C, A>>,
) -> Vec<Seat<J, B, C, A>>
    requires one_each { length bodies.items ≡ length clients.items }
    requires empty { room.items ≡ [] }
    requires fits { length bodies.items ≤ vec_capacity room }
    ensures rings { map seat_rings result.items ≡ map client_rings clients.items }
    ensures one_each { length result.items ≡ length bodies.items }
{
    let mut bodies = bodies;
    let mut clients = clients;
    let mut seats = room;
    while !clients.is_empty() {
        let body = bodies.remove(0);
        let client = clients.remove(0);
        seats.push_reserved(Seat { body, client });
    }
    bodies.destroy_empty();
    clients.destroy_empty();
    seats
}

/// The bodies, and the ends of their clients, in the vectors that are passed.
pub fn unseated<J: ViewHistory, B, C: Tells, A: TellsAsk>(
    seats: Vec<Seat<J, B, C, A>>,
    bodies: Vec<B>,
    ends: Vec<ClientEnd<J, C, A>>,
) -> (Vec<B>, Vec<ClientEnd<J, C, A>>)
    requires empty { (bodies.items ≡ []) × (ends.items ≡ []) }
    requires fit { (length seats.items ≤ vec_capacity bodies) × (length seats.items ≤ vec_capacity ends) }
    ensures bodies { length result.0.items ≡ length seats.items }
    ensures ends { map end_rings result.1.items ≡ map seat_rings seats.items }
{
    let mut seats = seats;
    let mut bodies = bodies;
    let mut ends = ends;
    while !seats.is_empty() {
        let seat = seats.remove(0);
        let Seat { body, client } = seat;
        bodies.push_reserved(body);
        ends.push_reserved(client.end());
    }
    seats.destroy_empty();
    (bodies, ends)
}
