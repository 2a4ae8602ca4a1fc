//! Sessions, and what comes over their lines.
ghost use Rattle.std.specs.Prelude.{◌≡◌, []};
ghost use Rattle.rdm_log.specs.log.Config.{IsConfig};

use crate::tests::*;
use rdm_log::{ClientId, Config, Log, Setup};
use rdm_queue::Session;

/// The client of these sessions.
pub const CLIENT: ClientId = ClientId(0);

// The controller `7a70:00000100` with this capacity, whose runs search quickly.
fn quick(places: u16) -> Setup
    ensures { IsConfig result.config }
{
    Setup {
        config: Config {
            source: Uid::new(0x7a70, 0x100),
            places: places.min(4080),
            budget: DEFAULT_BUDGET,
        },
        search: Search::Quick,
    }
}

/// A log with this many free entries.
pub fn log(rt: &impl Abort, alloc: Global, free: usize) -> Log
    ensures { result.entries ≡ [] }
{
    let made = Log::new(alloc, free.min(1_000_000));
    made.expect(rt, "the memory of a log")
}

/// A session of that controller, whose log has this many free entries.
pub fn session_without_clients(rt: &impl Abort, alloc: Global, places: u8, free: usize) -> Session {
    let made = Session::new(alloc, quick(u16::from(places)), log(rt, alloc, free));
    made.expect(rt, "the memory of a session")
}

/// Such a session, with a client that has the whole capacity.
pub fn session(rt: &impl Abort, alloc: Global, places: u8, free: usize) -> Session {
    let mut session = session_without_clients(rt, alloc, places, free);
    check_eq(rt, session.join_client(alloc, places), Ok(CLIENT));
    session
}

/// A GET of the parameter `0060` from `1234:00000001`.
pub fn get() -> Request {
    Request {
        target: Uid::new(0x1234, 1),
        sub_device: 0,
        class: ReqClass::Get,
        pid: 0x0060,
        param: ArrayVec::new(),
    }
}

/// These bytes from the line; none are silence.
pub fn reply(rt: &impl Abort, bytes: &[u8]) -> LineEvent {
    let mut reply: LineReply = ArrayVec::new();
    check(rt, reply.try_extend_from_slice(bytes).is_ok());
    LineEvent::Reply(reply)
}
