//! What only Rattle shows of logs: their openings and searches, and that a cleared one can be used again.
ghost use Rattle.std.specs.Prelude.{◌≡◌, []};

use super::sessions::{CLIENT, get, log, reply, session};
use crate::tests::*;
use rdm_log::{Entry, Log, LogFull, Opening};
use rdm_queue::Session;

/// The reply of `1234:00000001` to a branch.
const SPELT: [u8; 24] = [
    0xfe, 0xfe, 0xfe, 0xfe, 0xfe, 0xfe, 0xfe, 0xaa, 0xba, 0x57, 0xbe, 0x75, 0xaa, 0x55, 0xaa, 0x55,
    0xaa, 0x55, 0xab, 0x55, 0xae, 0x57, 0xeb, 0x55,
];

/// Its acknowledgement of the mute with number 4.
const MUTED: [u8; 28] = [
    0xcc, 0x01, 0x1a, 0x7a, 0x70, 0x00, 0x00, 0x01, 0x00, 0x12, 0x34, 0x00, 0x00, 0x00, 0x01, 0x04,
    0x00, 0x00, 0x00, 0x00, 0x11, 0x00, 0x02, 0x02, 0x00, 0x00, 0x02, 0x32,
];

// Takes a frame, and delivers these bytes.
fn exchanges(rt: &impl Abort, alloc: Global, session: &mut Session, bytes: &[u8]) {
    let taken = session.take();
    check(rt, taken.is_ok_and(|frame| frame.is_some()));
    check(rt, session.deliver(alloc, reply(rt, bytes)).is_ok());
}

// A session that has served a discovery, which found one device, and a request. It is paused.
fn used(rt: &impl Abort, alloc: Global) -> Session {
    let mut session = session(rt, alloc, 4, 5000);
    check_eq(rt, session.discover(CLIENT, Kind::Full), Ok(0));
    check_eq(rt, session.submit(CLIENT, get()).ok(), Some(0));
    for number in 0..11 {
        match number {
            3 => exchanges(rt, alloc, &mut session, &SPELT),
            4 => exchanges(rt, alloc, &mut session, &MUTED),
            _ => exchanges(rt, alloc, &mut session, &[]),
        }
    }
    for _ in 0..2 {
        check(rt, session.next_outcome(CLIENT).is_some());
    }
    check_eq(rt, session.pause(), Ok(()));
    session
}

// The next log's opening after that.
fn opens(rt: &impl Abort, opening: &Opening) {
    check_eq(rt, opening.source, Uid::new(0x7a70, 0x100));
    check(
        rt,
        opening.greatest == 4 && opening.budget == DEFAULT_BUDGET,
    );
    check_eq(rt, opening.places.as_slice(), [4_u8].as_slice());
    check(rt, opening.paused && !opening.closed);
    check(
        rt,
        opening.devices.len() == 1 && opening.devices.contains(Uid::new(0x1234, 1)),
    );
    check(rt, opening.devices_run == 1 && opening.next_run == 2);
    check(rt, opening.next_request == 1 && opening.next_ask == 1);
    check_eq(rt, opening.next_tn, 11);
}

// The log is like a new one.
fn is_blank(rt: &impl Abort, log: &Log) {
    check(rt, log.entries().is_empty() && log.opening().greatest == 0);
    check_eq(rt, log.opening().search, Search::Steady);
}

#[test]
fn a_new_log_opens_as_the_old_one_ended(rt: HostRuntime) {
    let session = used(&rt, rt.alloc());
    let rotated = session.rotate(log(&rt, rt.alloc(), 20)).ok();
    let (session, old) = rotated.expect(&rt, "an idle session");
    check_eq(&rt, old.entries().len(), 30);
    opens(&rt, session.log().opening());
    check_eq(&rt, session.log().opening().search, Search::Quick);
    check_eq(&rt, old.opening().search, Search::Quick);
    is_blank(&rt, &old.cleared());
    let (controller, _) = session.end();
    check_eq(&rt, controller.search(), Search::Quick);
}

#[test]
fn a_cleared_log_has_its_room(rt: HostRuntime) {
    let (_, used) = session(&rt, rt.alloc(), 1, 4).end();
    let cleared = used.cleared();
    is_blank(&rt, &cleared);
    let rotated = session(&rt, rt.alloc(), 1, 3).rotate(cleared).ok();
    let (mut session, _) = rotated.expect(&rt, "an idle session");
    check_eq(&rt, session.free(), 4);
    check_eq(&rt, session.pause(), Ok(()));
    check_eq(&rt, session.resume(), Ok(()));
    check_eq(&rt, session.pause(), Err(LogFull));
    check_eq(&rt, session.log().entries().len(), 2);
}

// Drains the session into this memory, whose entries it drops first. Returns the memory of the log before.
fn next_page(rt: &impl Abort, session: &mut Session, mut memory: Vec<Entry>) -> Vec<Entry> {
    memory.clear();
    let page = session.drain(memory);
    page.expect(rt, "memory for what is reserved")
}

#[test]
fn memory_that_was_handed_out_is_used_again(rt: HostRuntime) {
    let mut session = session(&rt, rt.alloc(), 1, 4);
    let memory = Vec::with_capacity(rt.alloc(), 5);
    let mut page = next_page(
        &rt,
        &mut session,
        memory.expect(&rt, "memory for five entries"),
    );
    check_eq(&rt, page.len(), 1);
    for _ in 0..4 {
        check_eq(&rt, session.pause(), Ok(()));
        check_eq(&rt, session.resume(), Ok(()));
        check_eq(&rt, session.pause(), Err(LogFull));
        page = next_page(&rt, &mut session, page);
        check(
            &rt,
            matches!(page.as_slice(), [Entry::Pause, Entry::Resume]),
        );
    }
    check_eq(&rt, session.log().len_in_all(), 9);
}

#[test]
fn a_page_is_searched_as_its_log(rt: HostRuntime) {
    let mut session = session(&rt, rt.alloc(), 1, 4);
    let mut page = log(&rt, rt.alloc(), 4);
    check_eq(&rt, page.opening().search, Search::Steady);
    check_eq(&rt, session.drain_into(&mut page), Ok(()));
    check_eq(&rt, page.opening().search, Search::Quick);
    check_eq(&rt, page.opening().source, Uid::default());
    check_eq(&rt, page.entries().len(), 1);
}
