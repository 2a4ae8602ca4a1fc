//! What the mutex of a port protects: its creation, joins, and replies that are delivered.
ghost use Rattle.std.specs.Prelude.{◌≡◌};
ghost use Rattle.rdm_locked.specs.Clients.{client_of};

use crate::tests::*;
use rdm_join::LineEvent;
use rdm_locked::{Blank, CallShare, Inside, Ledger, Turn};
use std::marker::Brand;

const CLIENT: ClientId = ClientId(0);

// What the mutex protects, made again with what was returned if an allocation fails.
fn inside<L: Ledger>(rt: &impl Abort, alloc: Global, blank: Blank) -> Inside<L>
    requires name { (blank.name ≡ L.name) × (blank.lists ≡ L.lists) }
    requires parts { (blank.parts ≡ L.parts) × (L.parts ≡ 17) }
{
    let log = log(alloc, 100).expect(rt, "memory for a log");
    match Inside::new(alloc, blank, config(2), log) {
        Ok(inside) => inside,
        Err((NoMemory, blank, log)) => {
            check(rt, is_blank(&log));
            match Inside::new(alloc, blank, config(2), log) {
                Ok(inside) => inside,
                Err(_) => panic!(rt; "memory for a session"),
            }
        }
    }
}

// The first client with its share. It joins again if an allocation fails. In that case only the log may have changed.
fn joined<L: Ledger>(
    rt: &impl Abort,
    alloc: Global,
    inside: &mut Inside<L>,
) -> (ClientId, CallShare<L>)
    ensures { client_of result.1 ≡ result.0.0 }
{
    let mut joined = inside.join(alloc, 2);
    if matches!(&joined, Err(JoinFault::NoMemory)) {
        check(rt, inside.session().log().entries().len() == 1);
        joined = inside.join(alloc, 2);
    }
    match joined {
        Ok((client, share)) => {
            check(rt, client == CLIENT);
            (client, share)
        }
        Err(_) => panic!(rt; "memory for a client"),
    }
}

// The outcome of the request with this number, which is answered by two bytes.
fn asks<L: Ledger>(
    rt: &impl Abort,
    alloc: Global,
    inside: &mut Inside<L>,
    client: ClientId,
    share: &mut CallShare<L>,
    line: &mut SimLine,
    number: u64,
) -> ActResult
    requires { client.0 ≡ client_of share.old }
    ensures { client_of share.new ≡ client_of share.old }
{
    check(rt, inside.submit(client, request(number), share).is_ok());
    let Turn::Exchange(frame) = inside.turn() else {
        panic!(rt; "no frame")
    };
    let reply = line.exchange(&frame).expect(rt, "a reply");
    check(rt, inside.deliver(alloc, LineEvent::Reply(reply)).is_ok());
    let again = inside.deliver(alloc, LineEvent::Failed);
    check(rt, matches!(&again, Err((NotAsked, LineEvent::Failed))));
    completion_told(&inside.collect_request(client, share))
}

fn delivers<L: Ledger>(rt: &impl Abort, alloc: Global, blank: Blank)
    requires name { (blank.name ≡ L.name) × (blank.lists ≡ L.lists) }
    requires parts { (blank.parts ≡ L.parts) × (L.parts ≡ 17) }
{
    let mut line = first_device(rt, alloc, &[], &[]);
    let mut inside = inside::<L>(rt, alloc, blank);
    let (client, mut share) = joined(rt, alloc, &mut inside);
    let mut heard = asks(rt, alloc, &mut inside, client, &mut share, &mut line, 0);
    if heard == Request(0, Status::NoMemory) {
        heard = asks(rt, alloc, &mut inside, client, &mut share, &mut line, 1);
    }
    check(rt, heard == Answered(0, 1, 2) || heard == Answered(1, 1, 2));
}

#[test]
fn inside_new_and_join_and_deliver(rt: HostRuntime) {
    delivers::<Brand>(&rt, rt.alloc(), Blank::new(17));
}
