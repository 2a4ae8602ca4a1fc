//! Calls on a port by the trait for clients of either port.
use crate::tests::*;
use rdm_client::{CallFault, Client};

// The number of a call, or why it was refused.
type Made = Result<Option<u64>, CallFault>;

// What a submit and a discover returned.
type Both = (Made, Made);

// A client submits a request and asks for a discovery: twice, and then once the port is closed.
#[derive(Drop)]
struct Calls {
    first: Option<Both>,
    second: Option<Both>,
    closed: Option<Both>,
}

impl PortJob for Calls {
    fn perform<L: Ledger, R: Wait>(
        &mut self,
        rt: &R,
        _alloc: Global,
        port: &Port<L>,
        client: &mut PortClient<'_, L>,
        _record: &mut Vec<Exchange>,
    ) {
        self.first = Some(made(rt, client, 1));
        self.second = Some(made(rt, client, 2));
        port.close(rt);
        self.closed = Some(made(rt, client, 3));
    }
}

fn made<R, C: Client<Note, AskNote, R>>(rt: &R, client: &mut C, tag: u64) -> Both {
    (submitted(rt, client, tag), asked(rt, client, tag))
}

fn submitted<R, C: Client<Note, AskNote, R>>(rt: &R, client: &mut C, tag: u64) -> Made {
    match client.submit(rt, request(tag), Note(tag)) {
        Ok(number) => Ok(number),
        Err((fault, _, _)) => Err(fault),
    }
}

fn asked<R, C: Client<Note, AskNote, R>>(rt: &R, client: &mut C, tag: u64) -> Made {
    match client.discover(rt, Kind::Incremental, AskNote(tag)) {
        Ok(number) => Ok(number),
        Err((fault, _)) => Err(fault),
    }
}

// Which number it is, and which fault, clauses compare with the log only once the port ends.
#[test]
fn any_client_of_a_port_gets_its_numbers_and_faults(rt: HostRuntime) -> Result<(), Fail> {
    let mut calls = Calls {
        first: None,
        second: None,
        closed: None,
    };
    on_port(&rt, rt.alloc(), PortSetup::new(3, 100), &mut calls)?;
    assert!(rt; calls.first == Some((Ok(Some(0)), Ok(Some(0)))));
    assert!(rt; calls.second == Some((Ok(Some(1)), Ok(Some(1)))));
    let closed = (Err(CallFault::Closed), Err(CallFault::Closed));
    assert!(rt; calls.closed == Some(closed));
    Ok(())
}
