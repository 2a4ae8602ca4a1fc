//! A port on which a test makes its own calls, and one whose end was refused.
ghost use Rattle.std.specs.Prelude.{◌≡◌};

use crate::failed::Failed;
use crate::port::{Gone, PortOver, PortSetup, over_of, plays_on, port_of, refused};
use rdm_line::Line;
use rdm_locked::{Blank, Exchange, FinishFault, Ledger, Left, LockedClient, Port};
use std::alloc::Global;
use std::marker::Brand;
use std::sync::Wait;
use test_rig::{AskNote, Move, Note, Wrong, cancels};

/// A client of a port, whose callbacks aren't boxed.
pub type PortClient<'a, L> = LockedClient<'a, L, Note, AskNote>;

/// What a test does with a port that has one client.
pub trait PortJob {
    /// Does the job, and lets a worker write this record.
    fn perform<L: Ledger, R: Wait>(
        &mut self,
        rt: &R,
        alloc: Global,
        port: &Port<L>,
        client: &mut PortClient<'_, L>,
        record: &mut Vec<Exchange>,
    );
}

/// Opens a port with this setup, with one client that has the whole capacity. Does this job on it, lets the client
/// leave, and ends the port.
pub fn on_port<J: PortJob, R: Wait>(
    rt: &R,
    alloc: Global,
    setup: PortSetup,
    job: &mut J,
) -> Result<PortOver, Failed> {
    does::<Brand, J, R>(rt, alloc, Blank::new(17), setup, job)
}

fn does<L: Ledger, J: PortJob, R: Wait>(
    rt: &R,
    alloc: Global,
    blank: Blank,
    setup: PortSetup,
    job: &mut J,
) -> Result<PortOver, Failed>
    requires name { (blank.name ≡ L.name) × (blank.lists ≡ L.lists) }
    requires parts { (blank.parts ≡ L.parts) × (L.parts ≡ 17) }
{
    let port = port_of::<L>(alloc, blank, setup)?;
    let gone = does_on(rt, alloc, &port, setup.places, job)?;
    over_of(alloc, port, gone)
}

// Does the job with a client that has this queue depth.
fn does_on<L: Ledger, J: PortJob, R: Wait>(
    rt: &R,
    alloc: Global,
    port: &Port<L>,
    places: u8,
    job: &mut J,
) -> Result<Gone<L>, Failed> {
    let Ok(mut client) = port.client(rt, alloc, places) else {
        return Err(Failed::Rig(Wrong::NoMemory));
    };
    let mut record = Vec::new(alloc);
    job.perform(rt, alloc, port, &mut client, &mut record);
    let Left { unspent, calls } = client.leave(rt);
    let held = cancels(alloc, unspent);
    let mut shares = Vec::new(alloc);
    if shares.push(calls).is_err() {
        return Err(Failed::Rig(Wrong::NoMemory));
    }
    Ok(Gone {
        record,
        shares,
        held,
    })
}

/// Opens a port with this setup, and makes the first moves on it over the first line. All clients leave. The port has
/// to refuse an end without their shares, and then one with an empty record. The later moves are made over the later
/// line on the port that was returned. Then it is ended.
pub fn play_port_again<X: Line + Drop, R: Wait>(
    rt: &R,
    alloc: Global,
    setup: PortSetup,
    first: (X, &[Move]),
    later: (X, &[Move]),
) -> Result<PortOver, Failed> {
    plays_again::<Brand, X, R>(rt, alloc, Blank::new(17), setup, first, later)
}

fn plays_again<L: Ledger, X: Line + Drop, R: Wait>(
    rt: &R,
    alloc: Global,
    blank: Blank,
    setup: PortSetup,
    first: (X, &[Move]),
    later: (X, &[Move]),
) -> Result<PortOver, Failed>
    requires name { (blank.name ≡ L.name) × (blank.lists ≡ L.lists) }
    requires parts { (blank.parts ≡ L.parts) × (L.parts ≡ 17) }
{
    let port = port_of::<L>(alloc, blank, setup)?;
    let gone = plays_on(rt, alloc, &port, setup, first.0, first.1)?;
    let (port, gone) = refused_twice(alloc, port, gone)?;
    let more = plays_on(rt, alloc, &port, setup, later.0, later.1)?;
    over_of(alloc, port, both(gone, more))
}

// The port whose end was refused twice, with all that was left.
fn refused_twice<L: Ledger>(
    alloc: Global,
    port: Port<L>,
    gone: Gone<L>,
) -> Result<(Port<L>, Gone<L>), Failed>
    requires { L.parts ≡ 17 }
{
    let Gone {
        record,
        shares,
        held,
    } = gone;
    let port = refused(port, Vec::new(alloc), &record, FinishFault::SharesMissing)?.0;
    let (port, shares) = refused(port, shares, &[], FinishFault::ExchangesDiffer)?;
    let gone = Gone {
        record,
        shares,
        held,
    };
    Ok((port, gone))
}

// What was left the first and the second time together.
fn both<L: Ledger>(first: Gone<L>, more: Gone<L>) -> Gone<L> {
    let Gone {
        mut record,
        mut shares,
        held,
    } = first;
    let Gone {
        record: later_record,
        shares: later_shares,
        held: later_held,
    } = more;
    for exchange in later_record {
        let _ = record.push(exchange);
    }
    for share in later_shares {
        let _ = shares.push(share);
    }
    Gone {
        record,
        shares,
        held: held.saturating_add(later_held),
    }
}
