//! A session with a mutex.
ghost use Rattle.std.specs.Prelude.{◌≡◌, [], IfSome};
ghost use Rattle.rdm_line.specs.Events.{Makes};
ghost use Rattle.rdm_line.specs.Sim.{SimState, SimStep};
ghost use Rattle.rdm_locked.specs.Exchanges.{recorded};
ghost use Rattle.rdm_scenes.specs.Reports.{IsLogOver};

use super::report::{Report, TAGS, get, reply_in, set};
use crate::tests::*;
use rdm_client::DeviceView;
use rdm_line::SimLine;
use rdm_locked::{Blank, CallShare, Exchange, Ledger, Left, LockedClient, Port, SessionEnd};
use rdm_queue::Session;
use rdm_scenes::laws;
use std::marker::Brand;

type Client<'a, L> = LockedClient<'a, L, Note, AskNote>;

// More turns than a discovery with two requests takes.
const TURNS: u64 = 60;

/// Runs a session with a mutex over this line. Returns the client's report, and the session after its end. None: out of
/// memory.
pub fn serves<R: Wait>(rt: &R, alloc: Global, line: SimLine) -> Option<(Report, Session)>
    ensures { IfSome result (λ ran. (t : SimState) × IsLogOver line t ran.1) }
{
    serves_on::<Brand, R>(rt, alloc, Blank::new(17), line)
}

fn serves_on<L: Ledger, R: Wait>(
    rt: &R,
    alloc: Global,
    blank: Blank,
    line: SimLine,
) -> Option<(Report, Session)>
    requires name { (blank.name ≡ L.name) × (blank.lists ≡ L.lists) }
    requires parts { (blank.parts ≡ L.parts) × (L.parts ≡ 17) }
    ensures { IfSome result (λ ran. (t : SimState) × IsLogOver line t ran.1) }
{
    let Ok(log) = log(alloc, 1000) else {
        return None;
    };
    let Ok(port) = Port::<L>::new(alloc, blank, config(2), log) else {
        return None;
    };
    let mut line = line;
    let mut made = Vec::new(alloc);
    let (report, shares) = asks(rt, alloc, &port, &mut line, &mut made)?;
    match port.finish(shares, &made) {
        Ok(SessionEnd { session, calls: _ }) => Some((report, session)),
        Err(_) => None,
    }
}

// Lets a client ask and leave, while a worker works in between. Returns the client's report and its share. The worker
// records what the line did.
fn asks<L: Ledger, R: Wait>(
    rt: &R,
    alloc: Global,
    port: &Port<L>,
    line: &mut SimLine,
    made: &mut Vec<Exchange>,
) -> Option<(Report, Vec<CallShare<L>>)>
    requires { made.old.items ≡ [] }
    ensures { Makes SimState SimStep line.old (recorded made.new.items) line.new }
{
    laws::steps_follow_on::<SimLine>();
    let Ok(mut client) = port.client(rt, alloc, 2) else {
        return None;
    };
    let mut report = Report::new();
    begins(rt, &mut client, &mut report);
    port.work(rt, alloc, line, TURNS, made);
    goes_on(rt, &mut client, &mut report);
    port.work(rt, alloc, line, TURNS, made);
    ends(rt, &mut client, &mut report);
    let Left { unspent, calls } = client.leave(rt);
    cancels(alloc, unspent);
    let mut shares = Vec::new(alloc);
    match shares.push(calls) {
        Ok(()) => Some((report, shares)),
        Err(_) => None,
    }
}

fn begins<L: Ledger, R: Wait>(rt: &R, client: &mut Client<'_, L>, report: &mut Report) {
    report.seen[0] = sees(&client.devices(rt));
    let _ = client.discover(rt, Kind::Full, AskNote(TAGS[0]));
    let _ = client.submit(rt, get(), Note(TAGS[1]));
    let _ = client.submit(rt, set(), Note(TAGS[2]));
}

fn goes_on<L: Ledger, R: Wait>(rt: &R, client: &mut Client<'_, L>, report: &mut Report) {
    report.found[0] = told(&client.collect(rt));
    report.replies[0] = reply_in(&client.collect(rt));
    report.replies[1] = reply_in(&client.collect(rt));
    report.seen[1] = sees(&client.devices(rt));
    let _ = client.discover(rt, Kind::Incremental, AskNote(TAGS[3]));
}

fn ends<L: Ledger, R: Wait>(rt: &R, client: &mut Client<'_, L>, report: &mut Report) {
    report.found[1] = told(&client.collect(rt));
    report.seen[2] = sees(&client.devices(rt));
}

#[inline(never)]
fn sees(view: &DeviceView) -> ActResult {
    Sees(view.run, found_in(&view.set))
}
