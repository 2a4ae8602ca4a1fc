//! Ports whose logs are drained in mid-exchange, or keep nothing, in threads, and how they end.
ghost use Rattle.std.specs.Prelude.{◌≡◌, []};

use crate::tests::*;
use rdm_join::{LineFault, LineReply};
use rdm_line::Line;
use rdm_locked::{Blank, CallShare, FinishFault, SessionEnd};
use rdm_log::{Entry, Log, Page};
use rdm_wire::Frame;
use std::marker::Brand;
use test_stage::{Gone, serve_clients};

// A line that drains the port during each exchange, if it has to, and keeps the pages.
#[derive(Drop)]
struct DrainingLine<'a, L: Ledger, R, X: Drop> {
    rt: &'a R,
    alloc: Global,
    port: &'a Port<L>,
    drains: bool,
    pages: &'a mut Vec<Page>,
    line: X,
}

impl<L: Ledger, R: Wait, X: Line + Drop> Line for DrainingLine<'_, L, R, X> {
    ghost step = { λ old x new. X.step old.line x new.line };

    ghost failures_of = { λ line. X.failures_of line.line };

    fn exchange(&mut self, frame: &Frame) -> Result<LineReply, LineFault> {
        if self.drains {
            drain(self.rt, self.alloc, self.port, self.pages);
        }
        self.line.exchange(frame)
    }

    fn failures(&self) -> u64 {
        self.line.failures()
    }
}

// Drains the port, and adds the page to these. Memory for no entry is refused before.
fn drain<L: Ledger, R: Wait>(rt: &R, alloc: Global, port: &Port<L>, pages: &mut Vec<Page>) {
    if port.drain(rt, Vec::new(alloc)).is_ok() {
        return;
    }
    let Ok(memory) = Vec::with_capacity(alloc, 20) else {
        return;
    };
    if let Ok(page) = port.drain(rt, memory) {
        let _ = pages.push(page);
    }
}

// What was heard of a port and its client.
#[derive(Drop)]
struct Played {
    stop: Stop,
    right: u64,
    pages: Vec<Page>,
    // What the log says in all: a text for each entry of the pages, and of what it stores in the end.
    texts: Vec<String>,
    exchanges: usize,
    // Whether it was ended without a share.
    too_early: bool,
    refused: Option<FinishFault>,
    // The calls of clients, what the log stores, and how many entries it had.
    end: Option<(u64, usize, u64)>,
}

// Why a port wasn't finished, whether it was ended without a share, and its end with it.
type Ends = (Option<FinishFault>, bool, Option<(u64, usize, u64)>);

// Tries to finish the port and to end it without its share, and then ends it. What its log stores then is added to
// these texts.
fn ends<L: Ledger>(
    alloc: Global,
    port: Port<L>,
    shares: Vec<CallShare<L>>,
    exchanges: &[Exchange],
    texts: &mut Vec<String>,
) -> Ends
    requires { L.parts ≡ 17 }
{
    let (fault, port, shares) = match port.finish(shares, exchanges) {
        Ok(end) => return (None, false, end_of(alloc, &end, texts)),
        Err(refused) => refused,
    };
    let port = match port.end(Vec::new(alloc)) {
        Ok(end) => return (Some(fault), true, end_of(alloc, &end, texts)),
        Err((port, _)) => port,
    };
    match port.end(shares) {
        Ok(end) => (Some(fault), false, end_of(alloc, &end, texts)),
        Err(_) => (Some(fault), false, None),
    }
}

// The calls of clients, how many entries the log stores, and how many it had. Those that it stores are added to these
// texts. None: out of memory.
fn end_of(alloc: Global, end: &SessionEnd, texts: &mut Vec<String>) -> Option<(u64, usize, u64)> {
    let log = end.session.log();
    add_texts(alloc, texts, log.entries())?;
    Some((end.calls, log.entries().len(), log.len_in_all()))
}

// The worker beside a client, over a port with this log.
fn plays<L: Ledger + Send + Sync, R: Threads + Wait + Sync>(
    rt: &R,
    alloc: Global,
    blank: Blank,
    log: Log,
    drains: bool,
) -> Result<Played, Fail>
    requires name { (blank.name ≡ L.name) × (blank.lists ≡ L.lists) }
    requires parts { (blank.parts ≡ L.parts) × (L.parts ≡ 17) }
    requires empty { log.entries ≡ [] }
{
    let Ok(port) = Port::<L>::new(alloc, blank, config(1), log) else {
        return Err("no memory")?;
    };
    let mut pages = Vec::new(alloc);
    let line = DrainingLine {
        rt,
        alloc,
        port: &port,
        drains,
        pages: &mut pages,
        line: one_device(alloc, &[])?,
    };
    let (stop, right, gone) = serve_clients(rt, alloc, &port, &[1], 2, None, line);
    let Gone { record, shares, .. } = gone;
    let mut texts = Vec::new(alloc);
    for page in pages.iter() {
        add_texts(alloc, &mut texts, &page.entries).ok_or("no memory")?;
    }
    let (refused, too_early, end) = ends(alloc, port, shares, &record, &mut texts);
    Ok(Played {
        stop,
        right,
        pages,
        texts,
        exchanges: record.len(),
        too_early,
        refused,
        end,
    })
}

fn play<R: Threads + Wait + Sync>(
    rt: &R,
    alloc: Global,
    free: usize,
    drains: bool,
) -> Result<Played, Fail> {
    plays::<Brand, R>(rt, alloc, Blank::new(17), log(alloc, free)?, drains)
}

// What is the same of each port: a client's two calls for each request, and an exchange of each. It isn't finished, and
// not ended without a share.
fn is_served(played: &Played) -> bool {
    played.stop == AllLeft
        && (played.right, played.exchanges) == (2, 2)
        && played.refused == Some(FinishFault::NotKept)
        && !played.too_early
}

// The page of the first exchange.
fn has_first(entries: &[Entry]) -> bool {
    matches!(
        entries,
        [
            Entry::Join { .. },
            Entry::Accept { number: 0, .. },
            Entry::Send { .. },
        ]
    )
}

// The page of the second one.
fn has_second(entries: &[Entry]) -> bool {
    matches!(
        entries,
        [
            Entry::Came { .. },
            Entry::Finish { number: 0, .. },
            Entry::Collect { .. },
            Entry::Accept { number: 1, .. },
            Entry::Send { .. },
        ]
    )
}

// After the second page the log has Came, Finish and Collect. All entries are those of a port that isn't drained.
#[test]
fn a_port_is_drained_in_each_exchange(rt: HostRuntime) -> Result<(), Fail> {
    let played = play(&rt, rt.alloc(), 100, true)?;
    assert!(rt; is_served(&played));
    assert_eq!(rt; played.end, Some((4, 3, 11)));
    let [first, second] = played.pages.as_slice() else {
        return Err("other pages")?;
    };
    assert!(rt; first.first == 0 && has_first(&first.entries));
    assert!(rt; second.first == 3 && has_second(&second.entries));
    assert_eq!(rt; played.texts, play(&rt, rt.alloc(), 100, false)?.texts);
    Ok(())
}

#[test]
fn a_port_keeps_nothing(rt: HostRuntime) -> Result<(), Fail> {
    let played = play(&rt, rt.alloc(), NOTHING_KEPT, false)?;
    assert!(rt; is_served(&played) && played.pages.is_empty());
    assert_eq!(rt; played.end, Some((4, 0, 11)));
    Ok(())
}

// The first page of a port that keeps nothing is empty. From then on the port keeps its entries.
#[test]
fn a_drain_lets_a_port_keep_its_entries(rt: HostRuntime) -> Result<(), Fail> {
    let played = play(&rt, rt.alloc(), NOTHING_KEPT, true)?;
    assert!(rt; is_served(&played));
    assert_eq!(rt; played.end, Some((4, 3, 11)));
    let [first, second] = played.pages.as_slice() else {
        return Err("other pages")?;
    };
    assert!(rt; first.first == 3 && first.entries.is_empty());
    assert!(rt; second.first == 3 && has_second(&second.entries));
    Ok(())
}
