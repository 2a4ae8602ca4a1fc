//! A client that collects each kind of outcome with its own call, or keeps what it collects.
use crate::tests::*;
use rdm_line::SimLine;
use rdm_log::OutcomeKind;

// The kind of the oldest outcome; the tag and status of a collected request; the tag and run of a collected discovery.
type Looks = (
    Option<OutcomeKind>,
    Option<(u64, Status)>,
    Option<(u64, u64)>,
);

// A discovery and a request are answered, in this order. The client tries to collect each kind four times.
#[derive(Drop)]
struct Collects {
    line: SimLine,
    looks: [Looks; 4],
}

impl PortJob for Collects {
    fn perform<L: Ledger, R: Wait>(
        &mut self,
        rt: &R,
        alloc: Global,
        port: &Port<L>,
        client: &mut PortClient<'_, L>,
        record: &mut Vec<Exchange>,
    ) {
        self.looks[0] = looks(rt, client, true);
        let _ = client.discover(rt, Kind::Full, AskNote(8));
        let _ = client.submit(rt, request(9), Note(9));
        port.work(rt, alloc, &mut self.line, 11, record);
        self.looks[1] = looks(rt, client, true);
        self.looks[2] = looks(rt, client, false);
        self.looks[3] = looks(rt, client, true);
    }
}

// Looks at the oldest outcome, and tries to collect both kinds, starting with a request or with a discovery.
fn looks<L: Ledger, R: Wait>(rt: &R, client: &mut PortClient<'_, L>, request_first: bool) -> Looks {
    let oldest = client.oldest(rt);
    if request_first {
        let request = of_request(rt, client);
        return (oldest, request, of_discovery(rt, client));
    }
    let discovery = of_discovery(rt, client);
    (oldest, of_request(rt, client), discovery)
}

fn of_request<L: Ledger, R: Wait>(rt: &R, client: &mut PortClient<'_, L>) -> Option<(u64, Status)> {
    let told = client.collect_request(rt)?;
    Some((told.tag, told.done.status))
}

fn of_discovery<L: Ledger, R: Wait>(rt: &R, client: &mut PortClient<'_, L>) -> Option<(u64, u64)> {
    let told = client.collect_discovery(rt)?;
    Some((told.tag, told.done.run()))
}

#[test]
fn each_kind_is_collected_only_where_it_is_the_oldest(rt: HostRuntime) -> Result<(), Fail> {
    let mut collects = Collects {
        line: one_device(rt.alloc(), &[])?,
        looks: [(None, None, None); 4],
    };
    let over = on_port(&rt, rt.alloc(), PortSetup::new(1, 100), &mut collects)?;
    let discovery = (Some(OutcomeKind::Discovery), None, Some((8, 1)));
    let request = (Some(OutcomeKind::Request), Some((9, Completed)), None);
    let nothing = (None, None, None);
    assert_eq!(rt; collects.looks, [nothing, discovery, request, nothing]);
    assert_eq!(rt; (over.calls, over.held, over.recorded), (4, 0, 11));
    Ok(())
}

// Five discoveries are answered and collected, one after the other. The client keeps four completions meanwhile.
#[derive(Drop)]
struct Keeps {
    line: SimLine,
    // How many of the first four were collected.
    kept: usize,
    // The fifth discovery's tag and run, and the kind of the oldest outcome: before a completion is dropped, and then.
    fifth: [(Option<(u64, u64)>, Option<OutcomeKind>); 2],
}

impl PortJob for Keeps {
    fn perform<L: Ledger, R: Wait>(
        &mut self,
        rt: &R,
        alloc: Global,
        port: &Port<L>,
        client: &mut PortClient<'_, L>,
        record: &mut Vec<Exchange>,
    ) {
        let mut kept = [None, None, None, None];
        for (tag, told) in kept.iter_mut().enumerate() {
            let _ = client.discover(rt, Kind::Full, AskNote(tag as u64));
            port.work(rt, alloc, &mut self.line, 10, record);
            *told = client.collect_discovery(rt);
        }
        self.kept = kept.iter().filter(|told| told.is_some()).count();
        let _ = client.discover(rt, Kind::Full, AskNote(4));
        port.work(rt, alloc, &mut self.line, 10, record);
        self.fifth[0] = (of_discovery(rt, client), client.oldest(rt));
        kept[2] = None;
        self.fifth[1] = (of_discovery(rt, client), client.oldest(rt));
    }
}

#[test]
fn a_discovery_waits_while_four_sets_are_kept(rt: HostRuntime) -> Result<(), Fail> {
    let mut keeps = Keeps {
        line: one_device(rt.alloc(), &[])?,
        kept: 0,
        fifth: [(None, None); 2],
    };
    let over = on_port(&rt, rt.alloc(), PortSetup::new(1, 200), &mut keeps)?;
    let waits = (None, Some(OutcomeKind::Discovery));
    assert_eq!(rt; keeps.kept, 4);
    assert_eq!(rt; keeps.fifth, [waits, (Some((4, 5)), None)]);
    assert_eq!(rt; (over.calls, over.held, over.recorded), (10, 0, 50));
    Ok(())
}
