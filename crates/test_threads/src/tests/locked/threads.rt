//! Clients and a worker in threads of their own.
use crate::tests::*;
use test_stage::serve_port;

#[test]
fn each_client_gets_its_own_results_in_order(rt: HostRuntime) -> Result<(), Fail> {
    let line = one_device(rt.alloc(), &[])?;
    let setup = PortSetup::new(4, 1000);
    let (stop, right, over) = serve_port(&rt, rt.alloc(), setup, &[3, 1], 20, None, line)?;
    assert_eq!(rt; (right, stop, over.recorded), (40, AllLeft, 40));
    assert_eq!(rt; over.held, 0);
    Ok(())
}

#[test]
fn a_sleeping_worker_makes_no_turn_but_its_exchanges(rt: HostRuntime) -> Result<(), Fail> {
    let line = one_device(rt.alloc(), &[])?;
    let setup = PortSetup::new(2, 40_000);
    let turns = Some(4000);
    let (stop, right, over) = serve_port(&rt, rt.alloc(), setup, &[1, 1], 2000, turns, line)?;
    assert_eq!(rt; (right, stop, over.recorded), (4000, Turns, 4000));
    Ok(())
}

#[test]
fn the_last_client_that_leaves_wakes_the_worker(rt: HostRuntime) -> Result<(), Fail> {
    let line = one_device(rt.alloc(), &[])?;
    let setup = PortSetup::new(2, 1000);
    let turns = Some(1000);
    let (stop, right, over) = serve_port(&rt, rt.alloc(), setup, &[1, 1], 10, turns, line)?;
    assert_eq!(rt; (right, stop, over.recorded), (20, AllLeft, 20));
    Ok(())
}

// A client waits for an outcome that nobody brings, and then collects.
#[derive(Drop)]
struct Waits {
    heard: Option<ActResult>,
}

impl PortJob for Waits {
    fn perform<L: Ledger, R: Wait>(
        &mut self,
        rt: &R,
        _alloc: Global,
        _port: &Port<L>,
        client: &mut PortClient<'_, L>,
        _record: &mut Vec<Exchange>,
    ) {
        if client.submit(rt, request(0), Note(0)).is_ok() {
            client.wait_for_outcome(rt);
            self.heard = Some(told(&client.collect(rt)));
        }
    }
}

#[test]
fn a_client_does_not_sleep_without_a_worker(rt: HostRuntime) -> Result<(), Fail> {
    let mut waits = Waits { heard: None };
    on_port(&rt, rt.alloc(), PortSetup::new(1, 100), &mut waits)?;
    assert!(rt; waits.heard == Some(Nothing));
    Ok(())
}
