//! Why lanes can't be opened.
use crate::tests::*;
use rdm_lanes::OpenFault;
use test_stage::open_fault;

// Free entries, the capacity for all clients, the queue depth of each, and why such lanes can't be opened.
type Row = (usize, u8, &'static [u8], Option<OpenFault>);

static ROWS: [Row; 7] = [
    (3, 255, &[1, 1], Some(OpenFault::LogFull)),
    (4, 255, &[1, 1], None),
    (100, 255, &[1; 17], Some(OpenFault::TooManyClients)),
    (100, 1, &[1, 1], Some(OpenFault::NoPlaces)),
    (0, 1, &[1; 17], Some(OpenFault::TooManyClients)),
    (0, 1, &[1, 1], Some(OpenFault::NoPlaces)),
    (0, 0, &[], None),
];

#[test]
fn faults_of_an_opening_come_in_their_order(rt: HostRuntime) -> Result<(), Fail> {
    for (number, (free, greatest, places, wanted)) in ROWS.iter().enumerate() {
        let setup = Setup::new(*free, 2, places).of_capacity(*greatest);
        let fault = open_fault(&rt, rt.alloc(), setup)?;
        assert_eq!(rt; fault, *wanted, "row {number}");
    }
    Ok(())
}
