//! The texts of the faults.
use rdm_locked::FinishFault;
use std::test::Fail;

#[test]
fn tells_why_a_port_is_not_ended(rt: HostRuntime) -> Result<(), Fail> {
    let rows = [
        (FinishFault::SharesMissing, "a client's share is missing"),
        (
            FinishFault::NotKept,
            "the log doesn't store all its entries",
        ),
        (
            FinishFault::ExchangesDiffer,
            "the log's exchanges aren't those of the record",
        ),
    ];
    for (fault, text) in rows {
        assert_eq!(rt; format!(in rt.alloc(); "{fault}")?.as_str(), text);
    }
    Ok(())
}
