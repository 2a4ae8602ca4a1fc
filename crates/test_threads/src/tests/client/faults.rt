//! The texts of the faults.
use rdm_client::{Full, Misdelivered};
use std::test::Fail;

#[test]
fn tells_why_a_desk_refuses(rt: HostRuntime) -> Result<(), Fail> {
    let (full, misdelivered) = (Full, Misdelivered);
    assert_eq!(rt;
        format!(in rt.alloc(); "{full}")?.as_str(),
        "the desk is full"
    );
    assert_eq!(rt;
        format!(in rt.alloc(); "{misdelivered}")?.as_str(),
        "no callback is held for the outcome"
    );
    Ok(())
}
