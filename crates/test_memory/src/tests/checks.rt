//! What a test expects.
ghost use Rattle.std.specs.Prelude.{IsTrue};

use std::process::Abort;

/// Ends the test if the fact doesn't hold. A call of this is proved in less time than an assertion.
pub fn check(rt: &impl Abort, fact: bool)
    ensures { IsTrue fact }
{
    assert!(rt; fact);
}
