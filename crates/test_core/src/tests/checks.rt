//! Checks of values. A call of these is proved in less time than an assertion, which is proved anew at each place.
ghost use Rattle.std.specs.Prelude.{IsTrue};

use crate::tests::*;
use std::fmt::{Debug, Display};

/// Ends the test if the fact doesn't hold.
pub fn check(rt: &impl Abort, fact: bool)
    ensures { IsTrue fact }
{
    assert!(rt; fact);
}

/// Ends the test if the two differ.
pub fn check_eq<T: PartialEq + Debug + Drop>(rt: &impl Abort, got: T, expected: T) {
    assert_eq!(rt; got, expected);
}

/// The bytes that a text gives in hexadecimal.
pub fn bytes_of(rt: &impl Abort, alloc: Global, text: &str) -> Vec<u8> {
    hex::decode(alloc, text).expect(rt, "hexadecimal")
}

/// Those bytes as a frame.
pub fn frame_of(rt: &impl Abort, alloc: Global, text: &str) -> Frame {
    let mut frame = Frame::new();
    let bytes = bytes_of(rt, alloc, text);
    check(rt, frame.try_extend_from_slice(&bytes).is_ok());
    frame
}

/// The fault has this text.
pub fn says<D: Display>(rt: &impl Abort, alloc: Global, fault: &D, text: &str) {
    let said = format!(in alloc; "{fault}").expect(rt, "memory");
    assert!(rt; said.as_str() == text, "{text}");
}
