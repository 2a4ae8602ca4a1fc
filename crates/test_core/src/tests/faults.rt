//! The texts of the faults.
use crate::tests::*;
use rdm_agent::AgentFault;
use rdm_wire::{PacketFault, UidFault};

#[test]
fn tells_what_is_wrong_with_a_packet(rt: HostRuntime) {
    use PacketFault::*;
    texts! { rt;
        TooShort => "a packet has 26 bytes at least",
        WrongStart => "a packet begins with the start code cc",
        WrongSubStart => "a packet has the sub start code 01",
        LengthMismatch => "the message length does not fit the bytes",
        ParamLengthMismatch => "the parameter data length does not fit the message length",
        Checksum => "the checksum is wrong",
        InvalidClass => "the command class is not that of a response",
        InvalidResponseType => "there is no such response type",
    }
}

#[test]
fn tells_what_is_wrong_with_a_uid_or_a_set(rt: HostRuntime) {
    texts! { rt;
        UidFault::Length => "a UID has 13 characters",
        UidFault::Separator => "a UID has a colon after its first four digits",
        UidFault::Digit => "a UID has hexadecimal digits",
        SetFull => "a set has room for 1,024 devices",
    }
}

#[test]
fn tells_why_a_run_has_no_answer(rt: HostRuntime) {
    use AgentFault::*;
    let alloc = rt.alloc();
    let corrupt = "the branch of one UID alone was answered, but showed no new device";
    let rows = [
        (Corrupt(Uid::new(0x1234, 1)), 1, corrupt),
        (
            TooMany,
            2,
            "more devices were found than a set has room for",
        ),
        (Exhausted, 3, "the frames that were allowed are used up"),
        (LineFailed, 4, "the line failed"),
        (Aborted, 5, "the run was aborted"),
    ];
    for (fault, number, text) in &rows {
        check(&rt, fault.number() == *number);
        says(&rt, alloc, fault, text);
    }
}

#[test]
fn tells_why_a_device_is_not_put_into_a_scene(rt: HostRuntime) {
    texts! { rt;
        AddFault::Repeated => "there is a device with this UID",
        AddFault::Full => "there are 1,024 devices",
        AddFault::NoMemory => "out of memory",
    }
}

#[test]
fn tells_the_other_faults(rt: HostRuntime) {
    texts! { rt; LineFault => "the line failed", NoMemory => "out of memory" }
}
