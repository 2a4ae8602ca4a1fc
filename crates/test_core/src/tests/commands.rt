//! Bytes that aren't a command, and a response with a message count.
use crate::tests::*;
use rdm_wire::{AckType, RespClass, Response, encode_response, read_command};

// No bytes; a branch whose bounds are swapped; a mute of all devices; a wrong checksum; port id 2; a message count; a
// byte too many; one too few; a response.
const NO_COMMANDS: [&str; 9] = [
    "",
    "cc0124ffffffffffff7a700000010003010000001000010cffffffffffff0000000000000df1",
    "cc0118ffffffffffff7a7000000100040100000010000200080d",
    "cc0118ffffffffffff7a700000010000010000001000030007df",
    "cc0118ffffffffffff7a700000010000020000001000030007df",
    "cc0118ffffffffffff7a700000010000010100001000030007df",
    "cc0118ffffffffffff7a700000010000010000001000030007de00",
    "cc0118ffffffffffff7a700000010000010000001000030007",
    "cc011a7a7000000100123400000001000300000021006002010202a2",
];

// Discovery commands with the right checksum, each with a field that none of this controller's has: a mute of a
// manufacturer's devices, of sub-device 1, and with data; an unmute of one device; a branch to a manufacturer's
// devices; the PID `0004`; start code `cd`; sub start code 2; a message length of 25 without data.
const OTHER_DISCOVERY_COMMANDS: [&str; 9] = [
    "cc01181234ffffffff7a7000000100050100000010000200062a",
    "cc01181234000000017a70000001000501000001100002000230",
    "cc01191234000000017a7000000100050100000010000201ff0330",
    "cc01181234000000017a70000001000501000000100003000230",
    "cc01241234ffffffff7a700000010005010000001000010c000000000000ffffffffffff0c3b",
    "cc01181234000000017a70000001000501000000100004000231",
    "cd01181234000000017a70000001000501000000100002000230",
    "cc02181234000000017a70000001000501000000100002000230",
    "cc01191234000000017a70000001000501000000100002000230",
];

// The bytes aren't a command.
fn reads_none(rt: &impl Abort, alloc: Global, text: &str) {
    let bytes = bytes_of(rt, alloc, text);
    assert!(rt; read_command(&bytes).is_none(), "{text}");
}

#[test]
fn reads_no_commands(rt: HostRuntime) {
    for text in NO_COMMANDS {
        reads_none(&rt, rt.alloc(), text);
    }
}

#[test]
fn reads_no_other_discovery_commands(rt: HostRuntime) {
    for text in OTHER_DISCOVERY_COMMANDS {
        reads_none(&rt, rt.alloc(), text);
    }
}

// The program's devices have no messages, so their count is 0.
#[test]
fn encodes_a_message_count(rt: HostRuntime) {
    let mut param = ArrayVec::new();
    check(&rt, param.try_extend_from_slice(&[0, 6]).is_ok());
    let refusal = Response {
        source: Uid::new(0x1234, 1),
        dest: Uid::new(0x7a70, 0x100),
        tn: 7,
        ack: AckType::Nack,
        count: 9,
        sub_device: 0x1234,
        class: RespClass::Set,
        pid: 0xabcd,
        param,
    };
    let text = "cc011a7a7000000100123400000001070209123431abcd0200060422";
    let wanted = bytes_of(&rt, rt.alloc(), text);
    check(
        &rt,
        encode_response(&refusal).as_slice() == wanted.as_slice(),
    );
}
