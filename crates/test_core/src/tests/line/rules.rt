//! What the simulated line does after frames that no command of the program sends, and after exchanges that fail.
use super::rig::{Ask, Row, collisions, line_of, noise, plays, two_devices, two_parts};
use crate::tests::*;

// The first device's own reply to a branch, without preamble bytes.
const TEXT: &str = "aaba57be75aa55aa55aa55ab55ae57eb55";

// The parts `0102` and `03` of its parameter `0060`, each after the GET with number 0.
const FIRST_PART: &str = "cc011a7a7000000100123400000001000300000021006002010202a2";

const LAST_PART: &str = "cc01197a700000010012340000000100000000002100600103029d";

// The line with the first device and its parameter `0060` answers like this. It fails at the exchanges with these
// numbers.
fn first_plays(rt: &impl Abort, alloc: Global, fails: &[u64], rows: &[Row<'_>]) {
    let devices = two_parts(rt, alloc);
    let line = line_of(rt, alloc, devices, Vec::new(alloc), fails);
    plays(rt, alloc, line, rows);
}

#[test]
fn a_failed_exchange_changes_nothing(rt: HostRuntime) {
    let rows = [
        (Ask::Get, None),
        (Ask::Get, Some(FIRST_PART)),
        (Ask::Mute(0), None),
        (Ask::Branch(0), Some(TEXT)),
        (Ask::Get, Some(LAST_PART)),
    ];
    first_plays(&rt, rt.alloc(), &[0, 2], &rows);
}

// The line with both devices answers like this. Its first collision spells `7a70:00000001`, and later ones are noise.
// It fails at the exchanges with these numbers.
fn both_play(rt: &impl Abort, alloc: Global, fails: &[u64], rows: &[Row<'_>]) {
    let devices = two_devices(rt, alloc);
    let spelt = Collision::Uid(Uid::new(0x7a70, 1));
    let collisions = collisions(rt, alloc, spelt, noise(rt));
    let line = line_of(rt, alloc, devices, collisions, fails);
    plays(rt, alloc, line, rows);
}

#[test]
fn a_failed_branch_takes_no_collision(rt: HostRuntime) {
    let spelt = "fefefefefefefeaafa7ffa75aa55aa55aa55ab55ae57eff5";
    let rows = [
        (Ask::Branch(0), None),
        (Ask::Branch(0), Some(spelt)),
        (Ask::Branch(0), Some("ff")),
        (Ask::Branch(0), Some("ff")),
    ];
    both_play(&rt, rt.alloc(), &[0], &rows);
}

// A GET and a SET of the parameter `0060`, to the second device, to all devices, and to all of a manufacturer.
static OTHERS: [Ask; 6] = [
    Ask::Bytes("cc01189abc000000027a700000010000010000002000600003a9"),
    Ask::Bytes("cc01189abc000000027a700000010000010000003000600003b9"),
    Ask::Bytes("cc0118ffffffffffff7a7000000100000100000020006000084b"),
    Ask::Bytes("cc0118ffffffffffff7a7000000100000100000030006000085b"),
    Ask::Bytes("cc01181234ffffffff7a70000001000001000000200060000693"),
    Ask::Bytes("cc01181234ffffffff7a700000010000010000003000600006a3"),
];

// A GET, a mute and a branch of all UIDs, each with a wrong checksum; a byte, and none.
static NO_COMMANDS: [Ask; 5] = [
    Ask::Bytes("cc01181234000000017a70000001000001000000200060000299"),
    Ask::Bytes("cc01181234000000017a7000000100040100000010000200022f"),
    Ask::Bytes("cc0124ffffffffffff7a700000010003010000001000010c000000000000ffffffffffff0df2"),
    Ask::Bytes("cc"),
    Ask::Bytes(""),
];

// The first device answers none of these. Afterwards its next part is still the first one, and it isn't muted.
fn answers_none(rt: &impl Abort, alloc: Global, unanswered: &[Ask]) {
    let mut rows: Vec<Row<'_>> = Vec::new(alloc);
    for ask in unanswered {
        check(rt, rows.push((*ask, Some(""))).is_ok());
    }
    check(rt, rows.push((Ask::Get, Some(FIRST_PART))).is_ok());
    check(rt, rows.push((Ask::Branch(0), Some(TEXT))).is_ok());
    first_plays(rt, alloc, &[], &rows);
}

#[test]
fn nobody_answers_for_others(rt: HostRuntime) {
    answers_none(&rt, rt.alloc(), &OTHERS);
}

#[test]
fn what_is_no_command_is_not_answered(rt: HostRuntime) {
    answers_none(&rt, rt.alloc(), &NO_COMMANDS);
}
