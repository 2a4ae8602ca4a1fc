//! The program over a reader and a writer, two files for it, and what a test expects.
ghost use Rattle.std.specs.Prelude.{IsTrue};

use crate::tests::*;
use rdm_port::perform;
use std::fmt::Display;

/// What is printed, and the status.
pub type Due<'a> = (&'a str, u8);

/// Arguments for an incremental run, and for a session over each port.
pub const INCREMENTAL: [&str; 3] = ["discover", "--incremental", "scene.json"];

pub const LOCKED: [&str; 2] = ["run", "session.json"];

pub const RINGS: [&str; 4] = ["run", "--port", "rings", "session.json"];

/// A scene of one device, with each key that there is.
pub const SCENE_FILE: &str =
    "{\"source\":\"7a70:00000100\",\"devices\":[{\"uid\":\"1234:00000001\",\"preamble\":3,\
    \"params\":[{\"pid\":\"0060\",\"parts\":[\"01\",\"02\"]}],\"control\":\"0002\",\
    \"binding\":\"1234:00000005\",\"from\":0,\"until\":1000}],\"collisions\":[\"or\"],\"losses\":[3],\
    \"fails\":[900],\"known\":[\"1234:00000001\"],\"budget\":400}";

/// What an incremental run prints for the scene. It makes three unmutes, a mute whose reply is lost, one that is
/// acknowledged, and five branches without reply.
pub const SCENE: Due<'static> = ("1234:00000001 0002 1234:00000005\nframes 10\n", 0);

/// A session over that scene, with each key that there is: one client asks for a discovery, and makes a GET and a SET.
pub const SESSION_FILE: &str =
    "{\"scene\":{\"source\":\"7a70:00000100\",\"devices\":[{\"uid\":\"1234:00000001\",\"preamble\":3,\
    \"params\":[{\"pid\":\"0060\",\"parts\":[\"01\",\"02\"]}],\"control\":\"0002\",\
    \"binding\":\"1234:00000005\",\"from\":0,\"until\":1000}],\"collisions\":[\"or\"],\"losses\":[3],\
    \"fails\":[900],\"known\":[\"1234:00000001\"],\"budget\":400},\"clients\":[{\"places\":2,\
    \"calls\":[{\"discover\":\"full\"},{\"get\":\"1234:00000001\",\"pid\":\"0060\",\"sub\":1,\
    \"param\":\"07\"},{\"set\":\"1234:00000001\",\"pid\":\"0060\",\"sub\":1,\"param\":\"07\"}]}],\
    \"ring\":2,\"search\":\"quick\",\"log\":1000,\"turns\":100000000}";

/// What is printed for the session: the GET's two parts, the SET's answer without data, and the device.
pub const SESSION: Due<'static> = (
    "client 0 request 0: 0 00 0102\nclient 0 request 1: 0 00 -\nclient 0 discovery 0: ok 1234:00000001\n",
    0,
);

/// Arguments for an explanation.
pub const EXPLAIN: [&str; 2] = ["explain", "run.log"];

/// A log of one exchange: a branch of the UID 0 that was answered by other bytes.
pub const LOG_FILE: &str =
    "{\"number\":0,\"operation\":\"branch\",\"frame\":\"cc0124ffffffffffff7a700000010000010000001000010c00\
     000000000000000000000007f4\",\"reply\":\"ff\"}\n";

/// What it shows: no device is listed.
pub const LOG: Due<'static> = (
    "discovery: 1 exchange, 0 devices; others may be on the line\n\
     exchange 0 should be one of the three unmutes that begin a run\n\
     not settled: a device from 0000:00000000 to ffff:ffffffff may be missing\n\
     exchange 0: 0000:00000000 alone was asked, and bytes came that are no right answer: \
     they don't begin like a discovery reply; \
     a rule was broken, by a device or noise: take 0000:00000000 off the line and discover again; \
     if your rig has no such device, split the line\n",
    3,
);

/// Does what the arguments ask for, and returns the status.
pub fn status_of<R: Read, W: Write, T: Threads + Wait + Sync>(
    rt: &T,
    alloc: Global,
    words: &[&str],
    reader: &mut R,
    writer: &mut W,
) -> u8 {
    perform(rt, alloc, parse_words(alloc, words), reader, writer)
}

/// Ends the test if the fact doesn't hold. A call of this is proved in less time than an assertion.
pub fn check(rt: &impl Abort, fact: bool)
    ensures { IsTrue fact }
{
    assert!(rt; fact);
}

/// The same. If the fact doesn't hold, it prints the index.
pub fn check_at(rt: &impl Abort, index: usize, fact: bool) {
    assert!(rt; fact, "{index}");
}

/// This value is displayed as this text.
pub fn says<D: Display>(rt: &impl Abort, alloc: Global, shown: &D, text: &str) {
    let said = format!(in alloc; "{shown}").expect(rt, "memory");
    assert!(rt; said.as_str() == text, "{text}");
}
