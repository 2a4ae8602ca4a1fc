//! A line over streams of text that fail: what an exchange then reads.
use super::rig::meets;
use crate::tests::*;
use std::io;
use std::io::{ErrorKind, Read, Write};

// Adds a line of this many digits, and how it ends.
fn add_digits(rt: &impl Abort, text: &mut Vec<u8>, count: usize, end: &str) {
    for _ in 0..count {
        check(rt, text.push(b'a').is_ok());
    }
    check(rt, text.extend_from_slice(end.as_bytes()).is_ok());
}

// The line gives each of these replies, and then fails. By then it has failed this many times.
fn ends<L: Line>(rt: &impl Abort, line: &mut L, wanted: &[Option<&[u8]>], failures: u64) {
    for wanted in wanted {
        meets(rt, line, *wanted);
    }
    meets(rt, line, None);
    check(rt, line.failures() == failures);
}

// Returns a byte at each read; `!` means an error, and `?` an interrupted call.
#[derive(Drop)]
struct Faulty<'a> {
    text: &'a [u8],
}

impl Read for Faulty<'_> {
    fn read(&mut self, buf: &mut [u8]) -> io::Result<usize> {
        let Some((&byte, rest)) = self.text.split_first() else {
            return Ok(0);
        };
        self.text = rest;
        match byte {
            b'!' => Err(ErrorKind::Other.into()),
            b'?' => Err(ErrorKind::Interrupted.into()),
            _ if buf.is_empty() => Ok(0),
            _ => {
                buf[0] = byte;
                Ok(1)
            }
        }
    }
}

const WANTED_OF_FAULTY: [Option<&[u8]>; 7] = [
    Some(&[0x01]),
    None,
    Some(&[0x02]),
    Some(&[0x03]),
    None,
    None,
    Some(&[0x05]),
];

#[test]
fn an_error_of_the_reader_fails_one_exchange(rt: HostRuntime) {
    let text = Faulty {
        text: b"01\n!02\n0?3\n0!4\n05\n",
    };
    let mut line = StreamLine::new(text, Vec::new(rt.alloc()));
    ends(&rt, &mut line, &WANTED_OF_FAULTY, 4);
}

// What is left of a line that is too long, after an error in it, is the next exchange's line.
#[test]
fn an_error_ends_a_line_that_is_too_long(rt: HostRuntime) {
    let alloc = rt.alloc();
    let mut text = Vec::new(alloc);
    add_digits(&rt, &mut text, 520, "!");
    add_digits(&rt, &mut text, 2, "\n");
    add_digits(&rt, &mut text, 4, "\n");
    let mut line = StreamLine::new(Faulty { text: &text }, Vec::new(alloc));
    let wanted: [Option<&[u8]>; 3] = [None, Some(&[0xaa]), Some(&[0xaa, 0xaa])];
    ends(&rt, &mut line, &wanted, 2);
}

#[test]
fn takes_no_line_when_its_frame_is_not_written(rt: HostRuntime) {
    let mut room = [0; 9];
    let mut line = StreamLine::new(b"01\n02\n".as_slice(), room.as_mut_slice());
    ends(&rt, &mut line, &[Some(&[0x01])], 1);
    let (left, _) = line.into_parts();
    check(&rt, left == b"02\n".as_slice());
}

// Accepts everything, but can't be flushed.
#[derive(Drop)]
struct Unflushed {
    accepted: Vec<u8>,
}

impl Write for Unflushed {
    fn write(&mut self, bytes: &[u8]) -> io::Result<usize> {
        self.accepted.write(bytes)
    }

    fn flush(&mut self) -> io::Result<()> {
        Err(ErrorKind::Other.into())
    }
}

#[test]
fn takes_no_line_when_its_frame_is_not_flushed(rt: HostRuntime) {
    let writer = Unflushed {
        accepted: Vec::new(rt.alloc()),
    };
    let mut line = StreamLine::new(b"01\n".as_slice(), writer);
    ends(&rt, &mut line, &[], 1);
    let (left, writer) = line.into_parts();
    check(&rt, left == b"01\n".as_slice());
    check(&rt, writer.accepted.as_slice() == b"cc01\n".as_slice());
}
