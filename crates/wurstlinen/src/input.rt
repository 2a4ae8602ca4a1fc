//! The files that a command reads.
use std::fs::File;
use std::io::{ErrorKind, Read};
use std::rt::Files;
use std::{fs, io};

/// A file that a command reads, if it reads one.
#[derive(Drop)]
pub enum Input {
    /// There is none. It has no bytes.
    Absent,
    /// The open file.
    Open(File),
    /// It can't be opened. Each read of it fails with this error.
    Unopened(ErrorKind),
}

impl Input {
    /// Opens the file at this path, if there is one.
    pub fn open<R: Files<File = File>>(rt: &R, path: Option<&str>) -> Input {
        let Some(path) = path else {
            return Input::Absent;
        };
        match fs::open(rt, path) {
            Ok(file) => Input::Open(file),
            Err(error) => Input::Unopened(error.kind()),
        }
    }
}

impl Read for Input {
    fn read(&mut self, bytes: &mut [u8]) -> io::Result<usize> {
        match self {
            Input::Absent => Ok(0),
            Input::Open(file) => file.read(bytes),
            // A read that was interrupted would be tried again.
            Input::Unopened(ErrorKind::Interrupted) => Err(io::Error::from(ErrorKind::Other)),
            Input::Unopened(kind) => Err(io::Error::from(*kind)),
        }
    }
}
