//! The file of a log.
use rdm_reports::OpensLog;
use std::fs::File;
use std::io::{ErrorKind, Write};
use std::rt::Files;
use std::{fs, io};

/// A file that is opened by its path: it is created, or replaced.
#[derive(Drop)]
pub struct LogFile<'r, R> {
    rt: &'r R,
    file: Option<File>,
}

impl<'r, R> LogFile<'r, R> {
    /// A file in the file system of this runtime, which isn't opened yet.
    pub fn new(rt: &'r R) -> LogFile<'r, R> {
        LogFile { rt, file: None }
    }
}

impl<R> Write for LogFile<'_, R> {
    fn write(&mut self, bytes: &[u8]) -> io::Result<usize> {
        match &mut self.file {
            Some(file) => file.write(bytes),
            None => Err(io::Error::from(ErrorKind::NotConnected)),
        }
    }

    fn flush(&mut self) -> io::Result<()> {
        match &mut self.file {
            Some(file) => file.flush(),
            None => Ok(()),
        }
    }
}

impl<R: Files<File = File>> OpensLog for LogFile<'_, R> {
    fn open(&mut self, path: &str) -> Result<(), ErrorKind> {
        match fs::create(self.rt, path) {
            Ok(file) => {
                self.file = Some(file);
                Ok(())
            }
            Err(error) => Err(error.kind()),
        }
    }
}
