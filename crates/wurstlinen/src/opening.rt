//! Opens lines by the paths of their streams.
ghost use Rattle.std.specs.Prelude.{◌≡◌};

use rdm_line::StreamLine;
use rdm_port::{Opens, Unopened};
use std::alloc::Global;
use std::fs::{File, Metadata, OpenOptions};
use std::io::{BufReader, ErrorKind};
use std::os::unix::fs::FileTypeExt;
use std::rt::Files;
use std::{fs, io};

/// A line over two open files.
pub type TextLine = StreamLine<BufReader<File>, File>;

/// Opens lines over files, FIFOs and devices.
#[derive(Drop)]
pub struct FileOpener<'r, R> {
    rt: &'r R,
    alloc: Global,
}

impl<'r, R> FileOpener<'r, R> {
    /// An opener in the file system of this runtime.
    pub fn new(rt: &'r R, alloc: Global) -> FileOpener<'r, R> {
        FileOpener { rt, alloc }
    }
}

impl<R: Files<File = File>> Opens<TextLine> for FileOpener<'_, R> {
    // No contract says what a file returns or accepts.
    ghost opens = { λ opener out replies line. line.failures ≡ 0 };

    // Both streams are checked first. Opening a FIFO for reading waits until its other end is opened. That may never
    // happen if the other stream is missing.
    fn open<'a>(&mut self, out: &'a str, replies: &'a str) -> Result<TextLine, Unopened<'a>> {
        let looked_at = match look_at(self.rt, out) {
            Ok(looked_at) => looked_at,
            Err(error) => return Err(Unopened::Stream(out, error.kind())),
        };
        if let Err(error) = look_at(self.rt, replies) {
            return Err(Unopened::Stream(replies, error.kind()));
        }
        // The program would read its own frames.
        if out == replies && looked_at.file_type().is_fifo() {
            return Err(Unopened::OneWay(out));
        }
        let writer = match open_out(self.rt, out) {
            Ok(writer) => writer,
            Err(error) => return Err(Unopened::Stream(out, error.kind())),
        };
        let reader = match File::open(self.rt, replies) {
            Ok(reader) => reader,
            Err(error) => return Err(Unopened::Stream(replies, error.kind())),
        };
        match BufReader::new(self.alloc, reader) {
            Ok(reader) => Ok(StreamLine::new(reader, writer)),
            Err(_) => Err(Unopened::NoMemory),
        }
    }
}

// Err: there is no such file, or it is a folder.
fn look_at<R: Files>(rt: &R, path: &str) -> io::Result<Metadata> {
    let metadata = fs::metadata(rt, path)?;
    if metadata.is_dir() {
        return Err(io::Error::from(ErrorKind::IsADirectory));
    }
    Ok(metadata)
}

// Opening a FIFO for reading and writing doesn't wait for its other end. So the far end may open the two in any order.
fn open_out<R: Files<File = File>>(rt: &R, path: &str) -> io::Result<File> {
    OpenOptions::new().read(true).append(true).open(rt, path)
}
