//! Reads a file as a whole.
ghost use Rattle.std.specs.Prelude.{◌≡◌, ◌<◌, Err, IfOk, IfSome, length};
ghost use Rattle.rdm_files.specs.Input.{IsContent};

use std::alloc::Global;
use std::io::{ErrorKind, Read};

/// The most bytes of a file.
pub const MOST_BYTES: usize = 1_048_576;

/// Why a file isn't read.
#[derive(Drop)]
pub enum FileFault {
    /// It has more than [`MOST_BYTES`] bytes.
    TooLong,
    /// A read failed with an error of this kind.
    Unreadable(ErrorKind),
    /// Out of memory.
    NoMemory,
}

/// The bytes that a reader has, [`MOST_BYTES`] at most. Err: the first fault.
pub fn read_file<R: Read>(alloc: Global, reader: &mut R) -> Result<Vec<u8>, FileFault>
    ensures content { IfOk result (λ bytes. IsContent (R.remaining reader.old) bytes.items) }
    ensures too_long { result ≡ Err FileFault.TooLong
        → IfSome (R.remaining reader.old) (λ bytes. MOST_BYTES < length bytes) }
{
    let mut bytes = Vec::new(alloc);
    let mut limited = (&mut *reader).take(MOST_BYTES as u64 + 1);
    match limited.read_to_end(&mut bytes) {
        Ok(_) if bytes.len() <= MOST_BYTES => Ok(bytes),
        Ok(_) => Err(FileFault::TooLong),
        Err(error) => match error.kind() {
            ErrorKind::OutOfMemory => Err(FileFault::NoMemory),
            kind => Err(FileFault::Unreadable(kind)),
        },
    }
}
