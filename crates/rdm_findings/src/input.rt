//! Reads the next line of a log.
ghost use Rattle.std.specs.Prelude.{◌≡◌, ◌≢◌, [], None, Err, OnOk, IfOk, option_to_list};
ghost use Rattle.std.specs.Io.KnownBytes.{Consumes, IsAtEnd};

use std::io::{ErrorKind, Read};

/// How many bytes the longest line has, at most: the opening of a session with 1,024 devices.
const MOST_LINE_BYTES: usize = 0x2_0000;

/// Why there is no next line.
#[derive(Clone, Copy, Debug, PartialEq, Eq)]
pub(crate) enum NoText {
    /// The reader failed.
    Failed(ErrorKind),
    /// The next line is longer than any of a log.
    TooLong,
    /// Out of memory.
    NoMemory,
}

/// Reads the next line with its newline, in place of what `line` has. At the end of the input it is what is left, which
/// may be nothing.
pub(crate) fn read_text<R: Read>(reader: &mut R, line: &mut Vec<u8>) -> Result<(), NoText>
    ensures text { OnOk result (Consumes (R.remaining reader.old) (R.remaining reader.new) line.new.items) }
    ensures end { OnOk result (line.new.items ≡ [] → IsAtEnd (R.remaining reader.new)) }
    ensures long { result ≡ Err NoText.TooLong
        → Consumes (R.remaining reader.old) (R.remaining reader.new) line.new.items }
{
    line.clear();
    'bytes: for _ in 0..MOST_LINE_BYTES {
        let Some(byte) = next_byte(reader)? else {
            return Ok(());
        };
        if line.push(byte).is_err() {
            return Err(NoText::NoMemory);
        }
        if byte == b'\n' {
            return Ok(());
        }
    }
    Err(NoText::TooLong)
}

// The next byte. `None`: the input has ended.
fn next_byte<R: Read>(reader: &mut R) -> Result<Option<u8>, NoText>
    ensures byte { IfOk result (λ found. Consumes (R.remaining reader.old) (R.remaining reader.new)
        (option_to_list found)) }
    ensures end { IfOk result (λ found. found ≡ None → IsAtEnd (R.remaining reader.new)) }
    ensures short { result ≢ Err NoText.TooLong }
{
    let mut one = [0u8; 1];
    'tries: for _ in 0..u64::MAX {
        match reader.read(&mut one) {
            Ok(0) => return Ok(None),
            Ok(_) => return Ok(Some(one[0])),
            Err(error) if error.kind() == ErrorKind::Interrupted => {}
            Err(error) => return Err(NoText::Failed(error.kind())),
        }
    }
    Err(NoText::Failed(ErrorKind::Interrupted))
}
