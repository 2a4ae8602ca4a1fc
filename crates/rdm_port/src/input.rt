//! A file's bytes, and why they are no JSON.
ghost use Rattle.std.specs.Prelude.{◌≡◌, ◌⊎◌, IfOk, IfErr};
ghost use Rattle.serde_json.specs.Errors.{IsMemory};
ghost use Rattle.rdm_files.specs.Input.{IsContent};

use crate::answer::Refused;
use crate::fault::Fault;
use crate::position::Position;
use crate::reason::Reason;
use rdm_files::{FileFault, read_file};
use serde_json::Category;
use std::alloc::Global;
use std::io::Read;

/// The bytes in the reader's file, which is the one at the path.
pub(crate) fn bytes_of_file<'a, R: Read>(
    alloc: Global,
    path: &'a str,
    reader: &mut R,
) -> Result<Vec<u8>, Refused<'a>>
    ensures ok { IfOk result (λ bytes. IsContent (R.remaining reader.old) bytes.items) }
    ensures fault { IfErr result (λ e. (e.0 ≡ Fault.Memory) ⊎ (e.0 ≡ Fault.File)) }
{
    match read_file(alloc, reader) {
        Ok(bytes) => Ok(bytes),
        Err(FileFault::NoMemory) => Err((Fault::Memory, None)),
        Err(fault) => Err((Fault::File, Reason::of_file(path, fault))),
    }
}

// Some editors put it before a text, where it is invisible.
const BYTE_ORDER_MARK: &[u8] = b"\xef\xbb\xbf";

/// Why bytes weren't read as JSON.
pub(crate) fn no_json<'a>(bytes: &[u8], error: &serde_json::Error) -> Refused<'a>
    ensures memory { IsMemory error.now → result.0 ≡ Fault.Memory }
    ensures text { ¬ IsMemory error.now → result.0 ≡ Fault.Json }
{
    match error.classify() {
        Category::Memory => (Fault::Memory, None),
        Category::Eof => (Fault::Json, Some(cut_short(bytes))),
        _ if bytes.starts_with(BYTE_ORDER_MARK) => (Fault::Json, Some(Reason::ByteOrderMark)),
        _ => {
            let position = Position::of_byte(bytes, error.line(), error.column());
            (Fault::Json, Some(Reason::NoJson(position)))
        }
    }
}

// Why bytes that end before their JSON does weren't read.
fn cut_short<'a>(bytes: &[u8]) -> Reason<'a> {
    match Position::of_last(bytes) {
        Some(position) => Reason::CutShort(position),
        None => Reason::Empty,
    }
}
