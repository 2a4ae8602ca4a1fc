//! Parts of a line, read loosely: whoever reads a line writes it back, and compares.
ghost use Rattle.std.specs.Prelude.{◌<◌, ◌^◌, IfSome};
ghost use Rattle.hex.specs.Hex.{IsBytes};
ghost use Rattle.rdm_findings.specs.SameLines.{Has64Bits, Has48Bits};

use arrayvec::ArrayVec;
use rdm_wire::Uid;

/// What is between the first `before` and the next `after`.
pub(crate) fn between<'a>(text: &'a str, before: &str, after: &str) -> Option<&'a str> {
    let (_, rest) = text.split_once(before)?;
    let (value, _) = rest.split_once(after)?;
    Some(value)
}

/// The number after this key.
pub(crate) fn number(text: &str, key: &str) -> Option<u64>
    ensures { IfSome result Has64Bits }
{
    let (_, rest) = text.split_once(key)?;
    leading_number(rest)
}

/// The number with which a text begins.
pub(crate) fn leading_number(text: &str) -> Option<u64>
    ensures { IfSome result Has64Bits }
{
    let mut value: u64 = 0;
    for byte in text.bytes() {
        if !byte.is_ascii_digit() {
            return Some(value);
        }
        value = value.checked_mul(10)?.checked_add(u64::from(byte - b'0'))?;
    }
    Some(value)
}

/// The small number after this key.
pub(crate) fn small(text: &str, key: &str) -> Option<u8>
    ensures { IfSome result Has64Bits }
{
    u8::try_from(number(text, key)?).ok()
}

/// The 16-bit number after this key.
pub(crate) fn medium(text: &str, key: &str) -> Option<u16>
    ensures { IfSome result Has64Bits }
{
    u16::try_from(number(text, key)?).ok()
}

/// The UID in quotes after this key.
pub(crate) fn uid(text: &str, key: &str) -> Option<Uid>
    ensures { IfSome result Has48Bits }
{
    Uid::parse(between(text, key, "\"")?).ok()
}

/// The 16-bit number that four hexadecimal digits in quotes after this key spell.
pub(crate) fn digits(text: &str, key: &str) -> Option<u16>
    ensures { IfSome result (λ n. n < 2 ^ 16) }
{
    let mut bytes = [0; 2];
    hex::decode_to_slice(between(text, key, "\"")?, &mut bytes).ok()?;
    Some(u16::from_be_bytes(bytes))
}

/// The bytes in quotes after this key.
pub(crate) fn bytes<const N: usize>(text: &str, key: &str) -> Option<ArrayVec<u8, N>>
    ensures { IfSome result (λ b. IsBytes b.items) }
{
    let digits = between(text, key, "\"")?;
    let mut room = [0; 257];
    let count = digits.len() / 2;
    if room.len() < count {
        return None;
    }
    hex::decode_to_slice(digits, &mut room[..count]).ok()?;
    held(&room[..count])
}

// These bytes, if that many fit.
fn held<const N: usize>(bytes: &[u8]) -> Option<ArrayVec<u8, N>>
    ensures { IfSome result (λ b. IsBytes b.items) }
{
    ArrayVec::try_from(bytes).ok()
}

/// Whether the text has this part.
pub(crate) fn has(text: &str, part: &str) -> bool {
    text.contains(part)
}
