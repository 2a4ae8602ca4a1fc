//! Keys of a file that no reader knows. They are ignored.
use crate::scene::path::Path;
use arrayvec::ArrayVec;
use serde_json::Value;
use std::{fmt, str};

/// A key that isn't known: the path of its object, the key, and the keys that are known there.
#[derive(Drop)]
pub struct UnknownKey {
    path: Path,
    // Empty if the key is long.
    text: ArrayVec<u8, LONGEST_KEY>,
    // How many bytes the key has.
    len: usize,
    known: &'static [&'static str],
}

// The most bytes of a key that is reported by its name.
const LONGEST_KEY: usize = 40;

/// A form whose objects, or those within it, have keys.
pub(crate) trait Keyed {
    /// The first unknown key of a value, if there is one. The keys of an object precede those within it.
    fn unknown(&self, value: &Value) -> Option<UnknownKey>;
}

/// The first unknown key of an object, in the order of bytes.
pub(crate) fn unknown_of(object: &Value, known: &'static [&'static str]) -> Option<UnknownKey> {
    for key in object.as_object()?.keys() {
        if !known.contains(&key.as_str()) {
            return Some(UnknownKey::new(key.as_bytes(), known));
        }
    }
    None
}

/// The first unknown key in the value under a key.
pub(crate) fn unknown_under<K: Keyed>(
    object: &Value,
    key: &'static str,
    form: &K,
) -> Option<UnknownKey> {
    let unknown = form.unknown(object.get(key)?)?;
    Some(unknown.under(key))
}

/// The first unknown key in the items of a list under a key.
pub(crate) fn unknown_in_list<K: Keyed>(
    object: &Value,
    key: &'static str,
    form: &K,
) -> Option<UnknownKey> {
    let items = object.get(key)?.as_array()?;
    for i in 0..items.len() {
        if let Some(unknown) = form.unknown(&items[i]) {
            return Some(unknown.in_item(i).under(key));
        }
    }
    None
}

impl UnknownKey {
    fn new(key: &[u8], known: &'static [&'static str]) -> UnknownKey {
        let mut text = ArrayVec::new();
        // A long key is reported by its length.
        let _ = text.try_extend_from_slice(key);
        UnknownKey {
            path: Path::whole(),
            text,
            len: key.len(),
            known,
        }
    }

    fn in_item(self, item: usize) -> UnknownKey {
        let UnknownKey {
            path,
            text,
            len,
            known,
        } = self;
        UnknownKey {
            path: path.in_item(item),
            text,
            len,
            known,
        }
    }

    fn under(self, key: &'static str) -> UnknownKey {
        let UnknownKey {
            path,
            text,
            len,
            known,
        } = self;
        UnknownKey {
            path: path.under(key),
            text,
            len,
            known,
        }
    }
}

impl fmt::Display for UnknownKey {
    fn fmt<W: fmt::Write>(&self, f: &mut fmt::Formatter<W>) -> fmt::Result {
        match str::from_utf8(&self.text) {
            Ok(text) if text.len() == self.len => {
                if !self.path.is_whole() {
                    write!(f, "{}.", self.path)?;
                }
                write_key(f, text)?;
                f.write_str(": this key isn't known")?;
            }
            _ => write!(f, "{}: a key of {} bytes isn't known", self.path, self.len)?,
        }
        f.write_str(", and is left out; ")?;
        write_known(f, self.known)
    }
}

// A key as it is written in a path, if it is a word such as the known keys are.
fn write_key<W: fmt::Write>(f: &mut fmt::Formatter<W>, key: &str) -> fmt::Result {
    let is_word = key
        .chars()
        .all(|c| c.is_ascii_alphanumeric() || c == '_' || c == '-');
    if is_word && !key.is_empty() {
        f.write_str(key)
    } else {
        write!(f, "{key:?}")
    }
}

fn write_known<W: fmt::Write>(f: &mut fmt::Formatter<W>, known: &[&str]) -> fmt::Result {
    match known {
        [] => Ok(()),
        [key] => write!(f, "the known one is {key}"),
        [first, others @ ..] => {
            write!(f, "the known ones are {first}")?;
            for key in others {
                write!(f, ", {key}")?;
            }
            Ok(())
        }
    }
}
