//! Why a scene file isn't read.
ghost use Rattle.std.specs.Prelude.{◌≡◌, false};
ghost use Rattle.rdm_files.specs.Forms.{is_memory};

use crate::scene::path::Path;
use arrayvec::ArrayVec;
use serde_json::Value;
use std::{fmt, str};

/// Why a scene file isn't read.
#[derive(Drop)]
pub enum SceneFault {
    /// A value isn't what is expected at its path.
    Mismatch(Mismatch),
    /// Out of memory.
    NoMemory,
}

/// A path in a file, what was found there, and what was expected.
#[derive(Drop)]
pub struct Mismatch {
    path: Path,
    found: Found,
    // Why the key may not be there, if it is unwanted.
    expected: &'static str,
}

/// What was found at a path.
#[derive(Drop)]
pub enum Found {
    /// Nothing, since the key is missing.
    Nothing,
    /// `null`.
    Null,
    /// A truth value.
    Boolean(bool),
    /// A whole number.
    Whole(u64),
    /// Any other number.
    Number,
    /// A text that isn't long.
    Text(Excerpt),
    /// A text of this many bytes.
    LongText(usize),
    /// A list of this many items.
    List(usize),
    /// An object.
    Object,
    /// An object that has these of the keys of which it should have one.
    Keys(&'static str),
    /// A value under a key that may not be there.
    Unwanted,
}

// How many bytes of a text are quoted.
const EXCERPT: usize = 40;

type Excerpt = ArrayVec<u8, EXCERPT>;

impl SceneFault {
    /// Something else than this value was expected.
    pub(crate) fn at(value: &Value, expected: &'static str) -> SceneFault
        ensures { is_memory result ≡ false }
    {
        SceneFault::expecting(Found::of(value), expected)
    }

    /// A key is missing. This was expected under it.
    pub(crate) fn missing(expected: &'static str) -> SceneFault
        ensures { is_memory result ≡ false }
    {
        SceneFault::expecting(Found::Nothing, expected)
    }

    /// An object has these of the keys of which it should have one.
    pub(crate) fn with_keys(keys: &'static str, expected: &'static str) -> SceneFault
        ensures { is_memory result ≡ false }
    {
        SceneFault::expecting(Found::Keys(keys), expected)
    }

    /// A key may not be there, and why.
    pub(crate) fn unwanted(why: &'static str) -> SceneFault
        ensures { is_memory result ≡ false }
    {
        SceneFault::expecting(Found::Unwanted, why)
    }

    fn expecting(found: Found, expected: &'static str) -> SceneFault
        ensures { is_memory result ≡ false }
    {
        SceneFault::Mismatch(Mismatch {
            path: Path::whole(),
            found,
            expected,
        })
    }

    /// The same fault, in an item of a list.
    pub(crate) fn in_item(self, item: usize) -> SceneFault
        ensures { is_memory result ≡ is_memory self }
    {
        match self {
            SceneFault::Mismatch(mismatch) => SceneFault::Mismatch(mismatch.in_item(item)),
            SceneFault::NoMemory => SceneFault::NoMemory,
        }
    }

    /// The same fault, under a key of an object.
    pub(crate) fn under(self, key: &'static str) -> SceneFault
        ensures { is_memory result ≡ is_memory self }
    {
        match self {
            SceneFault::Mismatch(mismatch) => SceneFault::Mismatch(mismatch.under(key)),
            SceneFault::NoMemory => SceneFault::NoMemory,
        }
    }
}

impl Mismatch {
    fn in_item(self, item: usize) -> Mismatch {
        let Mismatch {
            path,
            found,
            expected,
        } = self;
        Mismatch {
            path: path.in_item(item),
            found,
            expected,
        }
    }

    fn under(self, key: &'static str) -> Mismatch {
        let Mismatch {
            path,
            found,
            expected,
        } = self;
        Mismatch {
            path: path.under(key),
            found,
            expected,
        }
    }
}

impl Found {
    fn of(value: &Value) -> Found {
        match value {
            Value::Null => Found::Null,
            Value::Bool(truth) => Found::Boolean(*truth),
            Value::Number(number) => match number.as_u64() {
                Some(whole) => Found::Whole(whole),
                None => Found::Number,
            },
            Value::String(text) => Found::text(text.as_bytes()),
            Value::Array(items) => Found::List(items.len()),
            Value::Object(_) => Found::Object,
        }
    }

    fn text(text: &[u8]) -> Found {
        let mut excerpt = ArrayVec::new();
        match excerpt.try_extend_from_slice(text) {
            Ok(()) => Found::Text(excerpt),
            Err(_) => Found::LongText(text.len()),
        }
    }
}

impl fmt::Display for Mismatch {
    fn fmt<W: fmt::Write>(&self, f: &mut fmt::Formatter<W>) -> fmt::Result {
        let (path, expected) = (&self.path, self.expected);
        match &self.found {
            Found::Nothing => write!(f, "{path}: this key is missing; expected {expected}"),
            Found::Unwanted => write!(f, "{path}: {expected}"),
            found => write!(f, "{path}: expected {expected}, found {found}"),
        }
    }
}

impl fmt::Display for Found {
    fn fmt<W: fmt::Write>(&self, f: &mut fmt::Formatter<W>) -> fmt::Result {
        match self {
            Found::Nothing => f.write_str("nothing"),
            Found::Null => f.write_str("null"),
            Found::Boolean(truth) => fmt::Display::fmt(truth, f),
            Found::Whole(number) => fmt::Display::fmt(number, f),
            Found::Number => f.write_str("a number that is negative, not whole or too large"),
            Found::Text(excerpt) => match str::from_utf8(excerpt) {
                Ok(text) => write!(f, "{text:?}"),
                Err(_) => f.write_str("a text"),
            },
            Found::LongText(len) => write!(f, "a text of {len} bytes"),
            Found::List(len) => write!(f, "a list of {len}"),
            Found::Object => f.write_str("an object"),
            Found::Keys(keys) => write!(f, "an object with {keys}"),
            Found::Unwanted => f.write_str("a key"),
        }
    }
}
