//! Positions in a text, for people.
use std::fmt;

/// A position in a text: the line and the column of a character, both from 1.
#[derive(Clone, Copy)]
pub struct Position {
    /// The line.
    pub line: usize,
    /// The column, in characters.
    pub column: usize,
}

impl Position {
    /// The position of the last character of these bytes; none if they have only white space.
    pub(crate) fn of_last(bytes: &[u8]) -> Option<Position> {
        let text = bytes.trim_ascii_end();
        let line = text.split(|byte| *byte == b'\n').next_back()?;
        if line.is_empty() {
            return None;
        }
        Some(Position {
            line: text
                .iter()
                .filter(|byte| **byte == b'\n')
                .count()
                .saturating_add(1),
            column: characters(line),
        })
    }

    /// The position of the byte at this column of this line, both from 1.
    pub(crate) fn of_byte(bytes: &[u8], line: usize, column: usize) -> Position {
        let text = bytes
            .split(|byte| *byte == b'\n')
            .nth(line.saturating_sub(1))
            .unwrap_or(b"");
        let before = text.get(..column).unwrap_or(text);
        Position {
            line,
            column: characters(before).max(1),
        }
    }
}

// How many characters begin in these bytes of UTF-8.
fn characters(bytes: &[u8]) -> usize {
    bytes.iter().filter(|byte| **byte & 0xc0 != 0x80).count()
}

impl fmt::Display for Position {
    fn fmt<W: fmt::Write>(&self, f: &mut fmt::Formatter<W>) -> fmt::Result {
        write!(f, "line {}, column {}", self.line, self.column)
    }
}
