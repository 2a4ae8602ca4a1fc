//! Writers that fail at each byte.
use crate::tests::*;

// Takes at most this many bytes at each write, is interrupted before each, and takes none after this many.
#[derive(Drop)]
struct FailingWriter {
    held: Vec<u8>,
    at_most: usize,
    was_interrupted: bool,
    fails_at: usize,
    // What comes then: an error, or a write of no bytes.
    fails: bool,
}

impl Write for FailingWriter {
    fn write(&mut self, bytes: &[u8]) -> io::Result<usize> {
        self.was_interrupted = !self.was_interrupted;
        if self.was_interrupted {
            return Err(io::Error::from(ErrorKind::Interrupted));
        }
        let free = self.fails_at.saturating_sub(self.held.len());
        if free == 0 && self.fails {
            return Err(io::Error::from(ErrorKind::BrokenPipe));
        }
        let few = bytes.len().min(free).min(self.at_most);
        self.held.write(&bytes[..few])
    }

    fn flush(&mut self) -> io::Result<()> {
        Ok(())
    }
}

// What a command prints for a file with this text.
#[derive(Clone, Copy)]
struct Row<'a> {
    words: &'a [&'a str],
    file: &'a str,
    due: Due<'a>,
}

// How many bytes a writer takes at a time, and whether it ends with an error or takes no more bytes.
type Form = (usize, bool);

const EACH_FORM: [Form; 4] = [(1, true), (1, false), (3, true), (1000, false)];

// A writer that takes only this many bytes gets that prefix of the output, and the status says that it failed.
fn fails_at_each_byte<T: Threads + Wait + Abort + Sync>(
    rt: &T,
    alloc: Global,
    row: Row<'_>,
    form: Form,
) {
    let (text, due) = row.due;
    let whole = text.as_bytes();
    for fails_at in 0..=whole.len() {
        let mut reader = row.file.as_bytes();
        let mut writer = FailingWriter {
            held: Vec::new(alloc),
            at_most: form.0,
            was_interrupted: false,
            fails_at,
            fails: form.1,
        };
        let status = status_of(rt, alloc, row.words, &mut reader, &mut writer);
        let wanted = if fails_at == whole.len() { due } else { 1 };
        let is_written = writer.held.as_slice() == &whole[..fails_at];
        check_at(rt, fails_at, is_written && status == wanted);
    }
}

fn fails_in_each_form<T: Threads + Wait + Abort + Sync>(rt: &T, alloc: Global, row: Row<'_>) {
    for form in EACH_FORM {
        fails_at_each_byte(rt, alloc, row, form);
    }
}

macro_rules! rows {
    ($($words:expr, $file:literal => $text:literal, $status:literal;)*) => {
        [$(Row { words: &$words, file: $file, due: ($text, $status) }),*]
    };
}

// What commands print in one line. The file is only for commands that read one.
static LINES: [Row<'static>; 10] = rows! {
    ["decode", ""], "" => "silent\n", 0;
    ["decode", "fe"], "" => "collision\n", 0;
    ["decode", "fefefefefefefeaafa7ffa75aa55aa55aa55ab55ae57eff5"], "" => "7a70:00000001\n", 0;
    ["encode", "7a70:00000001"], "" => "fefefefefefefeaafa7ffa75aa55aa55aa55ab55ae57eff5\n", 0;
    ["decode", "f"], "" => "fault: hex\n", 1;
    ["encode", "f"], "" => "fault: uid\n", 1;
    ["encode"], "" => "fault: command line\n", 2;
    ["discover", "f"], "[" => "fault: json\n", 1;
    ["run", "f"], "{}" => "fault: scene\n", 1;
    ["explain", "f"], "{}" => "fault: line 1\n", 1;
};

#[test]
fn a_writer_of_a_line_fails(rt: HostRuntime) {
    for row in &LINES {
        fails_in_each_form(&rt, rt.alloc(), *row);
    }
}

#[test]
fn a_writer_of_a_scene_fails(rt: HostRuntime) {
    let row = Row {
        words: &INCREMENTAL,
        file: SCENE_FILE,
        due: SCENE,
    };
    fails_in_each_form(&rt, rt.alloc(), row);
}

#[test]
fn a_writer_of_findings_fails(rt: HostRuntime) {
    let row = Row {
        words: &EXPLAIN,
        file: LOG_FILE,
        due: LOG,
    };
    fails_in_each_form(&rt, rt.alloc(), row);
}

#[test]
fn a_writer_of_a_session_fails(rt: HostRuntime) {
    let row = Row {
        words: &LOCKED,
        file: SESSION_FILE,
        due: SESSION,
    };
    let alloc = rt.alloc();
    fails_at_each_byte(&rt, alloc, row, (1, true));
    let row = Row {
        words: &RINGS,
        ..row
    };
    fails_at_each_byte(&rt, alloc, row, (7, false));
}
