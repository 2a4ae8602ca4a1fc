//! Readers that fail at each read.
use super::logs::carries;
use crate::tests::*;

const NO_FILE: Due<'static> = ("fault: file\n", 1);

// More reads than any test makes.
const NEVER: usize = 1_000_000;

// Gives at most this many bytes at each read, and fails at one of them. It may be interrupted before each.
#[derive(Drop)]
struct FailingReader<'a> {
    rest: &'a [u8],
    at_most: usize,
    reads: usize,
    fails_at: usize,
    is_interrupted: bool,
    was_interrupted: bool,
}

impl<'a> FailingReader<'a> {
    fn new(file: &'a [u8], at_most: usize, fails_at: usize) -> FailingReader<'a> {
        FailingReader {
            rest: file,
            at_most,
            reads: 0,
            fails_at,
            is_interrupted: false,
            was_interrupted: false,
        }
    }
}

impl Read for FailingReader<'_> {
    fn read(&mut self, bytes: &mut [u8]) -> io::Result<usize> {
        if self.is_interrupted && !self.was_interrupted {
            self.was_interrupted = true;
            return Err(io::Error::from(ErrorKind::Interrupted));
        }
        self.was_interrupted = false;
        if self.reads == self.fails_at {
            return Err(io::Error::from(ErrorKind::UnexpectedEof));
        }
        self.reads = self.reads.saturating_add(1);
        let few = bytes.len().min(self.at_most);
        self.rest.read(&mut bytes[..few])
    }
}

// The command prints this for the reader's file.
fn reads<T: Threads + Wait + Abort + Sync>(
    rt: &T,
    alloc: Global,
    words: &[&str],
    mut reader: FailingReader<'_>,
    due: Due<'_>,
) {
    let fails_at = reader.fails_at;
    let mut written = Vec::new(alloc);
    let status = status_of(rt, alloc, words, &mut reader, &mut written);
    let is_due = written.as_slice() == due.0.as_bytes() && status == due.1;
    check_at(rt, fails_at, is_due);
}

// The file is read byte by byte, and once more, which shows its end. If one of these reads fails, the fault is printed,
// whatever came before. If none does, the answer is printed.
fn fails_at_each_read<T: Threads + Wait + Abort + Sync>(
    rt: &T,
    alloc: Global,
    words: &[&str],
    file: &[u8],
    due: Due<'_>,
) {
    for fails_at in 0..=file.len() {
        let reader = FailingReader::new(file, 1, fails_at);
        reads(rt, alloc, words, reader, NO_FILE);
    }
    reads(rt, alloc, words, FailingReader::new(file, 1, NEVER), due);
    reads(rt, alloc, words, FailingReader::new(file, 1000, NEVER), due);
    let mut interrupted = FailingReader::new(file, 7, NEVER);
    interrupted.is_interrupted = true;
    reads(rt, alloc, words, interrupted, due);
}

#[test]
fn a_reader_of_a_scene_fails(rt: HostRuntime) {
    fails_at_each_read(&rt, rt.alloc(), &INCREMENTAL, SCENE_FILE.as_bytes(), SCENE);
}

#[test]
fn a_reader_of_a_session_fails(rt: HostRuntime) {
    let (alloc, file) = (rt.alloc(), SESSION_FILE.as_bytes());
    fails_at_each_read(&rt, alloc, &LOCKED, file, SESSION);
    fails_at_each_read(&rt, alloc, &RINGS, file, SESSION);
}

#[test]
fn a_reader_of_a_log_fails(rt: HostRuntime) {
    fails_at_each_read(&rt, rt.alloc(), &EXPLAIN, LOG_FILE.as_bytes(), LOG);
}

// The reason names the file as the arguments do.
fn names_the_file<T: Threads + Wait + Abort + Sync>(rt: &T, alloc: Global, command: &str) {
    let mut reader = FailingReader::new(SCENE_FILE.as_bytes(), 20, 1);
    let words = [command, "no_file.json"];
    let carried = carries(rt, alloc, &words, &mut reader, usize::MAX);
    match &carried.reason {
        Some(reason) => has_reason(rt, alloc, reason),
        None => panic!(rt; "a reason"),
    }
}

fn has_reason(rt: &impl Abort, alloc: Global, reason: &Reason<'_>) {
    let text = "the file \"no_file.json\" can't be read: unexpected end of file";
    says(rt, alloc, reason, text);
    check(
        rt,
        matches!(
            reason,
            Reason::Unreadable("no_file.json", ErrorKind::UnexpectedEof)
        ),
    );
}

#[test]
fn reports_which_file_is_not_read(rt: HostRuntime) {
    let alloc = rt.alloc();
    names_the_file(&rt, alloc, "discover");
    names_the_file(&rt, alloc, "run");
    names_the_file(&rt, alloc, "explain");
}
