//! Logs that fail at each byte.
use crate::tests::*;
use rdm_line::SimLine;
use rdm_port::{NoLine, carry_out};
use rdm_reports::OpensLog;

/// A log in memory with a limited number of bytes.
#[derive(Drop)]
pub struct MemoryLog {
    held: Vec<u8>,
    most: usize,
    opened: usize,
}

impl Write for MemoryLog {
    fn write(&mut self, bytes: &[u8]) -> io::Result<usize> {
        let free = self.most.saturating_sub(self.held.len());
        if free == 0 {
            return Err(io::Error::from(ErrorKind::StorageFull));
        }
        let few = bytes.len().min(free);
        self.held.write(&bytes[..few])
    }

    fn flush(&mut self) -> io::Result<()> {
        Ok(())
    }
}

impl OpensLog for MemoryLog {
    fn open(&mut self, path: &str) -> Result<(), ErrorKind> {
        if path == "log" {
            self.opened = self.opened.saturating_add(1);
            Ok(())
        } else {
            Err(ErrorKind::NotFound)
        }
    }
}

/// The results of a command: its status, the reason if it failed, what it printed, and its log.
#[derive(Drop)]
pub struct Carried<'a> {
    pub status: u8,
    pub reason: Option<Reason<'a>>,
    pub written: Vec<u8>,
    pub log: MemoryLog,
}

/// Does what the arguments ask for, with a log that takes this many bytes.
pub fn carries<'a, R: Read, T: Threads + Wait + Sync>(
    rt: &T,
    alloc: Global,
    words: &'a [&'a str],
    reader: &mut R,
    most: usize,
) -> Carried<'a> {
    let mut log = LogOutput::new(MemoryLog {
        held: Vec::new(alloc),
        most,
        opened: 0,
    });
    let mut written = Vec::new(alloc);
    let job = parse_words(alloc, words);
    let (status, reason) = carry_out::<SimLine, _, _, _, _, _, _, _>(
        rt,
        alloc,
        job,
        reader,
        &mut io::empty(),
        &mut NoLine,
        &mut log,
        &mut written,
        &mut Silent,
    );
    Carried {
        status,
        reason,
        written,
        log: log.into_writer(),
    }
}

// The opening of the run, and its first exchange.
const FIRST: &str = "{\"entry\":\"opening\",\"source\":\"7a70:00000100\",\"budget\":400,\
    \"search\":\"steady\",\"discover\":\"incremental\",\"known\":[\"1234:00000001\"]}\n\
    {\"number\":0,\"operation\":\"unmute\",\
    \"frame\":\"cc0118ffffffffffff7a700000010000010000001000030007de\",\"reply\":\"\"}\n";

// How many lines the whole log has: its opening, and one for each exchange.
const LINES: usize = 11;

const WORDS: [&str; 5] = ["discover", "--incremental", "scene.json", "--log", "log"];

// Whether the log was full.
fn is_unlogged(reason: &Option<Reason<'_>>) -> bool {
    matches!(
        reason,
        Some(Reason::Unlogged("log", ErrorKind::StorageFull))
    )
}

// The log, if it takes at most `most` bytes. The command has to end with this status.
fn logged<T: Threads + Wait + Abort + Sync>(
    rt: &T,
    alloc: Global,
    most: usize,
    status: u8,
) -> MemoryLog {
    let mut reader = SCENE_FILE.as_bytes();
    let Carried {
        status: given,
        reason,
        written,
        log,
    } = carries(rt, alloc, &WORDS, &mut reader, most);
    check(rt, given == status);
    check(rt, is_unlogged(&reason) == (most != usize::MAX));
    check(rt, written.as_slice() == SCENE.0.as_bytes());
    log
}

// How many ends of lines these bytes have.
fn ends_of_lines(bytes: &[u8]) -> usize {
    let mut lines = 0_usize;
    for byte in bytes {
        if *byte == b'\n' {
            lines = lines.saturating_add(1);
        }
    }
    lines
}

// A log that is cut short has a prefix of the text. The answer is still printed.
#[test]
fn a_log_fails_at_each_byte(rt: HostRuntime) {
    let alloc = rt.alloc();
    let whole = logged(&rt, alloc, usize::MAX, 0);
    let lines = ends_of_lines(&whole.held);
    check(&rt, lines == LINES && whole.opened == 1);
    check(&rt, whole.held.starts_with(FIRST.as_bytes()));
    for most in 0..whole.held.len() {
        let cut = logged(&rt, alloc, most, 1);
        check_at(&rt, most, cut.held.as_slice() == &whole.held[..most]);
    }
}
