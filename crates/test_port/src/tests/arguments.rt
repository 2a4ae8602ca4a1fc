//! What arguments ask for, if only values show it.
use crate::tests::*;
use rdm_arguments::{Complaint, Job, PortKind, RunJob, WordsFault, complaint_of};

// The arguments ask for a session of the file `file` over this port.
fn names(rt: &impl Abort, alloc: Global, words: &[&str], port: PortKind) {
    let is_named = match parse_words(alloc, words) {
        Ok(
            Job::Run(
                RunJob {
                    file: "file",
                    streams: None,
                    port: named,
                    log: None,
                },
            ),
        ) => named == port,
        _ => false,
    };
    check(rt, is_named);
}

// Both ports print the same, so only the value shows which one was named.
#[test]
fn arguments_name_their_port(rt: HostRuntime) {
    use PortKind::{Locked, Rings};
    let alloc = rt.alloc();
    names(&rt, alloc, &["run", "file"], Locked);
    names(&rt, alloc, &["run", "file", "--port", "locked"], Locked);
    names(&rt, alloc, &["run", "--port=locked", "file"], Locked);
    names(&rt, alloc, &["run", "file", "--port", "rings"], Rings);
    names(&rt, alloc, &["run", "--port=rings", "file"], Rings);
}

// These arguments, which name no file, print this.
fn prints<T: Threads + Wait + Abort + Sync>(rt: &T, alloc: Global, words: &[&str], due: Due<'_>) {
    let mut written = Vec::new(alloc);
    let status = status_of(rt, alloc, words, &mut io::empty(), &mut written);
    check(
        rt,
        written.as_slice() == due.0.as_bytes() && status == due.1,
    );
}

// No command line has such arguments.
#[test]
fn arguments_have_null_characters(rt: HostRuntime) {
    let alloc = rt.alloc();
    let no_hex = ("fault: hex\n", 1);
    prints(&rt, alloc, &["decode", "fe\u{0}\u{0}"], no_hex);
    prints(&rt, alloc, &["decode", "--", "fe\u{0}\u{0}"], no_hex);
    prints(&rt, alloc, &["decode", "\u{0}\u{0}"], no_hex);
    prints(&rt, alloc, &["decode", "--", "\u{0}\u{0}"], no_hex);
    let (no_uid, text) = (("fault: uid\n", 1), "\u{0}\u{0}\u{0}\u{0}:00000001");
    prints(&rt, alloc, &["encode", text], no_uid);
    prints(&rt, alloc, &["encode", "--", text], no_uid);
    let no_words = ("fault: command line\n", 2);
    prints(&rt, alloc, &["\u{0}"], no_words);
    prints(&rt, alloc, &["decode\u{0}", "fe"], no_words);
}

// A command with two files is only given one of them here.
#[test]
fn a_second_file_is_not_read(rt: HostRuntime) {
    let words = ["explain", "run.log", "--rig", "rig.json"];
    prints(&rt, rt.alloc(), &words, ("fault: file\n", 1));
    prints(
        &rt,
        rt.alloc(),
        &words[..2],
        ("the log has no exchange of a discovery\n", 0),
    );
}

// Nothing is wrong with arguments that fit a command, so no more specific complaint applies.
#[test]
fn faults_of_arguments_say_what_is_wrong(rt: HostRuntime) {
    let alloc = rt.alloc();
    let complaint = complaint_of(&["decode", "00"]);
    check(&rt, matches!(complaint, Complaint::Misfit));
    let text = "the arguments fit no command; try 'wurstlinen --help'";
    says(&rt, alloc, &complaint, text);
    says(&rt, alloc, &Reason::Arguments, text);
    says(
        &rt,
        alloc,
        &WordsFault::Words,
        "the arguments fit no command",
    );
    says(&rt, alloc, &WordsFault::NoMemory, "out of memory");
}
