//! A worker whose log is drained between its turns.
ghost use Rattle.std.specs.Prelude.{◌≡◌};
ghost use Rattle.rdm_lanes.specs.Workers.{book_of};

use crate::tests::*;
use rdm_client::WorkerEnd;
use rdm_lanes::views::{BlankHistory, Shown, ViewHistory};
use rdm_lanes::{Lanes, RingClient, ViewWorker, open_lanes};
use rdm_line::TapeLine;
use rdm_log::{ClientId, Entry, LogFull, Page};
use std::marker::Brand;

// The first turn's page. Two clients have submitted a request each, and the line fails.
fn has_first_turn(page: &Page) -> bool {
    matches!(
        page.entries.as_slice(),
        [
            Entry::Join { .. },
            Entry::Join { .. },
            Entry::Accept { number: 0, .. },
            Entry::Accept { number: 1, .. },
            Entry::Send { .. },
            Entry::Came { .. },
            Entry::Finish { number: 0, .. },
            Entry::Collect {
                client: ClientId(0)
            },
        ]
    )
}

// The second turn's page.
fn has_second_turn(page: &Page) -> bool {
    matches!(
        page.entries.as_slice(),
        [
            Entry::Send { .. },
            Entry::Came { .. },
            Entry::Finish { number: 1, .. },
            Entry::Collect {
                client: ClientId(1)
            },
        ]
    )
}

// The worker makes so many turns over a line that fails, and its log is drained.
fn page<J: ViewHistory, R: Wait>(
    alloc: Global,
    worker: &mut ViewWorker<J, Shown<J>, &R>,
    turns: u64,
) -> Result<Page, Fail> {
    let mut line = TapeLine::new(Vec::new(alloc));
    if worker.work(alloc, &mut line, turns) != WorkerEnd::Turns {
        return Err(Fail::from("another end"));
    }
    match worker.drain(Vec::with_capacity(alloc, 20)?) {
        Ok(page) => Ok(page),
        Err((LogFull, _)) => Err("too little memory")?,
    }
}

// The pages of so many turns each, after memory for no entry was refused.
fn pages<J: ViewHistory, R: Wait>(
    alloc: Global,
    worker: &mut ViewWorker<J, Shown<J>, &R>,
    turns: [u64; 2],
) -> Result<[Page; 2], Fail> {
    if worker.drain(Vec::new(alloc)).is_ok() {
        return Err(Fail::from("no memory was needed"));
    }
    let first = page(alloc, worker, turns[0])?;
    let second = page(alloc, worker, turns[1])?;
    Ok([first, second])
}

type Client<J> = RingClient<J, Note, AskNote>;

// Each client submits a request.
fn submit_each<J: ViewHistory>(clients: &mut [Client<J>]) {
    for (number, client) in clients.iter_mut().enumerate() {
        let tag = number as u64;
        let _ = client.submit(request(tag), Note(tag));
    }
}

// Ends the clients, and cancels the callbacks that they have left.
fn end_all<J: ViewHistory>(alloc: Global, clients: Vec<Client<J>>) {
    let mut clients = clients;
    while let Some(client) = clients.pop() {
        cancels(alloc, client.end().into_unspent());
    }
    clients.destroy_empty();
}

// The pages of so many turns each, of a worker with two clients, each of which has submitted a request.
fn served<J: ViewHistory, R: Wait>(
    rt: &R,
    alloc: Global,
    history: BlankHistory,
    free: usize,
    turns: [u64; 2],
) -> Result<[Page; 2], Fail>
    requires { book_of history ≡ J.book }
{
    let opened = open_lanes(rt, alloc, history, config(4), log(alloc, free)?, 4, &[1, 1]);
    let Ok(lanes): Result<Lanes<J, Shown<J>, &R, Note, AskNote>, _> = opened else {
        return Err("it was refused")?;
    };
    let Lanes {
        mut clients,
        operator: _operator,
        mut worker,
    } = lanes;
    submit_each(clients.as_mut_slice());
    let pages = pages(alloc, &mut worker, turns);
    end_all(alloc, clients);
    pages
}

#[test]
fn pages_of_two_turns_follow_each_other(rt: HostRuntime) -> Result<(), Fail> {
    let new = BlankHistory::new();
    let [first, second] = served::<Brand, _>(&rt, rt.alloc(), new, 100, [1, 1])?;
    assert!(rt; first.first == 0 && has_first_turn(&first));
    assert!(rt; second.first == 8 && has_second_turn(&second));
    Ok(())
}

// The first page of a log that keeps nothing is empty. From then on the log keeps its entries.
#[test]
fn a_drain_lets_a_log_keep_its_entries(rt: HostRuntime) -> Result<(), Fail> {
    let new = BlankHistory::new();
    let [first, second] = served::<Brand, _>(&rt, rt.alloc(), new, NOTHING_KEPT, [1, 1])?;
    assert!(rt; first.first == 8 && first.entries.is_empty());
    assert!(rt; second.first == 8 && has_second_turn(&second));
    Ok(())
}

// What the log says in all of both turns, as its two pages have it.
fn texts<R: Wait>(rt: &R, alloc: Global, turns: [u64; 2]) -> Result<Vec<String>, Fail> {
    let [first, second] = served::<Brand, R>(rt, alloc, BlankHistory::new(), 100, turns)?;
    let mut texts = Vec::new(alloc);
    add_texts(alloc, &mut texts, &first.entries).ok_or("no memory")?;
    add_texts(alloc, &mut texts, &second.entries).ok_or("no memory")?;
    Ok(texts)
}

#[test]
fn two_pages_have_each_entry_of_one(rt: HostRuntime) -> Result<(), Fail> {
    let whole = texts(&rt, rt.alloc(), [2, 0])?;
    assert_eq!(rt; whole.len(), 12);
    assert_eq!(rt; texts(&rt, rt.alloc(), [1, 1])?, whole);
    Ok(())
}
