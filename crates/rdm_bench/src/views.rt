//! Views of devices, which sixteen clients read. All of them are in one thread, so no reader is ever waited for.
ghost use Rattle.std.specs.Prelude.{◌≡◌};
ghost use Rattle.rdm_lanes.specs.Workers.{book_of};

use crate::bench::{Bench, Sample, Times, holds};
use crate::lines::{device_of, devices};
use left_right::Absorb;
use rdm_client::DeviceView;
use rdm_lanes::views::{BlankHistory, Publisher, Shown, ViewHistory, ViewReader};
use rdm_wire::DeviceSet;
use std::alloc::Global;
use std::marker::Brand;
use std::sync::Wait;

// How many clients read.
const READERS: usize = 16;

/// Times publications, reads of a view that has changed, and reads of one that hasn't.
pub fn time<R: Times + Wait>(bench: &Bench<R>) -> Option<()> {
    time_all::<Brand, &R, R>(bench, bench.rt, BlankHistory::new())
}

fn time_all<J: ViewHistory, W: Wait + Drop, R: Times>(
    bench: &Bench<R>,
    rt: W,
    history: BlankHistory,
) -> Option<()>
    requires { book_of history ≡ J.book }
{
    let publisher = Publisher::<J, Shown<J>, W>::new(bench.alloc, rt, history, READERS).ok()?;
    let mut views = Views {
        alloc: bench.alloc,
        readers: readers_of(bench.alloc, &publisher)?,
        publisher,
        devices: device_set(bench.size)?,
        publishes: true,
        reads: false,
    };
    bench.time("views, Publish", &mut views)?;
    views.reads = true;
    bench.time("views, PublishAndRead", &mut views)?;
    views.publishes = false;
    bench.time("views, Read", &mut views)
}

fn readers_of<J: ViewHistory, W: Wait + Drop>(
    alloc: Global,
    publisher: &Publisher<J, Shown<J>, W>,
) -> Option<Vec<ViewReader<J>>> {
    let mut readers = Vec::new(alloc);
    for _ in 0..READERS {
        readers.push(publisher.reader().ok()?).ok()?;
    }
    Some(readers)
}

fn device_set(count: usize) -> Option<DeviceSet> {
    let mut set = DeviceSet::new();
    let uids = devices(count, 42)?;
    for uid in uids.as_slice() {
        set.insert(device_of(*uid)).ok()?;
    }
    Some(set)
}

// A publisher and its readers.
#[derive(Drop)]
struct Views<J: ViewHistory, T: Absorb<Shown<J>, State = [DeviceView; 0]> + Drop, W: Wait + Drop> {
    alloc: Global,
    publisher: Publisher<J, T, W>,
    readers: Vec<ViewReader<J>>,
    devices: DeviceSet,
    publishes: bool,
    reads: bool,
}

impl<J: ViewHistory, W: Wait + Drop> Views<J, Shown<J>, W> {
    fn publish(&mut self) -> Option<()> {
        let run = self.publisher.run().checked_add(1)?;
        holds(self.publisher.add(self.alloc, run, &self.devices) && self.publisher.show())
    }

    // Lets each client read.
    fn read(&mut self) -> Option<()> {
        let run = self.publisher.run();
        for reader in self.readers.iter_mut() {
            reader.read();
            holds(reader.last().run == run)?;
        }
        Some(())
    }
}

impl<J: ViewHistory, W: Wait + Drop> Sample for Views<J, Shown<J>, W> {
    fn perform(&mut self) -> Option<u64> {
        if self.publishes {
            self.publish()?;
        }
        if self.reads {
            self.read()?;
        }
        Some(if self.publishes { 1 } else { READERS as u64 })
    }
}
