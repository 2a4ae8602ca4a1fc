//! Sessions with a mutex, by hand and in threads.

mod again;
mod any_client;
mod calls;
mod drained;
mod faults;
mod full_log;
mod kinds;
mod refusals;
mod runs;
mod sessions;
mod threads;
mod turns;
mod unlocked;
