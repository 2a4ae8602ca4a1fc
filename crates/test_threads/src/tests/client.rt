//! Callbacks, and the desk that holds one client's callbacks.

mod callbacks;
mod desks;
mod faults;
mod left;
mod outcomes;
