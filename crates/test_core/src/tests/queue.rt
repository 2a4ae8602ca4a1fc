//! What the C library doesn't show: the texts of faults, answers to events, and logs that change hands.

mod events;
mod faults;
mod logs;
mod sessions;
