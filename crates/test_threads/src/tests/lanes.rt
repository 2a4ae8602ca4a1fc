//! Sessions with ring buffers, by hand and in threads.

// Rows: what each shows, those fields that aren't usual, and its moves.
macro_rules! rows {
    ($($shows:literal, $($field:ident: $value:expr),* => { $($moves:tt)* })*) => {
        [$(Row { shows: $shows, $($field: $value,)* moves: moves! { $($moves)* }, ..USUAL }),*]
    };
}

mod by_hand;
mod closes;
mod drained;
mod faults;
mod in_threads;
mod openings;
mod operated;
mod owners;
mod rows;
mod scenes;
mod tape_runs;
mod threads;
mod waiting;
