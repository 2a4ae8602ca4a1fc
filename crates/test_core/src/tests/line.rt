//! Lines of each kind: which bytes come after which frame.

mod counted;
mod rig;
mod rules;
mod stream;
mod tape;
