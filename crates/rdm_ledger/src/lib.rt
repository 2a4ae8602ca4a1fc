//! Lists that only proofs read, each of which two holders have. What they have always agrees, whatever threads do. They
//! take no memory, and their methods do nothing at run time.
#![tactic(auto)]

mod book;

pub use crate::book::{Blank, Book, Items, Named, Share, Shows};
