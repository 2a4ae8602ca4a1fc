//! Device views: their history, who publishes them, and who reads them. A program names the history by [`ViewHistory`],
//! begins it with [`BlankHistory`], and writes [`Shown`] as the worker's published value. Only measurements use a
//! publisher and a reader directly.

pub(crate) mod history;
pub(crate) mod publishing;
pub(crate) mod reading;

pub use history::{BlankHistory, ViewHistory};
pub use publishing::{Publisher, Shown};
pub use reading::ViewReader;
