//! Explains what a discovery's exchanges show: whether they certify the reported set, which devices broke a rule of an
//! honest line, and where. All of it is the profile of this project.
#![tactic(auto)]

mod certificate;
mod cover;
mod exchange;
mod firsts;
mod frame;
mod garbled;
mod known;
pub mod laws;
mod order;
mod reported;
mod rule;
mod sighting;
mod standing;
mod stray;
mod tried;
mod uids;
mod watch;

pub use certificate::{KnownFinding, RunFinding, explain_known, explain_run};
pub use cover::{first_uncovered, last_uncovered};
pub use exchange::{Asked, Exchange, Heard, push_exchange, read_exchange};
pub use garbled::first_garbled;
pub use known::{first_not_muted_first, first_unread};
pub use order::{first_failure, first_missing_unmute};
pub use reported::{acknowledged_devices, first_misreported, first_other_data};
pub use rule::{Breach, DeviceFinding, Rule, first_breaches};
pub use sighting::Sighting;
pub use stray::{Judged, judge};
pub use tried::first_untried;
