//! How a controller is set up.
ghost use Rattle.std.specs.Prelude.{◌≡◌};
ghost use Rattle.rdm_log.specs.declared.config.Setup.{Setup};
ghost use Rattle.rdm_log.specs.log.Config.{steady};

use rdm_agent::Search;
use rdm_wire::Uid;

/// The greatest value of [`Config::places`]: a queue depth of 255 for each of sixteen clients.
pub const MOST_PLACES: u16 = 4080;

/// How a controller is set up.
#[derive(Clone, Copy, Debug)]
pub struct Config {
    /// The controller's own UID, which must not be broadcast.
    pub source: Uid,
    /// The greatest sum of the clients' queue depths: 0 to [`MOST_PLACES`].
    pub places: u16,
    /// How many frames a discovery run may send: at least 1.
    pub budget: u64,
}

impl Config {
    ghost use Rattle.std.specs.Prelude.{◌≡◌, ◌↔◌, true};
    ghost use Rattle.rdm_log.specs.log.Config.{IsConfig};

    /// Whether a controller may have this configuration: each field is in its range.
    pub fn is_valid(&self) -> bool
        ensures { (result ≡ true) ↔ IsConfig self.now }
    {
        // Only for the proof: a UID's number is below 2^48.
        let _in_range = self.source.number();
        !self.source.is_broadcast() && self.places <= MOST_PLACES && 1 <= self.budget
    }
}

/// How a session is set up: the configuration of its controller, and how the discovery runs search.
#[derive(Clone, Copy, Debug)]
pub struct Setup {
    /// The configuration of the controller.
    pub config: Config,
    /// How all runs search.
    pub search: Search,
}

impl Setup {
    /// The plain set-up with this configuration: runs search steadily.
    pub fn steady(config: Config) -> Setup
        ensures { result ≡ steady config }
    {
        Setup {
            config,
            search: Search::Steady,
        }
    }
}

/// What a session can be set up with: a [`Setup`], or a [`Config`] alone, with which runs search steadily.
pub trait IntoSetup {
    /// The set-up that this stands for.
    ghost setup_of: { Self → Setup };

    /// This as a set-up.
    fn into_setup(self) -> Setup
        ensures { result ≡ setup_of self };
}

impl IntoSetup for Setup {
    ghost setup_of = { λ setup. setup };

    fn into_setup(self) -> Setup {
        self
    }
}

impl IntoSetup for Config {
    ghost setup_of = { steady };

    fn into_setup(self) -> Setup {
        Setup::steady(self)
    }
}
