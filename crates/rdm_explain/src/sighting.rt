//! The first of the exchanges of a kind, and how many others come after it.
ghost use Rattle.std.specs.Prelude.{◌≡◌, ◌<◌, ◌^◌};
ghost use Rattle.rdm_explain.specs.body.Noting.{noted, AreFew};

/// The first of the exchanges of a kind.
#[derive(Clone, Copy, Debug)]
pub struct Sighting {
    /// Its index. The first of all exchanges has 0.
    pub at: usize,
    /// How many others of the kind come after it.
    pub more: usize,
}

/// With another exchange, the one at this index, if it is of the kind.
pub(crate) fn noted(found: Option<Sighting>, at: usize, is_one: bool) -> Option<Sighting>
    requires counted { AreFew at found }
    requires few { at < 2 ^ 63 }
    ensures { result ≡ noted at is_one found }
{
    match found {
        found if !is_one => found,
        None => Some(Sighting { at, more: 0 }),
        Some(first) => {
            Some(Sighting {
                more: first.more + 1,
                ..first
            })
        }
    }
}
