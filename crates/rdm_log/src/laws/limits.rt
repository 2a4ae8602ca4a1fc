//! The limits of the code are those of the definitions.
ghost use Rattle.std.specs.Prelude.{◌≡◌, ◌^◌};
ghost use Rattle.rdm_log.specs.declared.config.TheConstants.{MOST_PLACES};
ghost use Rattle.rdm_log.specs.declared.entry.TheConstants.{MOST_CLIENTS, MOST_DISCOVERIES};
ghost use Rattle.rdm_log.specs.declared.entry.TheConstants.{NEVER_GIVEN, NEVER_GIVEN_TO_A_DISCOVERY};
ghost use Rattle.rdm_log.specs.declared.log.TheConstants.{LEAST_FREE, MOST_ENTRIES, MOST_FREE_ENTRIES};

/// Definitions have the limits as numbers, and the code has them as constants. This law relates them: each
/// constant is the number that the definitions have.
pub fn limits_are()
    ensures clients { MOST_CLIENTS ≡ 16 }
    ensures places { MOST_PLACES ≡ 4080 }
    ensures discoveries { MOST_DISCOVERIES ≡ 4 }
    ensures never_given { NEVER_GIVEN ≡ 18446744073709551615 }
    ensures never_given_to_a_discovery { NEVER_GIVEN_TO_A_DISCOVERY ≡ 18446744073709551614 }
    ensures free_entries { MOST_FREE_ENTRIES ≡ 1000000 }
    ensures least_free { LEAST_FREE ≡ 3 }
    ensures entries { MOST_ENTRIES ≡ 2 ^ 62 }
{}
