//! Laws of arguments, each the contract of a function that does nothing. The definitions are in `specs`.
ghost use Rattle.std.specs.Prelude.{◌≡◌, ℕ, List, [], ◌∷◌, None, true, false, codes};
ghost use Rattle.std.specs.Borrow.{Bor};
ghost use Rattle.rdm_arguments.specs.Arguments.{Asks, AsksNothing, is_plain};

use crate::job::{ExplainJob, Job};

/// A command's name and an argument that doesn't begin with a hyphen give that command, if one argument is enough for
/// it. After `--` the argument may be any text. No arguments, a command's name alone, and requests for help give no
/// job.
pub fn what_words_ask()
    ensures decode { (digits : Bor (List ℕ)) → is_plain digits.now ≡ true
        → Asks (codes "decode" ∷ digits.now ∷ []) (Job.Decode digits) }
    ensures encode { (uid : Bor (List ℕ)) → is_plain uid.now ≡ true
        → Asks (codes "encode" ∷ uid.now ∷ []) (Job.Encode uid) }
    ensures explain { (job : ExplainJob) → is_plain job.log.now ≡ true → job.present.items ≡ [] → job.rig ≡ None
        → job.json ≡ false → Asks (codes "explain" ∷ job.log.now ∷ []) (Job.Explain job) }
    ensures any_word { (digits : Bor (List ℕ))
        → Asks (codes "decode" ∷ codes "--" ∷ digits.now ∷ []) (Job.Decode digits) }
    ensures no_words { AsksNothing [] }
    ensures no_argument { AsksNothing (codes "decode" ∷ []) }
    ensures help { AsksNothing (codes "--help" ∷ []) }
    ensures help_of_command { AsksNothing (codes "decode" ∷ codes "--help" ∷ []) }
{}
