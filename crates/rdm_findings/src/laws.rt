//! Laws of logs, each the contract of a function that does nothing. The definitions are in `specs`.
ghost use Rattle.std.specs.Prelude.{◌≡◌, List, All};
ghost use Rattle.std.specs.List.{AllZip};
ghost use Rattle.rdm_findings.specs.declared.line.LogLine.{LogLine};
ghost use Rattle.rdm_findings.specs.SameLines.{FitsLine, SaySame};
ghost use Rattle.rdm_findings.specs.Lines.{lines_text};
ghost use Rattle.rdm_findings.specs.Runs.{runs_of};

/// If no number is too great for its field (`FitsLine`), as in each line that [`read_line`](crate::read_line) returns,
/// a log's text is that of one list of lines alone, and so it has one list of runs. Openings of a session may differ in
/// the answers that broke off before them: no text has these.
pub fn one_list_of_lines()
    ensures lines { (a b : List LogLine) → All FitsLine a → All FitsLine b → lines_text a ≡ lines_text b
        → AllZip SaySame a b }
    ensures runs { (a b : List LogLine) → All FitsLine a → All FitsLine b → lines_text a ≡ lines_text b
        → runs_of a ≡ runs_of b }
{}
