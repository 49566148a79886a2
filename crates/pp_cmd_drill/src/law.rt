//! Laws of the run that `drill` makes. Each law is a fact about the definitions: its body is
//! empty.
ghost use Rattle.pp_cmd_drill.specs.Law.{DrillLaw};
ghost use Rattle.pp_cmd_drill.specs.Prints.{PrintsLaw};
ghost use Rattle.pp_cmd_drill.specs.Text.{ReadBackLaw};

/// For each number of transactions from 1 to 20,000, the run is accepted, and all its transactions
/// are committed.
pub fn drill_law()
    ensures { DrillLaw }
{}

/// The text of the run is an input within all limits. Its first line is read as the header of the
/// run, and the lines after it as its steps.
pub fn read_back_law()
    ensures { ReadBackLaw }
{}

/// `drill` prints four lines that depend on numbers, and one that never changes. Its run has no
/// fault and consists of the steps of the definition. It has all that `certify` promises for an
/// accepted run.
pub fn prints_law()
    ensures { PrintsLaw }
{}
