//! The lines that are written read back. Each law is a fact of the definitions, and does nothing.
ghost use Rattle.std.specs.Prelude.{◌≡◌, ◌≤◌, ◌<◌, ◌++◌, ℕ, List, length, map};
ghost use Rattle.std.specs.Prelude.{Option, None, Ok, false};
ghost use Rattle.pp_core.specs.Catalogs.{Objects};
ghost use Rattle.pp_core.specs.Steps.{Step};
ghost use Rattle.pp_core.specs.declared.call.Style.TheVariants.{Rules};
ghost use Rattle.pp_records.specs.Records.{RunRecord, Plain};
ghost use Rattle.pp_input.specs.Joined.{joined_lines};
ghost use Rattle.pp_input.specs.Limits.{usual_limits};
ghost use Rattle.pp_input.specs.Lines.{blank, numbered_from};
ghost use Rattle.pp_input.specs.Overruns.{overrun, scanned_lines};
ghost use Rattle.pp_format_read.specs.Headers.{header_of};
ghost use Rattle.pp_format_read.specs.Records.{record_of};
ghost use Rattle.pp_format_read.specs.declared.header.Header.{Header};
ghost use Rattle.pp_format_read.specs.declared.start.Start.{Start};
ghost use Rattle.pp_format_write.specs.Headers.{rules_header};
ghost use Rattle.pp_format_write.specs.Lines.{most_bytes};
ghost use Rattle.pp_format_write.specs.RunTexts.{printed_header, run_lines, run_text};
ghost use Rattle.pp_format_write.specs.Statable.{IsCatalog, IsStatable, CanStart, IsStatableRecord};
ghost use Rattle.pp_format_write.specs.Statable.{IsStatableRun};
ghost use Rattle.pp_format_write.specs.Steps.{step_bytes};
ghost use Rattle.pp_model.specs.Lists.{Each};
ghost use Rattle.pp_objects.specs.declared.act.Op.{Op};

/// The line of a header that can be stated, with its start if it has one, is read as that header.
pub fn header_law()
    ensures { (catalog : Objects) (start : Option Start) → IsCatalog catalog
        → CanStart catalog start
        → header_of (printed_header catalog start) ≡ Ok (rules_header catalog start) }
{}

/// The line of a step that can be stated is read as that step.
#[tactic(auto, using(crate::proofs::StepsBack::reads_back))]
pub fn step_law()
    ensures { (header : Header) (step : Step Op) → header.style ≡ Rules → IsCatalog header.catalog
        → IsStatable header.catalog step
        → record_of header (step_bytes header.catalog step) ≡ Ok (Plain step) }
{}

/// The objects and the start of a header that was read can be stated.
pub fn read_header_law()
    ensures objects { (line : List ℕ) (header : Header) → header_of line ≡ Ok header
        → IsCatalog header.catalog }
    ensures start { (line : List ℕ) (header : Header) → header_of line ≡ Ok header
        → CanStart header.catalog header.start }
{}

/// In a record that was read, of any style, the names are names, and its step, or its operation
/// with its id, can be stated.
pub fn read_record_law()
    ensures { (header : Header) (line : List ℕ) (r : RunRecord Op)
        → record_of header line ≡ Ok r → IsStatableRecord header.catalog r }
{}

/// The lines of a header and of a step that can be stated are short.
pub fn length_law()
    ensures header { (catalog : Objects) (start : Option Start) → IsCatalog catalog
        → CanStart catalog start → length (printed_header catalog start) < 60_000 }
    ensures step { (catalog : Objects) (step : Step Op) → IsCatalog catalog
        → IsStatable catalog step → length (step_bytes catalog step) ≤ most_bytes step }
{}

/// If a run can be stated, its text is an input of which each line is examined: the line of its
/// header, numbered 1, and the line of its step i, numbered i + 1. None of these lines is blank,
/// and the input passes no usual limit and has less than 200,000,000 bytes. The text of a run with
/// steps after it is that of the run with their lines after it.
pub fn run_text_law()
    ensures lines { (catalog : Objects) (start : Option Start) (steps : List (Step Op))
        → IsStatableRun catalog start steps
        → scanned_lines usual_limits (run_text catalog start steps)
        ≡ numbered_from 1 (run_lines catalog start steps) }
    ensures shown { (catalog : Objects) (start : Option Start) (steps : List (Step Op))
        → Each (λ line. blank line ≡ false) (run_lines catalog start steps) }
    ensures limits { (catalog : Objects) (start : Option Start) (steps : List (Step Op))
        → IsStatableRun catalog start steps
        → overrun usual_limits (run_text catalog start steps) ≡ None }
    ensures short { (catalog : Objects) (start : Option Start) (steps : List (Step Op))
        → IsStatableRun catalog start steps → length (run_text catalog start steps) < 200_000_000 }
    ensures more { (catalog : Objects) (start : Option Start) (before steps : List (Step Op))
        → run_text catalog start (before ++ steps)
        ≡ run_text catalog start before ++ joined_lines (map (step_bytes catalog) steps) }
{}
