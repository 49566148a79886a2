//! Laws of the definitions: what every input of records that are steps has, and the limits.
ghost use Rattle.std.specs.Prelude.{◌≡◌};
ghost use Rattle.pp_core.specs.declared.limits.TheConstants.{LONGEST_LINE, LONGEST_NAME};
ghost use Rattle.pp_core.specs.declared.limits.TheConstants.{MOST_BODY_NODES, MOST_BYTES};
ghost use Rattle.pp_core.specs.declared.limits.TheConstants.{MOST_DEPTH, MOST_LINES, MOST_OBJECTS};
ghost use Rattle.pp_core.specs.declared.limits.TheConstants.{MOST_START, MOST_STEPS};
ghost use Rattle.pp_core.specs.declared.limits.TheConstants.{MOST_SWAPS, MOST_TRANSACTIONS};
ghost use Rattle.pp_core.specs.declared.limits.TheConstants.{MOST_VIEWED};
ghost use Rattle.pp_records.specs.Effects.{BackLaw, PullsLaw, PushallLaw};
ghost use Rattle.pp_records.specs.Inputs.{InputLaw};
ghost use Rattle.pp_records.specs.Laws.{ExtendsLaw, OneRunLaw};
ghost use Rattle.pp_records.specs.PlainInputs.{AreStyled, PlainInputLaw};
ghost use Rattle.pp_records.specs.Styles.{RestatedLaw, RulesLaw};
ghost use Rattle.pp_format_read.specs.declared.header.Header.{Header as HeaderOf};
ghost use Rattle.pp_input_reader.specs.declared.cause.Cause.TheVariants.{TooManySteps};
ghost use Rattle.pp_judge.specs.Objects.{object_of, setting_of, translation_of};
ghost use Rattle.pp_judge.specs.WiderLimits.{WiderLimitsLaw};

/// The records after a header cannot be without a run, and have one at most. In style rules each
/// record is a step, and the run is these steps up to the first that fails, with their verdict. Of
/// at most 200,000 such records the number of steps is never a fault. It is a law of the
/// definitions, and does nothing.
pub fn records_are_steps()
    ensures one_run { (header : HeaderOf) → OneRunLaw (object_of header) (translation_of header) }
    ensures steps { (header : HeaderOf) → RulesLaw (object_of header) }
    ensures styled { AreStyled setting_of }
    ensures plain { PlainInputLaw setting_of TooManySteps }
{}

/// Records behind others only extend their run; a run that is rejected stays, and so does that it
/// has too many steps. An input has one fault and one report at most, and its fault stays,
/// whatever lines come behind. The steps of a run restated as records have the same run and verdict.
/// And what taking back, pulls and pushing all leave in a local log. It is a law of the definitions,
/// and does nothing.
pub fn records_extend()
    ensures extends { (header : HeaderOf) →
        ExtendsLaw (object_of header) (translation_of header) }
    ensures restated { (header : HeaderOf) →
        RestatedLaw (object_of header) (translation_of header) }
    ensures input { InputLaw setting_of TooManySteps }
    ensures back { (header : HeaderOf) → BackLaw (object_of header) }
    ensures pulls { (header : HeaderOf) → PullsLaw (object_of header) }
    ensures pushall { (header : HeaderOf) → PushallLaw (object_of header) }
{}

/// The limits of an input and of what is printed, by their numbers. It is a law of the definitions,
/// which name them, and does nothing.
pub fn limits_law()
    ensures bytes { MOST_BYTES ≡ 268_435_456 }
    ensures lines { MOST_LINES ≡ 200_001 }
    ensures line { LONGEST_LINE ≡ 65_536 }
    ensures objects { MOST_OBJECTS ≡ 256 }
    ensures start { MOST_START ≡ 256 }
    ensures transactions { MOST_TRANSACTIONS ≡ 20_000 }
    ensures steps { MOST_STEPS ≡ 200_000 }
    ensures nodes { MOST_BODY_NODES ≡ 64 }
    ensures depth { MOST_DEPTH ≡ 16 }
    ensures name { LONGEST_NAME ≡ 24 }
    ensures swaps { MOST_SWAPS ≡ 1_000_000 }
    ensures viewed { MOST_VIEWED ≡ 2_000_000 }
{}

/// An input that has not too many lines, bytes or transactions is the same under limits that allow
/// more. It is a law of the definitions, and does nothing.
pub fn wider_limits_law()
    ensures { WiderLimitsLaw }
{}
