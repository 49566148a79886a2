//! Laws of accepted and of rejected runs: their prefixes, their real time, and which criteria can be
//! violated in the recorded styles.
#![tactic(auto)]

ghost use Rattle.std.specs.Prelude.{ℕ, List};
ghost use Rattle.pp_core.specs.declared.call.Kind.{Kind};
ghost use Rattle.pp_core.specs.declared.call.Style.{Style};
ghost use Rattle.pp_records.specs.Styles.{translation};
ghost use Rattle.pp_kind.specs.Object.{rules_of};
ghost use Rattle.pp_laws_runs.specs.Breakable.{BreakableLaw};
ghost use Rattle.pp_laws_runs.specs.Lines.{LinesLaw, RecordsLaw};
ghost use Rattle.pp_laws_runs.specs.Prefixes.{CertifiedPrefixLaw, FirstLineLaw, PrefixLaw};
ghost use Rattle.pp_laws_runs.specs.RealTime.{RealTimeLaw};
ghost use Rattle.pp_laws_runs.specs.Reported.{ReportedLaw};
ghost use Rattle.pp_laws_runs.specs.Timely.{CertifiedTimelyLaw, RisingLaw, TimelyLaw};

use pp_kind::{Placed, Spec};

/// A prefix of an accepted input is accepted without a fault if it has the whole line of the header
/// and ends after a byte 10. Its run is the first steps of the whole run. This is a law of the
/// definitions: the body is empty.
pub fn prefixes_are_accepted()
    ensures prefix { PrefixLaw }
    ensures certified { CertifiedPrefixLaw }
    ensures first_line { FirstLineLaw }
{}

/// In the commit order of an accepted run, a transaction that committed before another began comes
/// before it, and the transactions of a thread come in the order in which they began. `lines` and
/// `records` state this by the lines of an input. This is a law of the definitions: the body is
/// empty.
pub fn real_time_law<S: Spec>()
    ensures steps { (shape : S.Shape) → RealTimeLaw (rules_of S.object shape) }
    ensures lines { (shape : S.Shape) → LinesLaw (rules_of S.object shape) }
    ensures records { (shape : S.Shape) (place : S.Op → ℕ) (style : Style) (kinds : List Kind) →
        RecordsLaw (rules_of S.object shape) (translation place style kinds) }
{}

/// An input that `certify` accepts is timely: its run respects real time by its lines. So is every
/// input of which each step meets its criteria, however many steps it has. This is a law of the
/// definitions: the body is empty.
pub fn accepted_runs_respect_time()
    ensures rising { RisingLaw }
    ensures timely { TimelyLaw }
    ensures certified { CertifiedTimelyLaw }
{}

/// In a run of one of the four recorded styles, the first step that violates a criterion violates
/// one that `breakable` lists for its rule and style. This is a law of the definitions: the body is
/// empty.
pub fn breakable_law<S: Placed>()
    ensures { (shape : S.Shape) → BreakableLaw (rules_of S.object shape) S.place_of }
{}

/// If `certify` or `judge` rejects an input of one of the four recorded styles, then `breakable`
/// lists the criterion that it reports. This is a law of the definitions: the body is empty.
pub fn rejections_are_listed()
    ensures { ReportedLaw }
{}
