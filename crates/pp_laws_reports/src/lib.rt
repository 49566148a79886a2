//! Laws of reports: every input has one, and the committed transactions can be read back from it.
#![tactic(auto)]

ghost use Rattle.pp_laws_reports.specs.Defined.{DefinedLaws};
ghost use Rattle.pp_laws_reports.specs.Readable.{CertifyLaw, QuickLaw, ReportLaw, TextLaw};

/// Two different lists of committed transactions never have the same report. This is a law of the
/// definitions: the body is empty.
pub fn reports_are_readable()
    ensures texts { TextLaw }
    ensures reports { ReportLaw }
    ensures certify { CertifyLaw }
    ensures quick { QuickLaw }
{}

/// For each command and every input, a status and a text are defined. This is a law of the
/// definitions: the body is empty.
pub fn every_input_has_an_output()
    ensures { DefinedLaws }
{}
