//! Laws of certificates. Each is a fact of the definitions, and does nothing.
ghost use Rattle.pp_certificate_checker.specs.Laws.{CheckedLaw, TakenLaw, ReadLaw, RowsLaw, CertificateLaw};

use pp_kind::Spec;

/// Lines have one verdict. What an accepted certificate shows is allowed, and is what its lines
/// say.
pub fn checked_law<S: Spec, L>()
    ensures { CheckedLaw S.object L }
{}

/// The invariant that each taken line keeps.
pub fn taken_law<S: Spec>()
    ensures { TakenLaw S.object }
{}

/// After lines that are taken, the verdict is that of the other lines.
pub fn read_law<S: Spec, L>()
    ensures { ReadLaw S.object L }
{}

/// The rows of positions, one after another.
pub fn rows_law()
    ensures { RowsLaw }
{}

/// The certificate of a sound configuration, by the route to its target, is accepted.
pub fn certificate_law<S: Spec, L>()
    ensures { CertificateLaw S.object L }
{}
