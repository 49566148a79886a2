//! Laws of reading back the lines of a certificate. Each law is a fact about the definitions: its
//! body is empty.
ghost use Rattle.pp_certificate_lines.specs.Laws.{AcceptedLaw, SpellsLaw};

/// Each line that is written at its place is read there as what it says.
pub fn spells_law()
    ensures { SpellsLaw }
{}

/// The lines of the certificate of a sound configuration are read and accepted.
pub fn accepted_law()
    ensures { AcceptedLaw }
{}
