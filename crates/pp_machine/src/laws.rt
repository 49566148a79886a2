//! The laws of the machine, each over every object.
ghost use Rattle.pp_model.specs.Alone.{AloneLaw};
ghost use Rattle.pp_model.specs.AsWritten.{WrittenLaw};
ghost use Rattle.pp_model.specs.Laws.{VerdictLaw, ViewsLaw};
ghost use Rattle.pp_model.specs.Serial.{SimulationLaw};
ghost use Rattle.pp_model.specs.Sound.{KeptLaw, SameStateLaw, SerialLaw};
ghost use Rattle.pp_machine.specs.Shown.{EvidenceLaw};
ghost use Rattle.pp_machine.specs.StartAnswers.{StartEvidenceLaw};
ghost use Rattle.pp_kind.specs.Object.{rules_of};

use pp_kind::Spec;

/// The start is sound, and each step that meets its criteria keeps a configuration sound.
pub fn kept_law<S: Spec>()
    ensures { (shape : S.Shape) → KeptLaw (rules_of S.object shape) }
{}

/// The seven parts of soundness, word by word, say the same as what the proofs use.
pub fn written_law<S: Spec>()
    ensures { (shape : S.Shape) → WrittenLaw (rules_of S.object shape) }
{}

/// After the serial run and the uncommitted entries, all is allowed that is allowed after the
/// shared log.
pub fn serial_law<S: Spec>()
    ensures { (shape : S.Shape) → SerialLaw (rules_of S.object shape) }
{}

/// The committed entries, in the order of the shared log, lead to the state of the serial run.
pub fn same_state_law<S: Spec>()
    ensures { (shape : S.Shape) → SameStateLaw (rules_of S.object shape) }
{}

/// A local log is allowed with its pulled operations put before its own.
pub fn views_law<S: Spec>()
    ensures { (shape : S.Shape) → ViewsLaw (rules_of S.object shape) }
{}

/// An accepted run is simulated by its committed transactions, one after another in commit order.
pub fn simulation_law<S: Spec>()
    ensures { (shape : S.Shape) → SimulationLaw (rules_of S.object shape) }
{}

/// The committed transactions of an accepted run, each alone, make an accepted run.
pub fn alone_law<S: Spec>()
    ensures { (shape : S.Shape) → AloneLaw (rules_of S.object shape) }
{}

/// A run has one verdict at most, and is accepted exactly if the start and each step meet their
/// criteria.
pub fn verdict_law<S: Spec>()
    ensures { (shape : S.Shape) → VerdictLaw (rules_of S.object shape) }
{}

/// The fact of the first false criterion of a step is true for its evidence. If the fact of a
/// criterion is true for a detail that reports something, the criterion is false. Evidence reports
/// operations of the objects alone.
pub fn evidence_law<S: Spec>()
    ensures { (shape : S.Shape) → EvidenceLaw S.object shape }
{}

/// The fact of the first false criterion of a start is true for its evidence. If the fact of a
/// criterion is true for a detail, the criterion is false. The evidence of a start reports no
/// operation.
pub fn start_evidence_law<S: Spec>()
    ensures { (shape : S.Shape) → StartEvidenceLaw S.object shape }
{}
