//! A law of mapped runs: a run without bodies has the same steps and the same verdict when its
//! operations are mapped to operations that are allowed alike. The law is the contract of an empty
//! function, over every two kinds of objects.
#![tactic(auto)]

ghost use Rattle.pp_kind.specs.Object.{rules_of};
ghost use Rattle.pp_laws_mapped.specs.Laws.{MappedLaw};

use pp_kind::Spec;

/// A run has the steps and the verdict of the run that it is mapped to.
pub fn mapped_runs_are_alike<S: Spec, R: Spec>()
    ensures { (shape : S.Shape) (other : R.Shape) →
        MappedLaw (rules_of S.object shape) (rules_of R.object other) }
{}
