//! A step that violates a criterion.
ghost use Rattle.std.specs.Prelude.{◌≡◌, option_map};
ghost use Rattle.pp_machine.specs.declared.detail.Detail.TheVariants.{Nothing};
ghost use Rattle.pp_violations.specs.Searches.{alone_violation, step_violation};

use pp_core::Rule;
use pp_machine::Detail;

/// The first step of a record that violates a criterion.
#[derive(Drop)]
pub struct Violation<O> {
    /// The number of the step among those of the record, from 0.
    pub offset: u64,
    pub rule: Rule,
    /// Its first violated criterion, from 1.
    pub criterion: u8,
    pub detail: Detail<O>,
}

/// The first violated criterion of a step, from 1, with its evidence.
#[derive(Drop)]
pub struct Broken<O> {
    pub criterion: u8,
    pub detail: Detail<O>,
}

/// A violated criterion without evidence.
pub fn bare<O>(criterion: u8) -> Broken<O>
    ensures { result ≡ record { criterion = criterion; detail = Nothing } }
{
    Broken {
        criterion,
        detail: Detail::Nothing,
    }
}

/// The step of this number and rule, which violates the criterion.
pub fn at_step<O>(offset: u64, rule: Rule, broken: Broken<O>) -> Violation<O>
    ensures { result ≡ step_violation offset rule broken }
{
    Violation {
        offset,
        rule,
        criterion: broken.criterion,
        detail: broken.detail,
    }
}

/// The step of this number and rule, if it violates a criterion.
pub fn at_step_if<O>(offset: u64, rule: Rule, broken: Option<Broken<O>>) -> Option<Violation<O>>
    ensures { result ≡ option_map (step_violation offset rule) broken }
{
    match broken {
        None => None,
        Some(broken) => Some(at_step(offset, rule, broken)),
    }
}

/// The violation of a step with this rule whose transaction is not open.
pub fn alone<O>(rule: Rule) -> Violation<O>
    ensures { result ≡ alone_violation rule }
{
    at_step(0, rule, bare(1))
}
