//! The records of style rules, which are steps of the machine.
ghost use Rattle.std.specs.Prelude.{◌≡◌, IfOk};
ghost use Rattle.serde_json.specs.View.{view};
ghost use Rattle.pp_core.specs.Steps.{meaning, rule_of};
ghost use Rattle.pp_core.specs.declared.step.Rule.TheVariants as rules;
ghost use Rattle.pp_format_read.specs.Reading.{Gives};
ghost use Rattle.pp_format_read.specs.Rules.{begin_of, app_of, unapp_of, push_of, unpush_of, pull_of};
ghost use Rattle.pp_format_read.specs.Rules.{unpull_of, cmt_of, quit_of, note_of, step_of};
ghost use Rattle.pp_format_read.specs.Rules.{IsReadableStep, IsAlwaysReadable};

use crate::body::begin_body;
use crate::fault::RecordFault;
use crate::item::{id_in, item_in};
use crate::members::name_in;
use pp_core::{Catalog, Member, Step};
use pp_objects::Op;
use serde_json::Value;
use std::alloc::Global;

/// A begin, which each style has.
#[tactic(auto, unfolding(crate::specs::Rules::begin_of))]
pub(crate) fn begin_in(
    alloc: Global,
    catalog: &Catalog,
    value: &Value,
) -> Result<Step<Op>, RecordFault>
    ensures reads { Gives meaning result (begin_of catalog.now (view value.now)) }
    ensures begin { IfOk result (λ step. rule_of (meaning step) ≡ rules.Begin) }
    ensures readable { IfOk result (λ step. IsReadableStep catalog.now (meaning step)) }
{
    let tx = name_in(value, Member::Tx)?;
    let thread = name_in(value, Member::Thread)?;
    let body = begin_body(alloc, catalog, value)?;
    Ok(Step::Begin { tx, thread, body })
}

#[tactic(auto, unfolding(crate::specs::Rules::app_of))]
fn app_in(catalog: &Catalog, value: &Value) -> Result<Step<Op>, RecordFault>
    ensures reads { Gives meaning result (app_of catalog.now (view value.now)) }
    ensures readable { IfOk result (λ step. IsReadableStep catalog.now (meaning step)) }
{
    let tx = name_in(value, Member::Tx)?;
    let item = item_in(catalog, value)?;
    Ok(Step::App {
        tx,
        id: item.id,
        op: item.op,
    })
}

#[tactic(auto, unfolding(crate::specs::Rules::unapp_of))]
fn unapp_in(value: &Value) -> Result<Step<Op>, RecordFault>
    ensures reads { Gives meaning result (unapp_of (view value.now)) }
    ensures readable { IfOk result (λ step. IsAlwaysReadable (meaning step)) }
{
    let tx = name_in(value, Member::Tx)?;
    let id = id_in(value)?;
    Ok(Step::Unapp { tx, id })
}

#[tactic(auto, unfolding(crate::specs::Rules::push_of))]
fn push_in(value: &Value) -> Result<Step<Op>, RecordFault>
    ensures reads { Gives meaning result (push_of (view value.now)) }
    ensures readable { IfOk result (λ step. IsAlwaysReadable (meaning step)) }
{
    let tx = name_in(value, Member::Tx)?;
    let id = id_in(value)?;
    Ok(Step::Push { tx, id })
}

#[tactic(auto, unfolding(crate::specs::Rules::unpush_of))]
fn unpush_in(value: &Value) -> Result<Step<Op>, RecordFault>
    ensures reads { Gives meaning result (unpush_of (view value.now)) }
    ensures readable { IfOk result (λ step. IsAlwaysReadable (meaning step)) }
{
    let tx = name_in(value, Member::Tx)?;
    let id = id_in(value)?;
    Ok(Step::Unpush { tx, id })
}

#[tactic(auto, unfolding(crate::specs::Rules::pull_of))]
fn pull_in(value: &Value) -> Result<Step<Op>, RecordFault>
    ensures reads { Gives meaning result (pull_of (view value.now)) }
    ensures readable { IfOk result (λ step. IsAlwaysReadable (meaning step)) }
{
    let tx = name_in(value, Member::Tx)?;
    let id = id_in(value)?;
    Ok(Step::Pull { tx, id })
}

#[tactic(auto, unfolding(crate::specs::Rules::unpull_of))]
fn unpull_in(value: &Value) -> Result<Step<Op>, RecordFault>
    ensures reads { Gives meaning result (unpull_of (view value.now)) }
    ensures readable { IfOk result (λ step. IsAlwaysReadable (meaning step)) }
{
    let tx = name_in(value, Member::Tx)?;
    let id = id_in(value)?;
    Ok(Step::Unpull { tx, id })
}

#[tactic(auto, unfolding(crate::specs::Rules::cmt_of))]
fn cmt_in(value: &Value) -> Result<Step<Op>, RecordFault>
    ensures reads { Gives meaning result (cmt_of (view value.now)) }
    ensures readable { IfOk result (λ step. IsAlwaysReadable (meaning step)) }
{
    let tx = name_in(value, Member::Tx)?;
    Ok(Step::Cmt { tx })
}

#[tactic(auto, unfolding(crate::specs::Rules::quit_of))]
fn quit_in(value: &Value) -> Result<Step<Op>, RecordFault>
    ensures reads { Gives meaning result (quit_of (view value.now)) }
    ensures readable { IfOk result (λ step. IsAlwaysReadable (meaning step)) }
{
    let tx = name_in(value, Member::Tx)?;
    Ok(Step::Quit { tx })
}

#[tactic(auto, unfolding(crate::specs::Rules::note_of))]
fn note_in(value: &Value) -> Result<Step<Op>, RecordFault>
    ensures reads { Gives meaning result (note_of (view value.now)) }
    ensures readable { IfOk result (λ step. IsAlwaysReadable (meaning step)) }
{
    let tx = name_in(value, Member::Tx)?;
    Ok(Step::Note { tx })
}

/// The step of this word.
#[tactic(auto, unfolding(crate::specs::Rules::step_of))]
pub(crate) fn step_in(
    alloc: Global,
    catalog: &Catalog,
    word: &str,
    value: &Value,
) -> Result<Step<Op>, RecordFault>
    ensures reads { Gives meaning result (step_of catalog.now word.now (view value.now)) }
    ensures readable { IfOk result (λ step. IsReadableStep catalog.now (meaning step)) }
{
    match word {
        "begin" => begin_in(alloc, catalog, value),
        "app" => app_in(catalog, value),
        "unapp" => unapp_in(value),
        "push" => push_in(value),
        "unpush" => unpush_in(value),
        "pull" => pull_in(value),
        "unpull" => unpull_in(value),
        "cmt" => cmt_in(value),
        "quit" => quit_in(value),
        "note" => note_in(value),
        _ => Err(RecordFault::UnknownStep),
    }
}
