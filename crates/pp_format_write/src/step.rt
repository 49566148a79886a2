//! The line of a step.
ghost use Rattle.std.specs.Prelude.{◌≡◌, ◌≤◌, length, codes, option_map, Ok, IfOk};
ghost use Rattle.serde_json.specs.Data.{object};
ghost use Rattle.serde_json.specs.View.{view};
ghost use Rattle.pp_core.specs.Names.{IsName};
ghost use Rattle.pp_core.specs.Steps.{meaning};
ghost use Rattle.pp_core.specs.Trees.{tree};
ghost use Rattle.pp_core.specs.declared.call.Style.TheVariants.{Rules};
ghost use Rattle.pp_records.specs.Records.{Plain};
ghost use Rattle.pp_format_read.specs.Records.{record_of};
ghost use Rattle.pp_format_read.specs.declared.header.Header.{Header};
ghost use Rattle.pp_format_write.specs.Lines.{IsOneLine};
ghost use Rattle.pp_format_write.specs.Operations.{op_members};
ghost use Rattle.pp_format_write.specs.Statable.{IsKnown, IsOpOn, EachCall, IfGiven};
ghost use Rattle.pp_format_write.specs.Statable.{IsNamed, IsStatable, IsWritable};
ghost use Rattle.pp_format_write.specs.Steps.{tx_members, tx_value, entry_value, begin_members};
ghost use Rattle.pp_format_write.specs.Steps.{step_value, step_bytes};

use crate::body::body_value;
use crate::call::{answer_value, call_value};
use crate::line::line_of;
use crate::name::{name_at, name_text};
use pp_core::{Body, Catalog, Name, OutOfMemory, Step, Text};
use pp_objects::Op;
use serde_json::{Value, json};
use std::alloc::Global;

fn begin_value(
    alloc: Global,
    catalog: &Catalog,
    tx: &Name,
    thread: &Name,
    body: &Option<Body>,
) -> Result<Value, OutOfMemory>
    requires { IfGiven (EachCall (IsKnown catalog.now)) (option_map tree body.now) }
    ensures value { IfOk result (λ value. view value ≡ object
        (begin_members catalog.now tx.now thread.now (option_map tree body.now))) }
    ensures named { IsName tx.now × IsName thread.now }
{
    let (tx, thread) = (name_text(tx), name_text(thread));
    let value = match body {
        None => json!(in alloc; {"step": "begin", "thread": thread, "tx": tx})?,
        Some(body) => {
            let body = body_value(alloc, catalog, body)?;
            json!(in alloc; {"body": body, "step": "begin", "thread": thread, "tx": tx})?
        }
    };
    Ok(value)
}

#[tactic(auto, using(crate::proofs::Operations::few, crate::proofs::Operations::there, crate::proofs::Operations::answer_ranged))]
fn app_value(
    alloc: Global,
    catalog: &Catalog,
    tx: &Name,
    id: u32,
    op: &Op,
) -> Result<Value, OutOfMemory>
    requires { IsOpOn catalog.now op.now }
    ensures value { IfOk result (λ value. view value
        ≡ object (op_members catalog.now id op.now (tx_members (codes "app") tx.now))) }
    ensures named { IfOk result (λ _. IsName tx.now) }
{
    let call = op.act.call();
    let args = call_value(alloc, op.act.arity(), &call)?;
    let on = name_at(catalog, op.object);
    Ok(json!(in alloc; {
        "args": args,
        "call": call.method.word(),
        "id": id,
        "on": name_text(&on),
        "result": answer_value(&op.act.recorded()),
        "step": "app",
        "tx": name_text(tx),
    })?)
}

fn entry_value(alloc: Global, word: &str, tx: &Name, id: u32) -> Result<Value, OutOfMemory>
    ensures value { IfOk result (λ value. view value ≡ entry_value word.now tx.now id) }
    ensures named { IfOk result (λ _. IsName tx.now) }
{
    Ok(json!(in alloc; {"id": id, "step": word, "tx": name_text(tx)})?)
}

fn tx_value(alloc: Global, word: &str, tx: &Name) -> Result<Value, OutOfMemory>
    ensures value { IfOk result (λ value. view value ≡ tx_value word.now tx.now) }
    ensures named { IfOk result (λ _. IsName tx.now) }
{
    Ok(json!(in alloc; {"step": word, "tx": name_text(tx)})?)
}

fn step_value(alloc: Global, catalog: &Catalog, step: &Step<Op>) -> Result<Value, OutOfMemory>
    requires { IsWritable catalog.now (meaning step.now) }
    ensures value { IfOk result (λ value. view value ≡ step_value catalog.now (meaning step.now)) }
    ensures named { IfOk result (λ _. IsNamed (meaning step.now)) }
{
    match step {
        Step::Begin { tx, thread, body } => begin_value(alloc, catalog, tx, thread, body),
        Step::App { tx, id, op } => app_value(alloc, catalog, tx, *id, op),
        Step::Unapp { tx, id } => entry_value(alloc, "unapp", tx, *id),
        Step::Push { tx, id } => entry_value(alloc, "push", tx, *id),
        Step::Unpush { tx, id } => entry_value(alloc, "unpush", tx, *id),
        Step::Pull { tx, id } => entry_value(alloc, "pull", tx, *id),
        Step::Unpull { tx, id } => entry_value(alloc, "unpull", tx, *id),
        Step::Cmt { tx } => tx_value(alloc, "cmt", tx),
        Step::Quit { tx } => tx_value(alloc, "quit", tx),
        Step::Note { tx } => tx_value(alloc, "note", tx),
    }
}

/// The line of a step as a record of style rules, without a line end. It reads back as that step
/// after a header with these objects, if a record may have the step. The only error is out of
/// memory.
#[tactic(auto, using(crate::proofs::Steps::no_float, crate::proofs::Steps::one_line))]
pub fn step_line(alloc: Global, catalog: &Catalog, step: &Step<Op>) -> Result<Text, OutOfMemory>
    requires { IsWritable catalog.now (meaning step.now) }
    ensures text { IfOk result (λ text. text ≡ step_bytes catalog.now (meaning step.now)) }
    ensures back { IfOk result (λ text. (header : Header) → header.style ≡ Rules →
        header.catalog ≡ catalog.now → IsStatable catalog.now (meaning step.now) →
        record_of header text ≡ Ok (Plain (meaning step.now))) }
    ensures one_line { IfOk result IsOneLine }
{
    // It is here for what its clauses say of each catalog.
    let _named = catalog.len();
    let value = step_value(alloc, catalog, step)?;
    line_of(alloc, &value)
}
