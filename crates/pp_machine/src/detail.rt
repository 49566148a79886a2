//! The evidence of a rejection, and why a step is not done.
ghost use Rattle.std.specs.Prelude.{◌≡◌, IfOk, IsTrue};
ghost use Rattle.pp_machine.specs.Evidence.{swap_or};

use pp_core::{Answer, OutOfMemory};
use pp_kind::{Context, Spec};
use std::alloc::Global;
use std::marker::Model;

/// Operations before and after a pair that does not swap, as one pointer. Each step returns it, and
/// it is rarely present. Contracts see it as the operations.
#[derive(Drop)]
pub struct BoxedContext<O> {
    context: Box<Context<O>>,
}

impl<O> Model for BoxedContext<O> {
    ghost use Rattle.pp_kind.specs.declared.spec.Context.{Context as ContextOf};
    ghost use Rattle.std.specs.Coded.{codes};

    ghost Value = { ContextOf O };

    ghost coded = { Prim.hlevel (codes, O.code) };

    ghost view = { λ b. b.context.value };
}

impl<O: Drop> BoxedContext<O> {
    /// These operations. The only error is out of memory.
    fn new(alloc: Global, context: Context<O>) -> Result<BoxedContext<O>, OutOfMemory>
        ensures { IfOk result (λ boxed. boxed ≡ context) }
    {
        let context = Box::new(alloc, context)?;
        Ok(BoxedContext { context })
    }

    /// The operations before the pair, and those after it.
    pub fn get(&self) -> &Context<O>
        ensures { result.now ≡ self.now }
    {
        &self.context
    }
}

/// The evidence that a criterion is false.
#[derive(Drop)]
pub enum Detail<O> {
    /// Nothing but the number of the criterion.
    Nothing,
    /// The first entry that breaks it.
    Entry { id: u32 },
    /// The first operation whose recorded result is not the one that the object returns there.
    Gives { id: u32, answer: Answer },
    /// The first entry whose pair does not swap, and operations round the pair that show it.
    Swap { id: u32, context: BoxedContext<O> },
}

/// Why a step is not done: its first false criterion, from 1, and what shows that it is false.
#[derive(Drop)]
pub struct Refusal<O> {
    pub criterion: u8,
    pub detail: Detail<O>,
}

/// The result of judging a step, if it may take memory.
pub type Judged<A, O> = Result<Result<A, Refusal<O>>, OutOfMemory>;

/// The refusal by a criterion that has no evidence.
pub fn bare<O>(criterion: u8) -> Refusal<O>
    ensures { result ≡ record { criterion = criterion; detail = Detail.Nothing } }
{
    Refusal {
        criterion,
        detail: Detail::Nothing,
    }
}

/// The refusal by a criterion with its evidence.
pub fn told<O>(criterion: u8, detail: Detail<O>) -> Refusal<O>
    ensures { result ≡ record { criterion = criterion; detail = detail } }
{
    Refusal { criterion, detail }
}

/// The evidence that the pair of the entry of this id does not swap. The only error is out of
/// memory.
pub fn swap_detail<S: Spec>(
    alloc: Global,
    id: u32,
    a: &S::Op,
    b: &S::Op,
) -> Result<Detail<S::Op>, OutOfMemory>
    requires first { IsTrue (S.object.ranged a.now) }
    requires second { IsTrue (S.object.ranged b.now) }
    ensures { IfOk result (λ detail. detail
        ≡ swap_or id (S.object.refuting a.now b.now) Detail.Nothing) }
{
    match S::context(alloc, a, b)? {
        Some(context) => Ok(Detail::Swap {
            id,
            context: BoxedContext::new(alloc, context)?,
        }),
        None => Ok(Detail::Nothing),
    }
}
