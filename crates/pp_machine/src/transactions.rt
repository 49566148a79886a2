//! The transactions of a run.
ghost use Rattle.std.specs.Prelude.{◌≡◌, IfOk, OnOk, OnErr, IfSome, None, Some, [], ◌∷◌, ◌++◌};
ghost use Rattle.std.specs.Prelude.{false};
ghost use Rattle.std.specs.Prelude.{option_map, slice_get};
ghost use Rattle.std.specs.Borrow.{sem};
ghost use Rattle.std.specs.Map.{lookup};
ghost use Rattle.std.specs.Option.{option_copied, option_copied_mut};
ghost use Rattle.std.specs.Str.{bytes_eq};
ghost use Rattle.pp_core.specs.Trees.{IsWithinLimits, tree};
ghost use Rattle.pp_log.specs.Logs.{RemovesEntry};
ghost use Rattle.pp_model.specs.Config.{item, local_ops};
ghost use Rattle.pp_model.specs.Names.{Name as NameOf};
ghost use Rattle.pp_machine.specs.Lending.{LendsCourse};
ghost use Rattle.pp_machine.specs.Removals.{CostsAt, CostsRemoval, RemovesAt, answer_of};
ghost use Rattle.pp_machine.specs.Transactions.{MayLeave, Open, course_of, is_begun, is_busy};
ghost use Rattle.pp_machine.specs.Transactions.{open_at, open_of, with_open, without_open};

use crate::course::Course;
use indexmap::{IndexMap, IndexSet};
use pp_core::{Body, Name, OutOfMemory, Ticks};
use pp_kind::Parted;
use pp_log_local::{Local, Removed};
use std::alloc::Global;
use std::marker::Model;
use std::sync::ledger::Ledger;

/// An open transaction, with its course.
#[derive(Drop)]
pub struct OpenTx<T> {
    pub thread: Name,
    pub course: T,
}

/// The transactions of a run: the names begun, and those that are open. An open transaction is in a
/// box, so that the slot of a name that has ended is narrow.
#[derive(Drop)]
pub struct Transactions<S: Parted> {
    slots: IndexMap<Name, Option<Box<OpenTx<Course<S>>>>>,
    threads: IndexSet<Name>,
}

impl<S: Parted> Model for Transactions<S> {
    ghost use Rattle.pp_machine.specs.Transactions.{Txs, filled, open_of, threads_of, Kept};
    ghost use Rattle.pp_core.specs.TreeCodes.{tree_code};
    ghost use Rattle.std.specs.Coded.{codes};
    ghost use Rattle.std.specs.Map.{keys_of};

    ghost Value = { Txs S.Shape S.Op };

    ghost coded = { Prim.hlevel (codes, tree_code, S.Shape.code, S.Op.code) };

    ghost view = { λ a. record {
      names = keys_of a.slots.entries;
      opened =
          filled (λ n t. open_of n t.value.thread t.value.course.body t.value.course.local)
          a.slots.entries;
    } };

    ghost invariant = { λ a. Kept (keys_of a.slots.entries) a.threads.keys (threads_of
        (filled (λ n t. open_of n t.value.thread t.value.course.body t.value.course.local)
        a.slots.entries)) };
}

/// Sets the slot of a name that has none.
fn put<T: Drop>(
    slots: &mut IndexMap<Name, Option<Box<OpenTx<T>>>>,
    tx: &Name,
    slot: Option<Box<OpenTx<T>>>,
) -> Result<(), OutOfMemory>
    requires { lookup (bytes_eq tx.now) slots.old.entries ≡ None }
    ensures ok { OnOk result (slots.new.entries ≡ slots.old.entries ++ (tx.now, slot) ∷ []) }
    ensures err { OnErr result (slots.new.entries ≡ slots.old.entries) }
{
    slots.insert(*tx, slot)?;
    Ok(())
}

/// Empties a slot, and returns the thread of the transaction in it.
fn empty<T: Drop>(slot: &mut Option<Box<OpenTx<T>>>) -> Option<Name>
    ensures thread { result ≡ option_map (λ t. t.value.thread) slot.old }
    ensures emptied { slot.new ≡ None }
{
    let open = slot.take()?;
    Some(open.thread)
}

/// Puts a transaction into a slot.
fn fill<T: Drop>(slot: &mut Option<Box<OpenTx<T>>>, begun: Box<OpenTx<T>>)
    ensures { slot.new ≡ Some begun }
{
    *slot = Some(begun);
}

/// An open transaction without an entry of its local log, unless the list without it is not
/// allowed. The only error is out of memory, and the transaction is then lost.
fn without<S: Parted, L: Ledger>(
    begun: Box<OpenTx<Course<S>>>,
    i: usize,
    ticks: &mut Ticks<L>,
) -> Result<(Box<OpenTx<Course<S>>>, Removed), OutOfMemory>
    requires { MayLeave begun.value.course.local.1 i }
    ensures thread { IfOk result (λ r. r.0.value.thread ≡ begun.value.thread) }
    ensures body { IfOk result (λ r. r.0.value.course.body ≡ begun.value.course.body) }
    ensures removes { IfOk result (λ r.
        RemovesEntry S.object item begun.value.course.local i r.0.value.course.local r.1) }
    ensures cost { CostsRemoval S.place_of (local_ops begun.value.course.local.1) i
        (answer_of result) ticks.old ticks.new }
{
    // A removal consumes the log, so the transaction leaves its box meanwhile.
    let alloc = *Box::allocator(&begun);
    let OpenTx { thread, course } = Box::into_inner(begun);
    let (course, removed) = course.without(i, ticks)?;
    let left = Box::new(alloc, OpenTx { thread, course })?;
    Ok((left, removed))
}

impl<S: Parted> Transactions<S> {
    /// No transaction.
    pub fn new(alloc: Global) -> Self
        ensures { result ≡ record { names = []; opened = [] } }
    {
        Transactions {
            slots: IndexMap::new(alloc),
            threads: IndexSet::new(alloc),
        }
    }

    /// Whether the name was begun.
    pub fn is_begun(&self, tx: &Name) -> bool
        ensures { result ≡ is_begun self.now tx.now }
    {
        self.slots.contains_key(tx)
    }

    /// Whether an open transaction has this thread.
    pub fn is_busy(&self, thread: &Name) -> bool
        ensures { result ≡ is_busy self.now thread.now }
    {
        self.threads.contains(thread)
    }

    /// The local log of an open transaction.
    pub fn local(&self, tx: &Name) -> Option<&Local<S>>
        ensures { option_copied result ≡ option_map (λ x.
            x.local) (open_at tx.now self.now.opened) }
    {
        let (_place, course) = self.course_at(tx)?;
        Some(course.local())
    }

    /// The course of an open transaction, with the position of its slot.
    pub fn course_at(&self, tx: &Name) -> Option<(usize, &Course<S>)>
        ensures course { option_map (λ r. r.1.now) result
            ≡ option_map course_of (open_at tx.now self.now.opened) }
        ensures place { IfSome result (λ r. slice_get self.now.names r.0 ≡ Some tx.now) }
    {
        let (place, _name, slot) = self.slots.get_full(tx)?;
        let open = slot.as_ref()?;
        Some((place, &open.course))
    }

    /// Lends the course of an open transaction. All else stays.
    pub fn course_mut(&mut self, tx: &Name) -> Option<&mut Course<S>>
        ensures* lends { sem 𝓛 (LendsCourse S.row S.Shape.row S.State.row S.Op.row S.Undo.row
            S.Gap.row S.object S.Bears S.Differ S.place_of S.SameAt S.part_of S.label_of
            S.Op.Clone self.entry tx.now result) }
        ensures course { option_copied_mut result
            ≡ option_map course_of (open_at tx.now self.old.opened) }
    {
        let slot = self.slots.get_mut(tx)?;
        let open = slot.as_mut()?;
        Some(&mut open.course)
    }

    /// Opens a transaction with an empty log. After a refusal of memory the transactions are as
    /// they were.
    pub fn begin(
        &mut self,
        alloc: Global,
        shape: &S::Shape,
        tx: &Name,
        thread: &Name,
        body: &Option<Body>,
    ) -> Result<(), OutOfMemory>
        requires new { is_begun self.old tx.now ≡ false }
        requires idle { is_busy self.old thread.now ≡ false }
        requires within { IsWithinLimits (option_map tree body.now) }
        ensures ok { OnOk result (self.new ≡ with_open (open_of tx.now thread.now
            (option_map tree body.now) (shape.now, [])) self.old) }
        ensures err { OnErr result (self.new ≡ self.old) }
    {
        let course = Course::start(alloc, shape, body)?;
        let begun = OpenTx {
            thread: *thread,
            course,
        };
        let begun = Box::new(alloc, begun)?;
        self.threads.insert(*thread)?;
        match put(&mut self.slots, tx, Some(begun)) {
            Ok(()) => Ok(()),
            Err(memory) => {
                self.threads.swap_remove(thread);
                Err(memory)
            }
        }
    }

    /// Uses a name up, as by a transaction that began and ended. After a refusal of memory the
    /// transactions are as they were.
    pub fn use_name(&mut self, tx: &Name) -> Result<(), OutOfMemory>
        requires { is_begun self.old tx.now ≡ false }
        ensures ok { OnOk result (self.new ≡ record {
          names = self.old.names ++ tx.now ∷ [];
          opened = self.old.opened;
        }) }
        ensures err { OnErr result (self.new ≡ self.old) }
    {
        put(&mut self.slots, tx, None)?;
        Ok(())
    }

    /// Takes an entry out of the local log of the open transaction whose slot is at a position,
    /// unless the list without it is not allowed. The only error is out of memory, and the
    /// transaction is then no longer open.
    pub fn remove_at<L: Ledger>(
        &mut self,
        place: usize,
        i: usize,
        ticks: &mut Ticks<L>,
    ) -> Result<Removed, OutOfMemory>
        requires { (t : NameOf) × (x : Open S.Shape S.Op)
            × (slice_get self.old.names place ≡ Some t) × (open_at t self.old.opened ≡ Some x)
            × MayLeave x.local.1 i }
        ensures removes { (t : NameOf) → slice_get self.old.names place ≡ Some t →
            IfOk result (RemovesAt S.object self.old t i self.new) }
        ensures cost { (t : NameOf) → slice_get self.old.names place ≡ Some t →
            CostsAt S.place_of self.old t i result ticks.old ticks.new }
    {
        let Some(slot) = self.slots.get_index_mut(place) else {
            unreachable!()
        };
        let Some(begun) = slot.take() else {
            unreachable!()
        };
        let thread = begun.thread;
        match without(begun, i, ticks) {
            Ok((left, removed)) => {
                fill(slot, left);
                Ok(removed)
            }
            Err(memory) => {
                self.threads.swap_remove(&thread);
                Err(memory)
            }
        }
    }

    /// Ends the transaction of the slot at a position, if it is open.
    pub fn end_at(&mut self, place: usize)
        ensures ended { (t : NameOf) → slice_get self.old.names place ≡ Some t →
            self.new ≡ without_open t self.old }
        ensures none { slice_get self.old.names place ≡ None → self.new ≡ self.old }
    {
        let Some(slot) = self.slots.get_index_mut(place) else {
            return;
        };
        if let Some(thread) = empty(slot) {
            self.threads.swap_remove(&thread);
        }
    }
}
