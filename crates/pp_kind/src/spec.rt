//! The traits of a kind: its calls, each with its meaning, and the laws of every kind.
ghost use Rattle.std.specs.Prelude.{◌≡◌, ◌≢◌, ◌+◌, ℕ, false, IsTrue, IfOk, OnOk, OnErr, ◌↔◌};
ghost use Rattle.pp_model.specs.Object.{TellsStates};
ghost use Rattle.pp_kind.specs.Object.{Object, Swaps, SwapsNowhere, FitNowhere};
ghost use Rattle.pp_kind.specs.Object.{Commutes, IsReached, IsLawful, IsPlaced, UndoneBehindOthers, rules_of};
ghost use Rattle.pp_kind.specs.Calls.{Applies, WasApplied, lists_of};

use pp_core::{Answer, Call, Ops, OutOfMemory, Ticks};
use std::alloc::Global;
use std::sync::ledger::Ledger;

/// The outcome of `apply`.
#[derive(Drop)]
pub enum Applied<U> {
    /// The operation took effect, and this takes it back.
    Done(U),
    /// The object returns another result than the recorded one, and stays as it was.
    Differs,
}

/// Operations before and after a pair that does not swap, which show it: between them the pair is
/// allowed in this order, and not in the other.
#[derive(Drop)]
pub struct Context<O> {
    pub before: Ops<O>,
    pub after: Ops<O>,
}

/// A kind of objects. Each operation carries its recorded result. The attempts of a run and the
/// certificates require only this.
pub trait Spec: Drop {
    /// Which objects there are.
    type Shape: Drop;

    /// The objects of a shape, as some operations left them.
    type State: Drop;

    /// A call with its recorded result.
    type Op: Copy;

    /// The undo value that `apply` keeps for `undo`.
    type Undo: Drop;

    /// The meaning of the kind.
    ghost object: { Object Self.Shape Self.State Self.Op Self.Undo };

    /// The objects before any operation. The only error is out of memory.
    fn empty(alloc: Global, shape: &Self::Shape) -> Result<Self::State, OutOfMemory>
        ensures { IfOk result (λ s. s ≡ object.start shape.now) };

    /// Whether the operation is one of these objects.
    fn fits(shape: &Self::Shape, op: &Self::Op) -> bool
        ensures { result ≡ object.fits shape.now op.now };

    /// Whether all its numbers, the recorded result included, may be in a record.
    fn ranged(op: &Self::Op) -> bool
        ensures { result ≡ object.ranged op.now };

    /// The result that it records.
    fn recorded(op: &Self::Op) -> Answer
        ensures { result ≡ object.recorded op.now };

    /// The result that the object returns for its call.
    fn gives(state: &Self::State, op: &Self::Op) -> Answer
        requires { IsTrue (object.fits (object.shape state.now) op.now) }
        ensures { result ≡ object.gives state.now op.now };

    /// Whether the object returns the recorded result.
    fn legal(state: &Self::State, op: &Self::Op) -> bool
        requires { IsTrue (object.fits (object.shape state.now) op.now) }
        ensures { IsTrue result ↔ (object.gives state.now op.now ≡ object.recorded op.now) };

    /// Applies the operation if it is legal. The only error is out of memory.
    fn apply<L: Ledger>(
        state: &mut Self::State,
        op: &Self::Op,
        ticks: &mut Ticks<L>,
    ) -> Result<Applied<Self::Undo>, OutOfMemory>
        requires fits { IsTrue (object.fits (object.shape state.old) op.now) }
        requires ranged { IsTrue (object.ranged op.now) }
        requires reached { IsReached object state.old }
        ensures applied { Applies object state.old op.now result state.new }
        ensures cost { ticks.new ≡ ticks.old + 1 };

    /// Takes the operation back that left this state. The only error is out of memory.
    fn undo<L: Ledger>(
        state: &mut Self::State,
        op: &Self::Op,
        undo: Self::Undo,
        ticks: &mut Ticks<L>,
    ) -> Result<(), OutOfMemory>
        requires { WasApplied object op.now undo state.old }
        ensures ok { OnOk result (state.new ≡ object.upkeep.back state.old op.now undo) }
        ensures err { OnErr result (state.new ≡ state.old) }
        ensures cost { ticks.new ≡ ticks.old + 1 };

    /// Whether the second moves left over the first: wherever the first is followed by the second,
    /// the second may come before the first instead.
    fn swaps(a: &Self::Op, b: &Self::Op) -> bool
        ensures swaps { IsTrue result → Swaps object a.now b.now }
        ensures only { Swaps object a.now b.now → IsTrue result }
        ensures never { result ≡ false → SwapsNowhere object a.now b.now };

    /// Operations that show that the pair does not swap, or `None` if it does. The only error is
    /// out of memory.
    fn context(
        alloc: Global,
        a: &Self::Op,
        b: &Self::Op,
    ) -> Result<Option<Context<Self::Op>>, OutOfMemory>
        requires first { IsTrue (object.ranged a.now) }
        requires second { IsTrue (object.ranged b.now) }
        ensures lists { IfOk result (λ found. lists_of found ≡ object.refuting a.now b.now) };

    /// The laws of the kind.
    ghost lawful: { IsLawful object };
}

/// A kind of several objects. Each operation has one object, looks at it only, and changes no
/// other. Laws about places require only this. A log requires it to find the operations of one
/// object.
pub trait Placed: Spec {
    /// The place of an operation's object.
    ghost place_of: { Self.Op → ℕ };

    /// The object at this place is the same in both states.
    ghost SameAt: { ℕ → Self.State → Self.State → Type 0 };

    /// The place of its object.
    fn place(op: &Self::Op) -> u16
        ensures { result ≡ place_of op.now };

    /// Its call, without the recorded result.
    fn call(op: &Self::Op) -> Call
        ensures { result ≡ Self.object.call op.now };

    /// The laws of places.
    ghost placed: { IsPlaced Self.object place_of SameAt };
}

/// Operations that commute in each state that is reached swap.
pub fn commuting_operations_swap<S: Spec>()
    ensures { (a b : S.Op) → Commutes S.object a b → Swaps S.object a b }
{}

/// Two lists lead to one state if the first is allowed, and all that is allowed after it is allowed
/// after the second.
pub fn futures_tell_states<S: Spec>()
    ensures { (shape : S.Shape) → TellsStates (rules_of S.object shape) }
{}

/// Operations that no shape fits together swap.
pub fn unfitting_operations_swap<S: Spec>()
    ensures { (a b : S.Op) → FitNowhere S.object a b → Swaps S.object a b }
{}

/// Operations of different places swap.
pub fn other_places_swap<S: Placed>()
    ensures { (a b : S.Op) → S.place_of a ≢ S.place_of b → Swaps S.object a b }
{}

/// An operation may be seen as the last one after those of other places, and is taken back there
/// with the undo value that was kept when it was applied, which is what would be kept there.
pub fn undone_behind_others<S: Placed>()
    ensures { UndoneBehindOthers S.object S.place_of }
{}
