//! The serial run of the committed transactions, after any number of them.
ghost use Rattle.std.specs.Prelude.{◌≡◌, ◌+◌, ◌-◌, ◌<◌, ◌≤◌, IfOk, List, OnOk, length, take};
ghost use Rattle.pp_model.specs.Config.{CommittedTx as TxOf};
ghost use Rattle.pp_model.specs.Sound.{serial_ops};
ghost use Rattle.pp_opacity.specs.Trials.{IsAt, IsSerial};

use crate::trial::{apply_list, take_back};
use pp_core::{CommittedTx, OutOfMemory, Ticks};
use pp_kind::Spec;
use std::alloc::Global;
use std::sync::ledger::Ledger;

/// The state after the first so many committed transactions, with what takes their operations back.
#[derive(Drop)]
pub(crate) struct Serial<T, U> {
    pub(crate) state: T,
    pub(crate) undos: Vec<U>,
    pub(crate) count: usize,
}

/// The serial run before any transaction.
pub(crate) fn start<S: Spec>(
    alloc: Global,
    shape: &S::Shape,
) -> Result<Serial<S::State, S::Undo>, OutOfMemory>
    ensures at { IfOk result (λ serial. (committed : List (TxOf S.Op))
        → IsAt S.object shape.now committed serial) }
    ensures none { IfOk result (λ serial. serial.count ≡ 0) }
{
    Ok(Serial {
        state: S::empty(alloc, shape)?,
        undos: Vec::new(alloc),
        count: 0,
    })
}

/// Adds the next transaction.
pub(crate) fn advance<S: Spec, L: Ledger>(
    serial: &mut Serial<S::State, S::Undo>,
    committed: &[CommittedTx<S::Op>],
    ticks: &mut Ticks<L>,
) -> Result<(), OutOfMemory>
    requires there { serial.old.count < length committed.now }
    requires at { (shape : S.Shape) × IsSerial S.object shape committed.now
        × IsAt S.object shape committed.now serial.old }
    ensures at { OnOk result ((shape : S.Shape) → IsSerial S.object shape committed.now
        → IsAt S.object shape committed.now serial.old
        → IsAt S.object shape committed.now serial.new) }
    ensures count { OnOk result (serial.new.count ≡ serial.old.count + 1) }
    ensures rises { ticks.old ≤ ticks.new }
    ensures cost { ticks.new + length (serial_ops (take serial.old.count committed.now))
        ≤ ticks.old + length (serial_ops (take (serial.old.count + 1) committed.now)) }
{
    let transaction = &committed[serial.count];
    let items = transaction.entries.as_slice();
    let _ = apply_list::<S, L>(&mut serial.state, &mut serial.undos, items, ticks)?;
    serial.count += 1;
    Ok(())
}

/// Takes the last transaction back.
pub(crate) fn retreat<S: Spec, L: Ledger>(
    serial: &mut Serial<S::State, S::Undo>,
    committed: &[CommittedTx<S::Op>],
    ticks: &mut Ticks<L>,
) -> Result<(), OutOfMemory>
    requires some { 0 < serial.old.count }
    requires at { (shape : S.Shape) × IsSerial S.object shape committed.now
        × IsAt S.object shape committed.now serial.old }
    ensures at { OnOk result ((shape : S.Shape) → IsSerial S.object shape committed.now
        → IsAt S.object shape committed.now serial.old
        → IsAt S.object shape committed.now serial.new) }
    ensures count { OnOk result (serial.new.count + 1 ≡ serial.old.count) }
    ensures rises { ticks.old ≤ ticks.new }
    ensures cost { ticks.new + length (serial_ops (take (serial.old.count - 1) committed.now))
        ≤ ticks.old + length (serial_ops (take serial.old.count committed.now)) }
{
    serial.count -= 1;
    let transaction = &committed[serial.count];
    let items = transaction.entries.as_slice();
    take_back::<S, L>(&mut serial.state, &mut serial.undos, items, ticks)?;
    Ok(())
}

/// Adds transactions until there are this many.
pub(crate) fn advance_to<S: Spec, L: Ledger>(
    serial: &mut Serial<S::State, S::Undo>,
    committed: &[CommittedTx<S::Op>],
    count: usize,
    ticks: &mut Ticks<L>,
) -> Result<(), OutOfMemory>
    requires below { serial.old.count ≤ count }
    requires within { count ≤ length committed.now }
    requires at { (shape : S.Shape) × IsSerial S.object shape committed.now
        × IsAt S.object shape committed.now serial.old }
    ensures at { OnOk result ((shape : S.Shape) → IsSerial S.object shape committed.now
        → IsAt S.object shape committed.now serial.old
        → IsAt S.object shape committed.now serial.new) }
    ensures count { OnOk result (serial.new.count ≡ count) }
    ensures rises { ticks.old ≤ ticks.new }
    ensures cost { ticks.new + length (serial_ops (take serial.old.count committed.now))
        ≤ ticks.old + length (serial_ops (take count committed.now)) }
{
    while serial.count < count {
        advance::<S, L>(serial, committed, ticks)?;
    }
    Ok(())
}
