//! Texts and a serial run that no command needs. With enough memory, no call returns out of
//! memory.
ghost use Rattle.std.specs.Prelude.{◌≡◌, ◌<◌, [], ◌∷◌, IfOk};
ghost use Rattle.pp_core.specs.declared.call.Kind.TheVariants.{Memory, Counter};
ghost use Rattle.pp_model.specs.Sound.{serial_ops};
ghost use Rattle.pp_objects.specs.Objects.{kinds_of};

use pp_core::{Answer, Catalog, Committed, CommittedTx, Item, Items, Kind, Name, Text, Ticks};
use pp_kind::serial;
use pp_kind_counter::CounterOp;
use pp_kind_memory::MemOp;
use pp_objects::{Act, Objects, Op};
use pp_text::{answer_text, op_text, state_line};
use std::alloc::Global;
use std::marker::Brand;
use std::process::Abort;
use std::sync::ledger::{Blank, Ledger};
use std::test::Fail;

/// Asserts the bytes of a text.
fn assert_text(rt: &impl Abort, text: &Text, bytes: &[u8]) {
    assert_eq!(rt; text.bytes(), bytes);
}

/// Results, and their texts.
const ANSWERS: [(Answer, &[u8]); 4] = [
    (Answer::None, b"none"),
    (Answer::Number(-5), b"-5"),
    (Answer::Truth(true), b"true"),
    (Answer::Truth(false), b"false"),
];

#[test]
fn results_have_their_texts(rt: HostRuntime) -> Result<(), Fail> {
    for (answer, text) in &ANSWERS {
        assert_text(&rt, &answer_text(rt.alloc(), answer)?, text);
    }
    Ok(())
}

/// A write to the first object, a memory.
const WRITES: Op = Op {
    object: 0,
    act: Act::Memory(MemOp::Write { at: 3, value: 9 }),
};

/// An addition to the second object, a counter.
const ADDS: Op = Op {
    object: 1,
    act: Act::Counter(CounterOp::FetchAdd { by: 4, was: 0 }),
};

/// A memory and a counter.
fn objects(rt: &impl Abort, alloc: Global) -> Result<Catalog, Fail>
    ensures { IfOk result (λ catalog. kinds_of catalog ≡ Memory ∷ Counter ∷ []) }
{
    let mut catalog = Catalog::new(alloc);
    let memory = catalog.add(Name::read(b"m").expect(rt, "a name"), Kind::Memory)?;
    assert!(rt; memory);
    let counter = catalog.add(Name::read(b"c").expect(rt, "a name"), Kind::Counter)?;
    assert!(rt; counter);
    Ok(catalog)
}

#[test]
fn operations_have_their_texts(rt: HostRuntime) -> Result<(), Fail> {
    let catalog = objects(&rt, rt.alloc())?;
    let writes = op_text(rt.alloc(), &catalog, &WRITES)?;
    assert_text(&rt, &writes, b"m.write(3,9)=none");
    let adds = op_text(rt.alloc(), &catalog, &ADDS)?;
    assert_text(&rt, &adds, b"c.fetch_add(4)=0");
    Ok(())
}

/// An operation alone.
fn alone(alloc: Global, id: u32, op: Op) -> Result<Items<Op>, Fail>
    ensures { IfOk result (λ entries. entries ≡ record { id = id; op = op } ∷ []) }
{
    let mut entries = Items::new(alloc);
    entries.push(Item { id, op })?;
    Ok(entries)
}

/// Two committed transactions, each of one operation.
fn committed(rt: &impl Abort, alloc: Global) -> Result<Committed<Op>, Fail>
    ensures { IfOk result (λ committed. serial_ops committed ≡ WRITES ∷ ADDS ∷ []) }
{
    let mut committed = Committed::new(alloc);
    let name = Name::read(b"t1").expect(rt, "a name");
    let entries = alone(alloc, 1, WRITES)?;
    committed.push(CommittedTx { name, entries })?;
    let name = Name::read(b"t2").expect(rt, "a name");
    let entries = alone(alloc, 2, ADDS)?;
    committed.push(CommittedTx { name, entries })?;
    Ok(committed)
}

/// Tries the serial run of the two transactions, and the lines of the states that it leaves.
fn try_serial<L: Ledger>(rt: &impl Abort, alloc: Global, blank: Blank) -> Result<(), Fail>
    requires name { blank.name ≡ L.name }
    requires parts { blank.parts ≡ L.parts }
    requires some { 0 < L.parts }
{
    let catalog = objects(rt, alloc)?;
    let kinds = catalog.kinds(alloc)?;
    let transactions = committed(rt, alloc)?;
    let mut ticks = Ticks::<L>::new(blank);
    let (list, states) = serial::<Objects, L>(alloc, &kinds, &transactions, &mut ticks)?;
    assert_eq!(rt; list.as_slice(), [WRITES, ADDS].as_slice());
    let memory = state_line(alloc, &catalog, &states, 0)?;
    assert_text(rt, &memory, b"state m 3=9");
    let counter = state_line(alloc, &catalog, &states, 1)?;
    assert_text(rt, &counter, b"state c 4");
    Ok(())
}

#[test]
fn committed_transactions_have_a_serial_run(rt: HostRuntime) -> Result<(), Fail> {
    try_serial::<Brand>(&rt, rt.alloc(), Blank::new(1))
}
