//! The steps of the transactions, in parts of a pair.
ghost use Rattle.std.specs.Prelude.{◌≡◌, ◌≤◌, ◌<◌, ◌*◌, ◌-◌, [], ◌∷◌, map, None};
ghost use Rattle.pp_core.specs.Steps.{Begin, Pull, Cmt, meaning};
ghost use Rattle.pp_cmd_drill.specs.Drill.{name_of, first_thread, second_thread, id_of};
ghost use Rattle.pp_cmd_drill.specs.Drill.{read, write, add, ask, app, push};
ghost use Rattle.pp_cmd_drill.specs.Drill.{first_apps, second_apps, endings, ending};
ghost use Rattle.pp_cmd_drill.specs.Transactions.{IsNumbered};

use crate::transaction::{Transaction, first_thread, id_of, second_thread};
use pp_core::Step;
use pp_kind_counter::CounterOp;
use pp_kind_memory::MemOp;
use pp_kind_set::SetOp;
use pp_objects::{Act, Op};

/// `m.read(0)=value`
fn read(value: u32) -> Op
    ensures { result ≡ read value }
{
    let value = i64::from(value);
    Op {
        object: 0,
        act: Act::Memory(MemOp::Read { at: 0, value }),
    }
}

/// `m.write(0,value)=none`
fn write(value: u32) -> Op
    ensures { result ≡ write value }
{
    let value = i64::from(value);
    Op {
        object: 0,
        act: Act::Memory(MemOp::Write { at: 0, value }),
    }
}

/// `c.add(number mod 7)=none`
fn add(number: u32) -> Op
    ensures { result ≡ add number }
{
    let by = i64::from(number % 7);
    Op {
        object: 1,
        act: Act::Counter(CounterOp::Add { by }),
    }
}

/// `s.contains(number)=false`
fn ask(number: u32) -> Op
    ensures { result ≡ ask number }
{
    let key = i64::from(number);
    Op {
        object: 2,
        act: Act::KeySet(SetOp::Contains {
            key,
            present: false,
        }),
    }
}

fn app(t: &Transaction, operation: u32, op: Op) -> Step<Op>
    requires numbered { IsNumbered t.now }
    requires operation { operation ≤ 4 }
    ensures { meaning result ≡ app t.now.number operation op }
{
    let id = id_of(t.number, operation);
    Step::App { tx: t.name, id, op }
}

fn push(t: &Transaction, operation: u32) -> Step<Op>
    requires numbered { IsNumbered t.now }
    requires operation { operation ≤ 4 }
    ensures { meaning result ≡ push t.now.number operation }
{
    let id = id_of(t.number, operation);
    Step::Push { tx: t.name, id }
}

fn cmt(t: &Transaction) -> Step<Op>
    requires { IsNumbered t.now }
    ensures { meaning result ≡ Cmt (name_of t.now.number) }
{
    Step::Cmt { tx: t.name }
}

/// The BEGIN of the first transaction of a pair.
pub(crate) fn begin_first(a: &Transaction) -> Step<Op>
    requires { IsNumbered a.now }
    ensures { meaning result ≡ Begin (name_of a.now.number) first_thread None }
{
    Step::Begin {
        tx: a.name,
        thread: first_thread(),
        body: None,
    }
}

/// The BEGIN of the second transaction of a pair.
pub(crate) fn begin_second(b: &Transaction) -> Step<Op>
    requires { IsNumbered b.now }
    ensures { meaning result ≡ Begin (name_of b.now.number) second_thread None }
{
    Step::Begin {
        tx: b.name,
        thread: second_thread(),
        body: None,
    }
}

/// The PULL by which the first transaction of a pair sees the write of the pair before. There are
/// `before` pairs before it, at least one.
pub(crate) fn pull(before: u32, a: &Transaction) -> Step<Op>
    requires numbered { IsNumbered a.now }
    requires some { 1 ≤ before }
    requires few { 2 * before ≤ 20_000 }
    ensures { meaning result ≡ Pull (name_of a.now.number) (id_of (2 * before - 1) 2) }
{
    let id = id_of(2 * before - 1, 2);
    Step::Pull { tx: a.name, id }
}

/// The operations of the first transaction of a pair, after `before` pairs.
pub(crate) fn first_apps(before: u32, a: &Transaction) -> [Step<Op>; 4]
    requires numbered { IsNumbered a.now }
    requires few { before < 20_000 }
    ensures { map meaning result ≡ first_apps before a.now.number }
{
    [
        app(a, 1, read(before)),
        app(a, 2, write(before + 1)),
        app(a, 3, add(a.number)),
        app(a, 4, ask(a.number)),
    ]
}

/// The operations of the second transaction of a pair.
pub(crate) fn second_apps(b: &Transaction) -> [Step<Op>; 2]
    requires { IsNumbered b.now }
    ensures { map meaning result ≡ second_apps b.now.number }
{
    [app(b, 1, add(b.number)), app(b, 2, ask(b.number))]
}

/// The steps that end a pair.
pub(crate) fn endings(a: &Transaction, b: &Transaction) -> [Step<Op>; 8]
    requires first { IsNumbered a.now }
    requires second { IsNumbered b.now }
    ensures { map meaning result ≡ endings a.now.number b.now.number }
{
    [
        push(a, 1),
        push(b, 1),
        push(a, 2),
        push(b, 2),
        push(a, 3),
        push(a, 4),
        cmt(b),
        cmt(a),
    ]
}

/// The steps that end a single transaction.
pub(crate) fn ending(a: &Transaction) -> [Step<Op>; 5]
    requires { IsNumbered a.now }
    ensures { map meaning result ≡ ending a.now.number }
{
    [push(a, 1), push(a, 2), push(a, 3), push(a, 4), cmt(a)]
}
