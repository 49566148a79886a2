//! The calls of the kinds, and the operations that records make of them.
ghost use Rattle.std.specs.Prelude.{◌≡◌, ◌↔◌, IsTrue, IsSome, IfSome, None};
ghost use Rattle.pp_core.specs.Words.{named, method_word};
ghost use Rattle.pp_kind.specs.Numbers.{is_ranged_answer};
ghost use Rattle.pp_objects.specs.Calls.{methods_of, HasMethod, HasMethodNamed, method_named};
ghost use Rattle.pp_objects.specs.Calls.{arity_of, value_of, memory_act, set_act, map_act};
ghost use Rattle.pp_objects.specs.Calls.{counter_act, queue_act, stack_act, prio_act};
ghost use Rattle.pp_objects.specs.Calls.{act_made, op_made, IsCallOf, IsOpOf};

use crate::act::{Act, Op};
use pp_core::{Answer, Call, Kind, Method};
use pp_kind::in_range;
use pp_kind_counter::CounterOp;
use pp_kind_map::MapOp;
use pp_kind_memory::MemOp;
use pp_kind_priority::PrioOp;
use pp_kind_queue::QueueOp;
use pp_kind_set::SetOp;
use pp_kind_stack::StackOp;

/// The methods of the objects of a kind.
fn methods(kind: Kind) -> &'static [Method]
    ensures { result.now ≡ methods_of kind }
{
    match kind {
        Kind::Memory => &[Method::Read, Method::Write, Method::Cas],
        Kind::KeySet => &[Method::Add, Method::Remove, Method::Contains],
        Kind::KeyMap => &[Method::Put, Method::Get, Method::Remove],
        Kind::Counter => &[Method::Add, Method::Get, Method::FetchAdd],
        Kind::Queue => &[Method::Enq, Method::Deq],
        Kind::Stack => &[Method::StackPush, Method::StackPop],
        Kind::PriorityQueue => &[Method::Insert, Method::Take, Method::Least],
    }
}

/// The first of these methods with this word.
fn first_named(methods: &[Method], word: &[u8]) -> Option<Method>
    ensures { result ≡ named method_word methods.now word.now }
{
    for method in methods {
        if word == method.word().as_bytes() {
            return Some(*method);
        }
    }
    None
}

/// The method that a kind's objects have under this word.
pub fn method_of(kind: Kind, word: &[u8]) -> Option<Method>
    ensures value { result ≡ method_named kind word.now }
    ensures found { IfSome result (HasMethodNamed kind word.now) }
    ensures none { result ≡ None → (method : Method) → ¬ (HasMethodNamed kind word.now method) }
{
    first_named(methods(kind), word)
}

/// How many arguments a call of this method has.
pub fn arity(kind: Kind, method: Method) -> usize
    requires { HasMethod kind method }
    ensures { result ≡ arity_of kind method }
{
    match method {
        Method::Cas => 3,
        Method::Write | Method::Put => 2,
        Method::Deq | Method::StackPop | Method::Take | Method::Least => 0,
        Method::Get => match kind {
            Kind::Counter => 0,
            _ => 1,
        },
        _ => 1,
    }
}

/// Whether a record may have its number, if it is one.
fn answer_ranged(answer: &Answer) -> bool
    ensures { result ≡ is_ranged_answer answer.now }
{
    match *answer {
        Answer::Number(number) => match i64::try_from(number) {
            Ok(number) => in_range(number),
            Err(_) => false,
        },
        _ => true,
    }
}

fn memory_act(call: &Call, answer: &Answer) -> Option<Act>
    requires { IsTrue (is_ranged_answer answer.now) }
    ensures { result ≡ memory_act call.now.method call.now answer.now }
{
    match (call.method, *answer) {
        (Method::Read, Answer::Number(value)) => Some(Act::Memory(MemOp::Read {
            at: call.first,
            value: value as i64,
        })),
        (Method::Write, Answer::None) => Some(Act::Memory(MemOp::Write {
            at: call.first,
            value: call.second,
        })),
        (Method::Cas, Answer::Truth(done)) => Some(Act::Memory(MemOp::Cas {
            at: call.first,
            expected: call.second,
            new: call.third,
            done,
        })),
        _ => None,
    }
}

fn set_act(call: &Call, answer: &Answer) -> Option<Act>
    ensures { result ≡ set_act call.now.method call.now answer.now }
{
    let key = call.first;
    match (call.method, *answer) {
        (Method::Add, Answer::Truth(changed)) => Some(Act::KeySet(SetOp::Add { key, changed })),
        (Method::Remove, Answer::Truth(changed)) => {
            Some(Act::KeySet(SetOp::Remove { key, changed }))
        }
        (Method::Contains, Answer::Truth(present)) => {
            Some(Act::KeySet(SetOp::Contains { key, present }))
        }
        _ => None,
    }
}

/// The value that a call found, if its result is one.
fn found(answer: &Answer) -> Option<Option<i64>>
    requires { IsTrue (is_ranged_answer answer.now) }
    ensures { result ≡ value_of answer.now }
{
    match *answer {
        Answer::None => Some(None),
        Answer::Number(value) => Some(Some(value as i64)),
        Answer::Truth(_) => None,
    }
}

fn map_act(call: &Call, answer: &Answer) -> Option<Act>
    requires { IsTrue (is_ranged_answer answer.now) }
    ensures { result ≡ map_act call.now.method call.now answer.now }
{
    let key = call.first;
    let found = found(answer)?;
    match call.method {
        Method::Put => Some(Act::KeyMap(MapOp::Put {
            key,
            value: call.second,
            was: found,
        })),
        Method::Get => Some(Act::KeyMap(MapOp::Get { key, found })),
        Method::Remove => Some(Act::KeyMap(MapOp::Remove { key, was: found })),
        _ => None,
    }
}

fn counter_act(call: &Call, answer: &Answer) -> Option<Act>
    requires { IsTrue (is_ranged_answer answer.now) }
    ensures { result ≡ counter_act call.now.method call.now answer.now }
{
    let by = call.first;
    match (call.method, *answer) {
        (Method::Add, Answer::None) => Some(Act::Counter(CounterOp::Add { by })),
        (Method::Get, Answer::Number(value)) => Some(Act::Counter(CounterOp::Get {
            value: value as i64,
        })),
        (Method::FetchAdd, Answer::Number(was)) => Some(Act::Counter(CounterOp::FetchAdd {
            by,
            was: was as i64,
        })),
        _ => None,
    }
}

fn queue_act(call: &Call, answer: &Answer) -> Option<Act>
    requires { IsTrue (is_ranged_answer answer.now) }
    ensures { result ≡ queue_act call.now.method call.now answer.now }
{
    match (call.method, *answer) {
        (Method::Enq, Answer::None) => Some(Act::Queue(QueueOp::Enq { value: call.first })),
        (Method::Deq, Answer::None) => Some(Act::Queue(QueueOp::Deq { value: None })),
        (Method::Deq, Answer::Number(value)) => Some(Act::Queue(QueueOp::Deq {
            value: Some(value as i64),
        })),
        _ => None,
    }
}

fn stack_act(call: &Call, answer: &Answer) -> Option<Act>
    requires { IsTrue (is_ranged_answer answer.now) }
    ensures { result ≡ stack_act call.now.method call.now answer.now }
{
    match (call.method, *answer) {
        (Method::StackPush, Answer::None) => {
            Some(Act::Stack(StackOp::Push { value: call.first }))
        }
        (Method::StackPop, Answer::None) => Some(Act::Stack(StackOp::Pop { value: None })),
        (Method::StackPop, Answer::Number(value)) => Some(Act::Stack(StackOp::Pop {
            value: Some(value as i64),
        })),
        _ => None,
    }
}

fn prio_act(call: &Call, answer: &Answer) -> Option<Act>
    requires { IsTrue (is_ranged_answer answer.now) }
    ensures { result ≡ prio_act call.now.method call.now answer.now }
{
    match (call.method, *answer) {
        (Method::Insert, Answer::None) => {
            Some(Act::PriorityQueue(PrioOp::Insert { value: call.first }))
        }
        (Method::Take, Answer::None) => Some(Act::PriorityQueue(PrioOp::Take { value: None })),
        (Method::Take, Answer::Number(value)) => Some(Act::PriorityQueue(PrioOp::Take {
            value: Some(value as i64),
        })),
        (Method::Least, Answer::None) => Some(Act::PriorityQueue(PrioOp::Least { value: None })),
        (Method::Least, Answer::Number(value)) => Some(Act::PriorityQueue(PrioOp::Least {
            value: Some(value as i64),
        })),
        _ => None,
    }
}

fn act_made(kind: Kind, call: &Call, answer: &Answer) -> Option<Act>
    requires { IsTrue (is_ranged_answer answer.now) }
    ensures { result ≡ act_made kind call.now answer.now }
{
    match kind {
        Kind::Memory => memory_act(call, answer),
        Kind::KeySet => set_act(call, answer),
        Kind::KeyMap => map_act(call, answer),
        Kind::Counter => counter_act(call, answer),
        Kind::Queue => queue_act(call, answer),
        Kind::Stack => stack_act(call, answer),
        Kind::PriorityQueue => prio_act(call, answer),
    }
}

fn op_made(kind: Kind, call: &Call, answer: &Answer) -> Option<Op>
    ensures { result ≡ op_made kind call.now answer.now }
{
    if !answer_ranged(answer) {
        return None;
    }
    let act = act_made(kind, call, answer)?;
    if !act.ranged() {
        return None;
    }
    Some(Op {
        object: call.object,
        act,
    })
}

/// The operation of a call on an object of the kind, with its result, if there is one. Arguments
/// that the method does not have do not count.
pub fn make_op(kind: Kind, call: &Call, answer: &Answer) -> Option<Op>
    ensures value { result ≡ op_made kind call.now answer.now }
    ensures some { IsSome result ↔ IsCallOf kind call.now answer.now }
    ensures made { IfSome result (IsOpOf kind call.now answer.now) }
{
    op_made(kind, call, answer)
}
