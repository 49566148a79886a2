//! The forms of results.
ghost use Rattle.std.specs.Prelude.{◌≡◌};
ghost use Rattle.pp_objects.specs.Calls.{HasMethod, form_of};

use pp_core::{Kind, Method};

/// The form of the results of a method.
#[derive(Clone, Copy, Debug, PartialEq, Eq)]
pub enum Form {
    /// There is no result.
    Nothing,
    /// A number.
    Number,
    /// True or false.
    Truth,
    /// A number, or nothing if nothing was found.
    Found,
}

/// The form of the results of a method.
pub fn answer_form(kind: Kind, method: Method) -> Form
    requires { HasMethod kind method }
    ensures { result ≡ form_of kind method }
{
    match method {
        Method::Read | Method::FetchAdd => Form::Number,
        Method::Write | Method::Enq | Method::StackPush | Method::Insert => Form::Nothing,
        Method::Contains | Method::Cas => Form::Truth,
        Method::Put | Method::Deq | Method::StackPop => Form::Found,
        Method::Take | Method::Least => Form::Found,
        Method::Add => match kind {
            Kind::Counter => Form::Nothing,
            Kind::Memory
            | Kind::KeySet
            | Kind::KeyMap
            | Kind::Queue
            | Kind::Stack
            | Kind::PriorityQueue => Form::Truth,
        },
        Method::Remove => match kind {
            Kind::KeyMap => Form::Found,
            Kind::Memory
            | Kind::KeySet
            | Kind::Counter
            | Kind::Queue
            | Kind::Stack
            | Kind::PriorityQueue => Form::Truth,
        },
        Method::Get => match kind {
            Kind::Counter => Form::Number,
            Kind::Memory
            | Kind::KeySet
            | Kind::KeyMap
            | Kind::Queue
            | Kind::Stack
            | Kind::PriorityQueue => Form::Found,
        },
    }
}
