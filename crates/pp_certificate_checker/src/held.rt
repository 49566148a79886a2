//! The data that a checker keeps of the lines that were taken.
ghost use Rattle.pp_certificate_checker.specs.Keeping.{IsHeld, GoesOn};

use pp_core::Item;
use pp_kind::Spec;

/// The entries in their present order, and how many exchanges there were.
#[derive(Drop)]
pub(crate) struct Turned<H: Drop, O: Copy> {
    pub(crate) shape: H,
    pub(crate) list: Vec<Item<O>>,
    pub(crate) count: u32,
}

/// The data of the lines that were taken.
#[derive(Drop)]
pub(crate) enum Held<H: Drop, T: Drop, O: Copy> {
    Nothing,
    /// The entries, and the state after them.
    Entries {
        shape: H,
        list: Vec<Item<O>>,
        state: T,
    },
    Exchanges(Turned<H, O>),
    /// The serial number too.
    All(Turned<H, O>, u32),
}

/// The entries, if exchanges and the serial number may come.
pub(crate) fn going_on<S: Spec>(
    held: Held<S::Shape, S::State, S::Op>,
    lines: u32,
) -> Option<Turned<S::Shape, S::Op>>
    requires { IsHeld S.object held lines }
    ensures { GoesOn S.object held lines result }
{
    match held {
        Held::Nothing => None,
        Held::Entries {
            shape,
            list,
            state: _state,
        } => Some(Turned {
            shape,
            list,
            count: 0,
        }),
        Held::Exchanges(turned) => Some(turned),
        Held::All(_turned, _) => None,
    }
}
