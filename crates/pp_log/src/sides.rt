//! The two sides that have a log: a transaction, and the run.
ghost use Rattle.std.specs.Prelude.{◌≡◌};
ghost use Rattle.pp_core.specs.declared.entry.Item.{Item as ItemOf};
ghost use Rattle.pp_model.specs.Config.{item, shared_item};
ghost use Rattle.pp_log.specs.TakesOut.{itself};

use pp_core::{Item, LocalEntry, SharedEntry};

/// The side of a log: local or shared. It says what an entry is; a log knows only its id and
/// operation.
pub trait Side<O: Copy> {
    /// An entry of the log.
    type Entry: Copy;

    ghost item_of: { Self.Entry → ItemOf O };

    /// The id of an entry with its operation.
    fn item(entry: &Self::Entry) -> Item<O>
        ensures { result ≡ item_of entry.now };

    /// The operation of an entry, lent and not copied.
    fn op(entry: &Self::Entry) -> &O
        ensures { result.now ≡ (item_of entry.now).op };
}

/// The side of a transaction, with its own log.
#[derive(Drop)]
pub struct LocalSide;

/// The side of the log that all transactions share.
#[derive(Drop)]
pub struct SharedSide;

impl<O: Copy> Side<O> for LocalSide {
    type Entry = LocalEntry<O>;

    ghost item_of = { item };

    fn item(entry: &LocalEntry<O>) -> Item<O> {
        Item {
            id: entry.id,
            op: entry.op,
        }
    }

    fn op(entry: &LocalEntry<O>) -> &O {
        &entry.op
    }
}

impl<O: Copy> Side<O> for SharedSide {
    type Entry = SharedEntry<O>;

    ghost item_of = { shared_item };

    fn item(entry: &SharedEntry<O>) -> Item<O> {
        Item {
            id: entry.id,
            op: entry.op,
        }
    }

    fn op(entry: &SharedEntry<O>) -> &O {
        &entry.op
    }
}

/// The side of items, which are in no log.
#[derive(Drop)]
pub struct ItemSide;

impl<O: Copy> Side<O> for ItemSide {
    type Entry = Item<O>;

    ghost item_of = { itself };

    fn item(entry: &Item<O>) -> Item<O> {
        *entry
    }

    fn op(entry: &Item<O>) -> &O {
        &entry.op
    }
}
