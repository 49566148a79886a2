//! The records of a run, as its style writes them.
use pp_core::{Name, Step};

/// A record of a run after its header. The style says which records a run may have.
#[derive(Drop)]
pub enum RunRecord<O> {
    /// A step of the machine: any of them in style rules, and a begin in every style.
    Plain(Step<O>),
    /// An operation, with the result that the object gave.
    Op { tx: Name, id: u32, op: O },
    /// The transaction committed.
    Commit { tx: Name },
    /// The transaction gave up.
    Abort { tx: Name },
    /// The transaction took back what it did, and stays open.
    Retry { tx: Name },
    /// The transaction took over what is committed of an object.
    Refresh { tx: Name, object: u16 },
    /// A section of hardware begins.
    XBegin { tx: Name },
    /// The section ends, and all is published.
    XEnd { tx: Name },
    /// The section is taken back, and ends.
    XAbort { tx: Name },
    /// The transaction reads from now on what another published.
    Depend { tx: Name, source: Name },
    /// The transaction publishes what it did.
    Publish { tx: Name },
    /// The transaction gives up what it read of another.
    DropSource { tx: Name, source: Name },
}
