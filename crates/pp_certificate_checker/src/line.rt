//! The lines of a certificate.
use pp_certificate_exchanges::Positions;
use pp_core::Item;

/// The content of a line in its place.
#[derive(Drop)]
pub enum Line<H: Drop, O: Copy> {
    /// It is blank.
    Blank,
    /// There are objects of this shape.
    Head(H),
    /// The log has this entry next.
    Entry(Item<O>),
    /// Entries change places at these positions, one pair after another.
    Exchanges(Positions),
    /// So many entries of the last list are those of the serial run.
    Serial(u32),
    /// It is not of the form of its place.
    Other,
}
