use dp_domain::{Cells, Items};

/// One part of an answer.
#[derive(Debug, Drop)]
pub enum Piece {
    /// A number.
    Int(i64),
    /// A category number, from 0.
    Cat(u32),
    /// A vector of numbers.
    IntVec(Cells),
}

/// What a measurement releases: its pieces in order.
pub type Answer = Items<Piece>;
