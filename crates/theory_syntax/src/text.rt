use crate::line::Line;
use theory_points::Name;

/// A line of a text and its number there, from 1.
#[derive(Drop)]
pub struct Numbered {
    pub at: u32,
    pub line: Line,
}

/// The lines of a text in order, each with its number.
pub type Lines = Vec<Numbered>;

/// A change of one line of a model.
#[derive(Drop)]
pub enum Op {
    /// The line takes the place of the one with its key, or is added at the end.
    Put(Line),
    /// The line of this key goes.
    Drop(Name),
}

/// Changes in their order.
pub type Ops = Vec<Op>;
