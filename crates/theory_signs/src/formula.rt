use crate::atom::Atom;

/// Sign conditions joined by and and or.
#[derive(Drop)]
pub enum Formula {
    /// True at every point.
    True,
    /// True at no point.
    False,
    Atom(Atom),
    /// True where every member is, also without members.
    And(Formulas),
    /// True where some member is.
    Or(Formulas),
}

/// A list of formulas.
pub type Formulas = Vec<Formula>;
