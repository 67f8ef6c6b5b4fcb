use theory_signs::{Atom, Formulas, Path};

/// The first atom in which the degree of a symbol is above 1.
#[derive(Drop)]
pub struct StuckAtom {
    pub symbol: u8,
    pub atom: Atom,
}

/// One for each symbol that occurs and isn't kept, upwards.
pub type StuckAtoms = Vec<StuckAtom>;

/// Why a search fails.
#[derive(Drop)]
pub enum Failure {
    /// None of the symbols that aren't kept can be eliminated from a formula.
    Stuck(StuckAtoms),
    /// A cross product of a branch passes a limit.
    Wide,
    /// A simplified formula has more than 512 atoms, or lies deeper than 64.
    Large,
    /// 20,000 nodes were visited.
    Budget,
    /// There are more than 4,096 leaves, or more than 16,384 atoms in them.
    ManyLeaves,
}

/// What a search gives.
#[derive(Drop)]
pub enum Outcome {
    /// Some point makes the formula true.
    Hit(Path),
    /// No point does.
    Empty,
    /// The first failure that was met, where nothing was hit.
    Failed(Failure),
}

/// What a search for leaves gives, formulas in which only kept symbols occur.
#[derive(Drop)]
pub enum Leaves {
    /// Some values of the other symbols make the formula true exactly where some leaf is.
    All(Formulas),
    /// For all values of the kept symbols some values of the others do.
    Everywhere,
    /// The first failure that was met, where no formula was true everywhere.
    Failed(Failure),
}
