use crate::formula::Formula;

/// A formula, and the symbol that is eliminated from it.
#[derive(Drop)]
pub struct PathStep {
    pub formula: Formula,
    pub symbol: u8,
}

/// The steps from the first formula of a hit to the parent of one that is true everywhere.
pub type Path = Vec<PathStep>;
