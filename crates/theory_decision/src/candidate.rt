/// A symbol that can be eliminated, with what a choice may look at.
#[derive(Clone, Copy, Debug, PartialEq, Eq)]
pub struct Candidate {
    pub symbol: u8,
    /// How many atoms hold the symbol.
    pub atoms: u32,
    /// Whether some top equation holds it with a constant coefficient.
    pub unit: bool,
    /// How many atoms hold it with a coefficient that isn't constant.
    pub unsure: u32,
}
