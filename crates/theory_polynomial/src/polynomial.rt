/// A number times powers of symbols: the exponent of symbol k stands at place k.
#[derive(Clone, Copy, Debug, PartialEq, Eq)]
pub struct Term<C> {
    pub coefficient: C,
    pub powers: [u8; 32],
}
