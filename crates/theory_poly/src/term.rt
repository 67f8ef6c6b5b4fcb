use theory_polynomial::Term as AnyTerm;

/// A coefficient of at most 2^58 in absolute value, with the exponent of symbol k at place k.
pub type Term = AnyTerm<i64>;

/// The terms of a polynomial in the fixed order.
pub type Terms = Vec<Term>;

/// A term on the way to a result, whose coefficient may pass the limit.
pub type WideTerm = AnyTerm<i128>;
