use crate::expr::Expr;
use theory_meaning::Rel;
use theory_points::Names;

/// A claim about names.
#[derive(Drop)]
pub enum Claim {
    True,
    False,
    /// A relation between two expressions.
    Atom(Expr, Rel, Expr),
    Not(Box<Claim>),
    /// At least two members.
    And(Claims),
    /// At least two members.
    Or(Claims),
    Implies(Box<Claim>, Box<Claim>),
    Iff(Box<Claim>, Box<Claim>),
}

/// A list of claims.
pub type Claims = Vec<Claim>;

/// The claims that a point is to meet, in order, and the symbols that are listed for them.
#[derive(Drop)]
pub struct Sentence {
    pub conjuncts: Claims,
    pub symbols: Names,
}
