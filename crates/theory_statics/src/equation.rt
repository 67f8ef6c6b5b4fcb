use theory_points::Name;
use theory_syntax::Expr;

/// An equation differentiated along a parameter.
#[derive(Drop)]
pub struct Differentiated {
    /// The label of the equation.
    pub label: Name,
    /// The parameter.
    pub by: Name,
    pub left: Expr,
    pub right: Expr,
}
