use crate::claim::Claim;
use crate::expr::Expr;
use theory_points::{Name, Names};

/// A line of a model text.
#[derive(Drop)]
pub enum Line {
    /// The name of the model.
    Model(Name),
    /// An endogenous variable.
    Var(Name),
    /// A parameter.
    Param(Name),
    /// A function and its arguments.
    Fun(Name, Names),
    /// A label and the two sides of an equilibrium equation.
    Eq(Name, Expr, Expr),
    /// A label and an assumption.
    Assume(Name, Claim),
    /// A label, the parameter that is shifted, if any, and the claim.
    Claim(Name, Option<Name>, Claim),
}
