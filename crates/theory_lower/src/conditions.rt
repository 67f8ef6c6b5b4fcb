ghost use Rattle.std.specs.Prelude.{◌≡◌, ◌≤◌, ◌++◌, [], ◌∷◌, length, IfOk, OnOk, MatchBool};
ghost use Rattle.theory_polynomial.specs.Polynomial.{IsPolynomialOf};
ghost use Rattle.theory_formula.specs.Formula as plain;
ghost use Rattle.theory_formula.specs.Signs.{signs_of};
ghost use Rattle.theory_lowering.specs.RationalFunction.{one};
ghost use Rattle.theory_lowering.specs.Lowered.{IsByTop, IsByBoth, IsConditionOn, IsComparison, IsNonzeroOf};
ghost use Rattle.theory_lowering.specs.LoweringLimits.{IsWideExpr, IsWideAtom, IsListedExpr};
ghost use Rattle.theory_poly.specs.Answers.{WideWhere};
ghost use Rattle.theory_syntax.specs.Plain.{expr_of};
ghost use Rattle.theory_signs.specs.Plain.{formula_of};
ghost use Rattle.theory_lower.specs.Lowering.{joined};

use crate::forms::{Operation, combined, form};
use crate::functions::RatFunction;
use std::alloc::Global;
use theory_points::{Limit, Name, NoMemory};
use theory_poly::Poly;
use theory_signs::{Formula, Formulas, Signs, make_atom};
use theory_syntax::{Expr, Rel};

/// The condition on left less right.
pub fn comparison(
    alloc: Global,
    names: &[Name],
    u: &Expr,
    rel: Rel,
    v: &Expr,
) -> Result<Formula, Limit>
    requires few { length names.now ≤ 32 }
    requires left { IsListedExpr names.now (expr_of u.now) }
    requires right { IsListedExpr names.now (expr_of v.now) }
    ensures written { IfOk result (λ F.
        IsComparison names.now (expr_of u.now) rel (expr_of v.now) (formula_of F)) }
    ensures wide { WideWhere (IsWideAtom names.now (expr_of u.now) (expr_of v.now)) result }
{
    let left = form(alloc, names, u);
    let right = form(alloc, names, v);
    match combined(alloc, Operation::Difference, left, right) {
        Ok(form) => Ok(condition(alloc, &form, signs(rel))?),
        Err(limit) => Err(limit),
    }
}

/// The condition that a divisor isn't 0, on its top.
pub fn nonzero(alloc: Global, names: &[Name], divisor: &Expr) -> Result<Formula, Limit>
    requires few { length names.now ≤ 32 }
    requires listed { IsListedExpr names.now (expr_of divisor.now) }
    ensures written { IfOk result (λ F.
        IsNonzeroOf names.now (expr_of divisor.now) (formula_of F)) }
    ensures wide { WideWhere (IsWideExpr names.now (expr_of divisor.now)) result }
{
    match form(alloc, names, divisor) {
        Ok(form) => Ok(make_atom(alloc, form.top().top(), Signs::NonZero)?),
        Err(limit) => Err(limit),
    }
}

/// The formula that says that the sign of a rational function is in a set.
fn condition(alloc: Global, of: &RatFunction, signs: Signs) -> Result<Formula, NoMemory>
    ensures { IfOk result (λ F. IsConditionOn of.now signs (formula_of F)) }
{
    let unit = Poly::constant(alloc, 1)?;
    if is_by_top(of, &unit, signs) {
        make_atom(alloc, of.top().top(), signs)
    } else {
        by_both(alloc, of, signs)
    }
}

/// Whether the sign of the top tells: the bottom is 1, or the set has minus and plus or neither.
fn is_by_top(of: &RatFunction, unit: &Poly, signs: Signs) -> bool
    requires { IsPolynomialOf one unit.now }
    ensures { MatchBool result (IsByTop of.now signs) (¬ IsByTop of.now signs) }
{
    match signs {
        Signs::Zero | Signs::NonZero => true,
        Signs::Neg | Signs::Pos | Signs::NotPos | Signs::NotNeg => *of.bottom() == *unit,
    }
}

/// A positive bottom with the sign of the top in the set, or a negative one in the mirrored set.
fn by_both(alloc: Global, of: &RatFunction, signs: Signs) -> Result<Formula, NoMemory>
    requires { ¬ IsByTop of.now signs }
    ensures { IfOk result (λ F. IsByBoth of.now signs (formula_of F)) }
{
    let positive = make_atom(alloc, of.bottom(), Signs::Pos)?;
    let kept = make_atom(alloc, of.top().top(), signs)?;
    let negative = make_atom(alloc, of.bottom(), Signs::Neg)?;
    let mirrored = make_atom(alloc, of.top().top(), signs.mirror())?;
    let first = pair(alloc, true, positive, kept)?;
    let second = pair(alloc, true, negative, mirrored)?;
    pair(alloc, false, first, second)
}

/// All or some of two formulas.
pub fn pair(alloc: Global, all: bool, first: Formula, second: Formula) -> Result<Formula, NoMemory>
    ensures { IfOk result (λ F. formula_of F ≡ joined all
        (plain.more (formula_of first) (plain.more (formula_of second) plain.none))) }
{
    let mut members = Vec::new(alloc);
    keep(&mut members, first)?;
    keep(&mut members, second)?;
    if all {
        Ok(Formula::And(members))
    } else {
        Ok(Formula::Or(members))
    }
}

/// Adds a member at the end.
pub fn keep(members: &mut Formulas, formula: Formula) -> Result<(), NoMemory>
    ensures { OnOk result (members.new.items ≡ members.old.items ++ formula ∷ []) }
{
    members.push(formula)?;
    Ok(())
}

fn signs(rel: Rel) -> Signs
    ensures { result ≡ signs_of rel }
{
    match rel {
        Rel::Eq => Signs::Zero,
        Rel::Ne => Signs::NonZero,
        Rel::Lt => Signs::Neg,
        Rel::Le => Signs::NotPos,
        Rel::Gt => Signs::Pos,
        Rel::Ge => Signs::NotNeg,
    }
}
