ghost use Rattle.std.specs.Prelude.{◌≡◌, ◌<◌, IfOk, IfSome, if◌then◌else◌, map};
ghost use Rattle.theory_formula.specs.declared.signs.Signs.TheVariants as set;
ghost use Rattle.theory_polynomial.specs.Polynomial.{IsPolynomial, IsCanonical};
ghost use Rattle.theory_formula.specs.Formula.{both, conjunction, disjunction, formulas_from, EachAtomOfAll};
ghost use Rattle.theory_formula.specs.SignCondition.{IsAtomPolynomial};
ghost use Rattle.theory_signs.specs.Plain.{formula_of};
ghost use Rattle.theory_signed.specs.CommonPowers.{common_powers, without_powers, odd_part, is_square, squares_from, crossing_from};
ghost use Rattle.theory_signed.specs.Split.{condition_on, symbol_is, crossed, split_once, with_squares, split_atom, split, IsOrdered};

use crate::powers::{all_but, common_powers, odd_parts, with_kept_powers};
use crate::symbols::odd_part;
use std::alloc::Global;
use theory_meaning::Sign;
use theory_points::NoMemory;
use theory_poly::Poly;
use theory_signs::{Atom, Formula, Formulas, Signs, make_atom};

/// The formula with each atom split by the signs of its common symbols.
#[cycle(split)]
pub fn split(alloc: Global, formula: &Formula) -> Result<Formula, NoMemory>
    ensures written { IfOk result (λ F. formula_of F ≡ split (formula_of formula.now)) }
    ensures ordered { IfOk result (λ F. IsOrdered (formula_of formula.now)) }
{
    match formula {
        Formula::True => Ok(Formula::True),
        Formula::False => Ok(Formula::False),
        Formula::Atom(atom) => split_atom(alloc, atom),
        Formula::And(members) => Ok(Formula::And(split_all(alloc, members)?)),
        Formula::Or(members) => Ok(Formula::Or(split_all(alloc, members)?)),
    }
}

#[cycle(split)]
fn split_all(alloc: Global, formulas: &[Formula]) -> Result<Formulas, NoMemory>
    ensures written { IfOk result (λ Fs.
        map formula_of Fs.items ≡ map split (map formula_of formulas.now)) }
    ensures ordered { IfOk result (λ Fs.
        EachAtomOfAll (λ P S. IsPolynomial P) (formulas_from (map formula_of formulas.now))) }
{
    let mut all = Vec::new(alloc);
    for formula in formulas {
        all.push(split(alloc, formula)?)?;
    }
    Ok(all)
}

/// The squares apart, and then the symbol in front, where there is one.
fn split_atom(alloc: Global, atom: &Atom) -> Result<Formula, NoMemory>
    ensures written { IfOk result (λ F. formula_of F ≡ split_atom atom.now.poly atom.now.signs) }
    ensures kept { IfOk result (λ F. IsAtomPolynomial atom.now.poly) }
{
    let common = common_powers(atom.poly().terms());
    let left = split_once(alloc, atom, &common)?;
    with_squares(alloc, &common, atom.signs(), left)
}

/// The condition without squares of common symbols, by the sign of the first that crosses zero.
fn split_once(alloc: Global, atom: &Atom, common: &[u8; 32]) -> Result<Formula, NoMemory>
    requires { common.now ≡ common_powers atom.now.poly }
    ensures { IfOk result (λ F. formula_of F ≡ split_once (map odd_part common.now)
        (without_powers common.now atom.now.poly) atom.now.signs) }
{
    let odd = odd_parts(common);
    let left = with_kept_powers(alloc, atom.poly(), common, &odd)?;
    match crossing(&odd, &left) {
        None => condition_on(alloc, &left, atom.signs()),
        Some(x) => {
            let rest = with_kept_powers(alloc, atom.poly(), common, &all_but(x, &odd))?;
            crossed(alloc, x, &rest, atom.signs())
        }
    }
}

/// The first symbol of common exponent 1 that has a higher degree.
fn crossing(common: &[u8; 32], poly: &Poly) -> Option<u8>
    ensures written { result ≡ crossing_from 0 common.now poly.now }
    ensures symbol { IfSome result (λ x. x < 32) }
{
    for x in 0..32 {
        if common[x as usize] == 1 && poly.degree_in(x) >= 2 {
            return Some(x);
        }
    }
    None
}

/// The condition on a symbol times a polynomial, by the sign of the symbol.
fn crossed(alloc: Global, x: u8, rest: &Poly, signs: Signs) -> Result<Formula, NoMemory>
    requires symbol { x < 32 }
    requires canonical { IsCanonical rest.now }
    ensures { IfOk result (λ F. formula_of F ≡ crossed x rest.now signs) }
{
    let mut members = Vec::new(alloc);
    members.push(on_side(alloc, x, Signs::Pos, rest, signs)?)?;
    members.push(on_side(alloc, x, Signs::Neg, rest, signs.mirror())?)?;
    if !signs.has(Sign::Zero) {
        return Ok(Formula::Or(members));
    }
    members.push(symbol_is(alloc, Signs::Zero, x)?)?;
    Ok(Formula::Or(members))
}

/// A condition where a symbol has these signs.
fn on_side(
    alloc: Global,
    x: u8,
    side: Signs,
    rest: &Poly,
    signs: Signs,
) -> Result<Formula, NoMemory>
    requires symbol { x < 32 }
    requires canonical { IsCanonical rest.now }
    ensures { IfOk result (λ F.
        formula_of F ≡ both (symbol_is side x) (condition_on rest.now signs)) }
{
    let mut members = Vec::new(alloc);
    members.push(symbol_is(alloc, side, x)?)?;
    members.push(condition_on(alloc, rest, signs)?)?;
    Ok(Formula::And(members))
}

/// A condition, and that no square is zero, or where zero fits too, or that some square is zero.
fn with_squares(
    alloc: Global,
    common: &[u8; 32],
    signs: Signs,
    left: Formula,
) -> Result<Formula, NoMemory>
    ensures { IfOk result (λ F.
        formula_of F ≡ with_squares (squares_from 0 common.now) signs (formula_of left)) }
{
    let zero_fits = signs.has(Sign::Zero);
    let mut members = on_squares(alloc, signs_of_square(zero_fits), common)?;
    if members.is_empty() {
        return Ok(left);
    }
    members.push(left)?;
    Ok(some_or_all(zero_fits, members))
}

fn signs_of_square(zero_fits: bool) -> Signs
    ensures { result ≡ (if zero_fits then set.Zero else set.NonZero) }
{
    if zero_fits {
        Signs::Zero
    } else {
        Signs::NonZero
    }
}

fn some_or_all(some: bool, members: Formulas) -> Formula
    ensures { formula_of result ≡ (if some
        then disjunction (formulas_from (map formula_of members.items))
        else conjunction (formulas_from (map formula_of members.items))) }
{
    if some {
        Formula::Or(members)
    } else {
        Formula::And(members)
    }
}

/// The condition with these signs on each symbol of even common exponent.
fn on_squares(alloc: Global, signs: Signs, common: &[u8; 32]) -> Result<Formulas, NoMemory>
    ensures { IfOk result (λ Fs.
        map formula_of Fs.items ≡ map (symbol_is signs) (squares_from 0 common.now)) }
{
    let mut all = Vec::new(alloc);
    for x in 0..32 {
        if is_square(common[x as usize]) {
            all.push(symbol_is(alloc, signs, x)?)?;
        }
    }
    Ok(all)
}

/// Whether an exponent is even, and not 0.
fn is_square(exponent: u8) -> bool
    ensures { result ≡ is_square exponent }
{
    odd_part(exponent) == 0 && exponent != 0
}

/// The condition on a symbol, counted from 0.
fn symbol_is(alloc: Global, signs: Signs, x: u8) -> Result<Formula, NoMemory>
    requires { x < 32 }
    ensures { IfOk result (λ F. formula_of F ≡ symbol_is signs x) }
{
    let symbol = Poly::symbol(alloc, x)?;
    condition_on(alloc, &symbol, signs)
}

/// The condition on a canonical polynomial, decided where that is a whole number.
fn condition_on(alloc: Global, poly: &Poly, signs: Signs) -> Result<Formula, NoMemory>
    requires { IsCanonical poly.now }
    ensures { IfOk result (λ F. formula_of F ≡ condition_on poly.now signs) }
{
    make_atom(alloc, poly, signs)
}
