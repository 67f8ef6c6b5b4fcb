//! Branches against the plain truth of formulas that are made by a fixed rule.

use std::alloc::Global;
use std::test::Fail;
use theory_formula::Signs;
use theory_meaning::Sign;
use theory_points::Limit;
use theory_poly::{Poly, Term};
use theory_signs::{Formula, Formulas, make_atom};
use theory_subst::{branch, is_linear};

/// A coefficient with the exponents of symbols 0, 1 and 2.
type Row = (i64, u8, u8, u8);

/// Slopes times x: each slope is from -2 to 2 where y and z are -1, 0 or 1.
const SLOPES: [&[Row]; 7] = [
    &[(1, 1, 0, 0)],
    &[(-1, 1, 0, 0)],
    &[(2, 1, 0, 0)],
    &[(1, 1, 1, 0)],
    &[(-1, 1, 0, 1)],
    &[(1, 1, 1, 0), (-1, 1, 0, 1)],
    &[],
];

/// From -3 to 3 where y and z are -1, 0 or 1.
const BASES: [&[Row]; 6] = [
    &[],
    &[(1, 0, 1, 0)],
    &[(-1, 0, 0, 1)],
    &[(1, 0, 1, 1), (-1, 0, 0, 0)],
    &[(2, 0, 0, 0)],
    &[(1, 0, 1, 0), (1, 0, 0, 1), (-1, 0, 0, 0)],
];

const SIGNS: [Signs; 6] = [
    Signs::Neg,
    Signs::Zero,
    Signs::Pos,
    Signs::NotPos,
    Signs::NonZero,
    Signs::NotNeg,
];

/// A small coefficient times powers of symbols 0, 1 and 2.
fn monomial(alloc: Global, row: Row) -> Result<Poly, Limit> {
    let (c, x, y, z) = row;
    let mut all = Poly::constant(alloc, c.clamp(-1000, 1000))?;
    for (symbol, exponent) in [(0, x), (1, y), (2, z)] {
        let factor = Poly::symbol(alloc, symbol)?;
        for _ in 0..exponent {
            all = all.mul(alloc, &factor)?;
        }
    }
    Ok(all)
}

fn poly(alloc: Global, rows: &[Row]) -> Result<Poly, Limit> {
    let mut sum = Poly::constant(alloc, 0)?;
    for row in rows {
        let next = monomial(alloc, *row)?;
        sum = sum.add(alloc, &next)?;
    }
    Ok(sum)
}

fn push(members: &mut Formulas, formula: Formula) -> Result<(), Limit> {
    match members.push(formula) {
        Ok(()) => Ok(()),
        Err(_) => Err(Limit::Memory),
    }
}

/// The k-th branch, if each atom is linear in the symbol.
fn kth(alloc: Global, x: u8, formula: &Formula, k: u32) -> Result<Option<Formula>, Limit> {
    if x < 32 && is_linear(x, formula) {
        branch(alloc, x, formula, k)
    } else {
        Err(Limit::Memory)
    }
}

/// The atom with this number, one of 252.
fn line(alloc: Global, number: usize) -> Result<Formula, Limit> {
    let slope = poly(alloc, SLOPES[number % 7])?;
    let base = poly(alloc, BASES[number / 7 % 6])?;
    let sum = slope.add(alloc, &base)?;
    Ok(make_atom(alloc, &sum, SIGNS[number / 42 % 6])?)
}

fn list(all: bool, members: Formulas) -> Formula {
    if all {
        Formula::And(members)
    } else {
        Formula::Or(members)
    }
}

/// Two atoms in a list, or one alone.
fn member(alloc: Global, all: bool, number: usize) -> Result<Formula, Limit> {
    let first = line(alloc, number / 3)?;
    if number % 3 != 0 {
        return Ok(first);
    }
    let mut members = Vec::new(alloc);
    push(&mut members, first)?;
    push(&mut members, line(alloc, number / 756)?)?;
    Ok(list(all, members))
}

/// A list of two to four members, in which lists are of the other kind.
fn made(alloc: Global, seed: u32) -> Result<Formula, Limit> {
    let all = seed % 2 == 0;
    let mut state = seed;
    let mut members = Vec::new(alloc);
    for _ in 0..2 + seed / 2 % 3 {
        state = state.wrapping_mul(1_664_525).wrapping_add(1_013_904_223);
        push(&mut members, member(alloc, !all, (state >> 8) as usize)?)?;
    }
    Ok(list(all, members))
}

/// Up to 40 branches of x, of which none is left out.
fn branches_of(alloc: Global, formula: &Formula) -> Result<Formulas, Limit> {
    let mut branches = Vec::new(alloc);
    for k in 0..40 {
        match kth(alloc, 0, formula, k)? {
            Some(found) => push(&mut branches, found)?,
            None => return Ok(branches),
        }
    }
    Err(Limit::Wide)
}

fn power(base: i64, exponent: u8) -> i64 {
    let mut product = 1i64;
    for _ in 0..exponent {
        product = product.wrapping_mul(base);
    }
    product
}

/// Four times the value of a term in which x has exponent 0 or 1, at 4*x, y and z.
fn quadruple(t: &Term, point: &[i64; 3]) -> i64 {
    let first = if t.powers[0] == 0 { 4 } else { point[0] };
    let rest = power(point[1], t.powers[1]).wrapping_mul(power(point[2], t.powers[2]));
    t.coefficient.wrapping_mul(first).wrapping_mul(rest)
}

fn sign_at(poly: &Poly, point: &[i64; 3]) -> Sign {
    let mut sum = 0i64;
    for t in poly.terms().iter() {
        sum = sum.wrapping_add(quadruple(t, point));
    }
    if sum < 0 {
        Sign::Minus
    } else if sum == 0 {
        Sign::Zero
    } else {
        Sign::Plus
    }
}

#[cycle(truth)]
fn truth(formula: &Formula, point: &[i64; 3]) -> bool {
    match formula {
        Formula::True => true,
        Formula::False => false,
        Formula::Atom(atom) => atom.signs().has(sign_at(atom.poly(), point)),
        Formula::And(members) => !some_is(false, members, point),
        Formula::Or(members) => some_is(true, members, point),
    }
}

#[cycle(truth)]
fn some_is(wanted: bool, members: &[Formula], point: &[i64; 3]) -> bool {
    for member in members {
        if truth(member, point) == wanted {
            return true;
        }
    }
    false
}

/// Whether some quarter from -4 to 4 is a value of x: each root is a half from -3 to 3, so these
/// are all roots, with values between, below and above them.
fn has_value(formula: &Formula, y: i64, z: i64) -> bool {
    for x in -16..17 {
        if truth(formula, &[x, y, z]) {
            return true;
        }
    }
    false
}

/// Only in the third branch of an equation x is left.
fn some_has_value(branches: &[Formula], y: i64, z: i64) -> bool {
    for branch in branches {
        if has_value(branch, y, z) {
            return true;
        }
    }
    false
}

/// At each point of a grid some branch is true exactly where some value of x makes it so.
#[test]
fn branches_tell_whether_there_is_a_value(rt: HostRuntime) -> Result<(), Fail> {
    let alloc = rt.alloc();
    let mut with_value = 0u32;
    for seed in 0..216 {
        let formula = made(alloc, seed)?;
        let branches = branches_of(alloc, &formula)?;
        for k in 0..9 {
            let (y, z) = (k % 3 - 1, k / 3 - 1);
            let wanted = has_value(&formula, y, z);
            let found = some_has_value(&branches, y, z);
            assert_eq!(rt; found, wanted, "formula {seed} at {y}, {z}");
            if wanted {
                with_value = with_value.saturating_add(1);
            }
        }
    }
    assert!(rt;
        with_value > 200 && with_value < 1744,
        "{with_value} points have a value"
    );
    Ok(())
}
