//! Simplification of many conditions, and of formulas that are made by a fixed rule.

use crate::making::{keep, made, poly, truth};
use std::alloc::Global;
use std::test::Fail;
use theory_formula::Signs;
use theory_points::Limit;
use theory_poly::Poly;
use theory_signs::{Formula, Formulas, make_atom};
use theory_simplify::simplify;

/// Adds a condition on each of x, x + 1, .. x + 255.
fn add_conditions(alloc: Global, signs: Signs, members: &mut Formulas) -> Result<(), Limit> {
    let one = Poly::constant(alloc, 1)?;
    let mut moved = poly(alloc, 'x')?;
    for _ in 0..256 {
        keep(members, make_atom(alloc, &moved, signs)?)?;
        moved = moved.add(alloc, &one)?;
    }
    Ok(())
}

/// The number at the end of a polynomial.
fn last_number(poly: &Poly) -> i64 {
    match poly.terms().last() {
        Some(term) if term.powers == [0; 32] => term.coefficient,
        _ => 0,
    }
}

/// Whether the polynomial is x and a number.
fn is_moved(poly: &Poly, number: i64) -> bool {
    let count = if number == 0 { 1 } else { 2 };
    let mut powers = [0u8; 32];
    powers[0] = 1;
    match poly.terms().first() {
        Some(term) => {
            term.coefficient == 1
                && term.powers == powers
                && poly.terms().len() == count
                && last_number(poly) == number
        }
        None => false,
    }
}

/// Whether the formula says that x, x + 1, .. x + 255 are 0, in this order.
fn are_zeros(formula: &Formula) -> bool {
    let Formula::And(members) = formula else {
        return false;
    };
    let mut number = 0i64;
    for member in members {
        match member {
            Formula::Atom(atom) if atom.signs() == Signs::Zero && is_moved(atom.poly(), number) =>
                {}
            _ => return false,
        }
        number = number.saturating_add(1);
    }
    number == 256
}

/// 512 conditions on 256 polynomials with the same first term: two are met at one place.
#[test]
fn many_atoms(rt: HostRuntime) -> Result<(), Fail> {
    let alloc = rt.alloc();
    let mut members = Vec::new(alloc);
    add_conditions(alloc, Signs::NotNeg, &mut members)?;
    add_conditions(alloc, Signs::NotPos, &mut members)?;
    let form = simplify(alloc, &Formula::And(members))?;
    assert!(rt; are_zeros(&form));
    Ok(())
}

/// At each point of a grid, over formulas made by a fixed rule.
#[test]
fn truth_is_kept(rt: HostRuntime) -> Result<(), Fail> {
    let alloc = rt.alloc();
    for seed in 0..240 {
        let before = made(alloc, seed)?;
        let after = simplify(alloc, &before)?;
        for k in 0..27 {
            let point = [k % 3 - 1, k / 3 % 3 - 1, k / 9 - 1];
            assert_eq!(rt;
                truth(&after, &point),
                truth(&before, &point),
                "formula {seed} at {point:?}"
            );
        }
    }
    Ok(())
}
