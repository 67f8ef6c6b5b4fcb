//! Sums and products with as many terms as there may be.

use std::alloc::Global;
use theory_points::Limit;
use theory_poly::Poly;

/// A power of symbol 0 or 1.
fn power(alloc: Global, second: bool, exponent: u8) -> Option<Poly> {
    let symbol = Poly::symbol(alloc, if second { 1 } else { 0 }).ok()?;
    let mut all = Poly::constant(alloc, 1).ok()?;
    for _ in 0..exponent {
        all = all.mul(alloc, &symbol).ok()?;
    }
    Some(all)
}

fn monomial(alloc: Global, c: i64, i: u8, j: u8) -> Option<Poly> {
    let c = Poly::constant(alloc, c.clamp(-1, 1)).ok()?;
    let x = power(alloc, false, i)?;
    let y = power(alloc, true, j)?;
    c.mul(alloc, &x).ok()?.mul(alloc, &y).ok()
}

/// The sum of all products of powers below the given ones.
fn block(alloc: Global, width: u8, height: u8) -> Option<Poly> {
    let mut sum = Poly::constant(alloc, 0).ok()?;
    for i in 0..width {
        for j in 0..height {
            let next = monomial(alloc, 1, i, j)?;
            sum = sum.add(alloc, &next).ok()?;
        }
    }
    Some(sum)
}

/// How many terms there are, and the last coefficient.
fn count(found: Result<Poly, Limit>) -> Result<(usize, i64), Limit> {
    let poly = found?;
    let last = match poly.terms().last() {
        Some(term) => term.coefficient,
        None => 0,
    };
    Ok((poly.terms().len(), last))
}

/// 144 exponent lists stand on the way, 32 are left.
#[test]
fn cancels_past_the_129th_term(rt: HostRuntime) {
    let alloc = rt.alloc();
    let found = match (block(alloc, 8, 16), difference(alloc)) {
        (Some(a), Some(b)) => count(a.mul(alloc, &b)),
        _ => Err(Limit::Memory),
    };
    assert_eq!(rt; found, Ok((32, -1)));
}

/// x - 1.
fn difference(alloc: Global) -> Option<Poly> {
    let one = monomial(alloc, -1, 0, 0)?;
    monomial(alloc, 1, 1, 0)?.add(alloc, &one).ok()
}

/// The number at the end goes with -1 more, and is 2 with -1 less.
#[test]
fn sums_up_to_128_terms(rt: HostRuntime) {
    let alloc = rt.alloc();
    let found = match (
        block(alloc, 8, 16),
        monomial(alloc, 1, 8, 0),
        monomial(alloc, -1, 0, 0),
    ) {
        (Some(a), Some(b), Some(c)) => Some([
            count(a.add(alloc, &b)),
            count(a.sub(alloc, &b)),
            count(a.add(alloc, &c)),
            count(a.sub(alloc, &c)),
        ]),
        _ => None,
    };
    assert_eq!(rt;
        found,
        Some([
            Err(Limit::Wide),
            Err(Limit::Wide),
            Ok((127, 1)),
            Ok((128, 2))
        ])
    );
}
