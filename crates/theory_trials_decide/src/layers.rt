//! Calls that no row makes, each with an answer that was worked out by hand.

use crate::asking::KINDS;
use std::alloc::Global;
use std::test::Fail;
use theory_formula::Signs;
use theory_points::Limit;
use theory_poly::Poly;
use theory_search::{Outcome, search_by};
use theory_signs::{Formula, make_atom};
use theory_witness::{Picked, pick};

/// x*z + 2*y.
fn surface(alloc: Global) -> Result<Poly, Limit> {
    let x = Poly::symbol(alloc, 0)?;
    let y = Poly::symbol(alloc, 1)?;
    let z = Poly::symbol(alloc, 2)?;
    x.mul(alloc, &z)?.add(alloc, &y)?.add(alloc, &y)
}

/// The first symbol of a hit's path, if there is a hit.
fn first_symbol(outcome: &Outcome) -> Option<u8> {
    match outcome {
        Outcome::Hit(path) => path.first().map(|step| step.symbol),
        Outcome::Empty | Outcome::Failed(_) => None,
    }
}

/// Of x*z + 2*y = 0 only y has a constant coefficient: two orders begin with it, and two with x.
#[test]
fn a_search_by_each_kind(rt: HostRuntime) -> Result<(), Fail> {
    let alloc = rt.alloc();
    let formula = make_atom(alloc, &surface(alloc)?, Signs::Zero)?;
    for (kind, symbol) in KINDS.iter().zip([0, 0, 1, 1]) {
        let found = search_by(alloc, &formula, *kind)?;
        assert_eq!(rt; first_symbol(&found), Some(symbol), "{kind:?}");
    }
    Ok(())
}

fn is_zero(picked: Picked) -> bool {
    match picked {
        Picked::Value(value) => value.num() == 0,
        Picked::Wide | Picked::Nowhere => false,
    }
}

/// 0 is tried first, and where nothing is true no value fits.
#[test]
fn picks_without_atoms(rt: HostRuntime) -> Result<(), Fail> {
    let alloc = rt.alloc();
    assert!(rt; is_zero(pick(alloc, 0, &Formula::True)?));
    let nowhere = pick(alloc, 0, &Formula::False)?;
    assert!(rt; matches!(&nowhere, Picked::Nowhere));
    Ok(())
}
