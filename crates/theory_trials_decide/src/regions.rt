//! Conditions on one and two names of sentences that are made by a fixed rule, against halves of
//! the same sentences with values for these names.

use crate::asking::{KINDS, half, region};
use crate::conditions::Condition;
use crate::conjuncts::{Conjunct, Plain};
use crate::made::made;
use crate::sums::{NOTHING, Term};
use crate::written::first_names;
use std::alloc::Global;
use std::process::Abort;
use std::test::Fail;
use theory_decide::Engine;
use theory_meaning::{Kind, Rel};
use theory_points::{Frac, Names, NoMemory, Point};
use theory_search::four_policies;
use theory_syntax::{Claim, truth_at};
use theory_verdict::{Half, Region};

/// Values as tops over 2.
const TOPS: [i64; 5] = [0, 2, -2, 1, -4];

/// How many conditions there were of each kind, and at how many values one was compared.
#[derive(Clone, Copy, Debug)]
struct Counts {
    known: u32,
    unknown: u32,
    compared: u32,
}

/// Twice a symbol equals the top.
fn pin(x: u8, top: i64) -> Conjunct {
    let mut left = NOTHING;
    left[0] = Term {
        coefficient: 2,
        first: Some(x),
        second: None,
    };
    let mut right = NOTHING;
    right[0] = Term {
        coefficient: top,
        first: None,
        second: None,
    };
    let condition = Condition {
        left,
        below: None,
        rel: Rel::Eq,
        right,
    };
    Conjunct::One(true, condition)
}

fn copied(alloc: Global, plain: &Plain) -> Result<Plain, NoMemory> {
    let mut conjuncts = Vec::new(alloc);
    for conjunct in &plain.conjuncts {
        conjuncts.push(*conjunct)?;
    }
    let count = plain.count;
    Ok(Plain { count, conjuncts })
}

/// The conjuncts with a value for each of the first symbols.
fn pinned(alloc: Global, plain: &Plain, tops: &[i64]) -> Result<Plain, NoMemory> {
    let mut all = copied(alloc, plain)?;
    for (x, top) in tops.iter().enumerate() {
        all.conjuncts.push(pin((x % 4) as u8, *top))?;
    }
    Ok(all)
}

/// The point that gives these values to the first names.
fn point(alloc: Global, names: &Names, tops: &[i64]) -> Result<Point, NoMemory> {
    let mut point = Point::new(alloc);
    for (name, top) in names.as_slice().iter().zip(tops) {
        let value = Frac::new(i128::from(*top), 2).unwrap_or(Frac::zero());
        point.set(name.copy(alloc)?, value)?;
    }
    Ok(point)
}

/// Whether no point with the values meets the conjuncts, where the half says so.
fn is_absent(half: &Half) -> Option<bool> {
    match half {
        Half::Absent => Some(true),
        Half::Found(_) | Half::FoundWide => Some(false),
        Half::Left(_) => None,
    }
}

/// Compares a condition with the half at values; says whether there was something to compare.
fn try_values(
    rt: &impl Abort,
    alloc: Global,
    engine: &mut Engine<'_>,
    plain: &Plain,
    kind: Kind,
    condition: &Claim,
    tops: &[i64],
) -> Result<bool, Fail> {
    let names = first_names(alloc, tops.len() > 1)?;
    let Some(found) = half(alloc, engine, &pinned(alloc, plain, tops)?, kind)? else {
        return Err(Fail::from("a name isn't listed"));
    };
    let Some(absent) = is_absent(&found) else {
        return Ok(false);
    };
    let told = truth_at(condition, &point(alloc, &names, tops)?);
    assert_eq!(rt; told, Ok(absent), "{kind:?} at {tops:?}");
    Ok(true)
}

/// The condition on the first name, or the first two, at each value or pair of values.
fn try_region(
    rt: &impl Abort,
    alloc: Global,
    engine: &mut Engine<'_>,
    plain: &Plain,
    kind: Kind,
    both: bool,
    counts: &mut Counts,
) -> Result<(), Fail> {
    let names = first_names(alloc, both)?;
    let Some(found) = region(alloc, engine, plain, &names, kind)? else {
        return Err(Fail::from("a name isn't listed"));
    };
    let Region::Known(condition) = found else {
        counts.unknown = counts.unknown.saturating_add(1);
        return Ok(());
    };
    counts.known = counts.known.saturating_add(1);
    for k in 0..25 {
        let pair = [TOPS[k % 5], TOPS[k / 5]];
        if both || k < 5 {
            let tops = &pair[..names.as_slice().len().min(2)];
            if try_values(rt, alloc, engine, plain, kind, &condition, tops)? {
                counts.compared = counts.compared.saturating_add(1);
            }
        }
    }
    Ok(())
}

/// A condition is true where the sentence with the values has no point, and false where it has.
#[test]
fn conditions_agree_with_halves_at_values(rt: HostRuntime) -> Result<(), Fail> {
    let alloc = rt.alloc();
    let policies = four_policies!(alloc);
    let mut engine = Engine::new(&policies);
    let mut counts = Counts {
        known: 0,
        unknown: 0,
        compared: 0,
    };
    for seed in 0..60 {
        let plain = made(alloc, seed)?;
        for kind in KINDS {
            try_region(&rt, alloc, &mut engine, &plain, kind, false, &mut counts)?;
            try_region(&rt, alloc, &mut engine, &plain, kind, true, &mut counts)?;
        }
    }
    assert!(rt;
        counts.known >= 200 && counts.compared >= 2_000,
        "{counts:?}"
    );
    Ok(())
}
