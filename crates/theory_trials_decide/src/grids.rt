//! Halves of sentences that are made by a fixed rule, against all points of a grid.

use crate::asking::{KINDS, half};
use crate::conjuncts::{Plain, first_place, meets};
use crate::made::{Known, knowledge, made};
use crate::places::place_of;
use crate::written::sentence;
use std::alloc::Global;
use std::process::Abort;
use std::test::Fail;
use theory_decide::Engine;
use theory_meaning::Kind;
use theory_points::Point;
use theory_search::four_policies;
use theory_syntax::{Sentence, meets_at};
use theory_verdict::Half;

/// How many halves there were of each kind.
#[derive(Clone, Copy, Debug)]
struct Counts {
    found: u32,
    wide: u32,
    absent: u32,
    left: u32,
}

/// A sentence in both forms, with the first place of the grid that meets it.
#[derive(Drop)]
struct Case {
    seed: u32,
    plain: Plain,
    sentence: Sentence,
    place: Option<u32>,
}

fn case_of(alloc: Global, seed: u32) -> Result<Case, Fail> {
    let plain = made(alloc, seed)?;
    let sentence = sentence(alloc, &plain)?;
    let place = first_place(&plain);
    Ok(Case {
        seed,
        plain,
        sentence,
        place,
    })
}

/// Whether the plain program finds that a point meets the sentence; None where a value doesn't fit.
fn is_met(case: &Case, point: &Point) -> Option<bool> {
    let place = place_of(point, case.sentence.symbols.as_slice())?;
    meets(&case.plain, &place)
}

fn count(half: &Half, counts: &mut Counts) {
    match half {
        Half::Found(_) => counts.found = counts.found.saturating_add(1),
        Half::FoundWide => counts.wide = counts.wide.saturating_add(1),
        Half::Absent => counts.absent = counts.absent.saturating_add(1),
        Half::Left(_) => counts.left = counts.left.saturating_add(1),
    }
}

/// Whether the half may be, by what is known of the sentence.
fn may_be(known: Known, half: &Half) -> bool {
    match (known, half) {
        (Known::NowhereLinear, Half::Absent) => true,
        (Known::SomewhereLinear, Half::Found(_)) => true,
        (Known::NowhereLinear | Known::SomewhereLinear, _) => false,
        (Known::Nowhere, Half::Found(_) | Half::FoundWide) => false,
        (Known::Somewhere, Half::Absent) => false,
        _ => true,
    }
}

fn try_half(rt: &impl Abort, case: &Case, kind: Kind, half: &Half) {
    let seed = case.seed;
    match half {
        Half::Found(point) => {
            assert_eq!(rt;
                meets_at(&case.sentence, point),
                Ok(true),
                "{seed} by {kind:?}"
            );
            assert_eq!(rt; is_met(case, point), Some(true), "{seed} by {kind:?}");
        }
        Half::Absent => assert_eq!(rt; case.place, None, "{seed} by {kind:?}"),
        Half::FoundWide | Half::Left(_) => {}
    }
    assert!(rt; may_be(knowledge(seed), half), "{seed} by {kind:?}");
}

/// No order says that there is no point where another one finds some.
fn try_case(
    rt: &impl Abort,
    alloc: Global,
    engine: &mut Engine<'_>,
    case: &Case,
    counts: &mut Counts,
) -> Result<(), Fail> {
    let before = *counts;
    for kind in KINDS {
        let Some(found) = half(alloc, engine, &case.plain, kind)? else {
            return Err(Fail::from("a name isn't listed"));
        };
        try_half(rt, case, kind, &found);
        count(&found, counts);
    }
    let some = counts.found > before.found || counts.wide > before.wide;
    let seed = case.seed;
    assert!(rt;
        !some || counts.absent == before.absent,
        "{seed} by two orders"
    );
    Ok(())
}

/// No point of the grid meets an absent half, and each point that is found meets its sentence.
#[test]
fn halves_agree_with_a_grid(rt: HostRuntime) -> Result<(), Fail> {
    let alloc = rt.alloc();
    let policies = four_policies!(alloc);
    let mut engine = Engine::new(&policies);
    let mut counts = Counts {
        found: 0,
        wide: 0,
        absent: 0,
        left: 0,
    };
    for seed in 0..360 {
        let case = case_of(alloc, seed)?;
        try_case(&rt, alloc, &mut engine, &case, &mut counts)?;
    }
    assert!(rt;
        counts.absent >= 240 && counts.found >= 240 && counts.left >= 60,
        "{counts:?}"
    );
    Ok(())
}
