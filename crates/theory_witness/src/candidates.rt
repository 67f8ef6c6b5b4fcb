ghost use Rattle.std.specs.Prelude.{◌≡◌, List, ◌++◌, IfOk, OnOk};
ghost use Rattle.theory_meaning.specs.Fraction.{Fraction, IsBelow};
ghost use Rattle.theory_meaning.specs.Between.{IsSimplestBetween};
ghost use Rattle.theory_decision.specs.Candidates.{IsAscending, AreCandidates, AreMiddles};
ghost use Rattle.theory_decision.specs.Candidates.{AreEnds, small_wholes};
ghost use Rattle.theory_witness.specs.Tried.{AddsMiddles, AddsEnds};

use crate::ratio::Ratio;
use std::alloc::Global;
use theory_points::{Frac, NoMemory, simplest_between, whole_above, whole_below};

/// The values that are tried, in their order, given the breakpoints upwards.
pub fn candidates(alloc: Global, roots: &[Frac]) -> Result<Vec<Ratio>, NoMemory>
    requires { IsAscending roots.now }
    ensures { IfOk result (λ tried. AreCandidates roots.now tried.items) }
{
    let mut tried = Vec::new(alloc);
    add_small_wholes(&mut tried)?;
    add_roots(&mut tried, roots)?;
    add_middles(&mut tried, roots)?;
    add_ends(&mut tried, roots)?;
    Ok(tried)
}

fn add_small_wholes(tried: &mut Vec<Ratio>) -> Result<(), NoMemory>
    ensures { OnOk result (tried.new.items ≡ tried.old.items ++ small_wholes) }
{
    tried.push(Ratio::of_whole(0))?;
    tried.push(Ratio::of_whole(1))?;
    tried.push(Ratio::of_whole(-1))?;
    tried.push(Ratio::of_whole(2))?;
    tried.push(Ratio::of_whole(-2))?;
    Ok(())
}

fn add_roots(tried: &mut Vec<Ratio>, roots: &[Frac]) -> Result<(), NoMemory>
    ensures { OnOk result (tried.new.items ≡ tried.old.items ++ roots.now) }
{
    for root in roots {
        tried.push(Ratio::of_frac(root))?;
    }
    Ok(())
}

fn add_middles(tried: &mut Vec<Ratio>, roots: &[Frac]) -> Result<(), NoMemory>
    requires { IsAscending roots.now }
    ensures { OnOk result (AddsMiddles roots.now tried.old.items tried.new.items) }
{
    for k in 1..roots.len() {
        tried.push(middle(&roots[k - 1], &roots[k]))?;
    }
    Ok(())
}

// The simplest fraction between two neighbours.
fn middle(lo: &Frac, hi: &Frac) -> Ratio
    requires { IsBelow lo.now hi.now }
    ensures { IsSimplestBetween lo.now hi.now result }
{
    let (num, den) = simplest_between(lo, hi);
    Ratio::new(num, den as u64)
}

fn add_ends(tried: &mut Vec<Ratio>, roots: &[Frac]) -> Result<(), NoMemory>
    ensures { OnOk result (AddsEnds roots.now tried.old.items tried.new.items) }
{
    if roots.is_empty() {
        return Ok(());
    }
    tried.push(Ratio::of_whole(whole_below(&roots[0])))?;
    tried.push(Ratio::of_whole(whole_above(&roots[roots.len() - 1])))?;
    Ok(())
}
