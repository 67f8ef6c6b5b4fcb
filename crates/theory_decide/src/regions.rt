ghost use Rattle.std.specs.Prelude.{◌≡◌, ◌≤◌, length, map, IfOk};
ghost use Rattle.theory_meaning.specs.Deciding.{IsLicensedRegion};
ghost use Rattle.theory_meaning.specs.Point.{AreDistinct};
ghost use Rattle.theory_meaning.specs.Region.{AreAmong, IsRightRegion};
ghost use Rattle.theory_formula.specs.Formula.{EachAtom, disjunction, formulas_from, negated};
ghost use Rattle.theory_formula.specs.Symbols.{IsNamed};
ghost use Rattle.theory_lowering.specs.Lowered.{place_of, IsLowered};
ghost use Rattle.theory_lowering.specs.LoweringLimits.{AreListed};
ghost use Rattle.theory_signed.specs.ByKind.{simplified_for};
ghost use Rattle.theory_decision.specs.Answers.{lowered, condition_of, region_by, symbols_of, IsRegionOf, IsWrittenRegion};
ghost use Rattle.theory_decision.specs.Engine.{engine};
ghost use Rattle.theory_syntax.specs.Plain.{claims_of};
ghost use Rattle.theory_syntax.specs.Plain as tree;
ghost use Rattle.theory_signs.specs.Plain.{formula_of};
ghost use Rattle.theory_search.specs.Outcomes.{plain_leaves};
ghost use Rattle.theory_verdict.specs.Plain.{region_of};
ghost use Rattle.theory_decide.specs.Regions.{AreNamed};

use crate::causes::cause;
use std::alloc::Global;
use theory_lower::{LowerFault, claim_of, lower, place};
use theory_meaning::Kind;
use theory_points::{Name, Names, NoMemory};
use theory_search::{Leaves, Policy, leaves, simplified};
use theory_signs::{Formula, Formulas, negate};
use theory_syntax::{Claim, Sentence};
use theory_verdict::{Cause, Region};

/// The written condition on some of the listed names under which no point meets a sentence, by the
/// order of the policy.
pub fn written_region(
    alloc: Global,
    policy: &Policy,
    sentence: &Sentence,
    on: &Names,
) -> Result<Region, NoMemory>
    requires few { length sentence.now.symbols ≤ 32 }
    requires distinct { AreDistinct sentence.now.symbols }
    requires listed { AreListed sentence.now.symbols (claims_of sentence.now.conjuncts.items) }
    requires chosen { AreAmong on.now sentence.now.symbols }
    ensures written { IfOk result (λ r. IsWrittenRegion policy.now.kind sentence.now.symbols
        (claims_of sentence.now.conjuncts.items) on.now (region_of r)) }

    // A known condition holds these names alone, and is true exactly where no point with these
    // values meets the sentence. It stays unknown only where an engine may not know it.
    ensures right { IfOk result (λ r.
        IsRightRegion (claims_of sentence.now.conjuncts.items) on.now (region_of r)) }
    ensures licensed { IfOk result (λ r. IsLicensedRegion engine sentence.now.symbols
        (claims_of sentence.now.conjuncts.items) on.now policy.now.kind (region_of r)) }
{
    region_of_sentence(alloc, policy, sentence, on)
}

/// The condition by the lowered sentence, or why it is refused.
fn region_of_sentence(
    alloc: Global,
    policy: &Policy,
    sentence: &Sentence,
    on: &Names,
) -> Result<Region, NoMemory>
    requires few { length sentence.now.symbols ≤ 32 }
    requires distinct { AreDistinct sentence.now.symbols }
    requires listed { AreListed sentence.now.symbols (claims_of sentence.now.conjuncts.items) }
    requires chosen { AreAmong on.now sentence.now.symbols }
    ensures { IfOk result (λ r. IsWrittenRegion policy.now.kind sentence.now.symbols
        (claims_of sentence.now.conjuncts.items) on.now (region_of r)) }
{
    match lower(alloc, sentence) {
        Ok(formula) => region_of_formula(alloc, policy, sentence, &formula, on),
        Err(LowerFault::Large) => Ok(Region::Unknown(Cause::Large)),
        Err(LowerFault::Wide) => Ok(Region::Unknown(Cause::Wide)),
        Err(LowerFault::Memory) => Err(NoMemory),
    }
}

/// The condition by the leaves of a formula over the listed names.
fn region_of_formula(
    alloc: Global,
    policy: &Policy,
    sentence: &Sentence,
    formula: &Formula,
    on: &Names,
) -> Result<Region, NoMemory>
    requires few { length sentence.now.symbols ≤ 32 }
    requires distinct { AreDistinct sentence.now.symbols }
    requires listed { AreListed sentence.now.symbols (claims_of sentence.now.conjuncts.items) }
    requires chosen { AreAmong on.now sentence.now.symbols }
    requires lowered { IsLowered sentence.now.symbols
        (claims_of sentence.now.conjuncts.items) (formula_of formula.now) }
    ensures { IfOk result (λ r. IsRegionOf policy.now.kind sentence.now.symbols on.now
        (lowered (formula_of formula.now)) (region_of r)) }
{
    let symbols = &sentence.symbols;
    let keep = places(alloc, on.as_slice(), symbols.as_slice())?;
    let found = leaves(alloc, formula, &keep, policy)?;
    region_of_leaves(alloc, policy.kind, symbols, found)
}

/// The condition by leaves over the listed names, or why it is unknown.
fn region_of_leaves(
    alloc: Global,
    kind: Kind,
    symbols: &Names,
    found: Leaves,
) -> Result<Region, NoMemory>
    requires { AreNamed kind symbols.now (plain_leaves found) }
    ensures { IfOk result (λ r.
        region_of r ≡ region_by kind symbols.now (plain_leaves found)) }
{
    match found {
        Leaves::All(formulas) => Ok(Region::Known(condition(alloc, kind, symbols, formulas)?)),
        Leaves::Everywhere => Ok(Region::Known(Claim::False)),
        Leaves::Failed(failure) => Ok(Region::Unknown(cause(alloc, &failure, symbols)?)),
    }
}

/// The symbols of names.
fn places(alloc: Global, on: &[Name], symbols: &[Name]) -> Result<Vec<u8>, NoMemory>
    requires { length symbols.now ≤ 32 }
    ensures { IfOk result (λ ps. ps.items ≡ symbols_of symbols.now on.now) }
{
    let mut all = Vec::new(alloc);
    for name in on {
        all.push(symbol_of(name, symbols))?;
    }
    Ok(all)
}

fn symbol_of(name: &Name, symbols: &[Name]) -> u8
    requires { length symbols.now ≤ 32 }
    ensures { result ≡ place_of name.now symbols.now }
{
    place(symbols, name) as u8
}

/// The claim that no leaf is true.
fn condition(
    alloc: Global,
    kind: Kind,
    symbols: &Names,
    leaves: Formulas,
) -> Result<Claim, NoMemory>
    requires { EachAtom (IsNamed symbols.now) (negated
        (simplified_for kind (disjunction (formulas_from (map formula_of leaves.items))))) }
    ensures { IfOk result (λ c.
        tree.claim_of c ≡ condition_of kind symbols.now (map formula_of leaves.items)) }
{
    let some = Formula::Or(leaves);
    let simple = simplified(alloc, kind, &some)?;
    let opposite = negate(alloc, &simple)?;
    claim_of(alloc, &opposite, symbols)
}
