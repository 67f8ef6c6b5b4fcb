ghost use Rattle.std.specs.Prelude.{◌≡◌, ◌≤◌, length, map, IfOk};
ghost use Rattle.theory_meaning.specs.Deciding.{IsHalf};
ghost use Rattle.theory_meaning.specs.Point.{AreDistinct};
ghost use Rattle.theory_formula.specs.Formula.{EachAtom};
ghost use Rattle.theory_formula.specs.Symbols.{IsNamed, IsProper};
ghost use Rattle.theory_lowering.specs.LoweringLimits.{AreListed};
ghost use Rattle.theory_decision.specs.Answers.{lowered, IsHalfBy, IsHalfOf};
ghost use Rattle.theory_decision.specs.Engine.{engine};
ghost use Rattle.theory_decision.specs.Outcomes.{hits_by};
ghost use Rattle.theory_syntax.specs.Plain.{claims_of};
ghost use Rattle.theory_signs.specs.Plain.{formula_of};
ghost use Rattle.theory_verdict.specs.Plain.{half_of};
ghost use Rattle.theory_witness.specs.Path.{step_of, IsHitPath};

use crate::causes::cause;
use std::alloc::Global;
use theory_lower::{LowerFault, lower};
use theory_points::{Names, NoMemory};
use theory_search::{Outcome, Policy, search};
use theory_signs::{Formula, Path};
use theory_syntax::Sentence;
use theory_verdict::{Cause, Half};
use theory_witness::{Pointed, point_of};

/// The written half of a sentence, by the order of the policy.
pub fn written_half(alloc: Global, policy: &Policy, sentence: &Sentence) -> Result<Half, NoMemory>
    requires few { length sentence.now.symbols ≤ 32 }
    requires distinct { AreDistinct sentence.now.symbols }
    requires listed { AreListed sentence.now.symbols (claims_of sentence.now.conjuncts.items) }
    ensures { IfOk result (λ h. IsHalf engine sentence.now.symbols
        (claims_of sentence.now.conjuncts.items) policy.now.kind (half_of h)) }
{
    match lower(alloc, sentence) {
        Ok(formula) => half_of_formula(alloc, policy, &sentence.symbols, &formula),
        Err(LowerFault::Large) => Ok(Half::Left(Cause::Large)),
        Err(LowerFault::Wide) => Ok(Half::Left(Cause::Wide)),
        Err(LowerFault::Memory) => Err(NoMemory),
    }
}

/// The half by the search of a formula over the listed names.
fn half_of_formula(
    alloc: Global,
    policy: &Policy,
    symbols: &Names,
    formula: &Formula,
) -> Result<Half, NoMemory>
    requires few { length symbols.now ≤ 32 }
    requires distinct { AreDistinct symbols.now }
    requires proper { IsProper (formula_of formula.now) }
    requires named { EachAtom (IsNamed symbols.now) (formula_of formula.now) }
    ensures { IfOk result (λ h. IsHalfOf policy.now.kind symbols.now
        (lowered (formula_of formula.now)) (half_of h)) }
{
    match search(alloc, formula, policy)? {
        Outcome::Hit(path) => half_of_path(alloc, &path, symbols),
        Outcome::Empty => Ok(Half::Absent),
        Outcome::Failed(failure) => Ok(Half::Left(cause(alloc, &failure, symbols)?)),
    }
}

/// The witness of a hit's path, or that it passes a limit.
fn half_of_path(alloc: Global, path: &Path, symbols: &Names) -> Result<Half, NoMemory>
    requires few { length symbols.now ≤ 32 }
    requires distinct { AreDistinct symbols.now }
    requires hit { IsHitPath (length symbols.now) (map step_of path.now.items) }
    ensures { IfOk result (λ h. IsHalfBy symbols.now
        (hits_by (map step_of path.now.items)) (half_of h)) }
{
    match point_of(alloc, path, symbols)? {
        Pointed::At(point) => Ok(Half::Found(point)),
        Pointed::Wide => Ok(Half::FoundWide),
    }
}
