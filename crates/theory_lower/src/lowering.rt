ghost use Rattle.std.specs.Prelude.{◌≡◌, ◌≤◌, ◌++◌, [], ◌∷◌, length, map, IfOk, OnOk, Ok, if◌then◌else◌};
ghost use Rattle.theory_meaning.specs.Point.{Point};
ghost use Rattle.theory_meaning.specs.Tree.{claims_from};
ghost use Rattle.theory_meaning.specs.Truth.{meets};
ghost use Rattle.theory_lowering.specs.NormalForm.{opposite_rel, IsLarge};
ghost use Rattle.theory_formula.specs.Formula.{conjunction, formulas_from, truth_at, EachAtom};
ghost use Rattle.theory_formula.specs.SignCondition.{decided};
ghost use Rattle.theory_formula.specs.Signs.{signs_of};
ghost use Rattle.theory_lowering.specs.Lowered.{values_of, IsComparison, IsFormulaOf, AreFormulasOf, IsLowered};
ghost use Rattle.theory_formula.specs.Symbols.{IsNamed};
ghost use Rattle.theory_lowering.specs.LoweringLimits.{IsWideAtom, IsWideClaim, IsWideAmong, AreWide, IsListedExpr, IsListedClaim, AreListedClaims, AreListed};
ghost use Rattle.theory_poly.specs.Answers.{WideWhere};
ghost use Rattle.theory_syntax.specs.Plain.{expr_of, claim_of as tree_of, claims_of};
ghost use Rattle.theory_signs.specs.Plain.{formula_of};
ghost use Rattle.theory_lower.specs.Lowering.{LowersWhere, form_of, forms_of, Joins, Lists};

use crate::conditions::{comparison, keep, pair};
use crate::counting::size_of_all;
use crate::divisors::add_of_claims;
use crate::fault::LowerFault;
use std::alloc::Global;
use theory_points::{Limit, Name, NoMemory};
use theory_signs::{Formula, Formulas, decision};
use theory_syntax::{Claim, Rel, Sentence};

/// The formula of a sentence, where symbol k stands for the k-th of its listed names.
pub fn lower(alloc: Global, sentence: &Sentence) -> Result<Formula, LowerFault>
    requires few { length sentence.now.symbols ≤ 32 }
    requires listed { AreListed sentence.now.symbols (claims_of sentence.now.conjuncts.items) }
    ensures written { IfOk result (λ F. IsLowered sentence.now.symbols
        (claims_of sentence.now.conjuncts.items) (formula_of F)) }
    ensures fault { LowersWhere (IsLarge (claims_of sentence.now.conjuncts.items))
        (AreWide sentence.now.symbols (claims_of sentence.now.conjuncts.items)) result }

    // At every named point it is true exactly where the sentence is met.
    ensures truth { IfOk result (λ F. (p : Point) →
        truth_at (formula_of F) (values_of sentence.now.symbols p)
        ≡ meets (claims_of sentence.now.conjuncts.items) p) }

    // Each symbol that occurs has a name, as the written claim requires.
    ensures named { IfOk result (λ F.
        EachAtom (IsNamed sentence.now.symbols) (formula_of F)) }
{
    conjuncts_lowered(alloc, sentence)
}

/// The conjunction of the divisors' conditions and the conjuncts' formulas.
fn conjuncts_lowered(alloc: Global, sentence: &Sentence) -> Result<Formula, LowerFault>
    requires few { length sentence.now.symbols ≤ 32 }
    requires listed { AreListed sentence.now.symbols (claims_of sentence.now.conjuncts.items) }
    ensures written { IfOk result (λ F. IsLowered sentence.now.symbols
        (claims_of sentence.now.conjuncts.items) (formula_of F)) }
    ensures fault { LowersWhere (IsLarge (claims_of sentence.now.conjuncts.items))
        (AreWide sentence.now.symbols (claims_of sentence.now.conjuncts.items)) result }
{
    if size_of_all(&sentence.conjuncts) > 512 {
        return Err(LowerFault::Large);
    }
    match members(alloc, sentence.symbols.as_slice(), &sentence.conjuncts) {
        Ok(members) => Ok(Formula::And(members)),
        Err(Limit::Wide) => Err(LowerFault::Wide),
        Err(Limit::Memory) => Err(LowerFault::Memory),
    }
}

/// That no divisor is 0, and then the conjuncts.
fn members(alloc: Global, names: &[Name], conjuncts: &[Claim]) -> Result<Formulas, Limit>
    requires few { length names.now ≤ 32 }
    requires listed { AreListedClaims names.now (claims_from (claims_of conjuncts.now)) }
    ensures written { IfOk result (λ Fs. IsLowered names.now (claims_of conjuncts.now)
        (conjunction (formulas_from (map formula_of Fs.items)))) }
    ensures wide { WideWhere (AreWide names.now (claims_of conjuncts.now)) result }
{
    let mut all = Vec::new(alloc);
    match add_of_claims(alloc, names, conjuncts, &mut all) {
        Ok(()) => {}
        Err(limit) => return Err(limit),
    }
    match all_lowered(alloc, names, true, conjuncts) {
        Ok(formulas) => Ok(both_lists(all, formulas)?),
        Err(limit) => Err(limit),
    }
}

/// The one list and behind it the other.
fn both_lists(mut first: Formulas, second: Formulas) -> Result<Formulas, NoMemory>
    ensures { IfOk result (λ all. all.items ≡ first.items ++ second.items) }
{
    for formula in second {
        keep(&mut first, formula)?;
    }
    Ok(first)
}

/// The formula of a claim, or of its negation.
#[cycle(lowered)]
fn lowered(alloc: Global, names: &[Name], stands: bool, claim: &Claim) -> Result<Formula, Limit>
    requires few { length names.now ≤ 32 }
    requires listed { IsListedClaim names.now (tree_of claim.now) }
    ensures written { IfOk result (λ F.
        IsFormulaOf names.now (form_of stands (tree_of claim.now)) (formula_of F)) }
    ensures wide { WideWhere (IsWideClaim names.now (tree_of claim.now)) result }
{
    match claim {
        Claim::True => Ok(decision(stands)),
        Claim::False => Ok(decision(!stands)),
        Claim::Atom(u, rel, v) => comparison(alloc, names, u, relation(stands, *rel), v),
        Claim::Not(c) => lowered(alloc, names, !stands, c),
        Claim::And(cs) => listed(stands, all_lowered(alloc, names, stands, cs)),
        Claim::Or(cs) => listed(!stands, all_lowered(alloc, names, stands, cs)),
        Claim::Implies(a, b) => joined(
            alloc,
            !stands,
            lowered(alloc, names, !stands, a),
            lowered(alloc, names, stands, b),
        ),
        Claim::Iff(a, b) => joined(
            alloc,
            false,
            joined(
                alloc,
                true,
                lowered(alloc, names, true, a),
                lowered(alloc, names, stands, b),
            ),
            joined(
                alloc,
                true,
                lowered(alloc, names, false, a),
                lowered(alloc, names, !stands, b),
            ),
        ),
    }
}

#[cycle(lowered)]
fn all_lowered(
    alloc: Global,
    names: &[Name],
    stands: bool,
    claims: &[Claim],
) -> Result<Formulas, Limit>
    requires few { length names.now ≤ 32 }
    requires listed { AreListedClaims names.now (claims_from (claims_of claims.now)) }
    ensures written { IfOk result (λ Fs. AreFormulasOf names.now
        (forms_of stands (claims_from (claims_of claims.now)))
        (formulas_from (map formula_of Fs.items))) }
    ensures wide { WideWhere (IsWideAmong names.now (claims_from (claims_of claims.now))) result }
{
    let mut all = Vec::new(alloc);
    for claim in claims {
        match lowered(alloc, names, stands, claim) {
            Ok(formula) => keep(&mut all, formula)?,
            Err(limit) => return Err(limit),
        }
    }
    Ok(all)
}

/// The relation, or the opposite one where the claim is negated.
fn relation(stands: bool, rel: Rel) -> Rel
    ensures { result ≡ (if stands then rel else opposite_rel rel) }
{
    if stands {
        return rel;
    }
    match rel {
        Rel::Eq => Rel::Ne,
        Rel::Ne => Rel::Eq,
        Rel::Lt => Rel::Ge,
        Rel::Le => Rel::Gt,
        Rel::Gt => Rel::Le,
        Rel::Ge => Rel::Lt,
    }
}

/// All or some of the members.
fn listed(all: bool, members: Result<Formulas, Limit>) -> Result<Formula, Limit>
    ensures { Lists all members result }
{
    match members {
        Ok(members) => {
            if all {
                Ok(Formula::And(members))
            } else {
                Ok(Formula::Or(members))
            }
        }
        Err(limit) => Err(limit),
    }
}

/// Both or either of two formulas; the first fault where one is missing.
fn joined(
    alloc: Global,
    all: bool,
    first: Result<Formula, Limit>,
    second: Result<Formula, Limit>,
) -> Result<Formula, Limit>
    ensures { Joins all first second result }
{
    match first {
        Ok(first) => match second {
            Ok(second) => Ok(pair(alloc, all, first, second)?),
            Err(limit) => Err(limit),
        },
        Err(limit) => Err(limit),
    }
}
