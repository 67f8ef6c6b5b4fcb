ghost use Rattle.std.specs.Prelude.{◌≡◌, [], IfOk, map};
ghost use Rattle.theory_polynomial.specs.PolynomialValue.{Values};
ghost use Rattle.theory_formula.specs.Formula.{truth_at, formulas_from};
ghost use Rattle.theory_elimination.specs.Simplified.{simplified, as_known, simplified_by, simplified_list_by, all_parts_by, members_under};
ghost use Rattle.theory_meaning.specs.declared.words.Kind.TheVariants as kind;
ghost use Rattle.theory_signed.specs.ByKind.{simplified_for};
ghost use Rattle.theory_signs.specs.Plain.{formula_of};
ghost use Rattle.theory_simplify.specs.Drafts.{draft_of};
ghost use Rattle.theory_simplify.specs.Parts.{facts_of, parts_of, waiting, member_form};
ghost use Rattle.theory_simplify.specs.Judged.{judging_of};

use crate::drafts::{Draft, Drafts, decision, drafted, to_formula};
use crate::facts::facts_within;
use crate::finishing::finished;
use crate::flattening::{flattened, splice};
use crate::gathering::{gathered, left_open};
use crate::judgement::{Judgement, judged_alone};
use crate::lent::LentAtom;
use crate::splitting::split;
use std::alloc::Global;
use theory_points::NoMemory;
use theory_signs::Formula;

/// The simplified form of a formula: one pass over its tree.
pub fn simplify(alloc: Global, formula: &Formula) -> Result<Formula, NoMemory>
    ensures written { IfOk result (λ F. formula_of F ≡ simplified (formula_of formula.now)) }

    // At every point it is true exactly where the formula is.
    ensures truth { IfOk result (λ F. (p : Values) →
        truth_at (formula_of F) p ≡ truth_at (formula_of formula.now) p) }
{
    simplified_form(alloc, Judgement::ByFacts, formula)
}

/// The simplified form by signs: of the formula with each atom split.
pub fn simplify_signed(alloc: Global, formula: &Formula) -> Result<Formula, NoMemory>
    ensures written { IfOk result (λ F.
        formula_of F ≡ simplified_for kind.Signed (formula_of formula.now)) }

    // At every point it is true exactly where the formula is.
    ensures truth { IfOk result (λ F. (p : Values) →
        truth_at (formula_of F) p ≡ truth_at (formula_of formula.now) p) }
{
    let parts = split(alloc, formula)?;
    simplified_form(alloc, Judgement::BySigns, &parts)
}

/// The simplified form under no facts, by a way to judge.
fn simplified_form(
    alloc: Global,
    judgement: Judgement,
    formula: &Formula,
) -> Result<Formula, NoMemory>
    ensures { IfOk result (λ F.
        formula_of F ≡ simplified_by (judging_of judgement) [] (formula_of formula.now)) }
{
    let simple = simplified_alone(alloc, judgement, drafted(alloc, formula)?)?;
    to_formula(alloc, &simple)
}

/// An atom judged under no facts, or a list simplified.
fn simplified_alone<'a>(
    alloc: Global,
    judgement: Judgement,
    draft: Draft<'a>,
) -> Result<Draft<'a>, NoMemory>
    ensures { IfOk result (λ D.
        draft_of D ≡ simplified_by (judging_of judgement) [] (draft_of draft.entry)) }
{
    match draft {
        Draft::Atom(atom) => Ok(decided_or_kept(judged_alone(judgement, &[], &atom), atom)),
        Draft::And(members) => simplified_list(alloc, judgement, true, &[], members),
        Draft::Or(members) => simplified_list(alloc, judgement, false, &[], members),
        other => Ok(other),
    }
}

/// The decision, or else the atom.
fn decided_or_kept<'a>(known: Option<bool>, atom: LentAtom<'a>) -> Draft<'a>
    ensures { draft_of result ≡ as_known atom.entry.poly atom.entry.signs known }
{
    match known {
        Some(truth) => decision(truth),
        None => Draft::Atom(atom),
    }
}

/// A list simplified under facts; what isn't a list stands as it is.
#[cycle(simplified)]
fn simplified_member<'a>(
    alloc: Global,
    judgement: Judgement,
    facts: &[LentAtom<'a>],
    member: Draft<'a>,
) -> Result<Draft<'a>, NoMemory>
    ensures { IfOk result (λ D.
        draft_of D
        ≡ member_form (judging_of judgement) (facts_of facts.now) (draft_of member.entry)) }
{
    match member {
        Draft::And(members) => simplified_list(alloc, judgement, true, facts, members),
        Draft::Or(members) => simplified_list(alloc, judgement, false, facts, members),
        other => Ok(other),
    }
}

/// The simplified form of all or some of the members under facts.
#[cycle(simplified)]
fn simplified_list<'a>(
    alloc: Global,
    judgement: Judgement,
    all: bool,
    facts: &[LentAtom<'a>],
    members: Drafts<'a>,
) -> Result<Draft<'a>, NoMemory>
    ensures { IfOk result (λ D. draft_of D
        ≡ simplified_list_by (judging_of judgement) all (facts_of facts.now)
        (all_parts_by (judging_of judgement) all
        (formulas_from (map draft_of members.entry.items)))) }
{
    let flat = flattened(alloc, all, members)?;
    match left_open(alloc, judgement, all, facts, flat)? {
        Some(left) => {
            let within = facts_within(alloc, all, facts, &left)?;
            let simple = members_under(alloc, judgement, all, &within, left)?;
            let together = gathered(alloc, all, simple)?;
            finished(alloc, all, together)
        }
        None => Ok(decision(!all)),
    }
}

/// The members, each simplified under the facts.
#[cycle(simplified)]
fn members_under<'a>(
    alloc: Global,
    judgement: Judgement,
    all: bool,
    facts: &[LentAtom<'a>],
    members: Drafts<'a>,
) -> Result<Drafts<'a>, NoMemory>
    ensures { IfOk result (λ Ds. parts_of Ds.items ≡ members_under all (facts_of facts.now)
        (waiting (judging_of judgement) (parts_of members.entry.items))) }
{
    let mut simple = Vec::new(alloc);
    for member in members {
        let form = simplified_member(alloc, judgement, facts, member)?;
        splice(all, form, &mut simple)?;
    }
    Ok(simple)
}
