ghost use Rattle.std.specs.Prelude.{◌≡◌, OnOk, IfOk};
ghost use Rattle.std.specs.List.{filter};
ghost use Rattle.theory_elimination.specs.Facts.{known_set, is_within, judged, judged_by, with_fact};
ghost use Rattle.theory_elimination.specs.Simplified.{with_conditions, facts_within};
ghost use Rattle.theory_signed.specs.Signed.{is_on_symbol, facts_beside};
ghost use Rattle.theory_simplify.specs.Parts.{facts_of, parts_of, known_at};

use crate::drafts::Draft;
use crate::lent::LentAtom;
use crate::symbols::is_symbol;
use std::alloc::Global;
use theory_meaning::Sign;
use theory_points::NoMemory;
use theory_signs::Signs;

/// Conditions that are known to hold, one a polynomial.
pub type Facts<'a> = Vec<LentAtom<'a>>;

/// What the facts say of a condition; None where they leave it open.
pub fn judged(facts: &[LentAtom<'_>], atom: &LentAtom<'_>) -> Option<bool>
    ensures { result ≡ judged (facts_of facts.now) atom.now.poly atom.now.signs }
{
    judged_by(atom.signs(), known_set(facts, atom))
}

/// What a known set says of a condition with a set of signs; None where it leaves it open.
pub fn judged_by(signs: Signs, known: Option<Signs>) -> Option<bool>
    ensures { result ≡ judged_by signs known }
{
    let known = known?;
    if known.meet(signs).is_none() {
        Some(false)
    } else if is_within(known, signs) {
        Some(true)
    } else {
        None
    }
}

/// The set of the first fact on the polynomial of an atom.
fn known_set(facts: &[LentAtom<'_>], atom: &LentAtom<'_>) -> Option<Signs>
    ensures { result ≡ known_set atom.now.poly (facts_of facts.now) }
{
    for fact in facts {
        if fact.has_poly_of(atom) {
            return Some(fact.signs());
        }
    }
    None
}

/// Whether each sign of the first set is in the second.
fn is_within(first: Signs, second: Signs) -> bool
    ensures { result ≡ is_within first second }
{
    (!first.has(Sign::Minus) || second.has(Sign::Minus))
        && (!first.has(Sign::Zero) || second.has(Sign::Zero))
        && (!first.has(Sign::Plus) || second.has(Sign::Plus))
}

/// The facts for the members of a list: in a conjunction also its atoms.
pub fn facts_within<'a>(
    alloc: Global,
    all: bool,
    facts: &[LentAtom<'a>],
    members: &[Draft<'a>],
) -> Result<Facts<'a>, NoMemory>
    ensures { IfOk result (λ K.
        facts_of K.items ≡ facts_within all (parts_of members.now) (facts_of facts.now)) }
{
    let mut within = copied(alloc, facts)?;
    if all {
        add_conditions(&mut within, members)?;
    }
    Ok(within)
}

/// The facts, and in a conjunction also its conditions on single symbols.
pub fn facts_beside<'a>(
    alloc: Global,
    all: bool,
    facts: &[LentAtom<'a>],
    members: &[Draft<'a>],
) -> Result<Facts<'a>, NoMemory>
    ensures { IfOk result (λ K.
        facts_of K.items ≡ facts_beside all (parts_of members.now) (facts_of facts.now)) }
{
    let mut beside = copied(alloc, facts)?;
    if !all {
        return Ok(beside);
    }
    add_conditions_on_symbols(&mut beside, members)?;
    Ok(beside)
}

fn copied<'a>(alloc: Global, facts: &[LentAtom<'a>]) -> Result<Facts<'a>, NoMemory>
    ensures { IfOk result (λ K. K.items ≡ facts.now) }
{
    let mut all = Vec::new(alloc);
    for fact in facts {
        all.push(fact.with_signs(fact.signs()))?;
    }
    Ok(all)
}

fn add_conditions<'a>(facts: &mut Facts<'a>, members: &[Draft<'a>]) -> Result<(), NoMemory>
    ensures { OnOk result (facts_of facts.new.items
        ≡ with_conditions (parts_of members.now) (facts_of facts.old.items)) }
{
    for member in members {
        if let Draft::Atom(atom) = member {
            add_fact(facts, atom)?;
        }
    }
    Ok(())
}

fn add_conditions_on_symbols<'a>(
    facts: &mut Facts<'a>,
    members: &[Draft<'a>],
) -> Result<(), NoMemory>
    ensures { OnOk result (facts_of facts.new.items
        ≡ with_conditions (filter is_on_symbol (parts_of members.now)) (facts_of facts.old.items)) }
{
    for member in members {
        if let Draft::Atom(atom) = member {
            if is_symbol(atom.poly().terms()) {
                add_fact(facts, atom)?;
            }
        }
    }
    Ok(())
}

/// Meets the known set of the polynomial with the condition's, or adds the condition.
fn add_fact<'a>(facts: &mut Facts<'a>, atom: &LentAtom<'a>) -> Result<(), NoMemory>
    ensures { OnOk result (facts_of facts.new.items
        ≡ with_fact atom.now.poly atom.now.signs (facts_of facts.old.items)) }
{
    match known_at(facts, atom) {
        Some((place, known)) => {
            if let Some(met) = known.meet(atom.signs()) {
                facts[place] = atom.with_signs(met);
            }
        }
        None => facts.push(atom.with_signs(atom.signs()))?,
    }
    Ok(())
}

/// The place of the first fact on the polynomial of an atom, and its set.
fn known_at(facts: &[LentAtom<'_>], atom: &LentAtom<'_>) -> Option<(usize, Signs)>
    ensures { result ≡ known_at atom.now.poly (facts_of facts.now) }
{
    for (place, fact) in facts.iter().enumerate() {
        if fact.has_poly_of(atom) {
            return Some((place, fact.signs()));
        }
    }
    None
}
