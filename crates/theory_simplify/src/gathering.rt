ghost use Rattle.std.specs.Prelude.{◌≡◌, [], IfOk, map};
ghost use Rattle.theory_elimination.specs.Simplified.{put_together, with_condition, gathered_behind, undecided, gathered};
ghost use Rattle.theory_simplify.specs.Parts.{part_of, parts_of, facts_of, condition_on, held_at, settled_truth, AreParts, IsPutIn};
ghost use Rattle.theory_simplify.specs.Judged.{by_source, open_parts, open_beside, open_for, judged_part};

use crate::drafts::{Draft, Drafts, decision};
use crate::facts::facts_beside;
use crate::judgement::{Judgement, Source, judged_from};
use crate::lent::LentAtom;
use std::alloc::Global;
use theory_points::NoMemory;
use theory_signs::Signs;

/// The members put together, without the decided ones; None where the whole is decided.
pub fn gathered<'a>(
    alloc: Global,
    all: bool,
    members: Drafts<'a>,
) -> Result<Option<Drafts<'a>>, NoMemory>
    ensures { IfOk result (AreParts (gathered all (parts_of members.entry.items))) }
{
    match put_together_all(alloc, all, members)? {
        Some(members) => undecided(alloc, all, members),
        None => Ok(None),
    }
}

/// The members that a way to judge leaves open; None where the whole is decided.
pub fn left_open<'a>(
    alloc: Global,
    judgement: Judgement,
    all: bool,
    facts: &[LentAtom<'a>],
    members: Drafts<'a>,
) -> Result<Option<Drafts<'a>>, NoMemory>
    ensures { IfOk result
        (AreParts (open_for judgement all (facts_of facts.now) (parts_of members.entry.items))) }
{
    match (judgement, open_by_facts(alloc, all, facts, members)?) {
        (Judgement::BySigns, Some(left)) => open_by_signs(alloc, all, facts, left),
        (_, left) => Ok(left),
    }
}

/// The members, put together, that the facts on their polynomials leave open.
fn open_by_facts<'a>(
    alloc: Global,
    all: bool,
    facts: &[LentAtom<'a>],
    members: Drafts<'a>,
) -> Result<Option<Drafts<'a>>, NoMemory>
    ensures { IfOk result
        (AreParts (open_parts all (facts_of facts.now) (parts_of members.entry.items))) }
{
    match gathered(alloc, all, members)? {
        Some(members) => undecided(
            alloc,
            all,
            judged_all(alloc, Source::Polynomial, facts, members)?,
        ),
        None => Ok(None),
    }
}

/// The members that the facts on their symbols leave open, with those beside them in a conjunction.
fn open_by_signs<'a>(
    alloc: Global,
    all: bool,
    facts: &[LentAtom<'a>],
    members: Drafts<'a>,
) -> Result<Option<Drafts<'a>>, NoMemory>
    ensures { IfOk result
        (AreParts (open_beside all (facts_of facts.now) (parts_of members.entry.items))) }
{
    let beside = facts_beside(alloc, all, facts, &members)?;
    let judged = judged_all(alloc, Source::Symbols, &beside, members)?;
    undecided(alloc, all, judged)
}

/// The members with each atom decided of which the facts say something.
fn judged_all<'a>(
    alloc: Global,
    source: Source,
    facts: &[LentAtom<'a>],
    members: Drafts<'a>,
) -> Result<Drafts<'a>, NoMemory>
    ensures { IfOk result (λ found. parts_of found.items
        ≡ map (by_source source (facts_of facts.now)) (parts_of members.entry.items)) }
{
    let mut all = Vec::new(alloc);
    for member in members {
        all.push(judged_member(source, facts, member))?;
    }
    Ok(all)
}

fn judged_member<'a>(source: Source, facts: &[LentAtom<'a>], member: Draft<'a>) -> Draft<'a>
    ensures { part_of result ≡ by_source source (facts_of facts.now) (part_of member.entry) }
{
    match judged_truth(source, facts, &member) {
        Some(truth) => decision(truth),
        None => member,
    }
}

/// What the facts say of a member; None where it isn't an atom.
fn judged_truth(source: Source, facts: &[LentAtom<'_>], member: &Draft<'_>) -> Option<bool>
    ensures { result ≡ judged_part source (facts_of facts.now) (part_of member.now) }
{
    match member {
        Draft::Atom(atom) => judged_from(source, facts, atom),
        _ => None,
    }
}

/// The atoms of each polynomial put together at the first one's place.
fn put_together_all<'a>(
    alloc: Global,
    all: bool,
    members: Drafts<'a>,
) -> Result<Option<Drafts<'a>>, NoMemory>
    ensures { IfOk result (AreParts (gathered_behind all [] (parts_of members.entry.items))) }
{
    let mut done = Vec::new(alloc);
    for member in members {
        match member {
            Draft::Atom(atom) => {
                if !put_in(all, &mut done, atom)? {
                    return Ok(None);
                }
            }
            other => done.push(other)?,
        }
    }
    Ok(Some(done))
}

/// Puts an atom together with the one of its polynomial, or at the end; false where that decides.
fn put_in<'a>(all: bool, done: &mut Drafts<'a>, atom: LentAtom<'a>) -> Result<bool, NoMemory>
    ensures { IfOk result (IsPutIn
        (with_condition all atom.entry.poly atom.entry.signs (parts_of done.old.items))
        done.new.items) }
{
    match held_at(done, &atom) {
        Some((place, held)) => match put_together(all, held, atom.signs()) {
            Some(signs) => {
                done[place] = Draft::Atom(atom.with_signs(signs));
                Ok(true)
            }
            None => Ok(false),
        },
        None => {
            done.push(Draft::Atom(atom))?;
            Ok(true)
        }
    }
}

/// The place of the atom on the polynomial of another one, and its set.
fn held_at(members: &[Draft<'_>], atom: &LentAtom<'_>) -> Option<(usize, Signs)>
    ensures { result ≡ held_at atom.now.poly (parts_of members.now) }
{
    for (place, member) in members.iter().enumerate() {
        if let Some(signs) = condition_on(member, atom) {
            return Some((place, signs));
        }
    }
    None
}

/// The set of a member that is an atom on the polynomial of another one.
fn condition_on(member: &Draft<'_>, atom: &LentAtom<'_>) -> Option<Signs>
    ensures { result ≡ condition_on atom.now.poly (part_of member.now) }
{
    match member {
        Draft::Atom(held) => held.has_poly_of(atom).then_some(held.signs()),
        _ => None,
    }
}

/// In a conjunction the sets are met, in a disjunction joined.
fn put_together(all: bool, first: Signs, second: Signs) -> Option<Signs>
    ensures { result ≡ put_together all first second }
{
    if all {
        first.meet(second)
    } else {
        first.join(second)
    }
}

/// The members without the decided ones that don't count; None where one decides the whole.
fn undecided<'a>(
    alloc: Global,
    all: bool,
    members: Drafts<'a>,
) -> Result<Option<Drafts<'a>>, NoMemory>
    ensures { IfOk result (AreParts (undecided all (parts_of members.entry.items))) }
{
    let mut open = Vec::new(alloc);
    for member in members {
        match settled_truth(&member) {
            Some(truth) => {
                if truth != all {
                    return Ok(None);
                }
            }
            None => open.push(member)?,
        }
    }
    Ok(Some(open))
}

/// The truth of a settled member.
fn settled_truth(member: &Draft<'_>) -> Option<bool>
    ensures { result ≡ settled_truth (part_of member.now) }
{
    match member {
        Draft::True => Some(true),
        Draft::False => Some(false),
        _ => None,
    }
}
