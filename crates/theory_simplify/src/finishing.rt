ghost use Rattle.std.specs.Prelude.{◌≡◌, [], IfOk, map};
ghost use Rattle.std.specs.List.{list_any};
ghost use Rattle.std.specs.Option.{option_map};
ghost use Rattle.theory_elimination.specs.SameFormula.{is_same};
ghost use Rattle.theory_elimination.specs.Simplified.{first_ones, bundled, finished};
ghost use Rattle.theory_simplify.specs.Drafts.{draft_of};
ghost use Rattle.theory_simplify.specs.Hashes.{hash_of_formula};
ghost use Rattle.theory_simplify.specs.Parts.{parts_in};

use crate::drafts::{Draft, Drafts, decision};
use crate::hashes::hash_of_draft;
use crate::sameness::is_same;
use std::alloc::Global;
use theory_points::NoMemory;

/// The list of the members, each once; decided where there are none to begin with.
pub fn finished<'a>(
    alloc: Global,
    all: bool,
    members: Option<Drafts<'a>>,
) -> Result<Draft<'a>, NoMemory>
    ensures { IfOk result (λ D. draft_of D ≡ finished all (option_map parts_in members.entry)) }
{
    match members {
        Some(members) => Ok(bundled(all, first_ones(alloc, members)?)),
        None => Ok(decision(!all)),
    }
}

/// Each draft that isn't the same as an earlier one.
fn first_ones<'a>(alloc: Global, drafts: Drafts<'a>) -> Result<Drafts<'a>, NoMemory>
    ensures { IfOk result (λ Ds.
        map draft_of Ds.items ≡ first_ones [] (map draft_of drafts.entry.items)) }
{
    let mut kept = Vec::new(alloc);
    let mut hashes = Vec::new(alloc);
    for draft in drafts {
        let hash = hash_of_draft(&draft);
        if !stands_among(&kept, &hashes, &draft, hash) {
            hashes.push(hash)?;
            kept.push(draft)?;
        }
    }
    Ok(kept)
}

fn stands_among(drafts: &[Draft<'_>], hashes: &[u64], draft: &Draft<'_>, hash: u64) -> bool
    requires hashes { hashes.now ≡ map hash_of_formula (map draft_of drafts.now) }
    requires hash { hash ≡ hash_of_formula (draft_of draft.now) }
    ensures { result ≡ list_any (is_same (draft_of draft.now)) (map draft_of drafts.now) }
{
    for (place, other) in drafts.iter().enumerate() {
        if have_one_tree(draft, hash, other, hashes[place]) {
            return true;
        }
    }
    false
}

/// Whether two drafts are the same tree: those with different hashes aren't read.
fn have_one_tree(first: &Draft<'_>, hash: u64, second: &Draft<'_>, other: u64) -> bool
    requires hash { hash ≡ hash_of_formula (draft_of first.now) }
    requires other { other ≡ hash_of_formula (draft_of second.now) }
    ensures { result ≡ is_same (draft_of first.now) (draft_of second.now) }
{
    hash == other && is_same(first, second)
}

/// All or some of the drafts: one stands for itself.
fn bundled<'a>(all: bool, mut drafts: Drafts<'a>) -> Draft<'a>
    ensures { draft_of result ≡ bundled all (map draft_of drafts.entry.items) }
{
    if drafts.len() > 1 {
        return if all {
            Draft::And(drafts)
        } else {
            Draft::Or(drafts)
        };
    }
    match drafts.pop() {
        Some(draft) => draft,
        None => decision(all),
    }
}
