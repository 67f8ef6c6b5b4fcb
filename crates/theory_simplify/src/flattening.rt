ghost use Rattle.std.specs.Prelude.{◌≡◌, ◌++◌, IfOk, OnOk, map};
ghost use Rattle.theory_formula.specs.Formula.{formulas_from};
ghost use Rattle.theory_elimination.specs.Simplified.{spliced};
ghost use Rattle.theory_simplify.specs.Drafts.{draft_of};
ghost use Rattle.theory_simplify.specs.Parts.{parts_of, all_flat_parts, IsOpened};

use crate::drafts::{Draft, Drafts};
use std::alloc::Global;
use theory_points::NoMemory;

/// The members of nested lists of one kind as one list.
pub fn flattened<'a>(alloc: Global, all: bool, members: Drafts<'a>) -> Result<Drafts<'a>, NoMemory>
    ensures { IfOk result (λ flat.
        parts_of flat.items
        ≡ all_flat_parts all (formulas_from (map draft_of members.entry.items))) }
{
    let mut flat = Vec::new(alloc);
    flatten(all, members, &mut flat)?;
    Ok(flat)
}

fn flatten<'a>(all: bool, members: Drafts<'a>, flat: &mut Drafts<'a>) -> Result<(), NoMemory>
    ensures { OnOk result (parts_of flat.new.items ≡ parts_of flat.old.items
        ++ all_flat_parts all (formulas_from (map draft_of members.entry.items))) }
{
    for member in members {
        match opened(all, member) {
            Ok(inner) => flatten(all, inner, flat)?,
            Err(single) => flat.push(single)?,
        }
    }
    Ok(())
}

/// Adds a member, or its members where it is a list of the same kind.
pub fn splice<'a>(all: bool, member: Draft<'a>, into: &mut Drafts<'a>) -> Result<(), NoMemory>
    ensures { OnOk result
        (parts_of into.new.items ≡ parts_of into.old.items ++ spliced all (draft_of member.entry)) }
{
    match opened(all, member) {
        Ok(inner) => {
            for member in inner {
                into.push(member)?;
            }
        }
        Err(single) => into.push(single)?,
    }
    Ok(())
}

/// The members of a list of one kind, and else the draft itself.
fn opened<'a>(all: bool, draft: Draft<'a>) -> Result<Drafts<'a>, Draft<'a>>
    ensures { IsOpened all (draft_of draft.entry) result }
{
    match draft {
        Draft::And(members) => {
            if all {
                Ok(members)
            } else {
                Err(Draft::And(members))
            }
        }
        Draft::Or(members) => {
            if all {
                Err(Draft::Or(members))
            } else {
                Ok(members)
            }
        }
        other => Err(other),
    }
}
