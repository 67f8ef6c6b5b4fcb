ghost use Rattle.std.specs.Prelude.{◌≡◌, map};
ghost use Rattle.theory_formula.specs.Formula.{formulas_from};
ghost use Rattle.theory_simplify.specs.Drafts.{draft_of};
ghost use Rattle.theory_simplify.specs.Hashes.{with_head, with_heads, hash_of_formula};

use crate::drafts::Draft;
use std::hash::{FoldHasher, Hash, Hasher};

/// A number that is the same for the same drafts, and mostly another one for others: it goes by the
/// polynomials of the draft and its members, and not by what stands deeper.
pub fn hash_of_draft(draft: &Draft<'_>) -> u64
    ensures { result ≡ hash_of_formula (draft_of draft.now) }
{
    let mut hasher = FoldHasher::default();
    feed_head(&mut hasher, draft);
    match draft {
        Draft::And(members) | Draft::Or(members) => feed_heads(&mut hasher, members),
        _ => {}
    }
    hasher.finish()
}

fn feed_heads(hasher: &mut FoldHasher, drafts: &[Draft<'_>])
    ensures { hasher.new ≡ with_heads hasher.old (formulas_from (map draft_of drafts.now)) }
{
    for draft in drafts {
        feed_head(hasher, draft);
    }
}

/// The kind, and of an atom the hash of its polynomial.
fn feed_head(hasher: &mut FoldHasher, draft: &Draft<'_>)
    ensures { hasher.new ≡ with_head hasher.old (draft_of draft.now) }
{
    match draft {
        Draft::True => hasher.write_u64(0),
        Draft::False => hasher.write_u64(1),
        Draft::Atom(atom) => atom.poly().hash(hasher),
        Draft::And(_) => hasher.write_u64(2),
        Draft::Or(_) => hasher.write_u64(3),
    }
}
