ghost use Rattle.std.specs.Prelude.{◌≡◌, map};
ghost use Rattle.theory_formula.specs.Formula.{formulas_from};
ghost use Rattle.theory_elimination.specs.SameFormula.{is_same_set, is_same, are_same};
ghost use Rattle.theory_simplify.specs.Drafts.{draft_of};

use crate::drafts::Draft;
use theory_meaning::Sign;
use theory_signs::Signs;

/// Whether two drafts are the same tree, order included.
#[cycle(same)]
pub fn is_same(first: &Draft<'_>, second: &Draft<'_>) -> bool
    ensures { result ≡ is_same (draft_of first.now) (draft_of second.now) }
{
    match (first, second) {
        (Draft::True, Draft::True) | (Draft::False, Draft::False) => true,
        (Draft::Atom(a), Draft::Atom(b)) => {
            a.has_poly_of(b) && is_same_set(a.signs(), b.signs())
        }
        (Draft::And(firsts), Draft::And(seconds)) | (Draft::Or(firsts), Draft::Or(seconds)) =>
            are_same(firsts, seconds),
        _ => false,
    }
}

#[cycle(same)]
fn are_same(firsts: &[Draft<'_>], seconds: &[Draft<'_>]) -> bool
    ensures { result ≡ are_same (formulas_from (map draft_of firsts.now))
        (formulas_from (map draft_of seconds.now)) }
{
    if firsts.len() != seconds.len() {
        return false;
    }
    for (i, first) in firsts.iter().enumerate() {
        if !is_same(first, &seconds[i]) {
            return false;
        }
    }
    true
}

fn is_same_set(first: Signs, second: Signs) -> bool
    ensures { result ≡ is_same_set first second }
{
    first.has(Sign::Minus) == second.has(Sign::Minus)
        && first.has(Sign::Zero) == second.has(Sign::Zero)
        && first.has(Sign::Plus) == second.has(Sign::Plus)
}
