ghost use Rattle.std.specs.Prelude.{◌≡◌, ◌++◌, IfOk, OnOk, codes};
ghost use Rattle.theory_grammar.specs.Printed.{is_conjunct, is_disjunct, is_premise, is_side, square_unless, claim_text, conjuncts, disjuncts, joined};
ghost use Rattle.theory_meaning.specs.Tree.{claims_from};
ghost use Rattle.theory_syntax.specs.Plain.{claim_of, claims_of};

use crate::expr::add_sides;
use crate::parts::add_unless;
use std::alloc::Global;
use theory_points::{Bytes, NoMemory};
use theory_syntax::Claim;

/// The printed form of a claim.
pub fn print_claim(alloc: Global, claim: &Claim) -> Result<Bytes, NoMemory>
    ensures { IfOk result (λ text. text ≡ claim_text (claim_of claim.now)) }
{
    let mut text = Bytes::new(alloc);
    add_claim(alloc, &mut text, claim)?;
    Ok(text)
}

/// Appends a claim.
#[cycle(claim)]
pub fn add_claim(alloc: Global, text: &mut Bytes, claim: &Claim) -> Result<(), NoMemory>
    ensures { OnOk result (text.new ≡ text.old ++ claim_text (claim_of claim.now)) }
{
    match claim {
        Claim::True => text.extend(b"true"),
        Claim::False => text.extend(b"false"),
        Claim::Atom(left, rel, right) => add_sides(alloc, text, left, *rel, right),
        Claim::Not(c) => {
            text.extend(b"not ")?;
            add_square(alloc, text, is_conjunct(c), c)
        }
        Claim::And(members) => add_conjunction(alloc, text, members),
        Claim::Or(members) => add_disjunction(alloc, text, members),
        Claim::Implies(a, b) => {
            add_square(alloc, text, is_premise(a), a)?;
            text.extend(b" implies ")?;
            add_square(alloc, text, is_side(b), b)
        }
        Claim::Iff(a, b) => {
            add_square(alloc, text, is_side(a), a)?;
            text.extend(b" iff ")?;
            add_square(alloc, text, is_side(b), b)
        }
    }
}

// Appends a claim, in square brackets unless the test holds.
#[cycle(claim)]
fn add_square(alloc: Global, text: &mut Bytes, bare: bool, claim: &Claim) -> Result<(), NoMemory>
    ensures { OnOk result
        (text.new ≡ text.old ++ square_unless bare (claim_text (claim_of claim.now))) }
{
    add_unless(text, bare, b"[")?;
    add_claim(alloc, text, claim)?;
    add_unless(text, bare, b"]")
}

// Appends the members of a conjunction.
#[cycle(claim)]
fn add_conjunction(alloc: Global, text: &mut Bytes, members: &[Claim]) -> Result<(), NoMemory>
    ensures { OnOk result (text.new ≡ text.old ++ joined (codes "true") (codes " and ")
        (conjuncts (claims_from (claims_of members.now)))) }
{
    match members {
        [] => text.extend(b"true"),
        [first, others @ ..] => {
            add_square(alloc, text, is_conjunct(first), first)?;
            for other in others {
                text.extend(b" and ")?;
                add_square(alloc, text, is_conjunct(other), other)?;
            }
            Ok(())
        }
    }
}

// Appends the members of a disjunction.
#[cycle(claim)]
fn add_disjunction(alloc: Global, text: &mut Bytes, members: &[Claim]) -> Result<(), NoMemory>
    ensures { OnOk result (text.new ≡ text.old ++ joined (codes "false") (codes " or ")
        (disjuncts (claims_from (claims_of members.now)))) }
{
    match members {
        [] => text.extend(b"false"),
        [first, others @ ..] => {
            add_square(alloc, text, is_disjunct(first), first)?;
            for other in others {
                text.extend(b" or ")?;
                add_square(alloc, text, is_disjunct(other), other)?;
            }
            Ok(())
        }
    }
}

// Whether the claim stands as a member of a conjunction, or behind `not`.
fn is_conjunct(claim: &Claim) -> bool
    ensures { result ≡ is_conjunct (claim_of claim.now) }
{
    !matches!(
        claim,
        Claim::And(_) | Claim::Or(_) | Claim::Implies(..) | Claim::Iff(..)
    )
}

// Whether it stands as a member of a disjunction.
fn is_disjunct(claim: &Claim) -> bool
    ensures { result ≡ is_disjunct (claim_of claim.now) }
{
    !matches!(claim, Claim::Or(_) | Claim::Implies(..) | Claim::Iff(..))
}

// Whether it stands before `implies`.
fn is_premise(claim: &Claim) -> bool
    ensures { result ≡ is_premise (claim_of claim.now) }
{
    !matches!(claim, Claim::Implies(..) | Claim::Iff(..))
}

// Whether it stands behind `implies`, or beside `iff`.
fn is_side(claim: &Claim) -> bool
    ensures { result ≡ is_side (claim_of claim.now) }
{
    !matches!(claim, Claim::Iff(..))
}
