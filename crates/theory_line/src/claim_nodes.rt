ghost use Rattle.std.specs.Prelude.{◌≡◌, [], ◌∷◌, ◌++◌, IfOk, OnOk, map, reverse};
ghost use Rattle.theory_grammar.specs.Machine.{implied};
ghost use Rattle.theory_grammar.specs.Spelled.{conjunction_of, disjunction_of};
ghost use Rattle.theory_line.specs.Claims.{concluded};
ghost use Rattle.theory_meaning.specs.Tree as plain;
ghost use Rattle.theory_syntax.specs.Plain.{claim_of, claims_of};

use std::alloc::Global;
use theory_points::NoMemory;
use theory_syntax::{Claim, Claims};

/// Adds a claim at the end.
pub fn keep(claims: &mut Claims, claim: Claim) -> Result<(), NoMemory>
    ensures { OnOk result (claims.new.items ≡ claims.old.items ++ claim ∷ []) }
{
    claims.push(claim)?;
    Ok(())
}

pub fn negation(alloc: Global, claim: Claim) -> Result<Claim, NoMemory>
    ensures { IfOk result (λ c. claim_of c ≡ plain.negation (claim_of claim)) }
{
    Ok(Claim::Not(Box::new(alloc, claim)?))
}

pub fn implication(alloc: Global, left: Claim, right: Claim) -> Result<Claim, NoMemory>
    ensures { IfOk result (λ c. claim_of c ≡ plain.implication (claim_of left) (claim_of right)) }
{
    Ok(Claim::Implies(Box::new(alloc, left)?, Box::new(alloc, right)?))
}

pub fn equivalence(alloc: Global, left: Claim, right: Claim) -> Result<Claim, NoMemory>
    ensures { IfOk result (λ c. claim_of c ≡ plain.equivalence (claim_of left) (claim_of right)) }
{
    Ok(Claim::Iff(Box::new(alloc, left)?, Box::new(alloc, right)?))
}

/// All of the members; one member stands for itself.
pub fn conjunction(mut members: Claims) -> Claim
    ensures { claim_of result ≡ conjunction_of (claims_of members.items) }
{
    if members.len() > 1 {
        return Claim::And(members);
    }
    match members.pop() {
        Some(only) => only,
        None => Claim::True,
    }
}

/// Some of the members; one member stands for itself.
pub fn disjunction(mut members: Claims) -> Claim
    ensures { claim_of result ≡ disjunction_of (claims_of members.items) }
{
    if members.len() > 1 {
        return Claim::Or(members);
    }
    match members.pop() {
        Some(only) => only,
        None => Claim::False,
    }
}

/// Each part implies what the later ones make; one part stands for itself.
pub fn implications(alloc: Global, mut parts: Claims) -> Result<Claim, NoMemory>
    ensures { IfOk result (λ c. claim_of c ≡ concluded (reverse (claims_of parts.items))) }
{
    match parts.pop() {
        Some(conclusion) => implied(alloc, parts, conclusion),
        None => Ok(Claim::True),
    }
}

/// The premises imply the conclusion one after another, the last innermost.
fn implied(alloc: Global, mut premises: Claims, conclusion: Claim) -> Result<Claim, NoMemory>
    ensures { IfOk result (λ c.
        claim_of c ≡ implied (reverse (claims_of premises.items)) (claim_of conclusion)) }
{
    let mut all = conclusion;
    while let Some(premise) = premises.pop() {
        all = implication(alloc, premise, all)?;
    }
    Ok(all)
}
