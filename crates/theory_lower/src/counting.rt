ghost use Rattle.std.specs.Prelude.{◌≡◌, ◌+◌, ◌≤◌, ◌++◌, length, min};
ghost use Rattle.theory_meaning.specs.Divisors.{divisors_of_expr, divisors_of_claim, divisors_of_claims};
ghost use Rattle.theory_meaning.specs.Tree.{claims_from};
ghost use Rattle.theory_lowering.specs.NormalForm.{normal_form, normal_forms, comparison_count, atom_count, atom_count_of_all};
ghost use Rattle.theory_syntax.specs.Plain.{expr_of, claim_of as tree_of, claims_of};

use theory_syntax::{Claim, Expr, Rel};

/// One for each divisor, and the atoms of the claims' normal forms, where 513 stands for each
/// number above 512.
pub fn size_of_all(claims: &[Claim]) -> u32
    ensures { result ≡ min 513 (length (divisors_of_claims (claims_from (claims_of claims.now)))
        + atom_count_of_all (normal_forms (claims_from (claims_of claims.now)))) }
{
    total(all_divisors(claims), all_sizes(claims))
}

#[cycle(size)]
fn size(claim: &Claim) -> u32
    ensures { result ≡ min 513 (atom_count (normal_form (tree_of claim.now))) }
{
    match claim {
        Claim::True | Claim::False => 1,
        Claim::Atom(u, rel, v) => comparison_size(u, *rel, v),
        Claim::Not(c) => size(c),
        Claim::And(cs) | Claim::Or(cs) => all_sizes(cs),
        Claim::Implies(a, b) => total(size(a), size(b)),
        Claim::Iff(a, b) => {
            let once = total(size(a), size(b));
            total(once, once)
        }
    }
}

#[cycle(size)]
fn all_sizes(claims: &[Claim]) -> u32
    ensures { result
        ≡ min 513 (atom_count_of_all (normal_forms (claims_from (claims_of claims.now)))) }
{
    let mut all = 0;
    for claim in claims {
        all = total(all, size(claim));
    }
    all
}

/// The atoms that a comparison may become: four for an order where something is divided.
fn comparison_size(u: &Expr, rel: Rel, v: &Expr) -> u32
    ensures { result ≡ comparison_count rel
        (divisors_of_expr (expr_of u.now) ++ divisors_of_expr (expr_of v.now)) }
{
    if total(divisors(u), divisors(v)) == 0 {
        return 1;
    }
    match rel {
        Rel::Eq | Rel::Ne => 1,
        Rel::Lt | Rel::Le | Rel::Gt | Rel::Ge => 4,
    }
}

/// The divisors in the claims, each as often as it is written.
#[cycle(count)]
fn all_divisors(claims: &[Claim]) -> u32
    ensures { result
        ≡ min 513 (length (divisors_of_claims (claims_from (claims_of claims.now)))) }
{
    let mut all = 0;
    for claim in claims {
        all = total(all, claim_divisors(claim));
    }
    all
}

#[cycle(count)]
fn claim_divisors(claim: &Claim) -> u32
    ensures { result ≡ min 513 (length (divisors_of_claim (tree_of claim.now))) }
{
    match claim {
        Claim::True | Claim::False => 0,
        Claim::Atom(u, _, v) => total(divisors(u), divisors(v)),
        Claim::Not(c) => claim_divisors(c),
        Claim::And(cs) | Claim::Or(cs) => all_divisors(cs),
        Claim::Implies(a, b) | Claim::Iff(a, b) => total(claim_divisors(a), claim_divisors(b)),
    }
}

fn divisors(expr: &Expr) -> u32
    ensures { result ≡ min 513 (length (divisors_of_expr (expr_of expr.now))) }
{
    match expr {
        Expr::Num(_) | Expr::Sym(_) => 0,
        Expr::Sum(u, v) | Expr::Diff(u, v) | Expr::Prod(u, v) => total(divisors(u), divisors(v)),
        Expr::Neg(u) | Expr::Pow(u, _) => divisors(u),
        Expr::Quot(u, v) => total(divisors(u), total(1, divisors(v))),
    }
}

/// The sum, or 513 where it is more.
fn total(a: u32, b: u32) -> u32
    requires first { a ≤ 513 }
    requires second { b ≤ 513 }
    ensures { result ≡ min 513 (a + b) }
{
    (a + b).min(513)
}
