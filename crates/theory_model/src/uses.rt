ghost use Rattle.std.specs.Prelude.{◌≡◌, ℕ, List, [], ◌∷◌, ◌++◌, None, option_map, MatchOption};
ghost use Rattle.std.specs.List.{list_any};
ghost use Rattle.std.specs.Str.{bytes_eq};
ghost use Rattle.theory_meaning.specs.Declarations as plain;
ghost use Rattle.theory_meaning.specs.Declarations.{parts_of, symbols_of_expr, symbols_of_claim, symbols_of_claims};
ghost use Rattle.theory_meaning.specs.ModelFault as plain_fault;
ghost use Rattle.theory_meaning.specs.Text as text;
ghost use Rattle.theory_syntax.specs.Plain.{expr_of, claim_of, members_of, lines_of};
ghost use Rattle.theory_model.specs.Keyed.{declared_of};
ghost use Rattle.theory_model.specs.Findings.{found_in, nothing_found, found_of_use, found_of_both, IsDotAt};

use crate::keys::{Declared, Keys};
use theory_points::{Name, Names};
use theory_syntax::{Claim, Expr};

/// What is wrong with the uses of names in a formula.
#[derive(Clone, Copy, Debug, PartialEq, Eq)]
pub(crate) struct Findings {
    /// A name is declared nowhere.
    pub(crate) unknown: bool,
    /// A derivative of what is no variable, or a slope in what is no argument of a function.
    pub(crate) unfit: bool,
    /// A derivative stands there.
    pub(crate) derivative: bool,
    /// A slope stands there.
    pub(crate) slope: bool,
}

impl Findings {
    pub(crate) fn none() -> Findings
        ensures { result ≡ nothing_found }
    {
        Findings {
            unknown: false,
            unfit: false,
            derivative: false,
            slope: false,
        }
    }

    /// What is wrong with one formula or the other.
    pub(crate) fn join(self, other: Findings) -> Findings
        ensures both { result ≡ found_of_both self other }
        ensures all { (lines : List text.Numbered) (ss ts : List (List ℕ)) →
            self ≡ found_in lines ss → other ≡ found_in lines ts →
            result ≡ found_in lines (ss ++ ts) }
    {
        Findings {
            unknown: self.unknown || other.unknown,
            unfit: self.unfit || other.unfit,
            derivative: self.derivative || other.derivative,
            slope: self.slope || other.slope,
        }
    }
}

/// The place of the first dot.
fn dot_in(name: &[u8]) -> Option<usize>
    ensures { MatchOption result (parts_of name.now ≡ None) (λ k. IsDotAt k name.now) }
{
    for (k, byte) in name.iter().enumerate() {
        if *byte == b'.' {
            return Some(k);
        }
    }
    None
}

/// What a symbol uses.
fn symbol_findings(keys: &Keys, symbol: &Name) -> Findings
    ensures { result ≡ found_in (lines_of keys.now.lines.now) (symbol.now ∷ []) }
{
    let bytes = symbol.as_slice();
    match dot_in(bytes) {
        None => itself_findings(keys, bytes),
        Some(k) => {
            let (front, back) = (&bytes[..k], &bytes[k + 1..]);
            if front == b"d".as_slice() {
                derivative_findings(keys, back)
            } else {
                slope_findings(keys, front, back)
            }
        }
    }
}

fn itself_findings(keys: &Keys, name: &[u8]) -> Findings
    ensures { result ≡ found_of_use (lines_of keys.now.lines.now) (plain.itself name.now) }
{
    Findings {
        unknown: keys.declared(name).is_none(),
        unfit: false,
        derivative: false,
        slope: false,
    }
}

fn derivative_findings(keys: &Keys, name: &[u8]) -> Findings
    ensures { result ≡ found_of_use (lines_of keys.now.lines.now) (plain.derivative name.now) }
{
    let declared = keys.declared(name);
    Findings {
        unknown: declared.is_none(),
        unfit: !matches!(declared, Some(Declared::Variable)),
        derivative: true,
        slope: false,
    }
}

fn slope_findings(keys: &Keys, function: &[u8], argument: &[u8]) -> Findings
    ensures { result ≡ found_of_use (lines_of keys.now.lines.now)
        (plain.slope function.now argument.now) }
{
    let declared = keys.declared(function);
    Findings {
        unknown: declared.is_none() || keys.declared(argument).is_none(),
        unfit: !has_argument(declared, argument),
        derivative: false,
        slope: true,
    }
}

/// Whether it is a function with this argument.
fn has_argument(declared: Option<Declared<'_>>, argument: &[u8]) -> bool
    ensures { result
        ≡ plain_fault.has_argument argument.now (option_map declared_of declared.entry) }
{
    match declared {
        Some(Declared::Function(arguments)) => is_among(argument, arguments.as_slice()),
        _ => false,
    }
}

/// Whether a name is among these.
pub(crate) fn is_among(name: &[u8], names: &[Name]) -> bool
    ensures { result ≡ list_any (bytes_eq name.now) names.now }
{
    for other in names {
        if name == other.as_slice() {
            return true;
        }
    }
    false
}

/// What is wrong with the uses of names in an expression.
pub(crate) fn expr_findings(keys: &Keys, expr: &Expr) -> Findings
    ensures { result ≡ found_in (lines_of keys.now.lines.now) (symbols_of_expr (expr_of expr.now)) }
{
    match expr {
        Expr::Num(_) => Findings::none(),
        Expr::Sym(name) => symbol_findings(keys, name),
        Expr::Sum(u, v) => expr_findings(keys, u).join(expr_findings(keys, v)),
        Expr::Diff(u, v) => expr_findings(keys, u).join(expr_findings(keys, v)),
        Expr::Neg(u) => expr_findings(keys, u),
        Expr::Prod(u, v) => expr_findings(keys, u).join(expr_findings(keys, v)),
        Expr::Pow(u, _) => expr_findings(keys, u),
        Expr::Quot(u, v) => expr_findings(keys, u).join(expr_findings(keys, v)),
    }
}

/// What is wrong with the uses of names in a claim.
#[cycle(claim_findings)]
pub(crate) fn claim_findings(keys: &Keys, claim: &Claim) -> Findings
    ensures { result ≡ found_in (lines_of keys.now.lines.now)
        (symbols_of_claim (claim_of claim.now)) }
{
    match claim {
        Claim::True => Findings::none(),
        Claim::False => Findings::none(),
        Claim::Atom(u, _, v) => expr_findings(keys, u).join(expr_findings(keys, v)),
        Claim::Not(c) => claim_findings(keys, c),
        Claim::And(cs) => all_findings(keys, cs),
        Claim::Or(cs) => all_findings(keys, cs),
        Claim::Implies(a, b) => claim_findings(keys, a).join(claim_findings(keys, b)),
        Claim::Iff(a, b) => claim_findings(keys, a).join(claim_findings(keys, b)),
    }
}

#[cycle(claim_findings)]
fn all_findings(keys: &Keys, claims: &[Claim]) -> Findings
    ensures { result ≡ found_in (lines_of keys.now.lines.now)
        (symbols_of_claims (members_of claims.now)) }
{
    let mut all = Findings::none();
    for claim in claims {
        all = all.join(claim_findings(keys, claim));
    }
    all
}
