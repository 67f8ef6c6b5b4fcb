ghost use Rattle.std.specs.Prelude.{◌≡◌, [], ◌∷◌, ◌++◌, IfOk, is_some, true, option_map};
ghost use Rattle.theory_meaning.specs.Declarations.{listed_symbols};
ghost use Rattle.theory_derivative.specs.Sentence.{claim_at, claim_in};
ghost use Rattle.theory_syntax.specs.Plain.{claim_of, claims_of, line_of, lines_of};
ghost use Rattle.theory_statics.specs.Asked.{asked_of, conjuncts_of, OfClaim, AreWritten, BothList, AreMetExactly, IsReady};

use crate::before::asked_before;
use std::alloc::Global;
use theory_model::{Model, symbols, text_of};
use theory_points::{Name, Names, NoMemory};
use theory_syntax::{Claim, Claims, Line, Numbered, Sentence};

/// The example sentence and the counterexample sentence of the claim of this label.
pub fn sentences(
    alloc: Global,
    model: &Model,
    claim: &Name,
) -> Result<(Sentence, Sentence), NoMemory>
    requires { is_some (claim_in (lines_of model.now) claim.now) ≡ true }
    ensures written { IfOk result (λ both. OfClaim (lines_of model.now) claim.now
        (λ shift c. AreWritten (lines_of model.now) shift c both)) }
    ensures symbols { IfOk result (BothList (listed_symbols (lines_of model.now) claim.now)) }

    // At every point, both ways.
    ensures met { IfOk result (λ both. OfClaim (lines_of model.now) claim.now
        (λ shift c. AreMetExactly (lines_of model.now) shift c both)) }

    // Each may be given to a decider.
    ensures ready { IfOk result (λ both. IsReady both.0 × IsReady both.1) }
{
    let lines = text_of(model).as_slice();
    let names = symbols(alloc, model, claim)?;
    match claim_under(lines, claim) {
        Some((shift, asked)) => both(alloc, lines, shift, asked, names),
        None => unreachable!(),
    }
}

/// Both sentences of a claim, with these symbols.
fn both(
    alloc: Global,
    lines: &[Numbered],
    shift: &Option<Name>,
    claim: &Claim,
    symbols: Names,
) -> Result<(Sentence, Sentence), NoMemory>
    ensures written { IfOk result
        (AreWritten (lines_of lines.now) shift.now (claim_of claim.now)) }
    ensures symbols { IfOk result (BothList symbols) }
{
    let before = asked_before(alloc, lines, shift)?;
    let negated = Claim::Not(Box::new(alloc, claim.copy(alloc)?)?);
    let counter = sentence(copies(alloc, &before)?, negated, symbols.copy(alloc)?)?;
    let example = sentence(before, claim.copy(alloc)?, symbols)?;
    Ok((example, counter))
}

/// Equal claims in the same order.
fn copies(alloc: Global, claims: &[Claim]) -> Result<Claims, NoMemory>
    ensures { IfOk result (λ cs. claims_of cs.items ≡ claims_of claims.now) }
{
    let mut all = Vec::new(alloc);
    for claim in claims {
        all.push(claim.copy(alloc)?)?;
    }
    Ok(all)
}

/// The claims, and behind them one more.
fn sentence(mut before: Claims, asked: Claim, symbols: Names) -> Result<Sentence, NoMemory>
    ensures conjuncts { IfOk result (λ s.
        conjuncts_of s ≡ claims_of before.items ++ claim_of asked ∷ []) }
    ensures symbols { IfOk result (λ s. s.symbols ≡ symbols) }
{
    before.push(asked)?;
    Ok(Sentence {
        conjuncts: before,
        symbols,
    })
}

/// The claim of this label, with its shift.
fn claim_under<'a>(lines: &'a [Numbered], label: &Name) -> Option<(&'a Option<Name>, &'a Claim)>
    ensures { option_map asked_of result ≡ claim_in (lines_of lines.now) label.now }
{
    for numbered in lines {
        match claim_of_line(&numbered.line, label) {
            Some(found) => return Some(found),
            None => {}
        }
    }
    None
}

/// The claim that stands in the line, if it is the one of this label.
fn claim_of_line<'a>(line: &'a Line, label: &Name) -> Option<(&'a Option<Name>, &'a Claim)>
    ensures { option_map asked_of result ≡ claim_at label.now (line_of line.now) }
{
    match line {
        Line::Claim(own, shift, claim) => {
            if own.is_same(label) {
                Some((shift, claim))
            } else {
                None
            }
        }
        _ => None,
    }
}
