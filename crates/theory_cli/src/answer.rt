ghost use Rattle.std.specs.Prelude.{◌≡◌, None, IfOk, IfSome, is_some, true};
ghost use Rattle.theory_decision.specs.Engine.{engine};
ghost use Rattle.theory_derivative.specs.Sentence.{claim_in};
ghost use Rattle.theory_meaning.specs.Declarations.{listed_symbols};
ghost use Rattle.theory_meaning.specs.Deciding.{IsRegion};
ghost use Rattle.theory_session.specs.Answered as session;
ghost use Rattle.theory_session.specs.Answered.{IsAnswer};
ghost use Rattle.theory_session.specs.Check.{Replies, question_about};
ghost use Rattle.theory_session.specs.Create.{name_in, name_of_line};
ghost use Rattle.theory_session.specs.Names as names;
ghost use Rattle.theory_statics.specs.Asked.{IsReady, conjuncts_of};
ghost use Rattle.theory_syntax.specs.Plain.{line_of, lines_of};
ghost use Rattle.theory_verdict.specs.Plain.{region_of};
ghost use Rattle.theory_cli.specs.Plain.{answer_of, reply_of};

use crate::names::{each_once, first_unlisted};
use crate::reply::{AskFault, Refusal, Reply};
use std::alloc::Global;
use theory_decide::{written_half, written_region};
use theory_meaning::Verdict;
use theory_model::{Model, symbols, text_of};
use theory_points::{Name, Names, NoMemory};
use theory_search::Policy;
use theory_statics::sentences;
use theory_syntax::{Line, Numbered, Sentence};
use theory_verdict::{Answer, Region, verdict_of};

/// The version that a model has when it was just created.
pub const FIRST_VERSION: u32 = 1;

/// The reply to the question about the claim of a label, on names, by the order of a policy.
pub fn reply(
    alloc: Global,
    model: &Model,
    label: &Name,
    on: &Names,
    policy: &Policy,
) -> Result<Reply, NoMemory>
    requires { is_some (claim_in (lines_of model.now) label.now) ≡ true }
    ensures { IfOk result (λ r. Replies engine (lines_of model.now)
        (question_about (name_in (lines_of model.now)) on.now policy.now.kind label.now)
        (reply_of r)) }
{
    let listed = symbols(alloc, model, label)?;
    match first_unlisted(listed.as_slice(), on.as_slice()) {
        Some(place) => Ok(Reply::Refused(Refusal::Ask(AskFault::UnknownName(place)))),
        None => Ok(Reply::Answered(answer(alloc, model, label, on, policy)?)),
    }
}

/// The answer, where each of the names is listed.
fn answer(
    alloc: Global,
    model: &Model,
    label: &Name,
    on: &Names,
    policy: &Policy,
) -> Result<Answer, NoMemory>
    requires claim { is_some (claim_in (lines_of model.now) label.now) ≡ true }
    requires listed { names.first_unlisted (listed_symbols (lines_of model.now) label.now) on.now
        ≡ None }
    ensures { IfOk result (λ a. IsAnswer engine (lines_of model.now)
        (question_about (name_in (lines_of model.now)) on.now policy.now.kind label.now)
        (answer_of a)) }
{
    let lines = text_of(model).as_slice();
    let (asked, negated) = sentences(alloc, model, label)?;
    let example = written_half(alloc, policy, &asked)?;
    let counter = written_half(alloc, policy, &negated)?;
    let verdict = verdict_of(&example, &counter);
    let region = told_region(alloc, verdict, &negated, on, policy)?;
    Ok(Answer {
        model: model_name(alloc, lines)?,
        version: FIRST_VERSION,
        claim: label.copy(alloc)?,
        symbols: asked.symbols.copy(alloc)?,
        example,
        counter,
        verdict,
        region,
    })
}

/// The condition by the counterexample's sentence on the names, each once, where it is told.
fn told_region(
    alloc: Global,
    verdict: Verdict,
    negated: &Sentence,
    on: &Names,
    policy: &Policy,
) -> Result<Option<Region>, NoMemory>
    requires ready { IsReady negated.now }
    requires listed { names.first_unlisted negated.now.symbols on.now ≡ None }
    ensures there { IfOk result (λ r. is_some r ≡ session.tells_region on.now verdict) }
    ensures region { IfOk result (λ r. IfSome r (λ told. IsRegion engine negated.now.symbols
        (conjuncts_of negated.now) (names.each_once on.now) policy.now.kind (region_of told))) }
{
    if !tells_region(on.as_slice(), verdict) {
        return Ok(None);
    }
    let once = each_once(alloc, on.as_slice())?;
    Ok(Some(written_region(alloc, policy, negated, &once)?))
}

fn tells_region(on: &[Name], verdict: Verdict) -> bool
    ensures { result ≡ session.tells_region on.now verdict }
{
    match on {
        [] => false,
        [_, ..] => is_mixed(verdict),
    }
}

fn is_mixed(verdict: Verdict) -> bool
    ensures { result ≡ session.is_mixed verdict }
{
    match verdict {
        Verdict::Mixed => true,
        Verdict::Holds | Verdict::Fails | Verdict::Contradictory | Verdict::Undecided => false,
    }
}

/// The name in the model line that lines begin with, empty where they don't.
pub fn model_name(alloc: Global, lines: &[Numbered]) -> Result<Name, NoMemory>
    ensures { IfOk result (λ name. name ≡ name_in (lines_of lines.now)) }
{
    match lines {
        [first, ..] => name_of_line(alloc, &first.line),
        [] => Name::from_slice(alloc, b""),
    }
}

fn name_of_line(alloc: Global, line: &Line) -> Result<Name, NoMemory>
    ensures { IfOk result (λ name. name ≡ name_of_line (line_of line.now)) }
{
    match line {
        Line::Model(name) => name.copy(alloc),
        _ => Name::from_slice(alloc, b""),
    }
}
