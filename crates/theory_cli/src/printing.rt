ghost use Rattle.std.specs.Prelude.{◌≡◌, ◌++◌, IfOk, OnOk, option_map, codes, decimal};
ghost use Rattle.std.specs.Fmt.{signed_decimal};
ghost use Rattle.theory_verdict.specs.Plain.{cause_of, half_of, region_of};
ghost use Rattle.theory_session.specs.Printed.{entry_text, further_text, point_text, cause_text, half_text, subject_text, question_text, half_line, halves_text, region_text, region_line, created_text, answer_text, reply_text, line_end};
ghost use Rattle.theory_meaning.specs.Printed.{fraction_text, verdict_text};
ghost use Rattle.theory_cli.specs.Plain.{answer_of, reply_of};

use crate::causes::add_cause;
use crate::derived::derived_lines;
use crate::refused::refused_line;
use crate::reply::{Created, Reply};
use std::alloc::Global;
use theory_points::{Bytes, Frac, Name, Names, NoMemory, Point};
use theory_print::print_claim;
use theory_verdict::{Answer, Cause, Half, Region, Verdict};

/// The printed form of a reply, each line ended by a line feed.
pub fn print(alloc: Global, reply: &Reply) -> Result<Bytes, NoMemory>
    ensures { IfOk result (λ text. text ≡ reply_text (reply_of reply.now)) }
{
    match reply {
        Reply::Created(created) => created_line(alloc, created),
        Reply::Answered(answer) => answer_lines(alloc, answer),
        Reply::Refused(refusal) => refused_line(alloc, *refusal),
        Reply::Derived(equations) => derived_lines(alloc, equations.as_slice()),
    }
}

fn created_line(alloc: Global, created: &Created) -> Result<Bytes, NoMemory>
    ensures { IfOk result (λ text. text ≡ created_text created.now.model created.now.version) }
{
    let mut text = Bytes::new(alloc);
    text.extend(b"created ")?;
    text.extend(created.model.as_slice())?;
    text.extend(b" ")?;
    add_number(alloc, &mut text, u64::from(created.version))?;
    text.extend(b"\n")?;
    Ok(text)
}

fn answer_lines(alloc: Global, answer: &Answer) -> Result<Bytes, NoMemory>
    ensures { IfOk result (λ text. text ≡ answer_text (answer_of answer.now)) }
{
    let mut text = question_line(alloc, answer)?;
    add_halves(alloc, &mut text, answer)?;
    add_region_line(alloc, &mut text, &answer.region)?;
    Ok(text)
}

fn question_line(alloc: Global, answer: &Answer) -> Result<Bytes, NoMemory>
    ensures { IfOk result (λ text. text ≡
        question_text answer.now.model answer.now.version answer.now.claim answer.now.verdict) }
{
    let mut text = Bytes::new(alloc);
    add_subject(alloc, &mut text, answer)?;
    text.extend(b": ")?;
    text.extend(verdict_word(answer.verdict))?;
    text.extend(b"\n")?;
    Ok(text)
}

fn add_subject(alloc: Global, text: &mut Bytes, answer: &Answer) -> Result<(), NoMemory>
    ensures { OnOk result (text.new ≡ text.old
        ++ subject_text answer.now.model answer.now.version answer.now.claim) }
{
    text.extend(b"claim ")?;
    text.extend(answer.claim.as_slice())?;
    text.extend(b" of ")?;
    text.extend(answer.model.as_slice())?;
    text.extend(b" ")?;
    add_number(alloc, text, u64::from(answer.version))
}

fn add_halves(alloc: Global, text: &mut Bytes, answer: &Answer) -> Result<(), NoMemory>
    ensures { OnOk result (text.new ≡ text.old ++ halves_text answer.now.symbols
        (half_of answer.now.example) (half_of answer.now.counter)) }
{
    add_half_line(
        alloc,
        text,
        b"  example: ",
        &answer.symbols,
        &answer.example,
    )?;
    add_half_line(
        alloc,
        text,
        b"  counterexample: ",
        &answer.symbols,
        &answer.counter,
    )
}

fn add_half_line(
    alloc: Global,
    text: &mut Bytes,
    word: &[u8],
    symbols: &Names,
    half: &Half,
) -> Result<(), NoMemory>
    ensures { OnOk result
        (text.new ≡ text.old ++ half_line word.now symbols.now (half_of half.now)) }
{
    text.extend(word)?;
    add_half(alloc, text, symbols.as_slice(), half)?;
    text.extend(b"\n")
}

fn add_region_line(alloc: Global, text: &mut Bytes, region: &Option<Region>) -> Result<(), NoMemory>
    ensures { OnOk result (text.new ≡ text.old ++ region_line (option_map region_of region.now)) }
{
    match region {
        None => Ok(()),
        Some(region) => add_condition_line(alloc, text, region),
    }
}

fn add_condition_line(alloc: Global, text: &mut Bytes, region: &Region) -> Result<(), NoMemory>
    ensures { OnOk result
        (text.new ≡ text.old ++ codes "  holds where: " ++ region_text (region_of region.now) ++ line_end) }
{
    text.extend(b"  holds where: ")?;
    add_region(alloc, text, region)?;
    text.extend(b"\n")
}

fn add_region(alloc: Global, text: &mut Bytes, region: &Region) -> Result<(), NoMemory>
    ensures { OnOk result (text.new ≡ text.old ++ region_text (region_of region.now)) }
{
    match region {
        Region::Known(condition) => {
            let printed = print_claim(alloc, condition)?;
            text.extend(printed.as_slice())
        }
        Region::Unknown(cause) => {
            text.extend(b"unknown, ")?;
            add_cause(alloc, text, cause)
        }
    }
}

fn verdict_word(verdict: Verdict) -> &'static [u8]
    ensures { result.now ≡ verdict_text verdict }
{
    match verdict {
        Verdict::Holds => b"true",
        Verdict::Fails => b"false",
        Verdict::Contradictory => b"contradictory",
        Verdict::Mixed => b"mixed",
        Verdict::Undecided => b"undecided",
    }
}

fn add_half(alloc: Global, text: &mut Bytes, symbols: &[Name], half: &Half) -> Result<(), NoMemory>
    ensures { OnOk result (text.new ≡ text.old ++ half_text symbols.now (half_of half.now)) }
{
    match half {
        Half::Found(point) => add_point(alloc, text, symbols, point),
        Half::FoundWide => text.extend(b"some point, not printable"),
        Half::Absent => text.extend(b"none"),
        Half::Left(cause) => add_left(alloc, text, cause),
    }
}

fn add_left(alloc: Global, text: &mut Bytes, cause: &Cause) -> Result<(), NoMemory>
    ensures { OnOk result
        (text.new ≡ text.old ++ codes "undecided, " ++ cause_text (cause_of cause.now)) }
{
    text.extend(b"undecided, ")?;
    add_cause(alloc, text, cause)
}

fn add_point(
    alloc: Global,
    text: &mut Bytes,
    symbols: &[Name],
    point: &Point,
) -> Result<(), NoMemory>
    ensures { OnOk result (text.new ≡ text.old ++ point_text point.now symbols.now) }
{
    match symbols {
        [] => text.extend(b"any point"),
        [first, further @ ..] => {
            add_entry(alloc, text, first, point)?;
            add_further(alloc, text, further, point)
        }
    }
}

fn add_further(
    alloc: Global,
    text: &mut Bytes,
    symbols: &[Name],
    point: &Point,
) -> Result<(), NoMemory>
    ensures { OnOk result (text.new ≡ text.old ++ further_text point.now symbols.now) }
{
    for symbol in symbols {
        text.extend(b", ")?;
        add_entry(alloc, text, symbol, point)?;
    }
    Ok(())
}

fn add_entry(alloc: Global, text: &mut Bytes, symbol: &Name, point: &Point) -> Result<(), NoMemory>
    ensures { OnOk result (text.new ≡ text.old ++ entry_text point.now symbol.now) }
{
    text.extend(symbol.as_slice())?;
    text.extend(b"=")?;
    add_fraction(alloc, text, &point.value(symbol))
}

fn add_fraction(alloc: Global, text: &mut Bytes, value: &Frac) -> Result<(), NoMemory>
    ensures { OnOk result (text.new ≡ text.old ++ fraction_text value.now) }
{
    add_signed(alloc, text, value.num())?;
    let den = value.den() as u64;
    if den > 1 {
        text.extend(b"/")?;
        add_number(alloc, text, den)?;
    }
    Ok(())
}

fn add_signed(alloc: Global, text: &mut Bytes, number: i64) -> Result<(), NoMemory>
    ensures { OnOk result (text.new ≡ text.old ++ signed_decimal number) }
{
    let digits = number.to_string(alloc)?;
    text.extend(digits.as_bytes())
}

pub fn add_number(alloc: Global, text: &mut Bytes, number: u64) -> Result<(), NoMemory>
    ensures { OnOk result (text.new ≡ text.old ++ decimal number) }
{
    let digits = number.to_string(alloc)?;
    text.extend(digits.as_bytes())
}
