ghost use Rattle.std.specs.Prelude.{◌≡◌, false, ◌∷◌, ◌++◌, length, IfOk, OnOk};
ghost use Rattle.theory_meaning.specs.Declarations as declarations;
ghost use Rattle.theory_meaning.specs.Declarations.{listed_by, listed_in, listed_symbols};
ghost use Rattle.theory_meaning.specs.Tree.{var, function};
ghost use Rattle.theory_syntax.specs.Plain.{line_of, lines_of};
ghost use Rattle.theory_model.specs.Counted.{counted};

use crate::model::{Model, text_of};
use std::alloc::Global;
use theory_points::{Bytes, Name, Names, NoMemory};
use theory_syntax::{Line, Numbered};

/// How many symbols a claim lists, with a shift or without.
pub(crate) fn listed_count(shifted: bool, lines: &[Numbered]) -> usize
    ensures { result ≡ counted (length (listed_in shifted (lines_of lines.now))) }
{
    let mut count: usize = 0;
    for numbered in lines {
        count = count.saturating_add(line_count(shifted, &numbered.line));
    }
    count
}

fn line_count(shifted: bool, line: &Line) -> usize
    ensures { result ≡ counted (length (listed_by shifted (line_of line.now))) }
{
    match line {
        Line::Var(_) => if shifted { 2 } else { 1 },
        Line::Param(_) => 1,
        Line::Fun(_, arguments) => arguments.as_slice().len().saturating_add(1),
        _ => 0,
    }
}

/// The listed symbols of the claim of this label, in the order of the declaring lines.
pub fn symbols(alloc: Global, model: &Model, claim: &Name) -> Result<Names, NoMemory>
    ensures { IfOk result (λ names. names ≡ listed_symbols (lines_of model.now) claim.now) }
{
    let lines = text_of(model).as_slice();
    listed(alloc, is_shifted(lines, claim), lines)
}

/// Whether the claim of this label names a shift.
fn is_shifted(lines: &[Numbered], label: &Name) -> bool
    ensures { result ≡ declarations.is_shifted label.now (lines_of lines.now) }
{
    for numbered in lines {
        match shifted_by(&numbered.line, label) {
            Some(shifted) => return shifted,
            None => {}
        }
    }
    false
}

/// Whether a shift is named, where the line is the claim of this label.
fn shifted_by(line: &Line, label: &Name) -> Option<bool>
    ensures { result ≡ declarations.shifted_by label.now (line_of line.now) }
{
    match line {
        Line::Claim(own, shift, _) => {
            if own.is_same(label) {
                Some(shift.is_some())
            } else {
                None
            }
        }
        _ => None,
    }
}

/// The listed symbols of all lines.
fn listed(alloc: Global, shifted: bool, lines: &[Numbered]) -> Result<Names, NoMemory>
    ensures { IfOk result (λ names. names ≡ listed_in shifted (lines_of lines.now)) }
{
    let mut names = Names::new(alloc);
    for numbered in lines {
        list_line(alloc, shifted, &numbered.line, &mut names)?;
    }
    Ok(names)
}

/// Adds the listed symbols that a line declares.
fn list_line(alloc: Global, shifted: bool, line: &Line, names: &mut Names) -> Result<(), NoMemory>
    ensures { OnOk result (names.new ≡ names.old ++ listed_by shifted (line_of line.now)) }
{
    match line {
        Line::Var(name) => list_variable(alloc, shifted, name, names),
        Line::Param(name) => Ok(names.push(name.copy(alloc)?)?),
        Line::Fun(name, arguments) => list_function(alloc, name, arguments.as_slice(), names),
        _ => Ok(()),
    }
}

fn list_variable(
    alloc: Global,
    shifted: bool,
    name: &Name,
    names: &mut Names,
) -> Result<(), NoMemory>
    ensures { OnOk result (names.new ≡ names.old ++ listed_by shifted (var name.now)) }
{
    names.push(name.copy(alloc)?)?;
    if shifted {
        names.push(dotted(alloc, b"d".as_slice(), name.as_slice())?)?;
    }
    Ok(())
}

fn list_function(
    alloc: Global,
    name: &Name,
    arguments: &[Name],
    names: &mut Names,
) -> Result<(), NoMemory>
    ensures { OnOk result
        (names.new ≡ names.old ++ listed_by false (function name.now arguments.now)) }
{
    names.push(name.copy(alloc)?)?;
    for argument in arguments {
        names.push(dotted(alloc, name.as_slice(), argument.as_slice())?)?;
    }
    Ok(())
}

/// The two joined by a dot.
fn dotted(alloc: Global, front: &[u8], back: &[u8]) -> Result<Name, NoMemory>
    ensures { IfOk result (λ name. name ≡ front.now ++ 46 ∷ back.now) }
{
    let mut bytes = Bytes::from_slice(alloc, front)?;
    bytes.extend(b".".as_slice())?;
    bytes.extend(back)?;
    Name::from_slice(alloc, bytes.as_slice())
}
