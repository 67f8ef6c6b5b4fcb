ghost use Rattle.std.specs.Prelude.{◌≡◌, option_map, IfOk};
ghost use Rattle.theory_meaning.specs.declared.words.ModelKind.TheVariants.{ModelLine, TooManyLines, Memory};
ghost use Rattle.theory_meaning.specs.Declarations.{or_else};
ghost use Rattle.theory_meaning.specs.Edit.{HaveIdentifiers};
ghost use Rattle.theory_meaning.specs.ModelFault as plain;
ghost use Rattle.theory_meaning.specs.ModelFault.{fault_at, line_with, model_fault};
ghost use Rattle.theory_syntax.specs.Plain.{line_of, lines_of};
ghost use Rattle.theory_model.specs.Checked.{fault_of, least_kind_of, IsChecked};

use crate::faults::ModelFault;
use crate::judging::{FirstLines, first_lines};
use crate::keys::{Keys, KeysFault};
use crate::model::Model;
use std::alloc::Global;
use theory_meaning::ModelKind;
use theory_points::NoMemory;
use theory_syntax::{Line, Lines, Numbered};

/// The greatest number of lines.
const MOST_LINES: usize = 200;

/// The model of exactly these lines with their numbers, or the first kind of fault of them.
pub fn check(alloc: Global, lines: Lines) -> Result<Model, ModelFault>
    requires { HaveIdentifiers (lines_of lines.items) }
    ensures { IsChecked lines.items result }
{
    match first_fault(alloc, lines.as_slice()) {
        Err(_) => Err(memory()),
        Ok(Some(fault)) => Err(fault),
        Ok(None) => Ok(Model::new(lines)),
    }
}

fn memory() -> ModelFault
    ensures { result.kind ≡ Memory }
{
    ModelFault {
        kind: ModelKind::Memory,
        at: 1,
    }
}

/// The first kind of fault that applies to the lines, at its first line.
fn first_fault(alloc: Global, lines: &[Numbered]) -> Result<Option<ModelFault>, NoMemory>
    ensures { IfOk result (λ fault. option_map fault_of fault ≡ model_fault (lines_of lines.now)) }
{
    if let Some(at) = model_line_fault(lines) {
        return Ok(Some(ModelFault {
            kind: ModelKind::ModelLine,
            at,
        }));
    }
    let keys = match Keys::new(alloc, lines) {
        Ok(keys) => keys,
        Err(KeysFault::Twice(at)) => {
            return Ok(Some(ModelFault {
                kind: ModelKind::KeyTwice,
                at,
            }));
        }
        Err(KeysFault::NoMemory) => return Err(NoMemory),
    };
    Ok(least_kind(first_lines(&keys), too_many_lines(lines)))
}

/// The number of the first line that is no model line at the head, or one below it.
fn model_line_fault(lines: &[Numbered]) -> Option<u32>
    ensures { result ≡ line_with ModelLine (lines_of lines.now) }
{
    if lines.is_empty() {
        return Some(1);
    }
    for (k, numbered) in lines.iter().enumerate() {
        if is_model_line(&numbered.line) == (k > 0) {
            return Some(numbered.at);
        }
    }
    None
}

fn is_model_line(line: &Line) -> bool
    ensures { result ≡ plain.is_model_line (line_of line.now) }
{
    match line {
        Line::Model(_) => true,
        _ => false,
    }
}

/// The number of the line past the greatest number of lines.
fn too_many_lines(lines: &[Numbered]) -> Option<u32>
    ensures { result ≡ line_with TooManyLines (lines_of lines.now) }
{
    if lines.len() > MOST_LINES {
        Some(lines[MOST_LINES].at)
    } else {
        None
    }
}

/// The first kind, of those below the keys, that some line has, at its first line.
fn least_kind(firsts: FirstLines, beyond: Option<u32>) -> Option<ModelFault>
    ensures { option_map fault_of result ≡ least_kind_of firsts beyond }
{
    let symbols = first_of(
        ModelKind::TooManySymbols,
        firsts.too_many_symbols,
        lines_fault(beyond),
    );
    let params = first_of(ModelKind::NotParam, firsts.not_param, symbols);
    let shifts = first_of(ModelKind::NoShift, firsts.no_shift, params);
    let arguments = first_of(ModelKind::BadArgument, firsts.bad_argument, shifts);
    first_of(ModelKind::UnknownName, firsts.unknown_name, arguments)
}

fn lines_fault(beyond: Option<u32>) -> Option<ModelFault>
    ensures { option_map fault_of result ≡ fault_at TooManyLines beyond }
{
    first_of(ModelKind::TooManyLines, beyond, None)
}

/// The fault of this kind, where a line has one, and else that of a later kind.
fn first_of(kind: ModelKind, first: Option<u32>, later: Option<ModelFault>) -> Option<ModelFault>
    ensures { option_map fault_of result
        ≡ or_else (fault_at kind first) (option_map fault_of later) }
{
    match first {
        Some(at) => Some(ModelFault { kind, at }),
        None => later,
    }
}
