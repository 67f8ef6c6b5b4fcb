ghost use Rattle.std.specs.Prelude.{◌≡◌, [], ◌∷◌, ◌++◌, map, IfOk, OnOk};
ghost use Rattle.theory_meaning.specs.Edit.{lines_alone};
ghost use Rattle.theory_derivative.specs.Derivative as written;
ghost use Rattle.theory_derivative.specs.Differentiated.{differentiated_by, differentiated_along, differentiated_in, parameters_of};
ghost use Rattle.theory_syntax.specs.Plain.{expr_of, line_of, lines_of};
ghost use Rattle.theory_statics.specs.Plain.{differentiated_of};

use crate::differentiating::derivative;
use crate::equation::Differentiated;
use std::alloc::Global;
use theory_model::{Model, text_of};
use theory_points::{Name, NoMemory};
use theory_syntax::{Expr, Line, Numbered};

/// Each equation of a model differentiated along each parameter, parameters first.
pub fn differentiated(alloc: Global, model: &Model) -> Result<Vec<Differentiated>, NoMemory>
    ensures { IfOk result (λ all.
        map differentiated_of all.items ≡ differentiated_in (lines_of model.now)) }
{
    let lines = text_of(model).as_slice();
    let mut all = Vec::new(alloc);
    for numbered in lines {
        add_along(alloc, lines, &numbered.line, &mut all)?;
    }
    Ok(all)
}

/// Adds each equation differentiated along the parameter that the line declares, if it does.
fn add_along(
    alloc: Global,
    lines: &[Numbered],
    line: &Line,
    all: &mut Vec<Differentiated>,
) -> Result<(), NoMemory>
    ensures { OnOk result (map differentiated_of all.new.items ≡ map differentiated_of all.old.items
        ++ differentiated_along (lines_of lines.now) (parameters_of (line_of line.now ∷ []))) }
{
    match line {
        Line::Param(shift) => add_equations(alloc, lines, shift, all),
        _ => Ok(()),
    }
}

/// Adds each equation differentiated along a parameter.
fn add_equations(
    alloc: Global,
    lines: &[Numbered],
    shift: &Name,
    all: &mut Vec<Differentiated>,
) -> Result<(), NoMemory>
    ensures { OnOk result (map differentiated_of all.new.items ≡ map differentiated_of all.old.items
        ++ differentiated_by (lines_of lines.now) shift.now (lines_alone (lines_of lines.now))) }
{
    for numbered in lines {
        add_equation(alloc, lines, shift, &numbered.line, all)?;
    }
    Ok(())
}

/// Adds the line differentiated along a parameter, if it is an equation.
fn add_equation(
    alloc: Global,
    lines: &[Numbered],
    shift: &Name,
    line: &Line,
    all: &mut Vec<Differentiated>,
) -> Result<(), NoMemory>
    ensures { OnOk result (map differentiated_of all.new.items ≡ map differentiated_of all.old.items
        ++ differentiated_by (lines_of lines.now) shift.now (line_of line.now ∷ [])) }
{
    match line {
        Line::Eq(label, u, v) => {
            let equation = Differentiated {
                label: label.copy(alloc)?,
                by: shift.copy(alloc)?,
                left: derivative(alloc, lines, shift, u)?,
                right: derivative(alloc, lines, shift, v)?,
            };
            all.push(equation)?;
            Ok(())
        }
        _ => Ok(()),
    }
}
