ghost use Rattle.std.specs.Prelude.{◌≡◌, [], ◌∷◌, ◌++◌, map, IfOk, OnOk};
ghost use Rattle.theory_meaning.specs.Edit.{lines_alone};
ghost use Rattle.theory_meaning.specs.Question.{assumptions_of};
ghost use Rattle.theory_derivative.specs.Differentiated.{differentiated_by};
ghost use Rattle.theory_derivative.specs.Sentence as written;
ghost use Rattle.theory_derivative.specs.Sentence.{equations_of, equal_derivatives, shifted_equations};
ghost use Rattle.theory_syntax.specs.Plain.{claims_of, line_of, lines_of};

use crate::differentiating::derivative;
use std::alloc::Global;
use theory_points::{Name, NoMemory};
use theory_syntax::{Claim, Claims, Line, Numbered, Rel};

/// What is asked of a point before the claim: equations, their derivatives, assumptions.
pub fn asked_before(
    alloc: Global,
    lines: &[Numbered],
    shift: &Option<Name>,
) -> Result<Claims, NoMemory>
    ensures { IfOk result (λ cs.
        claims_of cs.items ≡ written.asked_before (lines_of lines.now) shift.now) }
{
    let mut all = Vec::new(alloc);
    add_equations(alloc, lines, &mut all)?;
    add_shifted(alloc, lines, shift, &mut all)?;
    add_assumptions(alloc, lines, &mut all)?;
    Ok(all)
}

fn add_equations(alloc: Global, lines: &[Numbered], all: &mut Claims) -> Result<(), NoMemory>
    ensures { OnOk result (claims_of all.new.items
        ≡ claims_of all.old.items ++ equations_of (lines_alone (lines_of lines.now))) }
{
    for numbered in lines {
        add_equation(alloc, &numbered.line, all)?;
    }
    Ok(())
}

fn add_equation(alloc: Global, line: &Line, all: &mut Claims) -> Result<(), NoMemory>
    ensures { OnOk result (claims_of all.new.items
        ≡ claims_of all.old.items ++ equations_of (line_of line.now ∷ [])) }
{
    match line {
        Line::Eq(_, u, v) => {
            all.push(Claim::Atom(u.copy(alloc)?, Rel::Eq, v.copy(alloc)?))?;
            Ok(())
        }
        _ => Ok(()),
    }
}

/// Adds the equations differentiated along the shift, where one is named.
fn add_shifted(
    alloc: Global,
    lines: &[Numbered],
    shift: &Option<Name>,
    all: &mut Claims,
) -> Result<(), NoMemory>
    ensures { OnOk result (claims_of all.new.items
        ≡ claims_of all.old.items ++ shifted_equations (lines_of lines.now) shift.now) }
{
    match shift {
        Some(parameter) => add_derivatives(alloc, lines, parameter, all),
        None => Ok(()),
    }
}

fn add_derivatives(
    alloc: Global,
    lines: &[Numbered],
    shift: &Name,
    all: &mut Claims,
) -> Result<(), NoMemory>
    ensures { OnOk result (claims_of all.new.items ≡ claims_of all.old.items
        ++ map equal_derivatives (differentiated_by (lines_of lines.now) shift.now
        (lines_alone (lines_of lines.now)))) }
{
    for numbered in lines {
        add_derivative(alloc, lines, shift, &numbered.line, all)?;
    }
    Ok(())
}

fn add_derivative(
    alloc: Global,
    lines: &[Numbered],
    shift: &Name,
    line: &Line,
    all: &mut Claims,
) -> Result<(), NoMemory>
    ensures { OnOk result (claims_of all.new.items ≡ claims_of all.old.items
        ++ map equal_derivatives (differentiated_by (lines_of lines.now) shift.now
        (line_of line.now ∷ []))) }
{
    match line {
        Line::Eq(_, u, v) => {
            let left = derivative(alloc, lines, shift, u)?;
            let right = derivative(alloc, lines, shift, v)?;
            all.push(Claim::Atom(left, Rel::Eq, right))?;
            Ok(())
        }
        _ => Ok(()),
    }
}

fn add_assumptions(alloc: Global, lines: &[Numbered], all: &mut Claims) -> Result<(), NoMemory>
    ensures { OnOk result (claims_of all.new.items
        ≡ claims_of all.old.items ++ assumptions_of (lines_alone (lines_of lines.now))) }
{
    for numbered in lines {
        add_assumption(alloc, &numbered.line, all)?;
    }
    Ok(())
}

fn add_assumption(alloc: Global, line: &Line, all: &mut Claims) -> Result<(), NoMemory>
    ensures { OnOk result (claims_of all.new.items
        ≡ claims_of all.old.items ++ assumptions_of (line_of line.now ∷ [])) }
{
    match line {
        Line::Assume(_, claim) => {
            all.push(claim.copy(alloc)?)?;
            Ok(())
        }
        _ => Ok(()),
    }
}
