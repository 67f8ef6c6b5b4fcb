ghost use Rattle.std.specs.Prelude.{◌≡◌, ◌++◌, IfOk, OnOk, map};
ghost use Rattle.theory_meaning.specs.declared.words.Rel.TheVariants.{Eq};
ghost use Rattle.theory_grammar.specs.Printed.{sides_text};
ghost use Rattle.theory_session.specs.Printed.{differentiated_text, derived_text};
ghost use Rattle.theory_statics.specs.Plain.{differentiated_of};
ghost use Rattle.theory_syntax.specs.Plain.{expr_of};

use std::alloc::Global;
use theory_points::{Bytes, NoMemory};
use theory_print::print_expr;
use theory_statics::Differentiated;
use theory_syntax::Expr;

/// The lines of differentiated equations.
pub fn derived_lines(alloc: Global, equations: &[Differentiated]) -> Result<Bytes, NoMemory>
    ensures { IfOk result (λ text. text ≡ derived_text (map differentiated_of equations.now)) }
{
    let mut text = Bytes::new(alloc);
    for equation in equations {
        add_equation(alloc, &mut text, equation)?;
    }
    Ok(text)
}

fn add_equation(alloc: Global, text: &mut Bytes, equation: &Differentiated) -> Result<(), NoMemory>
    ensures { OnOk result
        (text.new ≡ text.old ++ differentiated_text (differentiated_of equation.now)) }
{
    text.extend(equation.label.as_slice())?;
    text.extend(b" by ")?;
    text.extend(equation.by.as_slice())?;
    text.extend(b": ")?;
    add_sides(alloc, text, &equation.left, &equation.right)?;
    text.extend(b"\n")
}

fn add_sides(alloc: Global, text: &mut Bytes, left: &Expr, right: &Expr) -> Result<(), NoMemory>
    ensures { OnOk result
        (text.new ≡ text.old ++ sides_text (expr_of left.now) Eq (expr_of right.now)) }
{
    let printed = print_expr(alloc, left)?;
    text.extend(printed.as_slice())?;
    text.extend(b" = ")?;
    let printed = print_expr(alloc, right)?;
    text.extend(printed.as_slice())
}
