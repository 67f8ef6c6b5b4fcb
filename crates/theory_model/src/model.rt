ghost use Rattle.std.specs.Prelude.{◌≡◌};
ghost use Rattle.theory_meaning.specs.Edit.{IsModel};
ghost use Rattle.theory_syntax.specs.Plain.{lines_of};

use std::marker;
use theory_syntax::Lines;

/// A checked model: its lines with their numbers.
#[derive(Drop)]
pub struct Model {
    lines: Lines,
}

impl marker::Model for Model {
    ghost use Rattle.std.specs.Prelude.{List};
    ghost use Rattle.std.specs.Coded.{codes};
    ghost use Rattle.theory_meaning.specs.Edit.{IsModel};
    ghost use Rattle.theory_syntax.specs.Plain.{lines_of};
    ghost use Rattle.theory_syntax.specs.declared.text.Numbered.{Numbered};
    ghost use Rattle.theory_syntax.specs.contracts.claim.Claim as claim_row;
    ghost use Rattle.theory_syntax.specs.contracts.expr.Expr as expr_row;

    ghost Value = { List Numbered };

    ghost coded = { Prim.hlevel (codes, claim_row.the_row.coded, expr_row.the_row.coded) };

    ghost view = { λ m. m.lines.items };

    ghost invariant = { λ m. IsModel (lines_of m.lines.items) };
}

impl Model {
    /// The model of lines to which no kind of fault applies.
    pub(crate) fn new(lines: Lines) -> Model
        requires { IsModel (lines_of lines.items) }
        ensures { result ≡ lines.items }
    {
        Model { lines }
    }
}

/// The lines of a model, with their numbers.
pub fn text_of(model: &Model) -> &Lines
    ensures lines { result.now.items ≡ model.now }
    ensures checked { IsModel (lines_of model.now) }
{
    &model.lines
}
