ghost use Rattle.std.specs.Prelude.{◌≡◌, option_map};
ghost use Rattle.theory_meaning.specs.Declarations.{kind_in, declaration_of, declared_in};
ghost use Rattle.theory_syntax.specs.Plain.{line_of, lines_of};
ghost use Rattle.theory_statics.specs.Plain.{declared_of};

use theory_points::{Name, Names};
use theory_syntax::{Line, Numbered};

/// What a name is declared as.
#[derive(Clone, Copy)]
pub enum Declared<'a> {
    Variable,
    Parameter,
    /// A function, with its arguments.
    Function(&'a Names),
}

/// What a name is declared as by the first of these lines that declares it.
pub fn declared_as<'a>(lines: &'a [Numbered], name: &Name) -> Option<Declared<'a>>
    ensures { option_map declared_of result ≡ declared_in (lines_of lines.now) name.now }
{
    for numbered in lines {
        match declared_by(&numbered.line, name) {
            Some(found) => return Some(found),
            None => {}
        }
    }
    None
}

/// What the line declares this name as, if it does.
fn declared_by<'a>(line: &'a Line, name: &Name) -> Option<Declared<'a>>
    ensures { option_map declared_of result
        ≡ kind_in name.now (declaration_of (line_of line.now)) }
{
    match line {
        Line::Var(own) => own_kind(own, name, Declared::Variable),
        Line::Param(own) => own_kind(own, name, Declared::Parameter),
        Line::Fun(own, arguments) => own_kind(own, name, Declared::Function(arguments)),
        _ => None,
    }
}

fn own_kind<'a>(own: &Name, name: &Name, kind: Declared<'a>) -> Option<Declared<'a>>
    ensures { option_map declared_of result
        ≡ kind_in name.now (Some (own.now, declared_of kind.entry)) }
{
    if own.is_same(name) { Some(kind) } else { None }
}
