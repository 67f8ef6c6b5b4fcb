ghost use Rattle.std.specs.Prelude.{◌≡◌, ◌++◌, IfOk, OnOk, codes};
ghost use Rattle.theory_meaning.specs.Point.{Name};
ghost use Rattle.theory_grammar.specs.Printed.{further, shift_text, line_text, op_text};
ghost use Rattle.theory_syntax.specs.Plain.{line_of, op_of};

use crate::claim::add_claim;
use crate::expr::add_sides;
use std::alloc::Global;
use theory_points::{Bytes, Name, NoMemory};
use theory_syntax::{Line, Op, Rel};

/// The printed form of a line, without a line feed.
pub fn print_line(alloc: Global, line: &Line) -> Result<Bytes, NoMemory>
    ensures { IfOk result (λ text. text ≡ line_text (line_of line.now)) }
{
    let mut text = Bytes::new(alloc);
    add_line(alloc, &mut text, line)?;
    Ok(text)
}

/// The printed form of a change, without a line feed.
pub fn print_op(alloc: Global, op: &Op) -> Result<Bytes, NoMemory>
    ensures { IfOk result (λ text. text ≡ op_text (op_of op.now)) }
{
    let mut text = Bytes::new(alloc);
    match op {
        Op::Put(line) => {
            text.extend(b"put ")?;
            add_line(alloc, &mut text, line)?;
        }
        Op::Drop(key) => add_named(&mut text, b"drop ", key)?,
    }
    Ok(text)
}

// Appends a line, without a line feed.
fn add_line(alloc: Global, text: &mut Bytes, line: &Line) -> Result<(), NoMemory>
    ensures { OnOk result (text.new ≡ text.old ++ line_text (line_of line.now)) }
{
    match line {
        Line::Model(name) => add_named(text, b"model ", name),
        Line::Var(name) => add_named(text, b"var ", name),
        Line::Param(name) => add_named(text, b"param ", name),
        Line::Fun(name, arguments) => {
            add_named(text, b"fun ", name)?;
            text.extend(b" of")?;
            add_arguments(text, arguments.as_slice())
        }
        Line::Eq(label, left, right) => {
            add_named(text, b"eq ", label)?;
            text.extend(b": ")?;
            add_sides(alloc, text, left, Rel::Eq, right)
        }
        Line::Assume(label, claim) => {
            add_named(text, b"assume ", label)?;
            text.extend(b": ")?;
            add_claim(alloc, text, claim)
        }
        Line::Claim(label, shift, claim) => {
            add_named(text, b"claim ", label)?;
            add_shift(text, shift)?;
            text.extend(b": ")?;
            add_claim(alloc, text, claim)
        }
    }
}

// Appends a word with the blank behind it, and a name.
fn add_named(text: &mut Bytes, word: &[u8], name: &Name) -> Result<(), NoMemory>
    ensures { OnOk result (text.new ≡ text.old ++ word.now ++ name.now) }
{
    text.extend(word)?;
    text.extend(name.as_slice())
}

// Appends names, each with a blank before it.
fn add_arguments(text: &mut Bytes, arguments: &[Name]) -> Result<(), NoMemory>
    ensures { OnOk result (text.new ≡ text.old ++ further (codes " ") arguments.now) }
{
    for argument in arguments {
        add_named(text, b" ", argument)?;
    }
    Ok(())
}

// Appends the parameter that a claim shifts, with its word.
fn add_shift(text: &mut Bytes, shift: &Option<Name>) -> Result<(), NoMemory>
    ensures { OnOk result (text.new ≡ text.old ++ shift_text shift.now) }
{
    match shift {
        None => Ok(()),
        Some(name) => add_named(text, b" by ", name),
    }
}
