ghost use Rattle.std.specs.Prelude.{◌≡◌, ◌++◌, OnOk, decimal, codes};
ghost use Rattle.theory_cli.specs.TextRefusal.{text_fault_text};
ghost use Rattle.theory_cli.specs.Running.{text_refusal_text};
ghost use Rattle.theory_text.specs.Answers.{fault_of};

use crate::printing::add_number;
use std::alloc::Global;
use theory_model::ModelFault;
use theory_points::{Bytes, NoMemory};
use theory_text::TextError;

/// Why the bytes of a file aren't answered, each looked for where those before it don't hold.
#[derive(Clone, Copy, Debug, PartialEq, Eq)]
pub enum TextRefusal {
    /// The first fault of the text.
    Text(TextError),
    /// The first fault of its lines as a model.
    Model(ModelFault),
}

/// Adds what is told of a refusal behind the name of the file.
pub fn add_text_refusal(
    alloc: Global,
    text: &mut Bytes,
    refusal: TextRefusal,
) -> Result<(), NoMemory>
    ensures { OnOk result (text.new ≡ text.old ++ text_refusal_text refusal) }
{
    match refusal {
        TextRefusal::Text(error) => add_text_fault(alloc, text, error),
        TextRefusal::Model(fault) => {
            let kind = theory_model::kind_name(fault.kind);
            add_kind(alloc, text, fault.at, kind.as_bytes())
        }
    }
}

fn add_text_fault(alloc: Global, text: &mut Bytes, error: TextError) -> Result<(), NoMemory>
    ensures { OnOk result (text.new ≡ text.old ++ text_fault_text (fault_of error)) }
{
    text.extend(b":")?;
    add_number(alloc, text, u64::from(error.line))?;
    let kind = theory_text::kind_name(error.kind);
    add_kind(alloc, text, error.column, kind.as_bytes())
}

// Adds a number and what is wrong there.
fn add_kind(
    alloc: Global,
    text: &mut Bytes,
    number: u32,
    kind: &'static [u8],
) -> Result<(), NoMemory>
    ensures { OnOk result
        (text.new ≡ text.old ++ codes ":" ++ decimal number ++ codes ": " ++ kind.now) }
{
    text.extend(b":")?;
    add_number(alloc, text, u64::from(number))?;
    text.extend(b": ")?;
    text.extend(kind)
}
