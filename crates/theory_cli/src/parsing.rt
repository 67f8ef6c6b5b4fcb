ghost use Rattle.std.specs.Prelude.{◌≡◌, ◌⊎◌, ℕ, List, Some};
ghost use Rattle.theory_meaning.specs.declared.words.ModelKind.TheVariants as model_kind;
ghost use Rattle.theory_meaning.specs.ModelFault.{model_fault};
ghost use Rattle.theory_meaning.specs.Text as plain;
ghost use Rattle.theory_grammar.specs.declared.text_kind.TextKind.TheVariants as text_kind;
ghost use Rattle.theory_grammar.specs.Texts.{SpellsLines, IsFirstFault};
ghost use Rattle.theory_model.specs.Checked as checked;
ghost use Rattle.theory_text.specs.Answers as answers;
ghost use Rattle.theory_cli.specs.Running.{StopsAt, IsParsed};

use crate::running::Stop;
use crate::text_refusal::TextRefusal;
use std::alloc::Global;
use theory_model::{Model, ModelFault, ModelKind, check};
use theory_text::{TextError, TextKind, read_text};

/// The model that the bytes spell; faults of the text come before those of the model.
pub fn parse(alloc: Global, bytes: &[u8]) -> Result<Model, Stop>
    ensures { IsParsed bytes.now result }
{
    let lines = match read_text(alloc, bytes) {
        Ok(lines) => lines,
        Err(error) => return Err(text_stop(error)),
    };
    match check(alloc, lines) {
        Ok(model) => Ok(model),
        Err(fault) => Err(model_stop(fault)),
    }
}

fn text_stop(error: TextError) -> Stop
    ensures { (bytes : List ℕ) →
        (error.kind ≡ text_kind.Memory) ⊎ IsFirstFault bytes (answers.fault_of error) →
        StopsAt bytes result }
{
    match error.kind {
        TextKind::Memory => Stop::NoMemory,
        _ => Stop::Refused(TextRefusal::Text(error)),
    }
}

fn model_stop(fault: ModelFault) -> Stop
    ensures { (bytes : List ℕ) → (lines : List plain.Numbered) → SpellsLines bytes lines →
        (fault.kind ≡ model_kind.Memory) ⊎ (model_fault lines ≡ Some (checked.fault_of fault)) →
        StopsAt bytes result }
{
    match fault.kind {
        ModelKind::Memory => Stop::NoMemory,
        _ => Stop::Refused(TextRefusal::Model(fault)),
    }
}
