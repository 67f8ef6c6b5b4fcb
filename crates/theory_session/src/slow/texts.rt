ghost use Rattle.std.specs.Prelude.{◌≡◌, List, IfOk, option_map};
ghost use Rattle.theory_meaning.specs.Edit.{lines_alone};
ghost use Rattle.theory_meaning.specs.ModelFault.{model_fault as fault_of_lines};
ghost use Rattle.theory_meaning.specs.Text.{Numbered};
ghost use Rattle.theory_grammar.specs.Printed.{text_of};
ghost use Rattle.theory_session.specs.Create.{name_in};
ghost use Rattle.theory_session.specs.SlowTexts.{model_fault_of, IsReadAs, IsEditedAs};

use crate::slow::memory::NoMemory;
use std::alloc::Global;
use theory_grammar::TextKind;
use theory_meaning::ModelKind;

/// The first fault of a text: its kind, and its line and column from 1.
#[derive(Clone, Copy, Debug, PartialEq, Eq)]
pub struct TextFault {
    pub kind: TextKind,
    pub line: usize,
    pub column: usize,
}

/// The first fault of a model: its kind and its line.
#[derive(Clone, Copy, Debug, PartialEq, Eq)]
pub struct ModelFault {
    pub kind: ModelKind,
    pub at: usize,
}

/// Why operations that were read leave no model; they are counted from 1.
#[derive(Clone, Copy, Debug, PartialEq, Eq)]
pub enum EditFault {
    UnknownKey(usize),
    ModelLine(usize),
    After(ModelFault),
}

/// Why bytes give no text.
#[derive(Clone, Copy, Debug, PartialEq, Eq)]
pub enum Unread {
    Fault(TextFault),
    Memory,
}

/// Why a text isn't edited.
#[derive(Clone, Copy, Debug, PartialEq, Eq)]
pub enum Unchanged {
    Read(TextFault),
    Edit(EditFault),
    Memory,
}

/// The text of a version: how it is read, judged, edited and printed.
pub trait Text: Drop {
    ghost lines: { Self → List Numbered };

    /// The text that the bytes spell, or their first fault.
    fn read(alloc: Global, body: &[u8]) -> Result<Self, Unread>
        ensures { IsReadAs lines body.now result };

    /// The first fault of the text as a model.
    fn model_fault(&self, alloc: Global) -> Result<Option<ModelFault>, NoMemory>
        ensures { IfOk result (λ fault.
            option_map model_fault_of fault ≡ fault_of_lines (lines self.now)) };

    /// The text after the operations that the bytes spell, or the fault of either.
    fn edited(&self, alloc: Global, body: &[u8]) -> Result<Self, Unchanged>
        ensures { IsEditedAs lines body.now (lines self.now) result };

    /// The name of the model.
    fn name(&self, alloc: Global) -> Result<Vec<u8>, NoMemory>
        ensures { IfOk result (λ name. name.items ≡ name_in (lines self.now)) };

    /// The printed form.
    fn print(&self, alloc: Global) -> Result<Vec<u8>, NoMemory>
        ensures { IfOk result (λ print. print.items ≡ text_of (lines_alone (lines self.now))) };
}
