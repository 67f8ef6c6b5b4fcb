ghost use Rattle.std.specs.Prelude.{◌≡◌, ◌++◌, IfOk, OnOk};
ghost use Rattle.theory_session.specs.Printed.{refused_text, refusal_text, fault_text};
ghost use Rattle.theory_cli.specs.Plain.{fault_of, refusal_of};

use crate::printing::add_number;
use crate::reply::{AskFault, Refusal};
use std::alloc::Global;
use theory_points::{Bytes, NoMemory};

/// The line of a refusal.
pub fn refused_line(alloc: Global, refusal: Refusal) -> Result<Bytes, NoMemory>
    ensures { IfOk result (λ text. text ≡ refused_text (refusal_of refusal)) }
{
    let mut text = Bytes::new(alloc);
    text.extend(b"refused ")?;
    add_refusal(alloc, &mut text, refusal)?;
    text.extend(b"\n")?;
    Ok(text)
}

fn add_refusal(alloc: Global, text: &mut Bytes, refusal: Refusal) -> Result<(), NoMemory>
    ensures { OnOk result (text.new ≡ text.old ++ refusal_text (refusal_of refusal)) }
{
    match refusal {
        Refusal::Ask(fault) => add_ask_fault(alloc, text, fault),
    }
}

fn add_ask_fault(alloc: Global, text: &mut Bytes, fault: AskFault) -> Result<(), NoMemory>
    ensures { OnOk result (text.new ≡ text.old ++ fault_text (fault_of fault)) }
{
    match fault {
        AskFault::UnknownName(place) => {
            text.extend(b"UnknownName ")?;
            add_number(alloc, text, place as u64)
        }
    }
}
