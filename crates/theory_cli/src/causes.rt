ghost use Rattle.std.specs.Prelude.{◌≡◌, ◌++◌, OnOk, map};
ghost use Rattle.theory_verdict.specs.Plain.{stuck_of, cause_of};
ghost use Rattle.theory_session.specs.Printed.{stuck_text, further_stuck, stuck_texts, cause_text};

use std::alloc::Global;
use theory_points::{Bytes, NoMemory};
use theory_print::print_claim;
use theory_verdict::{Cause, StuckOn};

/// Appends why a half or a condition is left open.
pub fn add_cause(alloc: Global, text: &mut Bytes, cause: &Cause) -> Result<(), NoMemory>
    ensures { OnOk result (text.new ≡ text.old ++ cause_text (cause_of cause.now)) }
{
    match cause {
        Cause::Stuck(ons) => {
            text.extend(b"stuck on")?;
            add_all_stuck(alloc, text, ons)
        }
        Cause::Wide => text.extend(b"a polynomial passes the limit"),
        Cause::Large => text.extend(b"a formula passes the limit"),
        Cause::Budget => text.extend(b"the search passes the limit"),
        Cause::ManyLeaves => text.extend(b"the condition passes the limit"),
    }
}

fn add_all_stuck(alloc: Global, text: &mut Bytes, ons: &[StuckOn]) -> Result<(), NoMemory>
    ensures { OnOk result (text.new ≡ text.old ++ stuck_texts (map stuck_of ons.now)) }
{
    match ons {
        [] => Ok(()),
        [first, further @ ..] => {
            text.extend(b" ")?;
            add_stuck(alloc, text, first)?;
            add_further_stuck(alloc, text, further)
        }
    }
}

fn add_further_stuck(alloc: Global, text: &mut Bytes, ons: &[StuckOn]) -> Result<(), NoMemory>
    ensures { OnOk result (text.new ≡ text.old ++ further_stuck (map stuck_of ons.now)) }
{
    for on in ons {
        text.extend(b", ")?;
        add_stuck(alloc, text, on)?;
    }
    Ok(())
}

fn add_stuck(alloc: Global, text: &mut Bytes, on: &StuckOn) -> Result<(), NoMemory>
    ensures { OnOk result (text.new ≡ text.old ++ stuck_text (stuck_of on.now)) }
{
    text.extend(on.symbol.as_slice())?;
    text.extend(b" in ")?;
    let printed = print_claim(alloc, &on.atom)?;
    text.extend(printed.as_slice())
}
