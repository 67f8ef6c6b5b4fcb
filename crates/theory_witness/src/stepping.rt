ghost use Rattle.std.specs.Prelude.{◌≡◌, ◌∷◌, ◌<◌, ◌≤◌, false, IfOk, OnOk};
ghost use Rattle.theory_decision.specs.Witness.{IsValue, AddsValue};
ghost use Rattle.theory_decision.specs.Choice.{is_one_of};
ghost use Rattle.theory_poly.specs.Answers.{WideWhere};
ghost use Rattle.theory_witness.specs.Path.{step_of, CanPick, IsWideAt};

use crate::picking::{Picked, pick};
use crate::restriction::restricted;
use crate::values::{set_value, values_of_others};
use std::alloc::Global;
use theory_points::{Frac, Limit, NoMemory};
use theory_signs::PathStep;

/// The value of a step's symbol where the first symbols have these values; Wide where a restriction
/// or the picked value passes a limit.
pub fn value_at_step(
    alloc: Global,
    count: u8,
    step: &PathStep,
    values: &[Frac],
) -> Result<Frac, Limit>
    requires few { count ≤ 32 }
    requires symbol { step.now.symbol < 32 }
    requires picks { CanPick count (step_of step.now) values.now }
    ensures value { IfOk result (IsValue count (step_of step.now) values.now) }
    ensures wide { WideWhere (IsWideAt count (step_of step.now) values.now) result }
{
    let others = values_of_others(alloc, count, step.symbol, values)?;
    let there = match restricted(alloc, &others, &step.formula) {
        Ok(there) => there,
        Err(limit) => return Err(limit),
    };
    match pick(alloc, step.symbol, &there)? {
        Picked::Value(value) => Ok(value),
        Picked::Wide => Err(Limit::Wide),
        Picked::Nowhere => unreachable!(),
    }
}

/// Adds the value of a step's symbol, where that has none yet; the last one stands first.
pub fn add_step(
    alloc: Global,
    count: u8,
    step: &PathStep,
    given: &mut Vec<u8>,
    values: &mut Vec<Frac>,
) -> Result<(), Limit>
    requires few { count ≤ 32 }
    requires symbol { step.now.symbol < 32 }
    requires picks { CanPick count (step_of step.now) values.old.items }
    ensures added { OnOk result (AddsValue (is_one_of given.old.items step.now.symbol) count
        (step_of step.now) given.old.items values.old.items given.new.items values.new.items) }
    ensures wide { WideWhere ((is_one_of given.old.items step.now.symbol ≡ false) ×
        IsWideAt count (step_of step.now) values.old.items) result }
{
    if is_given(given, step.symbol) {
        return Ok(());
    }
    match value_at_step(alloc, count, step, values) {
        Ok(value) => {
            set_value(values, step.symbol, value)?;
            put_first(given, step.symbol)?;
            Ok(())
        }
        Err(limit) => Err(limit),
    }
}

fn is_given(given: &[u8], x: u8) -> bool
    ensures { result ≡ is_one_of given.now x }
{
    for held in given {
        if *held == x {
            return true;
        }
    }
    false
}

fn put_first(given: &mut Vec<u8>, x: u8) -> Result<(), NoMemory>
    ensures { OnOk result (given.new.items ≡ x ∷ given.old.items) }
{
    given.insert(0, x)?;
    Ok(())
}
