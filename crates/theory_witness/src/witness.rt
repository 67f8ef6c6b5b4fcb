ghost use Rattle.std.specs.Prelude.{◌≤◌, IfOk, map};
ghost use Rattle.theory_decision.specs.Choice.{Symbols};
ghost use Rattle.theory_decision.specs.Witness.{IsWitness, IsWideWitness};
ghost use Rattle.theory_poly.specs.Answers.{WideWhere};
ghost use Rattle.theory_witness.specs.Path.{step_of, IsHitPath};

use crate::stepping::add_step;
use std::alloc::Global;
use theory_points::{Frac, Limit};
use theory_signs::PathStep;

/// The values of the symbols along the path of a hit, from its last step to its first.
pub fn values_along(alloc: Global, count: u8, path: &[PathStep]) -> Result<Vec<Frac>, Limit>
    requires few { count ≤ 32 }
    requires hit { IsHitPath count (map step_of path.now) }
    ensures value { IfOk result (λ values. (given : Symbols) ×
        IsWitness count (map step_of path.now) given values.items) }
    ensures wide { WideWhere (IsWideWitness count (map step_of path.now)) result }
{
    let mut given = Vec::new(alloc);
    let mut values = Vec::new(alloc);
    let mut left = path.len();
    while left > 0 {
        left -= 1;
        match add_step(alloc, count, &path[left], &mut given, &mut values) {
            Ok(()) => {}
            Err(limit) => return Err(limit),
        }
    }
    Ok(values)
}
