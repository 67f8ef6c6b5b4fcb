ghost use Rattle.std.specs.Prelude.{◌≡◌, ◌≤◌, length, map, IfOk};
ghost use Rattle.theory_meaning.specs.Point.{AreDistinct};
ghost use Rattle.theory_decision.specs.Answers.{named};
ghost use Rattle.theory_witness.specs.Path.{step_of, IsHitPath};
ghost use Rattle.theory_witness.specs.Pointed.{IsPointed, IsRightPoint};

use crate::values::value_of;
use crate::witness::values_along;
use std::alloc::Global;
use theory_points::{Frac, Limit, Name, Names, NoMemory, Point};
use theory_signs::Path;

/// The point of a hit.
#[derive(Drop)]
pub enum Pointed {
    /// A value for each listed name, in their order.
    At(Point),
    /// A restriction or a value on the way passes a bound.
    Wide,
}

/// The point of the listed names along the path of a hit, from its last step to its first.
pub fn point_of(alloc: Global, path: &Path, symbols: &Names) -> Result<Pointed, NoMemory>
    requires few { length symbols.now ≤ 32 }
    requires distinct { AreDistinct symbols.now }
    requires hit { IsHitPath (length symbols.now) (map step_of path.now.items) }
    ensures written { IfOk result (IsPointed symbols.now (map step_of path.now.items)) }

    // A point makes the formula of the path's first step true.
    ensures right { IfOk result (IsRightPoint symbols.now (map step_of path.now.items)) }
{
    let names = symbols.as_slice();
    match values_along(alloc, names.len() as u8, path) {
        Ok(values) => Ok(Pointed::At(named_point(alloc, names, &values)?)),
        Err(Limit::Wide) => Ok(Pointed::Wide),
        Err(Limit::Memory) => Err(NoMemory),
    }
}

// Each name with the value of its symbol.
fn named_point(alloc: Global, names: &[Name], values: &[Frac]) -> Result<Point, NoMemory>
    requires few { length names.now ≤ 32 }
    ensures { IfOk result (λ p. p ≡ named names.now values.now) }
{
    let mut entries = Vec::new(alloc);
    for (k, name) in names.iter().enumerate() {
        entries.push((name.copy(alloc)?, value_of(values, k as u8)))?;
    }
    Ok(Point::from_entries(entries))
}
