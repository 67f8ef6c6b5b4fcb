ghost use Rattle.std.specs.Prelude.{◌≡◌, IfOk};
ghost use Rattle.theory_signed.specs.ByKind.{simplified_for};
ghost use Rattle.theory_signs.specs.Plain.{formula_of};

use std::alloc::Global;
use theory_meaning::Kind;
use theory_points::NoMemory;
use theory_signs::Formula;
use theory_simplify::{simplify, simplify_signed};

/// The simplified form by the kind.
pub fn simplified(alloc: Global, kind: Kind, formula: &Formula) -> Result<Formula, NoMemory>
    ensures { IfOk result (λ F. formula_of F ≡ simplified_for kind (formula_of formula.now)) }
{
    match kind {
        Kind::Listed | Kind::Rare | Kind::Unit => simplify(alloc, formula),
        Kind::Signed => simplify_signed(alloc, formula),
    }
}
