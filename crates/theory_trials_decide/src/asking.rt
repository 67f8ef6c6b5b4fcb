//! How a half and a condition are asked for.

ghost use Rattle.theory_meaning.specs.Point.{AreDistinct};

use crate::among::are_among;
use crate::conjuncts::Plain;
use crate::written::sentence;
use std::alloc::Global;
use theory_decide::Engine;
use theory_lower::is_listed;
use theory_meaning::Kind;
use theory_points::{Names, NoMemory};
use theory_verdict::{Decider, Half, Region};

pub const KINDS: [Kind; 4] = [Kind::Listed, Kind::Rare, Kind::Unit, Kind::Signed];

/// The half of conjuncts, None where a name isn't listed.
pub fn half(
    alloc: Global,
    engine: &mut Engine<'_>,
    plain: &Plain,
    kind: Kind,
) -> Result<Option<Half>, NoMemory> {
    let sentence = sentence(alloc, plain)?;
    if !is_listed(&sentence) {
        return Ok(None);
    }
    Ok(Some(engine.half(alloc, &sentence, kind)?))
}

/// The condition of conjuncts on names, None where one of these, or a name in the conjuncts, isn't
/// listed.
pub fn region(
    alloc: Global,
    engine: &mut Engine<'_>,
    plain: &Plain,
    on: &Names,
    kind: Kind,
) -> Result<Option<Region>, NoMemory>
    requires { AreDistinct on.now }
{
    let sentence = sentence(alloc, plain)?;
    if !is_listed(&sentence) || !are_among(on, &sentence.symbols) {
        return Ok(None);
    }
    Ok(Some(engine.region(alloc, &sentence, on, kind)?))
}
