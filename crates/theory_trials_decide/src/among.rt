ghost use Rattle.std.specs.Prelude.{◌≡◌, true, Contains};
ghost use Rattle.theory_meaning.specs.Region.{AreAmong};

use theory_points::{Name, Names};

/// Whether each of the first names is one of the others.
pub fn are_among(some: &Names, names: &Names) -> bool
    ensures { result ≡ true → AreAmong some.now names.now }
{
    each_is_among(some.as_slice(), names.as_slice())
}

fn each_is_among(some: &[Name], names: &[Name]) -> bool
    ensures { result ≡ true → AreAmong some.now names.now }
{
    for name in some {
        if !is_one(name, names) {
            return false;
        }
    }
    true
}

fn is_one(name: &Name, names: &[Name]) -> bool
    ensures { result ≡ true → Contains names.now name.now }
{
    for held in names {
        if name.is_same(held) {
            return true;
        }
    }
    false
}
