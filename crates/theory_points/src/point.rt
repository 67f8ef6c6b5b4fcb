ghost use Rattle.std.specs.Prelude.{◌≡◌, ℕ, List, [], ◌∷◌, OnOk, OnErr};
ghost use Rattle.theory_meaning.specs.Fraction.{Fraction};
ghost use Rattle.theory_meaning.specs.Point.{value_at};
ghost use Rattle.theory_points.specs.Changes.{SetsValue, place_in};

use crate::bytes::Name;
use crate::frac::Frac;
use crate::limit::NoMemory;
use std::alloc::Global;
use std::marker::Model;

/// A finite list of names with fractions, where a name that isn't there has the value 0.
#[derive(Debug, Drop)]
pub struct Point {
    entries: Vec<(Name, Frac)>,
}

impl Model for Point {
    ghost Value = { List (List ℕ × Fraction) };

    ghost view = { λ p. p.entries.items };
}

impl Point {
    /// The point at which every name has the value 0.
    pub fn new(alloc: Global) -> Self
        ensures { result ≡ [] }
    {
        Point {
            entries: Vec::new(alloc),
        }
    }

    /// The point of these entries; of those of one name the first counts.
    pub fn from_entries(entries: Vec<(Name, Frac)>) -> Self
        ensures { result ≡ entries.items }
    {
        Point { entries }
    }

    /// The value of a name, 0 for one that isn't there.
    pub fn value(&self, name: &Name) -> Frac
        ensures { result ≡ value_at self.now name.now }
    {
        value_among(&self.entries, name)
    }

    /// Gives a name its value, and leaves every other name as it was.
    pub fn set(&mut self, name: Name, value: Frac) -> Result<(), NoMemory>
        ensures ok { OnOk result (SetsValue self.old self.new name value) }
        ensures err { OnErr result (self.new ≡ self.old) }
    {
        match place_of(&self.entries, &name) {
            Some(k) => self.entries[k].1 = value,
            None => self.entries.push((name, value))?,
        }
        Ok(())
    }
}

fn value_among(entries: &[(Name, Frac)], name: &Name) -> Frac
    ensures { result ≡ value_at entries.now name.now }
{
    for (held, value) in entries {
        if held.is_same(name) {
            return *value;
        }
    }
    Frac::zero()
}

fn place_of(entries: &[(Name, Frac)], name: &Name) -> Option<usize>
    ensures { result ≡ place_in entries.now name.now }
{
    for (k, (held, _)) in entries.iter().enumerate() {
        if held.is_same(name) {
            return Some(k);
        }
    }
    None
}
