ghost use Rattle.std.specs.Prelude.{◌≡◌, ◌<◌, List, ℕ, length, map, option_map, slice_index_or, MatchResult};
ghost use Rattle.theory_meaning.specs.Declarations as plain;
ghost use Rattle.theory_meaning.specs.Text as text;
ghost use Rattle.theory_syntax.specs.Plain.{line_of, lines_of, numbered_of};
ghost use Rattle.theory_model.specs.Keyed.{declared_of, AreDistinct, HoldsPlaces, IsKeysFault, HoldsKey, place_in};

use std::alloc::Global;
use std::collections::BTreeMap;
use theory_points::{Name, Names};
use theory_syntax::{Line, Numbered};

/// What a name is declared as.
#[derive(Clone, Copy)]
pub(crate) enum Declared<'a> {
    Variable,
    Parameter,
    /// A function, with its arguments.
    Function(&'a Names),
}

/// Lines, each of which has a key of its own, and the place of each key.
#[derive(Drop)]
pub(crate) struct Keys<'a> {
    lines: &'a [Numbered],
    places: BTreeMap<&'a [u8], usize>,
    ghost distinct: { AreDistinct (lines_of lines.now) },
    ghost held: { HoldsPlaces places (lines_of lines.now) },
}

/// The name or label of a line; the model line has none.
pub(crate) fn key_of(line: &Line) -> Option<&Name>
    ensures { option_map (λ name. name.now) result ≡ plain.key_of (line_of line.now) }
{
    match line {
        Line::Model(_) => None,
        Line::Var(name) => Some(name),
        Line::Param(name) => Some(name),
        Line::Fun(name, _) => Some(name),
        Line::Eq(label, _, _) => Some(label),
        Line::Assume(label, _) => Some(label),
        Line::Claim(label, _, _) => Some(label),
    }
}

/// What a line declares its key as, if anything.
fn declaration(line: &Line) -> Option<Declared<'_>>
    ensures { option_map declared_of result ≡ plain.declared_as (line_of line.now) }
{
    match line {
        Line::Var(_) => Some(Declared::Variable),
        Line::Param(_) => Some(Declared::Parameter),
        Line::Fun(_, arguments) => Some(Declared::Function(arguments)),
        _ => None,
    }
}

/// Why the keys of lines aren't put in order.
pub(crate) enum KeysFault {
    /// The number of the first line whose key stands above it.
    Twice(u32),
    NoMemory,
}

impl<'a> Keys<'a> {
    /// The keys of these lines, each of which stands once.
    pub(crate) fn new(alloc: Global, lines: &'a [Numbered]) -> Result<Keys<'a>, KeysFault>
        ensures { MatchResult result (λ keys. lines_of keys.lines.now ≡ lines_of lines.now)
            (IsKeysFault (lines_of lines.now)) }
    {
        let mut places: BTreeMap<&'a [u8], usize> = BTreeMap::new(alloc);
        for (k, numbered) in lines.iter().enumerate() {
            match hold(&mut places, k, numbered) {
                Ok(()) => {}
                Err(fault) => return Err(fault),
            }
        }
        Ok(Keys { lines, places })
    }

    /// The lines themselves.
    pub(crate) fn lines(&self) -> &'a [Numbered]
        ensures { result.now ≡ self.now.lines.now }
    {
        self.lines
    }

    /// What a name is declared as.
    pub(crate) fn declared(&self, name: &[u8]) -> Option<Declared<'a>>
        ensures { option_map declared_of result
            ≡ plain.declared_in (lines_of self.now.lines.now) name.now }
    {
        match self.places.get(name) {
            Some(place) => declaration_at(self.lines, *place),
            None => None,
        }
    }
}

/// What the line at this place declares its key as, if anything.
fn declaration_at(lines: &[Numbered], place: usize) -> Option<Declared<'_>>
    requires { place < length lines.now }
    ensures { (d : text.Numbered) → option_map declared_of result ≡
        plain.declared_as (slice_index_or (lines_of lines.now) place d).line }
{
    declaration(&lines[place].line)
}

/// Holds the key of a line with its place, unless the key is held already.
fn hold<'a>(
    places: &mut BTreeMap<&'a [u8], usize>,
    k: usize,
    numbered: &'a Numbered,
) -> Result<(), KeysFault>
    ensures { HoldsKey (place_in places.old) (place_in places.new) k
        (numbered_of numbered.now) result }
{
    match key_of(&numbered.line) {
        None => Ok(()),
        Some(key) => {
            let bytes = key.as_slice();
            if places.contains_key(bytes) {
                return Err(KeysFault::Twice(numbered.at));
            }
            match places.insert(bytes, k) {
                Ok(_) => Ok(()),
                Err(_) => Err(KeysFault::NoMemory),
            }
        }
    }
}
