ghost use Rattle.std.specs.Prelude.{◌≡◌, IfOk, option_map};
ghost use Rattle.std.specs.List.{list_any};
ghost use Rattle.std.specs.Str.{bytes_eq};
ghost use Rattle.theory_session.specs.Names as session;
ghost use Rattle.theory_words.specs.Commands.{names_given, parts_at_commas};

use std::alloc::Global;
use theory_points::{Name, Names, NoMemory};

/// The names on which a command wants the condition, from the text of its option.
pub fn chosen_names(alloc: Global, on: Option<&str>) -> Result<Names, NoMemory>
    ensures { IfOk result (λ names. names ≡ names_given (option_map (λ text. text.now) on.entry)) }
{
    match on {
        Some(text) => parts_at_commas(alloc, text.as_bytes()),
        None => Ok(Names::new(alloc)),
    }
}

fn parts_at_commas(alloc: Global, text: &[u8]) -> Result<Names, NoMemory>
    ensures { IfOk result (λ names. names ≡ parts_at_commas text.now) }
{
    let mut names = Names::new(alloc);
    for part in text.split(|byte| *byte == b',') {
        names.push(Name::from_slice(alloc, part)?)?;
    }
    Ok(names)
}

/// The names, each where it stands first.
pub fn each_once(alloc: Global, names: &[Name]) -> Result<Names, NoMemory>
    ensures { IfOk result (λ once. once ≡ session.each_once names.now) }
{
    let mut once = Names::new(alloc);
    for name in names {
        if !is_listed(once.as_slice(), name) {
            once.push(name.copy(alloc)?)?;
        }
    }
    Ok(once)
}

/// The place, from 1, of the first of the names that isn't listed.
pub fn first_unlisted(listed: &[Name], names: &[Name]) -> Option<usize>
    ensures { result ≡ session.first_unlisted listed.now names.now }
{
    for (k, name) in names.iter().enumerate() {
        if !is_listed(listed, name) {
            return Some(k + 1);
        }
    }
    None
}

fn is_listed(listed: &[Name], name: &Name) -> bool
    ensures { result ≡ list_any (bytes_eq name.now) listed.now }
{
    for other in listed {
        if name.is_same(other) {
            return true;
        }
    }
    false
}
