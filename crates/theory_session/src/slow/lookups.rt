ghost use Rattle.std.specs.Prelude.{◌≡◌, length, option_map};
ghost use Rattle.std.specs.Str.{bytes_eq};
ghost use Rattle.theory_session.specs.Editing as editing;
ghost use Rattle.theory_session.specs.Lookup as lookup;
ghost use Rattle.theory_session.specs.SlowDesk.{entry_of, entries_of};

use crate::slow::texts::Text;
use crate::slow::versions::Version;

fn is_of<T: Text>(version: &Version<T>, model: &[u8]) -> bool
    ensures { result ≡ bytes_eq model.now version.now.row.model.items }
{
    model == version.row.model.as_slice()
}

fn has_id<T: Text>(version: &Version<T>, id: &[u8]) -> bool
    ensures { result ≡ bytes_eq version.now.row.id.items id.now }
{
    version.row.id.as_slice() == id
}

/// The number of the last version of a model, or 0 where there is no such model.
pub fn last_version<T: Text>(versions: &[Version<T>], model: &[u8]) -> usize
    ensures { result ≡ lookup.last_version model.now (entries_of T.lines versions.now) }
{
    let mut count = 0;
    for version in versions {
        if is_of(version, model) {
            count += 1;
        }
    }
    count
}

/// The version of a model with this number.
pub fn version_at<'a, T: Text>(
    versions: &'a [Version<T>],
    model: &[u8],
    number: usize,
) -> Option<&'a Version<T>>
    ensures { option_map (λ v. entry_of T.lines v.now) result
        ≡ lookup.version_at model.now number (entries_of T.lines versions.now) }
{
    let mut before = number.checked_sub(1)?;
    for version in versions {
        if is_of(version, model) {
            if before == 0 {
                return Some(version);
            }
            before -= 1;
        }
    }
    None
}

/// The version of a model that a request with this id made.
pub fn version_by<'a, T: Text>(
    versions: &'a [Version<T>],
    model: &[u8],
    id: &[u8],
) -> Option<&'a Version<T>>
    ensures { option_map (λ v. entry_of T.lines v.now) result
        ≡ editing.with_id id.now (lookup.versions_of model.now (entries_of T.lines versions.now)) }
{
    for version in versions {
        if is_of(version, model) && has_id(version, id) {
            return Some(version);
        }
    }
    None
}

/// How many models there are.
pub fn count_models<T: Text>(versions: &[Version<T>]) -> usize
    ensures { result ≡ length (lookup.models_in (entries_of T.lines versions.now)) }
{
    let mut count = 0;
    for version in versions {
        if version.row.version == 1 {
            count += 1;
        }
    }
    count
}
