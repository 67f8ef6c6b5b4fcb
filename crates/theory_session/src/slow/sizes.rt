ghost use Rattle.std.specs.Prelude.{◌≡◌, ◌+◌, ◌<◌, nat_lt, not, IfOk, MatchOption};
ghost use Rattle.theory_session.specs.Sizes.{size_of, size_in, most_bytes};
ghost use Rattle.theory_session.specs.SlowDesk.{entry_of, entries_of};

use crate::slow::memory::NoMemory;
use crate::slow::texts::Text;
use crate::slow::versions::Version;
use std::alloc::Global;

const MOST_BYTES: usize = 67_108_864;

/// What a version leaves of so many bytes; None where it counts more.
fn left_by<T: Text>(
    alloc: Global,
    bytes: usize,
    version: &Version<T>,
) -> Result<Option<usize>, NoMemory>
    ensures { IfOk result (λ left. MatchOption left (bytes < size_of (entry_of T.lines version.now))
        (λ rest. rest + size_of (entry_of T.lines version.now) ≡ bytes)) }
{
    let print = version.text.print(alloc)?;
    let Some(rest) = bytes.checked_sub(version.row.body.len()) else {
        return Ok(None);
    };
    Ok(rest.checked_sub(print.len()))
}

/// What all versions leave of the bytes of a desk.
fn left_by_all<T: Text>(alloc: Global, versions: &[Version<T>]) -> Result<Option<usize>, NoMemory>
    ensures { IfOk result (λ left. MatchOption left
        (most_bytes < size_in (entries_of T.lines versions.now))
        (λ rest. rest + size_in (entries_of T.lines versions.now) ≡ most_bytes)) }
{
    let mut left = MOST_BYTES;
    for version in versions {
        match left_by(alloc, left, version)? {
            Some(rest) => left = rest,
            None => return Ok(None),
        }
    }
    Ok(Some(left))
}

/// Whether the bytes of a desk suffice for one version more.
pub fn is_room<T: Text>(
    alloc: Global,
    versions: &[Version<T>],
    version: &Version<T>,
) -> Result<bool, NoMemory>
    ensures { IfOk result (λ room. room ≡ not (nat_lt most_bytes
        (size_in (entries_of T.lines versions.now) + size_of (entry_of T.lines version.now)))) }
{
    match left_by_all(alloc, versions)? {
        Some(left) => Ok(left_by(alloc, left, version)?.is_some()),
        None => Ok(false),
    }
}
