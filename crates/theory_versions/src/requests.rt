ghost use Rattle.std.specs.Prelude.{◌≡◌, ◌<◌, [], ◌∷◌, ◌++◌, None, IfOk, OnOk};
ghost use Rattle.std.specs.Map.{lookup};
ghost use Rattle.std.specs.Str.{bytes_eq};
ghost use Rattle.indexmap.specs.IndexMap.{spare};
ghost use Rattle.theory_versions.specs.Index.{requests_of, request_key};

use indexmap::IndexMap;
use std::alloc::Global;
use theory_points::{Name, NoMemory};

/// The places of the versions that requests made, by model and id.
pub type Requests = IndexMap<Vec<u8>, usize>;

/// The key of a request.
pub fn key_of(alloc: Global, model: &Name, id: &Name) -> Result<Vec<u8>, NoMemory>
    ensures { IfOk result (λ key. key.items ≡ request_key model.now id.now) }
{
    let mut key = Vec::from_slice(alloc, id.as_slice())?;
    key.push(0)?;
    key.extend_from_slice(model.as_slice())?;
    Ok(key)
}

/// The place of the version that the request of this key made.
pub fn place_of(requests: &Requests, key: &[u8]) -> Option<usize>
    ensures { result ≡ lookup (bytes_eq key.now) (requests_of requests.now.entries) }
{
    match requests.get(key) {
        Some(place) => Some(*place),
        None => None,
    }
}

/// Makes room for one request more.
pub fn room_for_request(requests: &mut Requests) -> Result<(), NoMemory>
    ensures same { requests_of requests.new.entries ≡ requests_of requests.old.entries }
    ensures room { OnOk result (0 < spare requests.new) }
{
    if requests.reserve(1).is_err() {
        return Err(NoMemory);
    }
    Ok(())
}

/// Adds a request behind the others, where there is room.
pub fn add_request(requests: &mut Requests, key: Vec<u8>, place: usize)
    requires room { 0 < spare requests.old }
    ensures { lookup (bytes_eq key.items) (requests_of requests.old.entries) ≡ None →
        requests_of requests.new.entries
        ≡ requests_of requests.old.entries ++ (key.items, place) ∷ [] }
{
    match requests.insert(key, place) {
        Ok(_) => {}
        Err(_) => unreachable!(),
    }
}
