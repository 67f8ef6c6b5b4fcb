ghost use Rattle.std.specs.Prelude.{◌≡◌, ◌<◌, ℕ, [], ◌∷◌, ◌++◌, None, Some, option_map, slice_get, OnOk, IfOk, length, vec_len, vec_capacity};
ghost use Rattle.std.specs.Map.{lookup, keys_of};
ghost use Rattle.std.specs.Str.{bytes_eq};
ghost use Rattle.indexmap.specs.IndexMap.{spare};
ghost use Rattle.theory_meaning.specs.Point as point;
ghost use Rattle.theory_versions.specs.Index.{places_of, number_of, with_place, IsRoomAt, HasRoom, IsSeatIn};

use crate::entry::Entry;
use indexmap::IndexMap;
use std::alloc::Global;
use theory_points::{Name, NoMemory};

/// The places of the versions of each model, in the order in which the models were created.
pub type Index = IndexMap<Vec<u8>, Vec<usize>>;

/// Where the place of a version that comes next is put.
#[derive(Drop)]
pub enum Seat {
    /// At a model that isn't there, of this name, with this one place.
    New(Vec<u8>, Vec<usize>),
    /// Behind the places of the model of this number, from 0.
    Behind(usize),
}

/// The places of the versions of a model.
pub fn places_in<'a>(index: &'a Index, model: &Name) -> Option<&'a [usize]>
    ensures { option_map (λ places. places.now) result
        ≡ lookup (bytes_eq model.now) (places_of index.now.entries) }
{
    match index.get(model.as_slice()) {
        Some(places) => Some(places.as_slice()),
        None => None,
    }
}

/// The name of the model of this number, from 0.
pub fn model_at(index: &Index, number: usize) -> Option<&[u8]>
    ensures { option_map (λ model. model.now) result
        ≡ slice_get (keys_of (places_of index.now.entries)) number }
{
    match index.get_index(number) {
        Some((key, _)) => Some(key.as_slice()),
        None => None,
    }
}

/// Takes the memory that one version more of a model wants.
pub fn take_room(
    alloc: Global,
    index: &mut Index,
    entries: &mut Vec<Entry>,
    model: &Name,
) -> Result<Seat, NoMemory>
    ensures index { places_of index.new.entries ≡ places_of index.old.entries }
    ensures entries { entries.new.items ≡ entries.old.items }
    ensures room { OnOk result (vec_len entries.new < vec_capacity entries.new) }
    ensures has_room { IfOk result (HasRoom index.new) }
    ensures seat { IfOk result (IsSeatIn (places_of index.old.entries) model.now
        (length entries.old.items)) }
{
    if entries.reserve(1).is_err() {
        return Err(NoMemory);
    }
    match number_in(index, model) {
        Some(at) => match room_at(index, at) {
            Ok(()) => Ok(Seat::Behind(at)),
            Err(_) => Err(NoMemory),
        },
        None => room_for_model(alloc, index, model, entries.as_slice().len()),
    }
}

/// The number of a model, from 0.
fn number_in(index: &Index, model: &Name) -> Option<usize>
    ensures { result ≡ number_of model.now (places_of index.now.entries) }
{
    index.get_index_of(model.as_slice())
}

/// Makes room for one place more of the model of this number.
fn room_at(index: &mut Index, at: usize) -> Result<(), NoMemory>
    requires at { at < length index.old.entries }
    ensures same { places_of index.new.entries ≡ places_of index.old.entries }
    ensures ok { OnOk result (IsRoomAt at index.new.entries) }
{
    let (_, places) = index.pair_mut(at);
    if places.reserve(1).is_err() {
        return Err(NoMemory);
    }
    Ok(())
}

/// Makes room for one model more.
fn room_for_model(
    alloc: Global,
    index: &mut Index,
    model: &Name,
    place: usize,
) -> Result<Seat, NoMemory>
    requires missing { number_of model.now (places_of index.old.entries) ≡ None }
    ensures same { places_of index.new.entries ≡ places_of index.old.entries }
    ensures has_room { IfOk result (HasRoom index.new) }
    ensures seat { IfOk result (IsSeatIn (places_of index.old.entries) model.now place) }
{
    if index.reserve(1).is_err() {
        return Err(NoMemory);
    }
    let key = Vec::from_slice(alloc, model.as_slice())?;
    let places = Vec::from_slice(alloc, &[place])?;
    Ok(Seat::New(key, places))
}

/// Puts the place of a version where room was taken for it.
pub fn put_place(index: &mut Index, seat: Seat, place: usize)
    requires room { HasRoom index.old seat }
    ensures { (model : point.Name) → IsSeatIn (places_of index.old.entries) model place seat →
        places_of index.new.entries ≡ with_place model place (places_of index.old.entries) }
{
    match seat {
        Seat::New(key, places) => add_model(index, key, places),
        Seat::Behind(at) => add_place(index, at, place),
    }
}

/// Adds a model behind the others, where there is room.
fn add_model(index: &mut Index, key: Vec<u8>, places: Vec<usize>)
    requires room { 0 < spare index.old }
    ensures { (place : ℕ) → places.items ≡ place ∷ [] →
        number_of key.items (places_of index.old.entries) ≡ None →
        places_of index.new.entries ≡ with_place key.items place (places_of index.old.entries) }
{
    match index.insert(key, places) {
        Ok(_) => {}
        Err(_) => unreachable!(),
    }
}

/// Adds a place behind those of the model of this number, where there is room.
fn add_place(index: &mut Index, at: usize, place: usize)
    requires room { IsRoomAt at index.old.entries }
    ensures { (model : point.Name) → number_of model (places_of index.old.entries) ≡ Some at →
        places_of index.new.entries ≡ with_place model place (places_of index.old.entries) }
{
    let (_, places) = index.pair_mut(at);
    places.push(place).unwrap();
}

/// Adds a version behind the others, where there is room.
pub fn add_entry(entries: &mut Vec<Entry>, entry: Entry)
    requires { vec_len entries.old < vec_capacity entries.old }
    ensures { entries.new.items ≡ entries.old.items ++ entry ∷ [] }
{
    entries.push(entry).unwrap();
}
