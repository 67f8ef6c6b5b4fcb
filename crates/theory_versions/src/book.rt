ghost use Rattle.std.specs.Prelude.{◌≡◌, ◌≤◌, [], ◌∷◌, ◌++◌, map, option_map, slice_get, IfOk, OnOk};
ghost use Rattle.std.specs.Map.{keys_of};
ghost use Rattle.theory_session.specs.Accepted.{IsNext};
ghost use Rattle.theory_session.specs.Editing.{with_id};
ghost use Rattle.theory_session.specs.Lookup as plain;
ghost use Rattle.theory_session.specs.Row.{IsRequestId};
ghost use Rattle.theory_session.specs.Sizes.{most_versions};
ghost use Rattle.theory_versions.specs.Book.{entries_in, IsBookOf, IsFound, IsAddition, HasRoomFor, at_place, listed_one};
ghost use Rattle.theory_versions.specs.Entries.{entry_of, entries_of};
ghost use Rattle.theory_versions.specs.Index.{places_of};
ghost use Rattle.theory_versions.specs.Replies.{last_of};

use crate::entry::Entry;
use crate::requests::{Requests, add_request, key_of, place_of, room_for_request};
use crate::rooms::{Index, Seat, add_entry, model_at, places_in, put_place, take_room};
use crate::shown::{Last, Listed};
use indexmap::IndexMap;
use std::alloc::Global;
use theory_points::{Name, NoMemory};

/// The versions of a desk in the order of their acceptance, without a keeper.
#[derive(Drop)]
pub struct Book {
    pub(crate) entries: Vec<Entry>,
    pub(crate) index: Index,
    pub(crate) requests: Requests,
    /// The bytes that the versions count.
    pub(crate) size: u64,
}

/// The memory that one version more wants.
#[derive(Drop)]
pub struct Room {
    pub(crate) seat: Seat,
    /// The key of the request that makes it.
    pub(crate) key: Vec<u8>,
}

/// Why a version isn't found.
#[derive(Clone, Copy, Debug, PartialEq, Eq)]
pub enum Missing {
    /// There is no model of the name.
    Model,
    /// The model has no version of the number; its last one has this number.
    Version(u32),
}

impl Book {
    /// No versions.
    pub fn new(alloc: Global) -> Self
        ensures none { entries_in result ≡ [] }
        ensures book { IsBookOf result }
    {
        Book {
            entries: Vec::new(alloc),
            index: IndexMap::new(alloc),
            requests: IndexMap::new(alloc),
            size: 0,
        }
    }

    /// The number of the last version of a model, 0 where there is no such model.
    pub fn last_version(&self, model: &Name) -> u32
        requires book { IsBookOf self.now }
        ensures last { result ≡ plain.last_version model.now (entries_in self.now) }
        ensures most { result ≤ most_versions }
    {
        match places_in(&self.index, model) {
            Some(places) => places.len() as u32,
            None => 0,
        }
    }

    /// A version of a model.
    pub fn version(&self, model: &Name, version: u32) -> Option<&Entry>
        requires book { IsBookOf self.now }
        ensures { option_map (λ e. entry_of e.now) result
            ≡ plain.version_at model.now version (entries_in self.now) }
    {
        if version == 0 {
            return None;
        }
        match places_in(&self.index, model) {
            Some(places) => { entry_behind(self.entries.as_slice(), places, version as usize - 1) }
            None => None,
        }
    }

    /// The version of this number, the last where none is named, or what is missing.
    pub fn find(&self, model: &Name, version: Option<u32>) -> Result<&Entry, Missing>
        requires book { IsBookOf self.now }
        ensures { IsFound (plain.find_version model.now version (entries_in self.now)) result }
    {
        let last = self.last_version(model);
        if last == 0 {
            return Err(Missing::Model);
        }
        let number = match version {
            Some(number) => number,
            None => last,
        };
        match self.version(model, number) {
            Some(entry) => Ok(entry),
            None => Err(Missing::Version(last)),
        }
    }

    /// The version of a model that a request with this id made.
    pub fn with_id(
        &self,
        alloc: Global,
        model: &Name,
        id: &Name,
    ) -> Result<Option<&Entry>, NoMemory>
        requires book { IsBookOf self.now }
        requires id { IsRequestId id.now }
        ensures { IfOk result (λ found. option_map (λ e. entry_of e.now) found
            ≡ with_id id.now (plain.versions_of model.now (entries_in self.now))) }
    {
        let key = key_of(alloc, model, id)?;
        match place_of(&self.requests, key.as_slice()) {
            Some(place) => Ok(entry_at(self.entries.as_slice(), place)),
            None => Ok(None),
        }
    }

    /// The models with their last versions, in the order of their creation.
    pub fn list(&self, alloc: Global) -> Result<Listed, NoMemory>
        requires book { IsBookOf self.now }
        ensures { IfOk result (λ ls. map last_of ls ≡ plain.listed_in (entries_in self.now)) }
    {
        let mut all = Listed::new(alloc);
        for number in 0..self.index.len() {
            self.add_last(alloc, &mut all, number)?;
        }
        Ok(all)
    }

    /// Adds the model of this number, from 0, with its last version.
    fn add_last(&self, alloc: Global, all: &mut Listed, number: usize) -> Result<(), NoMemory>
        requires book { IsBookOf self.now }
        ensures { OnOk result (map last_of all.new ≡ map last_of all.old ++ listed_one
            (entries_in self.now) (slice_get (keys_of (places_of self.now.index.entries)) number)) }
    {
        match model_at(&self.index, number) {
            Some(name) => {
                let model = Name::from_slice(alloc, name)?;
                let version = self.last_version(&model);
                all.push(Last { model, version })
            }
            None => Ok(()),
        }
    }

    /// Takes the memory that one version more of a model wants, by a request with this id.
    pub fn take_room(&mut self, alloc: Global, model: &Name, id: &Name) -> Result<Room, NoMemory>
        ensures entries { entries_in self.new ≡ entries_in self.old }
        ensures book { IsBookOf self.old → IsBookOf self.new }
        ensures room { IfOk result (HasRoomFor self.new model.now id.now) }
    {
        let key = key_of(alloc, model, id)?;
        room_for_request(&mut self.requests)?;
        let seat = take_room(alloc, &mut self.index, &mut self.entries, model)?;
        Ok(Room { seat, key })
    }

    /// Adds a version for which room was taken.
    pub fn add(&mut self, room: Room, entry: Entry, size: u64)
        requires book { IsBookOf self.old }
        requires room { HasRoomFor self.old entry.row.model entry.row.id room }
        requires next { IsNext (entries_in self.old) (entry_of entry) }
        requires addition { IsAddition (entries_in self.old) entry size }
        ensures entries { self.new.entries.items ≡ self.old.entries.items ++ entry ∷ [] }
        ensures book { IsBookOf self.new }
    {
        let place = self.entries.as_slice().len();
        put_place(&mut self.index, room.seat, place);
        add_request(&mut self.requests, room.key, place);
        add_entry(&mut self.entries, entry);
        self.size = size;
    }
}

/// The version behind so many of those at these places.
fn entry_behind<'a>(entries: &'a [Entry], places: &[usize], k: usize) -> Option<&'a Entry>
    ensures { option_map (λ e. entry_of e.now) result
        ≡ at_place (entries_of entries.now) (slice_get places.now k) }
{
    match place_at(places, k) {
        Some(place) => entry_at(entries, place),
        None => None,
    }
}

fn entry_at(entries: &[Entry], place: usize) -> Option<&Entry>
    ensures { option_map (λ e. e.now) result ≡ slice_get entries.now place }
{
    entries.get(place)
}

fn place_at(places: &[usize], k: usize) -> Option<usize>
    ensures { result ≡ slice_get places.now k }
{
    if k < places.len() {
        return Some(places[k]);
    }
    None
}
