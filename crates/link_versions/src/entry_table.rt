//! The classes as they are held, each found by its name or by its place.
ghost use Rattle.std.specs.Prelude.{◌≡◌, ◌<◌, [], ◌∷◌, ◌++◌, length, position, slice_get, None, IfSome, OnOk, OnErr, option_copied};
ghost use Rattle.link_versions.specs.Entries.{has_name, changed_at, with_added, with_init_state, IsFileEntry};

use crate::class::{Entry, Version};
use indexmap::IndexMap;
use std::alloc::{AllocError, Global};
use std::marker::Model;
use ti_ids::InitState;

/// Entries by their names. Contracts see them as a list, in the order of their definition.
#[derive(Drop)]
pub(crate) struct Table {
    map: IndexMap<Vec<u16>, Entry>,
}

impl Model for Table {
    ghost use Rattle.std.specs.Prelude.{List};
    ghost use Rattle.indexmap.specs.IndexMap.{values};
    ghost use Rattle.link_versions.specs.declared.class.Entry.{Entry};

    ghost Value = { List Entry };

    ghost use Rattle.link_versions.specs.Entries.{AreKeyed};

    ghost view = { λ t. values t.map };

    ghost invariant = { λ t. AreKeyed t.map.entries };
}

impl Table {
    /// No entries, in memory of this allocator.
    pub(crate) fn new(alloc: Global) -> Table
        ensures { result ≡ [] }
    {
        Table {
            map: IndexMap::new(alloc),
        }
    }

    /// How many there are.
    pub(crate) fn len(&self) -> usize
        ensures { result ≡ length self.now }
    {
        self.map.len()
    }

    /// The entry at a place, the first at 0.
    pub(crate) fn at(&self, place: usize) -> Option<&Entry>
        ensures { option_copied result ≡ slice_get self.now place }
    {
        match self.map.get_index(place) {
            Some((_, entry)) => Some(entry),
            None => None,
        }
    }

    /// The place of the entry that has a name.
    pub(crate) fn find(&self, name: &[u16]) -> Option<usize>
        ensures { result ≡ position (has_name name.now) self.now }
    {
        self.map.get_index_of(name)
    }

    /// Adds an entry at the end, by its name, which no other one has.
    pub(crate) fn push(&mut self, name: Vec<u16>, entry: Entry) -> Result<(), AllocError>
        requires named { name.items ≡ entry.name }
        requires fresh { position (has_name entry.name) self.old ≡ None }
        ensures ok { OnOk result (self.new ≡ self.old ++ entry ∷ []) }
        ensures err { OnErr result (self.new ≡ self.old) }
    {
        self.map.insert(name, entry)?;
        Ok(())
    }

    /// Adds a version to the entry of a file at a place.
    pub(crate) fn add_version(&mut self, place: usize, version: Version) -> Result<(), AllocError>
        requires there { place < length self.old }
        requires file { IfSome (slice_get self.old place) IsFileEntry }
        ensures ok { OnOk result (self.new ≡ changed_at (with_added version) self.old place) }
        ensures err { OnErr result (self.new ≡ self.old) }
    {
        let entry = &mut self.map[place];
        entry.add_version(version)
    }

    /// Sets how far the class at a place is.
    pub(crate) fn set_init_state(&mut self, place: usize, state: InitState)
        requires { place < length self.old }
        ensures { self.new ≡ changed_at (with_init_state state) self.old place }
    {
        let entry = &mut self.map[place];
        entry.state = state;
    }
}
