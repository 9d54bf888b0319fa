//! Values under names, in the order in which they were added. Finding by name doesn't walk.
ghost use Rattle.std.specs.Prelude.{◌≡◌, ◌<◌, [], ◌∷◌, ◌++◌, length, None, option_copied, option_map, slice_get, slice_set, OnErr, OnOk};
ghost use Rattle.fleet.specs.NameMap.{place_of, value_at, with_value_at};

use indexmap::IndexMap;
use sector_model::NoMemory;
use std::alloc::Global;
use std::marker::Model;
use std::mem;

/// Values under names, each with a name of its own.
#[derive(Drop)]
pub(crate) struct NameMap<V> {
    alloc: Global,
    entries: IndexMap<String, V>,
}

impl<V> Model for NameMap<V> {
    ghost use Rattle.std.specs.Prelude.{List, ℕ};
    ghost use Rattle.fleet.specs.NameMap.{with_bytes};

    ghost Value = { List (List ℕ × V) };

    ghost view = { λ a. with_bytes a.entries.entries };
}

impl<V> NameMap<V> {
    /// One with nothing in it, which keeps the allocator.
    pub fn new(alloc: Global) -> NameMap<V>
        ensures { result ≡ [] }
    {
        NameMap {
            alloc,
            entries: IndexMap::new(alloc),
        }
    }

    /// How many values there are.
    pub fn len(&self) -> usize
        ensures { result ≡ length self.now }
    {
        self.entries.len()
    }

    /// The place of a name, from 0 on, if it is there.
    pub fn place_of(&self, name: &str) -> Option<usize>
        ensures { result ≡ place_of name.now self.now }
    {
        self.entries.get_index_of(name)
    }

    /// The name at a place, if there is one.
    pub fn name_at(&self, place: usize) -> Option<&str>
        ensures { option_copied result ≡ option_map (λ entry. entry.0) (slice_get self.now place) }
    {
        let (name, _) = self.entries.get_index(place)?;
        Some(name.as_str())
    }

    /// The value at a place, if there is one.
    pub fn at(&self, place: usize) -> Option<&V>
        ensures { option_copied result ≡ value_at place self.now }
    {
        let (_, value) = self.entries.get_index(place)?;
        Some(value)
    }

    /// Puts another value at a place, under the name that is there, and gives the one that was.
    pub fn replace(&mut self, place: usize, value: V) -> V
        requires { place < length self.old }
        ensures was { value_at place self.old ≡ Some result }
        ensures after { self.new ≡ with_value_at place value self.old }
    {
        mem::replace(&mut self.entries[place], value)
    }
}

impl<V: Drop> NameMap<V> {
    /// Adds a value behind the others, under a name that isn't there. On [`NoMemory`] nothing has
    /// changed.
    pub fn push(&mut self, name: &str, value: V) -> Result<(), NoMemory>
        requires { place_of name.now self.old ≡ None }
        ensures ok { OnOk result (self.new ≡ self.old ++ (name.now, value) ∷ []) }
        ensures err { OnErr result (self.new ≡ self.old) }
    {
        let name = String::from_str(self.alloc, name)?;
        self.entries.insert(name, value)?;
        Ok(())
    }
}
