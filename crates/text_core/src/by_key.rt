//! A map from text, which contracts see as its entries in byte order of their keys.
ghost use Rattle.std.specs.Prelude.{◌≡◌, ◌<◌, ◌≤◌, ◌↔◌, [], ◌∷◌, ◌++◌, IsTrue, length, map, insert, remove, slice_set, IfOk, IfErr, OnOk, OnErr, MatchOption, None};
ghost use Rattle.std.specs.Option.{option_copied, is_some};
ghost use Rattle.std.specs.Str.{bytes_eq};
ghost use Rattle.std.specs.List.{IsDistinct};
ghost use Rattle.text_core.specs.Keyed.{keys, Ascending, entry, lookup, with_key, without_key, value_at};

use crate::{Names, OutOfMemory, Seq, Text};
use std::alloc::Global;
use std::cmp::Ordering;
use std::marker::Model;

/// A key and its value.
#[derive(Debug, Drop)]
pub struct KeyValue<T> {
    pub key: Text,
    pub value: T,
}

/// A map from text: entries in byte order of their keys, no two of one key, also inside a type that leads back to
/// itself.
#[derive(Debug, Drop)]
pub struct ByKey<T> {
    entries: Vec<KeyValue<T>>,
}

impl<T> Model for ByKey<T> {
    ghost use Rattle.std.specs.Prelude.{List};
    ghost use Rattle.text_core.specs.declared.by_key.KeyValue.{KeyValue};
    ghost use Rattle.text_core.specs.Keyed.{Ascending, code};

    ghost Value = { List (KeyValue T) };

    ghost coded = { code T.code };

    ghost view = { λ m. m.entries.items };

    ghost invariant = { λ m. Ascending m.entries.items };
}

impl<T> ByKey<T> {
    /// A map with no entry.
    pub fn new(alloc: Global) -> ByKey<T>
        ensures { result ≡ [] }
    {
        ByKey {
            entries: Vec::new(alloc),
        }
    }

    /// The entries in byte order of their keys.
    pub fn as_slice(&self) -> &[KeyValue<T>]
        ensures value { result.now ≡ self.now }
        ensures ascending { Ascending self.now }
    {
        self.entries.as_slice()
    }

    /// The entries, given out.
    pub fn into_vec(self) -> Vec<KeyValue<T>>
        ensures value { result.items ≡ self }
        ensures ascending { Ascending self }
    {
        let ByKey { entries } = self;
        entries
    }

    /// How many entries there are.
    pub fn len(&self) -> usize
        ensures { result ≡ length self.now }
    {
        self.entries.len()
    }

    /// Whether there is no entry.
    pub fn is_empty(&self) -> bool
        ensures { IsTrue result ↔ (self.now ≡ []) }
    {
        self.entries.is_empty()
    }

    /// A copy of the keys, in byte order, none twice.
    pub fn keys(&self, alloc: Global) -> Result<Names, OutOfMemory>
        ensures keys { IfOk result (λ names. names ≡ keys self.now) }
        ensures distinct { IfOk result (IsDistinct bytes_eq) }
    {
        let mut names = Seq::new(alloc);
        for entry in &self.entries {
            names.push(entry.key.copy(alloc)?)?;
        }
        Ok(names)
    }

    /// The value at a key.
    pub fn get(&self, key: &str) -> Option<&T>
        ensures { option_copied result ≡ lookup key.now self.now }
    {
        for entry in &self.entries {
            if key == entry.key.as_str() {
                return Some(&entry.value);
            }
        }
        None
    }

    /// Whether there is an entry of that key.
    pub fn contains(&self, key: &str) -> bool
        ensures { result ≡ is_some (lookup key.now self.now) }
    {
        self.get(key).is_some()
    }
}

impl<T: Drop> ByKey<T> {
    /// Sets the value at a key: an entry of an equal key gets the value, and a new entry goes to its place. After an
    /// error the map is as before.
    pub fn insert(&mut self, key: Text, value: T) -> Result<(), OutOfMemory>
        ensures ok { OnOk result (self.new ≡ with_key key value self.old) }
        ensures err { OnErr result (self.new ≡ self.old) }
    {
        match place_of(self.entries.as_slice(), key.as_str()) {
            Ok(at) => self.entries[at] = KeyValue { key, value },
            Err(at) => self.entries.insert(at, KeyValue { key, value })?,
        }
        Ok(())
    }

    /// Takes the entry of a key out, and gives its value.
    pub fn remove(&mut self, key: &str) -> Option<T>
        ensures value { result ≡ lookup key.now self.old }
        ensures rest { self.new ≡ without_key key.now self.old }
    {
        let at = find(self.entries.as_slice(), key)?;
        let KeyValue { key: _key, value } = self.entries.remove(at);
        Some(value)
    }

    /// Adds an entry whose key comes after all others. After an error the map is as before.
    pub fn push_last(&mut self, key: Text, value: T) -> Result<(), OutOfMemory>
        requires { Ascending (self.old ++ entry key value ∷ []) }
        ensures ok { OnOk result (self.new ≡ self.old ++ entry key value ∷ []) }
        ensures err { OnErr result (self.new ≡ self.old) }
    {
        self.entries.push(KeyValue { key, value })?;
        Ok(())
    }
}

// Where a key stands, or else where it goes.
fn place_of<T>(entries: &[KeyValue<T>], key: &str) -> Result<usize, usize>
    ensures found { IfOk result (λ i. (i < length entries.now)
        × ((v : T) → with_key key.now v entries.now ≡ slice_set entries.now i (entry key.now v))) }
    ensures absent { IfErr result (λ i. (i ≤ length entries.now)
        × ((v : T) → with_key key.now v entries.now ≡ insert entries.now i (entry key.now v))) }
{
    'places: for i in 0..entries.len() {
        match key.cmp(entries[i].key.as_str()) {
            Ordering::Less => return Err(i),
            Ordering::Equal => return Ok(i),
            Ordering::Greater => {}
        }
    }
    Err(entries.len())
}

// Where the entry of a key stands.
fn find<T>(entries: &[KeyValue<T>], key: &str) -> Option<usize>
    ensures { MatchOption result
        ((lookup key.now entries.now ≡ None) × (without_key key.now entries.now ≡ entries.now))
        (λ i. (i < length entries.now) × (lookup key.now entries.now ≡ value_at i entries.now) × (without_key key.now entries.now ≡ remove entries.now i)) }
{
    'places: for i in 0..entries.len() {
        if key == entries[i].key.as_str() {
            return Some(i);
        }
    }
    None
}
