//! Tables by key, in the order in which their keys came.

ghost use Rattle.std.specs.Prelude.{◌≡◌, [], ◌∷◌, ◌++◌, length, is_some, OnOk, OnErr, None};
ghost use Rattle.std.specs.Option.{option_copied};
ghost use Rattle.std.specs.Map.{lookup, keys_of};
ghost use Rattle.std.specs.Map.Iter.{ShowsInOrder, deref_pair};
ghost use Rattle.std.specs.List.{IsDistinct};
ghost use Rattle.indexmap.specs.IndexMap.{insert_entry, swap_remove_entry};
ghost use Rattle.comp_lists.specs.Tables.{with_first};

use indexmap::IndexMap;
use indexmap::map::Iter;
use std::alloc::{AllocError, Global};
use std::hash::Hash;
use std::marker::Model;

/// A table in the order in which its keys came, which contracts see as the list of its entries.
///
/// No key occurs twice in it. A look-up takes the time of a hash, whatever the size.
pub struct Keyed<K: Eq + Hash, V> {
    map: IndexMap<K, V>,
}

impl<K: Eq + Hash + Drop, V: Drop> Drop for Keyed<K, V> {
    fn drop(self) {
        let Keyed { map: _ } = self;
    }
}

impl<K: Eq + Hash, V> Model for Keyed<K, V> {
    ghost use Rattle.std.specs.Prelude.{List};

    ghost Value = { List (K × V) };

    ghost view = { λ t. t.map.entries };
}

impl<K: Eq + Hash, V> Keyed<K, V> {
    /// An empty table. It takes no memory.
    pub fn new(alloc: Global) -> Keyed<K, V>
        ensures { result ≡ [] }
    {
        Keyed {
            map: IndexMap::new(alloc),
        }
    }

    /// The value at a key.
    pub fn get(&self, key: &K) -> Option<&V>
        ensures { option_copied result ≡ lookup (K.eq key.now) self.now }
    {
        self.map.get(key)
    }

    /// Whether there is an entry of a key.
    pub fn contains_key(&self, key: &K) -> bool
        ensures { result ≡ is_some (lookup (K.eq key.now) self.now) }
    {
        self.get(key).is_some()
    }

    /// The entries, in order.
    pub fn iter(&self) -> Iter<'_, K, V>
        ensures rest { result ≡ self.now }
        ensures runs { ShowsInOrder (deref_pair {K = K} {X = V}) }
        ensures unique { IsDistinct K.eq (keys_of self.now) }
    {
        self.map.iter()
    }
}

impl<K: Eq + Hash + Drop, V: Drop> Keyed<K, V> {
    /// Adds an entry whose key the table lacks. Where memory is refused, the table is as it was.
    #[tactic(auto, using(crate::proofs::TableLemmas::grows))]
    pub fn insert(&mut self, key: K, value: V) -> Result<(), AllocError>
        requires { lookup (K.eq key) self.old ≡ None }
        ensures ok { OnOk result (self.new ≡ self.old ++ (key, value) ∷ []) }
        ensures err { OnErr result (self.new ≡ self.old) }
    {
        self.map.insert(key, value)?;
        Ok(())
    }

    /// Adds an entry, unless its key has one, which is kept then. Where memory is refused, the table
    /// is as it was.
    pub fn insert_if_absent(&mut self, key: K, value: V) -> Result<(), AllocError>
        ensures ok { OnOk result (self.new ≡ with_first K.eq self.old key value) }
        ensures err { OnErr result (self.new ≡ self.old) }
    {
        if self.contains_key(&key) {
            return Ok(());
        }
        self.insert(key, value)
    }

    /// Sets the value of a key. A key that is there keeps its place, and a new one comes last.
    /// Where memory is refused, the table is as it was.
    pub fn set(&mut self, key: K, new_value: V) -> Result<(), AllocError>
        ensures ok { OnOk result (self.new ≡ insert_entry K.eq self.old key new_value) }
        ensures err { OnErr result (self.new ≡ self.old) }
    {
        self.map.insert(key, new_value)?;
        Ok(())
    }

    /// Removes the entry of a key, if it has one: the last entry takes its place.
    pub fn remove(&mut self, key: &K)
        ensures { self.new ≡ swap_remove_entry (K.eq key.now) self.old }
    {
        let _ = self.map.swap_remove(key);
    }
}
