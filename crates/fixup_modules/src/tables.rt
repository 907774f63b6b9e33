//! The instances from which is imported, by their names.

ghost use Rattle.std.specs.Prelude.{◌≡◌, ◌<◌, [], ◌∷◌, ◌++◌, None, OnOk, OnErr};
ghost use Rattle.indexmap.specs.IndexMap.{spare};
ghost use Rattle.std.specs.Option.{option_copied};
ghost use Rattle.std.specs.Map.{lookup};
ghost use Rattle.std.specs.Map.Iter.{ShowsInOrder, deref_pair};
ghost use Rattle.std.specs.Str.{bytes_eq};
ghost use Rattle.comp_lists.specs.Tables.{with_first};
ghost use Rattle.comp_lists.specs.Found.{found};

use crate::instances::ImportedInstance;
use comp_lists::{Keyed, Text};
use indexmap::IndexMap;
use indexmap::map::Iter;
use std::alloc::{AllocError, Global};
use std::hash::Hash;
use std::marker::Model;

/// Instances by name, in the order of their first imports. Contracts see the list of the names with their instances.
pub struct InstanceTable {
    map: IndexMap<Text, ImportedInstance>,
}

impl Drop for InstanceTable {
    fn drop(self) {
        let InstanceTable { map: _ } = self;
    }
}

impl Model for InstanceTable {
    ghost use Rattle.std.specs.Prelude.{List, ℕ};
    ghost use Rattle.fixup_modules.specs.declared.instances.ImportedInstance.{ImportedInstance};

    ghost Value = { List (List ℕ × ImportedInstance) };

    ghost view = { λ t. t.map.entries };
}

impl InstanceTable {
    /// No instances. It takes no memory.
    pub(crate) fn new(alloc: Global) -> InstanceTable
        ensures { result ≡ [] }
    {
        InstanceTable {
            map: IndexMap::new(alloc),
        }
    }

    /// The instance of a name.
    pub fn get(&self, name: &Text) -> Option<&ImportedInstance>
        ensures { option_copied result ≡ found name.now self.now }
    {
        self.map.get(name)
    }

    /// The names with their instances, in order.
    pub fn iter(&self) -> Iter<'_, Text, ImportedInstance>
        ensures rest { result ≡ self.now }
        ensures runs { ShowsInOrder (deref_pair {K = Text} {X = ImportedInstance}) }
    {
        self.map.iter()
    }

    /// Adds an instance, unless its name has one, and an entry to another table: both or neither.
    pub(crate) fn insert_with<K: Eq + Hash + Drop, V: Drop>(
        &mut self,
        name: Text,
        instance: ImportedInstance,
        items: &mut Keyed<K, V>,
        key: K,
        item: V,
    ) -> Result<(), AllocError>
        requires { lookup (K.eq key) items.old ≡ None }
        ensures ok { OnOk result ((self.new ≡ with_first bytes_eq self.old name instance)
            × (items.new ≡ items.old ++ (key, item) ∷ [])) }
        ensures err { OnErr result ((self.new ≡ self.old) × (items.new ≡ items.old)) }
    {
        self.map.reserve(1)?;
        items.insert(key, item)?;
        insert_reserved(&mut self.map, name, instance);
        Ok(())
    }
}

/// Adds an instance, unless its name has one, where there is room for it.
#[tactic(auto, using(crate::proofs::NamedInstances::first_of_name))]
fn insert_reserved(
    map: &mut IndexMap<Text, ImportedInstance>,
    name: Text,
    instance: ImportedInstance,
)
    requires { 0 < spare map.old }
    ensures { map.new.entries ≡ with_first bytes_eq map.old.entries name instance }
{
    if map.contains_key(&name) {
        return;
    }
    match map.insert(name, instance) {
        Ok(_) => {}
        Err(_) => unreachable!(),
    }
}
