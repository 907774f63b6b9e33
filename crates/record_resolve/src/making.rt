//! What is made so far, and the types to which names refer.

ghost use Rattle.std.specs.Prelude.{◌≡◌, OnOk};
ghost use Rattle.json_paths.specs.Faults.{Gives};
ghost use Rattle.record_resolve.specs.Steps.{Becomes, with_new};
ghost use Rattle.record_resolve.specs.Names.{has_copy, side_of, table_of, type_named, found, with_name};

use crate::sharing::Unnamed;
use comp_lists::{Keyed, Seq};
use json_paths::{Failure, fault_here};
use record_values::{InterfaceName, Owner, TypeName};
use std::alloc::Global;
use std::hash::Hash;
use wit_data::{TypeDef, TypeId};

/// A side of a world.
#[derive(Clone, Copy, Debug, PartialEq, Eq)]
pub enum Side {
    Imported,
    Exported,
}

/// What is made so far.
#[derive(Drop)]
pub(crate) struct Making {
    /// The interfaces that the world exports.
    pub exported: Keyed<InterfaceName, ()>,
    /// The types of imported interfaces and of the world by name.
    pub imported_types: Keyed<TypeName, TypeId>,
    /// The types of the copies of exported interfaces by name.
    pub exported_types: Keyed<TypeName, TypeId>,
    pub types: Seq<TypeDef>,
    /// The unnamed types of the scope in which types are made, by their kinds.
    pub unnamed: Unnamed,
}

/// Adds an entry whose key is new.
pub(crate) fn put_new<K: Eq + Hash + Drop, V: Drop>(
    alloc: Global,
    table: &mut Keyed<K, V>,
    key: K,
    value: V,
) -> Result<(), Failure>
    ensures { Becomes result table.new (with_new K.eq table.old key value) }
{
    if table.contains_key(&key) {
        return Err(fault_here(alloc));
    }
    table.insert_if_absent(key, value)?;
    Ok(())
}

impl Making {
    fn has_copy(&self, owner: &Owner) -> bool
        ensures { result ≡ has_copy self.now owner.now }
    {
        match owner {
            Owner::World => false,
            Owner::Interface(name) => self.exported.contains_key(name),
        }
    }

    fn side_of(&self, side: Side, owner: &Owner) -> Side
        ensures { result ≡ side_of self.now side owner.now }
    {
        match side {
            Side::Imported => Side::Imported,
            Side::Exported => {
                if self.has_copy(owner) {
                    Side::Exported
                } else {
                    Side::Imported
                }
            }
        }
    }

    fn table_of(&self, side: Side) -> &Keyed<TypeName, TypeId>
        ensures { result.now ≡ table_of self.now side }
    {
        match side {
            Side::Imported => &self.imported_types,
            Side::Exported => &self.exported_types,
        }
    }

    /// The type of this name, if it is made.
    pub(crate) fn type_named(&self, side: Side, named: &TypeName) -> Option<TypeId>
        ensures { result ≡ type_named self.now side named.now }
    {
        let table = self.table_of(self.side_of(side, &named.owner));
        table.get(named).copied()
    }

    /// The type to which a name refers, which is made already.
    pub(crate) fn find(
        &self,
        alloc: Global,
        side: Side,
        named: &TypeName,
    ) -> Result<TypeId, Failure>
        ensures { Gives (λ id. id) result (found self.now side named.now) }
    {
        match self.type_named(side, named) {
            Some(id) => Ok(id),
            None => Err(fault_here(alloc)),
        }
    }

    /// A new name of a type.
    pub(crate) fn add_name(
        &mut self,
        alloc: Global,
        side: Side,
        named: TypeName,
        id: TypeId,
    ) -> Result<(), Failure>
        ensures { Becomes result self.new (with_name side named id self.old) }
    {
        match side {
            Side::Imported => put_new(alloc, &mut self.imported_types, named, id),
            Side::Exported => put_new(alloc, &mut self.exported_types, named, id),
        }
    }
}
