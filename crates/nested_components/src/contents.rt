//! What a nested component has so far.

ghost use Rattle.std.specs.Prelude.{◌≡◌, ◌++◌, ◌∷◌, [], IfOk, IfErr, OnOk, OnErr};
ghost use Rattle.wit_types.specs.Denoting.{IsCause};
ghost use Rattle.nested_components.specs.Counts.{types_in, is_full};
ghost use Rattle.nested_components.specs.Growing.{type_item, ImportsPlanned, ImportsType};

use crate::imported_types::ImportedTypes;
use crate::item_list::ItemList;
use crate::names::free_type_name;
use crate::type_import::TypeImport;
use byte_encoding::BuildFault;
use comp_bytes::{ExternName, Item};
use comp_lists::{Keyed, Seq, Text};
use std::alloc::Global;
use wit_data::TypeId;

/// The items of a nested component, the names that its imports take, and the types that were
/// imported, in order. The names are those that were chosen before, of functions and of types,
/// whether they were imported yet or not, and those of other types that were imported.
pub struct Contents {
    pub items: ItemList,
    pub taken: Keyed<Text, Option<TypeId>>,
    pub types: ImportedTypes,
}

impl Drop for Contents {
    fn drop(self) {
        let Contents {
            items: _,
            taken: _,
            types: _,
        } = self;
    }
}

/// Imports a type under a name: as equal to the one with an index, or as a resource. After a refusal all is as it was.
fn add_import(
    alloc: Global,
    items: &mut ItemList,
    types: &mut ImportedTypes,
    name: &Text,
    id: TypeId,
    equal: Option<u32>,
) -> Result<u32, BuildFault>
    ensures index { IfOk result (λ new_index. new_index ≡ types_in items.old) }
    ensures items { OnOk result (items.new ≡ items.old ++ type_item name.now equal ∷ []) }
    ensures types { OnOk result
        (types.new ≡ types.old ++ record { name = name.now; id = id } ∷ []) }
    ensures kept { OnErr result ((items.new ≡ items.old) × (types.new ≡ types.old)) }
    ensures cause { IfErr result (IsCause is_full items.new) }
{
    let key = name.clone(alloc)?;
    let name = name.clone(alloc)?;
    types.push(TypeImport { name: key, id })?;
    let name = ExternName {
        name,
        version_suffix: None,
    };
    match items.import_type(name, equal) {
        Ok(index) => Ok(index),
        Err(fault) => {
            types.take_back();
            Err(fault)
        }
    }
}

impl Contents {
    /// The items, and the types that they import.
    pub fn into_parts(self) -> (Seq<Item>, Seq<TypeImport>)
        ensures items { result.0 ≡ self.items }
        ensures types { result.1 ≡ self.types }
    {
        let Contents {
            items,
            taken: _,
            types,
        } = self;
        (items.into_items(), types.into_seq())
    }

    /// Imports a type under a name that was chosen before, as equal to the one with an index, or as
    /// a resource, and returns the index of the import.
    pub fn import_planned(
        &mut self,
        alloc: Global,
        import: &TypeImport,
        equal: Option<u32>,
    ) -> Result<u32, BuildFault>
        ensures imported { OnOk result (ImportsPlanned self.old self.new import.now equal) }
        ensures index { IfOk result (λ new_index. new_index ≡ types_in self.old.items) }
        ensures cause { IfErr result (IsCause is_full self.new.items) }
    {
        let index = add_import(
            alloc,
            &mut self.items,
            &mut self.types,
            &import.name,
            import.id,
            equal,
        )?;
        Ok(index)
    }

    /// Imports a type of a name as equal to the one with an index, under a name that is free, and
    /// returns the index of the import. After a refusal all is as it was.
    pub fn import_type(
        &mut self,
        alloc: Global,
        text: &Text,
        id: TypeId,
        index: u32,
    ) -> Result<u32, BuildFault>
        ensures imported { OnOk result (ImportsType self.old self.new text.now id index) }
        ensures index { IfOk result (λ new_index. new_index ≡ types_in self.old.items) }
        ensures kept { OnErr result (self.new ≡ self.old) }
        ensures cause { IfErr result (IsCause is_full self.new.items) }
    {
        let free = free_type_name(alloc, &self.taken, text)?;
        let key = free.clone(alloc)?;
        self.taken.insert(key, Some(id))?;
        match add_import(
            alloc,
            &mut self.items,
            &mut self.types,
            &free,
            id,
            Some(index),
        ) {
            Ok(index) => Ok(index),
            Err(fault) => {
                self.taken.remove(&free);
                Err(fault)
            }
        }
    }
}
