//! The items of a nested component that is being built.

ghost use Rattle.std.specs.Prelude.{◌≡◌, ◌++◌, ◌∷◌, [], IfOk, IfErr, OnOk, OnErr, Some, None, true};
ghost use Rattle.comp_bytes.specs.declared.space.Sort.TheVariants as sorts;
ghost use Rattle.comp_bytes.specs.declared.types.Description.TheVariants as descriptions;
ghost use Rattle.comp_bytes.specs.declared.def.Item.TheVariants as items;
ghost use Rattle.wit_types.specs.Denoting.{IsCause};
ghost use Rattle.nested_components.specs.Counts.{makes_type, types_in, is_full};
ghost use Rattle.nested_components.specs.Growing.{type_bound};

use byte_encoding::{BuildFault, next_count};
use comp_bytes::{Description, ExternName, Item, Sort, TypeDef};
use comp_lists::Seq;
use std::alloc::{AllocError, Global};
use std::marker::Model;

/// The items of a nested component, with the number of type indices that they make.
pub(crate) struct ItemList {
    items: Seq<Item>,
    type_count: u32,
}

impl Drop for ItemList {
    fn drop(self) {
        let ItemList {
            items: _,
            type_count: _,
        } = self;
    }
}

impl Model for ItemList {
    ghost use Rattle.std.specs.Prelude.{List, ◌≡◌};
    ghost use Rattle.comp_bytes.specs.declared.def.Item.{Item};
    ghost use Rattle.nested_components.specs.Counts.{types_in};

    ghost Value = { List Item };

    ghost view = { λ l. l.items };

    ghost invariant = { λ l. l.type_count ≡ types_in l.items };
}

impl ItemList {
    /// No item.
    pub(crate) fn new(alloc: Global) -> ItemList
        ensures { result ≡ [] }
    {
        ItemList {
            items: Seq::new(alloc),
            type_count: 0,
        }
    }

    /// Adds an item that makes a type index, and returns that index.
    fn add(&mut self, item: Item) -> Result<u32, BuildFault>
        requires { makes_type item ≡ true }
        ensures index { IfOk result (λ index. index ≡ types_in self.old) }
        ensures ok { OnOk result (self.new ≡ self.old ++ item ∷ []) }
        ensures err { OnErr result (self.new ≡ self.old) }
        ensures cause { IfErr result (IsCause is_full self.new) }
    {
        let index = self.type_count;
        let count = next_count(index)?;
        self.items.push(item)?;
        self.type_count = count;
        Ok(index)
    }

    /// Defines a type, and returns its index.
    pub(crate) fn add_type(&mut self, ty: TypeDef) -> Result<u32, BuildFault>
        ensures index { IfOk result (λ index. index ≡ types_in self.old) }
        ensures ok { OnOk result (self.new ≡ self.old ++ items.Type ty ∷ []) }
        ensures err { OnErr result (self.new ≡ self.old) }
        ensures cause { IfErr result (IsCause is_full self.new) }
    {
        self.add(Item::Type(ty))
    }

    /// Imports a type, as equal to the one with an index, or as a resource, and returns the index of the import.
    pub(crate) fn import_type(
        &mut self,
        name: ExternName,
        equal: Option<u32>,
    ) -> Result<u32, BuildFault>
        ensures index { IfOk result (λ index. index ≡ types_in self.old) }
        ensures ok { OnOk result
            (self.new ≡ self.old ++ items.Import name (type_bound equal) ∷ []) }
        ensures err { OnErr result (self.new ≡ self.old) }
        ensures cause { IfErr result (IsCause is_full self.new) }
    {
        match equal {
            Some(ty) => self.add(Item::Import {
                name,
                description: Description::TypeEqual(ty),
            }),
            None => self.add(Item::Import {
                name,
                description: Description::SubResource,
            }),
        }
    }

    /// Exports the type with an index, and returns the index of the export.
    pub(crate) fn export_type(&mut self, name: ExternName, ty: u32) -> Result<u32, BuildFault>
        ensures index { IfOk result (λ index. index ≡ types_in self.old) }
        ensures ok { OnOk result
            (self.new ≡ self.old ++ items.Export name sorts.Type ty None ∷ []) }
        ensures err { OnErr result (self.new ≡ self.old) }
        ensures cause { IfErr result (IsCause is_full self.new) }
    {
        self.add(Item::Export {
            name,
            sort: Sort::Type,
            index: ty,
            description: None,
        })
    }

    /// Imports a function of the type with an index.
    pub(crate) fn import_function(&mut self, name: ExternName, ty: u32) -> Result<(), AllocError>
        ensures ok { OnOk result
            (self.new ≡ self.old ++ items.Import name (descriptions.Func ty) ∷ []) }
        ensures err { OnErr result (self.new ≡ self.old) }
    {
        let description = Description::Func(ty);
        self.items.push(Item::Import { name, description })?;
        Ok(())
    }

    /// Exports the function with an index, as one of the type with an index.
    pub(crate) fn export_function(
        &mut self,
        name: ExternName,
        index: u32,
        ty: u32,
    ) -> Result<(), AllocError>
        ensures ok { OnOk result (self.new
            ≡ self.old ++ items.Export name sorts.Func index (Some (descriptions.Func ty))
            ∷ []) }
        ensures err { OnErr result (self.new ≡ self.old) }
    {
        let sort = Sort::Func;
        let description = Some(Description::Func(ty));
        self.items.push(Item::Export {
            name,
            sort,
            index,
            description,
        })?;
        Ok(())
    }

    /// The items.
    pub(crate) fn into_items(self) -> Seq<Item>
        ensures { result ≡ self }
    {
        let ItemList {
            items,
            type_count: _,
        } = self;
        items
    }
}
