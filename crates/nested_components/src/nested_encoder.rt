//! A nested component that is being built, as a scope in which types are defined.

ghost use Rattle.std.specs.Prelude.{◌≡◌, ◌<◌, ◌++◌, ◌∷◌, [], length, get_or, Some, None, is_some, true, IfOk, IfErr, OnOk, OnErr};
ghost use Rattle.std.specs.Map.{lookup};
ghost use Rattle.std.specs.Str.{bytes_eq};
ghost use Rattle.std.proofs.Common.{refl};
ghost use Rattle.comp_bytes.specs.declared.space.Sort.TheVariants as sorts;
ghost use Rattle.comp_bytes.specs.declared.types.Description.TheVariants as descriptions;
ghost use Rattle.comp_bytes.specs.declared.def.Item.TheVariants as items;
ghost use Rattle.comp_trees.specs.Trees.{DefinedAt, ResourceAt};
ghost use Rattle.comp_trees.specs.DefinedTrees.{OfValues, OfOthers};
ghost use Rattle.wit_data.specs.declared.types.Type.TheVariants.{Id};
ghost use Rattle.wit_types.specs.Settings.{tree_in, NamesType};
ghost use Rattle.wit_types.specs.Denoting.{Makes, MayMake, IsCause, exported_or};
ghost use Rattle.wit_types.specs.Maps.{no_maps};
ghost use Rattle.type_scopes.specs.Exports.{any_index};
ghost use Rattle.nested_components.specs.declared.stage.Stage.TheVariants as stages;
ghost use Rattle.nested_components.specs.Homes.{nested_setting, with_foreign, with_resources};
ghost use Rattle.nested_components.specs.Tables.{types_alone};
ghost use Rattle.nested_components.specs.Counts.{types_in, is_full};
ghost use Rattle.nested_components.specs.Growing.{scope_of, plain, Grows, ImportsPlanned, ImportsNamed};
ghost use Rattle.nested_components.specs.Following.{grows_none, grows_follow};

use crate::contents::Contents;
use crate::home::OwnTypes;
use crate::imported_types::ImportedTypes;
use crate::item_list::ItemList;
use crate::placement::Placement;
use crate::stage::Stage;
use crate::tables::copy_type_tables;
use crate::type_import::TypeImport;
use byte_encoding::BuildFault;
use comp_bytes::{DefinedType, ExternName, FuncTypeDef, TypeDef};
use comp_lists::{Keyed, Text};
use std::alloc::{AllocError, Global};
use std::marker::PhantomData;
use std::mem;
use wit_data::{InterfaceId, TypeId};
use wit_types::{TypeEncodingMaps, ValtypeEncoder};

/// A nested component that is being built, as far as a stage. Types of WIT are defined in it; while
/// it imports, those that the interface lists are imported as soon as they are defined.
pub(crate) struct NestedEncoder<'a, P: Placement> {
    alloc: Global,
    home: OwnTypes<'a>,
    stage: Stage,
    contents: Contents,
    maps: TypeEncodingMaps,
    placement: PhantomData<P>,
}

impl<'a, P: Placement> Drop for NestedEncoder<'a, P> {
    fn drop(self) {
        let NestedEncoder {
            alloc: _,
            home: _,
            stage: _,
            contents: _,
            maps: _,
            placement: _,
        } = self;
    }
}

impl<'a, P: Placement> NestedEncoder<'a, P> {
    /// A nested component with no item, where these names are taken.
    pub(crate) fn new(
        alloc: Global,
        home: OwnTypes<'a>,
        taken: Keyed<Text, Option<TypeId>>,
    ) -> NestedEncoder<'a, P>
        ensures home { result.home ≡ home.entry }
        ensures stage { result.stage ≡ stages.Importing }
        ensures contents { result.contents ≡ record { items = []; taken = taken; types = [] } }
        ensures maps { result.maps ≡ no_maps }
    {
        NestedEncoder {
            alloc,
            home,
            stage: Stage::Importing,
            contents: Contents {
                items: ItemList::new(alloc),
                taken,
                types: ImportedTypes::new(alloc),
            },
            maps: TypeEncodingMaps::new(alloc),
            placement: PhantomData,
        }
    }

    /// A copy of the tables of types.
    pub(crate) fn type_tables(&self) -> Result<TypeEncodingMaps, AllocError>
        ensures { IfOk result (λ copy. copy ≡ types_alone self.now.maps) }
    {
        copy_type_tables(self.alloc, &self.maps)
    }

    /// Imports a type under the name that was chosen for it, as equal to the one with an index, or
    /// as a resource, and returns the index of the import.
    pub(crate) fn add_type_import(
        &mut self,
        import: &TypeImport,
        equal: Option<u32>,
    ) -> Result<u32, BuildFault>
        ensures home { self.new.home ≡ self.old.home }
        ensures stage { self.new.stage ≡ self.old.stage }
        ensures maps { self.new.maps ≡ self.old.maps }
        ensures imported { OnOk result
            (ImportsPlanned self.old.contents self.new.contents import.now equal) }
        ensures index { IfOk result (λ index. index ≡ types_in self.old.contents.items) }
        ensures cause { IfErr result (IsCause is_full self.new.contents.items) }
    {
        self.contents.import_planned(self.alloc, import, equal)
    }

    /// A type of another interface was imported, and recorded.
    pub(crate) fn pass_foreign(&mut self, id: TypeId) -> Result<(), AllocError>
        ensures { OnOk result
            (self.new ≡ record self.old { home = with_foreign self.old.home (id ∷ []) }) }
    {
        self.home.add_foreign(id)
    }

    /// A resource of the interface was imported, and recorded.
    pub(crate) fn pass_resource(&mut self, id: TypeId) -> Result<(), AllocError>
        ensures { OnOk result
            (self.new ≡ record self.old { home = with_resources self.old.home (id ∷ []) }) }
    {
        self.home.add_resource(id)
    }

    /// All was imported. The tables are those that there were when types of other interfaces had
    /// been imported: what is exported is made of these, and of types that are defined anew. It
    /// returns the tables that there are, which have the resources of the interface.
    pub(crate) fn begin_exports(&mut self, tables: TypeEncodingMaps) -> TypeEncodingMaps
        ensures begun { self.new
            ≡ record self.old { stage = stages.Exporting None; maps = tables } }
        ensures maps { result ≡ self.old.maps }
    {
        self.stage = Stage::Exporting(None);
        mem::replace(&mut self.maps, tables)
    }

    /// A type was exported, and those that are listed before it.
    pub(crate) fn pass(&mut self, id: TypeId)
        ensures { self.new ≡ record self.old { stage = stages.Exporting (Some id) } }
    {
        self.stage = Stage::Exporting(Some(id));
    }

    /// Exports the type with an index, and returns the index of the export.
    pub(crate) fn add_type_export(&mut self, name: Text, ty: u32) -> Result<u32, BuildFault>
        ensures added { OnOk result (self.new
            ≡ record self.old {
              contents = record self.old.contents {
                items =
                    self.old.contents.items
                    ++ items.Export (plain name) sorts.Type ty None ∷ [];
              };
            }) }
        ensures index { IfOk result (λ index. index ≡ types_in self.old.contents.items) }
        ensures cause { IfErr result (IsCause is_full self.new.contents.items) }
    {
        let version_suffix = None;
        self.contents.items.export_type(
            ExternName {
                name,
                version_suffix,
            },
            ty,
        )
    }

    /// Imports a function of the type with an index.
    pub(crate) fn add_import(&mut self, name: Text, ty: u32) -> Result<(), AllocError>
        ensures added { OnOk result (self.new
            ≡ record self.old {
              contents = record self.old.contents {
                items =
                    self.old.contents.items
                    ++ items.Import (plain name) (descriptions.Func ty) ∷ [];
              };
            }) }
    {
        let version_suffix = None;
        self.contents.items.import_function(
            ExternName {
                name,
                version_suffix,
            },
            ty,
        )
    }

    /// Exports the function with an index, as one of the type with an index.
    pub(crate) fn add_export(&mut self, name: Text, index: u32, ty: u32) -> Result<(), AllocError>
        ensures added { OnOk result (self.new
            ≡ record self.old {
              contents = record self.old.contents {
                items =
                    self.old.contents.items ++ items.Export (plain name) sorts.Func
                    index (Some (descriptions.Func ty)) ∷ [];
              };
            }) }
    {
        let version_suffix = None;
        self.contents.items.export_function(
            ExternName {
                name,
                version_suffix,
            },
            index,
            ty,
        )
    }

    /// The items, and the names that their imports take.
    pub(crate) fn into_contents(self) -> Contents
        ensures { result ≡ self.entry.contents }
    {
        let NestedEncoder {
            alloc: _,
            home: _,
            stage: _,
            contents,
            maps: _,
            placement: _,
        } = self;
        contents
    }
}

/// Imports the type that is listed under a name as equal to the one with an index.
fn import_named(
    alloc: Global,
    home: &OwnTypes<'_>,
    contents: &mut Contents,
    name: &Text,
    index: u32,
) -> Result<Option<u32>, BuildFault>
    requires listed { is_some (lookup (bytes_eq name.now) home.now.named) ≡ true }
    ensures imported { OnOk result
        (ImportsNamed home.now contents.old contents.new name.now index) }
    ensures index { IfOk result (λ new_index. new_index ≡ Some (types_in contents.old.items)) }
    ensures kept { OnErr result (contents.new ≡ contents.old) }
    ensures cause { IfErr result (IsCause is_full contents.new.items) }
{
    match home.id_of(name) {
        Some(id) => {
            let imported = contents.import_type(alloc, name, id, index)?;
            Ok(Some(imported))
        }
        None => unreachable!(),
    }
}

impl<'a, P: Placement> ValtypeEncoder for NestedEncoder<'a, P> {
    ghost setting = { λ e. nested_setting P.origin e.home e.stage };

    ghost scope = { λ e. (scope_of P.given e.contents.items).types };

    ghost maps = { λ e. e.maps };

    ghost with_maps = { λ e m. record e { maps = m } };

    ghost follows = { λ old new. (new.home ≡ old.home) × (new.stage ≡ old.stage) × Grows P.given P.origin old.home old.stage old.contents new.contents [] };

    ghost names = { λ e name index. any_index name index };

    ghost offers = { λ e. Unit {0} };

    ghost refuses = { λ e count. is_full e.contents.items count };

    ghost follows_itself = { λ e. (refl, refl, grows_none P.given P.origin e.home e.stage e.contents) };

    ghost follows_on = { λ a b c g h. grows_follow P.given P.origin a.home b.home c.home a.stage b.stage c.stage a.contents b.contents c.contents g h };

    ghost names_kept = { λ a b g name index h. h };

    ghost offers_kept = { λ a b g known. known };

    ghost follows_maps = { λ e m. (refl, refl, grows_none P.given P.origin e.home e.stage e.contents) };

    ghost maps_given = { λ e m. refl };

    ghost scope_kept = { λ e m. refl };

    ghost setting_kept = { λ e m. refl };

    fn defined_type(&mut self, ty: DefinedType) -> Result<u32, BuildFault> {
        self.contents.items.add_type(TypeDef::Defined(ty))
    }

    fn define_function_type(&mut self, ty: FuncTypeDef) -> Result<u32, BuildFault> {
        self.contents.items.add_type(TypeDef::Func(ty))
    }

    /// While functions are imported, a type that has a name is imported as equal to its definition.
    /// Afterwards no caller may ask for this (`nested_setting`): a type that has a name is exported
    /// by itself, before what is made of it.
    fn export_type(&mut self, index: u32, name: ExternName) -> Result<Option<u32>, BuildFault>
        requires present { index < length (scope_of P.given self.old.contents.items).types }
        requires named { NamesType (nested_setting P.origin self.old.home self.old.stage) name
            (get_or (scope_of P.given self.old.contents.items).types index OfOthers) }
        ensures names { IfOk result (λ exported. any_index name.name (exported_or exported index)) }
        ensures makes { MayMake (scope_of P.given self.old.contents.items).types
            (scope_of P.given self.new.contents.items).types result
            (get_or (scope_of P.given self.old.contents.items).types index OfOthers) }
        ensures setting { nested_setting P.origin self.new.home self.new.stage
            ≡ nested_setting P.origin self.old.home self.old.stage }
        ensures maps { self.new.maps ≡ self.old.maps }
        ensures follows { (self.new.home ≡ self.old.home)
            × (self.new.stage ≡ self.old.stage)
            × Grows P.given P.origin self.old.home self.old.stage self.old.contents
            self.new.contents [] }
        ensures cause { IfErr result (IsCause is_full self.new.contents.items) }
    {
        match self.stage {
            Stage::Importing => import_named(
                self.alloc,
                &self.home,
                &mut self.contents,
                &name.name,
                index,
            ),
            Stage::Exporting(_) => unreachable!(),
        }
    }

    /// No resource may be exported here (`nested_setting`), so that no caller may ask for this: it refuses.
    fn export_resource(&mut self, name: ExternName) -> Result<u32, BuildFault>
        ensures names { IfOk result (λ index. any_index name.name index) }
        ensures makes { Makes (scope_of P.given self.old.contents.items).types
            (scope_of P.given self.new.contents.items).types result
            (OfValues (ResourceAt (DefinedAt 0))) }
        ensures setting { nested_setting P.origin self.new.home self.new.stage
            ≡ nested_setting P.origin self.old.home self.old.stage }
        ensures maps { self.new.maps ≡ self.old.maps }
        ensures follows { (self.new.home ≡ self.old.home)
            × (self.new.stage ≡ self.old.stage)
            × Grows P.given P.origin self.old.home self.old.stage self.old.contents
            self.new.contents [] }
        ensures cause { IfErr result (IsCause is_full self.new.contents.items) }
    {
        let _ = name;
        Err(BuildFault::Memory)
    }

    /// No type may be imported here (`nested_setting`), so that no caller may ask for this: it refuses.
    fn import_type(&mut self, interface: InterfaceId, id: TypeId) -> Result<u32, BuildFault>
        ensures makes { Makes (scope_of P.given self.old.contents.items).types
            (scope_of P.given self.new.contents.items).types result (OfValues
            (tree_in (nested_setting P.origin self.old.home self.old.stage) (Some (Id id)))) }
        ensures setting { nested_setting P.origin self.new.home self.new.stage
            ≡ nested_setting P.origin self.old.home self.old.stage }
        ensures maps { self.new.maps ≡ self.old.maps }
        ensures follows { (self.new.home ≡ self.old.home)
            × (self.new.stage ≡ self.old.stage)
            × Grows P.given P.origin self.old.home self.old.stage self.old.contents
            self.new.contents [] }
        ensures cause { IfErr result (IsCause is_full self.new.contents.items) }
    {
        let _ = (interface, id);
        Err(BuildFault::Memory)
    }

    fn type_encoding_maps(&mut self) -> &mut TypeEncodingMaps {
        &mut self.maps
    }

    fn interface(&self) -> Option<InterfaceId> {
        Some(self.home.interface())
    }
}
