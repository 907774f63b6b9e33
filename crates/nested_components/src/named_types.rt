//! The types of an interface, which are exported.

ghost use Rattle.std.specs.Prelude.{◌≡◌, ◌<◌, ◌∷◌, [], length, true, is_some, IfOk, IfErr, OnOk, Some, None};
ghost use Rattle.std.specs.Map.{lookup};
ghost use Rattle.comp_trees.specs.DefinedScopes.{Denotes};
ghost use Rattle.comp_trees.specs.DefinedTrees.{OfValues};
ghost use Rattle.comp_trees.specs.WitTrees.{wit_tree};
ghost use Rattle.wit_data.specs.contracts.ids.TypeIdPartialEq.TheImpl as same_id;
ghost use Rattle.wit_data.specs.declared.types.Type.TheVariants.{Id};
ghost use Rattle.wit_data.specs.Sound.{IsSound};
ghost use Rattle.wit_data.specs.Values.{kind_at};
ghost use Rattle.wit_types.specs.Denoting.{IsCause};
ghost use Rattle.wit_types.specs.Maps.{HasIndex};
ghost use Rattle.type_scopes.specs.Titles.{IsTitled, is_one_of};
ghost use Rattle.nested_components.specs.declared.stage.Stage.TheVariants as stages;
ghost use Rattle.nested_components.specs.Types.{exported_type, listed_ids};
ghost use Rattle.nested_components.specs.Foreign.{HasParts};
ghost use Rattle.nested_components.specs.Resources.{AreResourcesImported};
ghost use Rattle.nested_components.specs.Homes.{CanExportTypes, nested_setting, IsExporting, IsNextOf, AreAllPassed};
ghost use Rattle.nested_components.specs.Counts.{is_full};
ghost use Rattle.nested_components.specs.Growing.{scope_of, AreTablesRight, Grows, Exports, ExportsTypes};

use crate::nested_encoder::NestedEncoder;
use crate::placement::Placement;
use crate::resources::is_resource;
use byte_encoding::BuildFault;
use comp_lists::{Keyed, Text};
use std::alloc::Global;
use wit_data::{Resolve, TypeId, kind_of};
use wit_types::{encode_definition, record_type_index};

/// Exports the types that are listed, one after the other, each under its name and behind what it
/// is made of. The resources among them have indices, those of their imports.
pub(crate) fn export_types<P: Placement>(
    alloc: Global,
    encoder: &mut NestedEncoder<'_, P>,
    resolve: &Resolve,
    imported: &Keyed<TypeId, u32>,
    types: &Keyed<Text, TypeId>,
) -> Result<(), BuildFault>
    requires sound { IsSound resolve.now }
    requires same { encoder.old.home.types ≡ resolve.now.types }
    requires home { CanExportTypes encoder.old.home }
    requires named { types.now ≡ encoder.old.home.named }
    requires stage { encoder.old.stage ≡ stages.Exporting None }
    requires imported { AreResourcesImported P.given P.origin encoder.old.home
        encoder.old.contents.items imported.now }
    requires right { AreTablesRight P.given P.origin encoder.old.home encoder.old.stage
        encoder.old.contents.items encoder.old.maps }
    ensures exports { OnOk result (ExportsTypes P.given P.origin encoder.old.home.types
        encoder.old.contents encoder.new.contents encoder.old.home.named) }
    ensures home { OnOk result (encoder.new.home ≡ encoder.old.home) }
    ensures passed { OnOk result (AreAllPassed encoder.new.home encoder.new.stage) }
    ensures right { OnOk result (AreTablesRight P.given P.origin encoder.new.home encoder.new.stage
        encoder.new.contents.items encoder.new.maps) }
    ensures cause { IfErr result (IsCause is_full encoder.new.contents.items) }
{
    for (name, id) in types.iter() {
        export_next(alloc, encoder, resolve, imported, name, *id)?;
    }
    Ok(())
}

/// Exports the type that is listed next.
fn export_next<P: Placement>(
    alloc: Global,
    encoder: &mut NestedEncoder<'_, P>,
    resolve: &Resolve,
    imported: &Keyed<TypeId, u32>,
    name: &Text,
    id: TypeId,
) -> Result<(), BuildFault>
    requires sound { IsSound resolve.now }
    requires same { encoder.old.home.types ≡ resolve.now.types }
    requires stage { IsExporting encoder.old.stage }
    requires titled { IsTitled encoder.old.home.types encoder.old.home.here id name.now }
    requires listed { is_one_of (listed_ids encoder.old.home.named) id.index ≡ true }
    requires parts { HasParts (nested_setting P.origin encoder.old.home encoder.old.stage)
        (kind_at resolve.now.types id.index) }
    requires imported { AreResourcesImported P.given P.origin encoder.old.home
        encoder.old.contents.items imported.now }
    requires next { IsNextOf encoder.old.home encoder.old.stage id }
    requires right { AreTablesRight P.given P.origin encoder.old.home encoder.old.stage
        encoder.old.contents.items encoder.old.maps }
    ensures exports { OnOk result (Exports P.given encoder.old.contents encoder.new.contents
        (exported_type P.origin encoder.old.home.types (name.now, id) ∷ []) []) }
    ensures home { OnOk result (encoder.new.home ≡ encoder.old.home) }
    ensures stage { OnOk result (encoder.new.stage ≡ stages.Exporting (Some id)) }
    ensures right { OnOk result (AreTablesRight P.given P.origin encoder.new.home encoder.new.stage
        encoder.new.contents.items encoder.new.maps) }
    ensures cause { IfErr result (IsCause is_full encoder.new.contents.items) }
{
    export_type(alloc, encoder, resolve, imported, name, id)?;
    encoder.pass(id);
    Ok(())
}

/// Defines a type that is listed, unless it is a resource, exports it under its name, and records it.
fn export_type<P: Placement>(
    alloc: Global,
    encoder: &mut NestedEncoder<'_, P>,
    resolve: &Resolve,
    imported: &Keyed<TypeId, u32>,
    name: &Text,
    id: TypeId,
) -> Result<(), BuildFault>
    requires sound { IsSound resolve.now }
    requires same { encoder.old.home.types ≡ resolve.now.types }
    requires stage { IsExporting encoder.old.stage }
    requires titled { IsTitled encoder.old.home.types encoder.old.home.here id name.now }
    requires listed { is_one_of (listed_ids encoder.old.home.named) id.index ≡ true }
    requires parts { HasParts (nested_setting P.origin encoder.old.home encoder.old.stage)
        (kind_at resolve.now.types id.index) }
    requires imported { AreResourcesImported P.given P.origin encoder.old.home
        encoder.old.contents.items imported.now }
    requires right { AreTablesRight P.given P.origin encoder.old.home encoder.old.stage
        encoder.old.contents.items encoder.old.maps }
    ensures exports { OnOk result (Exports P.given encoder.old.contents encoder.new.contents
        (exported_type P.origin encoder.old.home.types (name.now, id) ∷ []) []) }
    ensures home { OnOk result (encoder.new.home ≡ encoder.old.home) }
    ensures stage { OnOk result (encoder.new.stage ≡ encoder.old.stage) }
    ensures recorded { OnOk result (HasIndex encoder.new.maps id) }
    ensures right { OnOk result (AreTablesRight P.given P.origin encoder.new.home encoder.new.stage
        encoder.new.contents.items encoder.new.maps) }
    ensures cause { IfErr result (IsCause is_full encoder.new.contents.items) }
{
    let index = define_listed(alloc, encoder, resolve, imported, id)?;
    let name = name.clone(alloc)?;
    let index = encoder.add_type_export(name, index)?;
    record_type_index(encoder, id, index)?;
    Ok(())
}

/// Defines a type that is listed, and returns the index of the definition. A resource has none: it
/// is what was imported.
fn define_listed<P: Placement>(
    alloc: Global,
    encoder: &mut NestedEncoder<'_, P>,
    resolve: &Resolve,
    imported: &Keyed<TypeId, u32>,
    id: TypeId,
) -> Result<u32, BuildFault>
    requires sound { IsSound resolve.now }
    requires same { encoder.old.home.types ≡ resolve.now.types }
    requires present { id.index < length resolve.now.types }
    requires listed { is_one_of (listed_ids encoder.old.home.named) id.index ≡ true }
    requires parts { HasParts (nested_setting P.origin encoder.old.home encoder.old.stage)
        (kind_at resolve.now.types id.index) }
    requires imported { AreResourcesImported P.given P.origin encoder.old.home
        encoder.old.contents.items imported.now }
    requires right { AreTablesRight P.given P.origin encoder.old.home encoder.old.stage
        encoder.old.contents.items encoder.old.maps }
    ensures denotes { IfOk result (λ index. Denotes
        (scope_of P.given encoder.new.contents.items).types index
        (OfValues (wit_tree P.origin encoder.old.home.types (Some (Id id))))) }
    ensures home { OnOk result (encoder.new.home ≡ encoder.old.home) }
    ensures stage { OnOk result (encoder.new.stage ≡ encoder.old.stage) }
    ensures grows { OnOk result (Grows P.given P.origin encoder.old.home encoder.old.stage
        encoder.old.contents encoder.new.contents []) }
    ensures right { OnOk result (AreTablesRight P.given P.origin encoder.new.home encoder.new.stage
        encoder.new.contents.items encoder.new.maps) }
    ensures cause { IfErr result (IsCause is_full encoder.new.contents.items) }
{
    if is_resource(kind_of(resolve.types.as_slice(), id.index)) {
        return Ok(index_of(imported, id));
    }
    let index = encode_definition(alloc, encoder, resolve, id)?;
    Ok(index)
}

/// The index of a type that has one in a table.
fn index_of(table: &Keyed<TypeId, u32>, id: TypeId) -> u32
    requires { is_some (lookup (same_id.eq-value.it id) table.now) ≡ true }
    ensures { lookup (same_id.eq-value.it id) table.now ≡ Some result }
{
    match table.get(&id).copied() {
        Some(index) => index,
        None => unreachable!(),
    }
}
