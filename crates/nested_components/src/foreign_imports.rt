//! The types of other interfaces, which are imported before all else.

ghost use Rattle.std.specs.Prelude.{◌≡◌, ◌<◌, ◌∷◌, [], length, Some, IfOk, IfErr, OnOk};
ghost use Rattle.comp_trees.specs.DefinedTrees.{OfValues};
ghost use Rattle.comp_trees.specs.WitTrees.{wit_tree};
ghost use Rattle.wit_data.specs.Sound.{IsSound};
ghost use Rattle.wit_data.specs.Values.{kind_at};
ghost use Rattle.wit_data.specs.declared.types.Type.TheVariants.{Id};
ghost use Rattle.wit_types.specs.Denoting.{IsCause};
ghost use Rattle.wit_types.specs.Maps.{HasIndex};
ghost use Rattle.nested_components.specs.declared.stage.Stage.TheVariants as stages;
ghost use Rattle.nested_components.specs.Homes.{nested_setting, with_foreign};
ghost use Rattle.nested_components.specs.Counts.{is_full};
ghost use Rattle.nested_components.specs.Foreign.{IsForeignType, AreUsable, HasParts};
ghost use Rattle.nested_components.specs.Growing.{scope_of, AreTablesRight, GrowsBy, Grows, IsBoundRight};
ghost use Rattle.nested_components.specs.Planning.{IsNamedImport, IsGiven};
ghost use Rattle.nested_components.specs.Types.{imported_ids};

use crate::nested_encoder::NestedEncoder;
use crate::placement::Placement;
use crate::resources::is_resource;
use crate::type_import::TypeImport;
use byte_encoding::BuildFault;
use std::alloc::Global;
use wit_data::{Resolve, kind_of};
use wit_types::{encode_definition, record_type_index};

/// Imports the types of other interfaces, one after the other, each under its name and right behind its definition.
pub(crate) fn import_foreign_types<P: Placement>(
    alloc: Global,
    encoder: &mut NestedEncoder<'_, P>,
    resolve: &Resolve,
    imports: &[TypeImport],
) -> Result<(), BuildFault>
    requires sound { IsSound resolve.now }
    requires same { encoder.old.home.types ≡ resolve.now.types }
    requires stage { encoder.old.stage ≡ stages.Importing }
    requires usable { AreUsable P.given P.origin encoder.old.home imports.now }
    requires right { AreTablesRight P.given P.origin encoder.old.home encoder.old.stage
        encoder.old.contents.items encoder.old.maps }
    ensures home { OnOk result
        (encoder.new.home ≡ with_foreign encoder.old.home (imported_ids imports.now)) }
    ensures stage { OnOk result (encoder.new.stage ≡ encoder.old.stage) }
    ensures grows { OnOk result (GrowsBy P.given P.origin encoder.new.home encoder.old.stage
        imports.now encoder.old.contents encoder.new.contents []) }
    ensures right { OnOk result (AreTablesRight P.given P.origin encoder.new.home encoder.new.stage
        encoder.new.contents.items encoder.new.maps) }
    ensures cause { IfErr result (IsCause is_full encoder.new.contents.items) }
{
    for import in imports {
        import_foreign_type(alloc, encoder, resolve, import)?;
    }
    Ok(())
}

/// Imports a type of another interface under the name that was chosen for it.
fn import_foreign_type<P: Placement>(
    alloc: Global,
    encoder: &mut NestedEncoder<'_, P>,
    resolve: &Resolve,
    import: &TypeImport,
) -> Result<(), BuildFault>
    requires sound { IsSound resolve.now }
    requires same { encoder.old.home.types ≡ resolve.now.types }
    requires stage { encoder.old.stage ≡ stages.Importing }
    requires foreign { IsForeignType encoder.old.home.types encoder.old.home.here import.now.id }
    requires named { IsNamedImport encoder.old.home.types import.now }
    requires given { IsGiven P.given P.origin encoder.old.home.types import.now }
    requires parts { HasParts (nested_setting P.origin encoder.old.home encoder.old.stage)
        (kind_at resolve.now.types import.now.id.index) }
    requires right { AreTablesRight P.given P.origin encoder.old.home encoder.old.stage
        encoder.old.contents.items encoder.old.maps }
    ensures home { OnOk result
        (encoder.new.home ≡ with_foreign encoder.old.home (import.now.id ∷ [])) }
    ensures stage { OnOk result (encoder.new.stage ≡ encoder.old.stage) }
    ensures grows { OnOk result (GrowsBy P.given P.origin
        (with_foreign encoder.old.home (import.now.id ∷ [])) encoder.old.stage (import.now ∷ [])
        encoder.old.contents encoder.new.contents []) }
    ensures right { OnOk result (AreTablesRight P.given P.origin encoder.new.home encoder.new.stage
        encoder.new.contents.items encoder.new.maps) }
    ensures cause { IfErr result (IsCause is_full encoder.new.contents.items) }
{
    record_foreign_type(alloc, encoder, resolve, import)?;
    encoder.pass_foreign(import.id)?;
    Ok(())
}

/// Defines a type of another interface, unless it is a resource, imports it, and records it.
fn record_foreign_type<P: Placement>(
    alloc: Global,
    encoder: &mut NestedEncoder<'_, P>,
    resolve: &Resolve,
    import: &TypeImport,
) -> Result<(), BuildFault>
    requires sound { IsSound resolve.now }
    requires same { encoder.old.home.types ≡ resolve.now.types }
    requires stage { encoder.old.stage ≡ stages.Importing }
    requires foreign { IsForeignType encoder.old.home.types encoder.old.home.here import.now.id }
    requires named { IsNamedImport encoder.old.home.types import.now }
    requires given { IsGiven P.given P.origin encoder.old.home.types import.now }
    requires parts { HasParts (nested_setting P.origin encoder.old.home encoder.old.stage)
        (kind_at resolve.now.types import.now.id.index) }
    requires right { AreTablesRight P.given P.origin encoder.old.home encoder.old.stage
        encoder.old.contents.items encoder.old.maps }
    ensures home { OnOk result (encoder.new.home ≡ encoder.old.home) }
    ensures stage { OnOk result (encoder.new.stage ≡ encoder.old.stage) }
    ensures grows { OnOk result (GrowsBy P.given P.origin
        (with_foreign encoder.old.home (import.now.id ∷ [])) encoder.old.stage (import.now ∷ [])
        encoder.old.contents encoder.new.contents []) }
    ensures recorded { OnOk result (HasIndex encoder.new.maps import.now.id) }
    ensures right { OnOk result (AreTablesRight P.given P.origin encoder.new.home encoder.new.stage
        encoder.new.contents.items encoder.new.maps) }
    ensures cause { IfErr result (IsCause is_full encoder.new.contents.items) }
{
    let equal = define_foreign_type(alloc, encoder, resolve, import)?;
    let index = encoder.add_type_import(import, equal)?;
    record_type_index(encoder, import.id, index)?;
    Ok(())
}

/// Defines a type of another interface, and returns the index of the definition. A resource has none.
fn define_foreign_type<P: Placement>(
    alloc: Global,
    encoder: &mut NestedEncoder<'_, P>,
    resolve: &Resolve,
    import: &TypeImport,
) -> Result<Option<u32>, BuildFault>
    requires sound { IsSound resolve.now }
    requires same { encoder.old.home.types ≡ resolve.now.types }
    requires present { import.now.id.index < length resolve.now.types }
    requires given { IsGiven P.given P.origin encoder.old.home.types import.now }
    requires parts { HasParts (nested_setting P.origin encoder.old.home encoder.old.stage)
        (kind_at resolve.now.types import.now.id.index) }
    requires right { AreTablesRight P.given P.origin encoder.old.home encoder.old.stage
        encoder.old.contents.items encoder.old.maps }
    ensures home { OnOk result (encoder.new.home ≡ encoder.old.home) }
    ensures stage { OnOk result (encoder.new.stage ≡ encoder.old.stage) }
    ensures grows { OnOk result (Grows P.given P.origin encoder.old.home encoder.old.stage
        encoder.old.contents encoder.new.contents []) }
    ensures bound { IfOk result (λ equal. IsBoundRight P.given
        (scope_of P.given encoder.new.contents.items) import.now.name
        (OfValues (wit_tree P.origin encoder.old.home.types (Some (Id import.now.id)))) equal) }
    ensures right { OnOk result (AreTablesRight P.given P.origin encoder.new.home encoder.new.stage
        encoder.new.contents.items encoder.new.maps) }
    ensures cause { IfErr result (IsCause is_full encoder.new.contents.items) }
{
    if is_resource(kind_of(resolve.types.as_slice(), import.id.index)) {
        return Ok(None);
    }
    let index = encode_definition(alloc, encoder, resolve, import.id)?;
    Ok(Some(index))
}
