//! The resources of the interface, which are imported behind the types of other interfaces.

ghost use Rattle.std.specs.Prelude.{◌≡◌, ◌<◌, ◌++◌, ◌∷◌, [], length, filter, Some, IfOk, IfErr, OnOk};
ghost use Rattle.std.specs.List.{AllByRecursion};
ghost use Rattle.wit_data.specs.Values.{kind_at};
ghost use Rattle.wit_data.specs.Parts.{RefersBack};
ghost use Rattle.wit_types.specs.Allowing.{is_resource};
ghost use Rattle.wit_types.specs.Denoting.{IsCause};
ghost use Rattle.wit_types.specs.Maps.{HasIndex};
ghost use Rattle.nested_components.specs.declared.stage.Stage.TheVariants as stages;
ghost use Rattle.nested_components.specs.Homes.{with_resources};
ghost use Rattle.nested_components.specs.Counts.{is_full};
ghost use Rattle.nested_components.specs.Growing.{AreTablesRight, GrowsBy};
ghost use Rattle.nested_components.specs.Resources.{IsOwnResource};
ghost use Rattle.nested_components.specs.Types.{imported_ids, own_resources};

use crate::nested_encoder::NestedEncoder;
use crate::placement::Placement;
use crate::type_import::TypeImport;
use byte_encoding::BuildFault;
use comp_lists::{Keyed, Seq, Text};
use std::alloc::{AllocError, Global};
use wit_data::{Resolve, TypeDefKind, TypeId, kind_of};
use wit_types::record_type_index;

/// Whether a type is a resource.
pub(crate) fn is_resource(kind: &TypeDefKind) -> bool
    ensures { result ≡ is_resource kind.now }
{
    matches!(kind, TypeDefKind::Resource)
}

/// Adds a type, if it is a resource.
fn add_resource(ids: &mut Seq<TypeId>, resolve: &Resolve, id: TypeId) -> Result<(), AllocError>
    requires { id.index < length resolve.now.types }
    ensures { OnOk result (ids.new
        ≡ ids.old ++ filter (λ i. is_resource (kind_at resolve.now.types i.index)) (id ∷ [])) }
{
    if is_resource(kind_of(resolve.types.as_slice(), id.index)) {
        ids.push(id)?;
    }
    Ok(())
}

/// The resources among the types that an interface lists, in their order.
pub(crate) fn own_resources(
    alloc: Global,
    resolve: &Resolve,
    types: &Keyed<Text, TypeId>,
) -> Result<Seq<TypeId>, AllocError>
    requires present { AllByRecursion (λ t. t.1.index < length resolve.now.types) types.now }
    ensures { IfOk result (λ ids. ids ≡ own_resources resolve.now.types types.now) }
{
    let mut ids = Seq::new(alloc);
    for (_, id) in types.iter() {
        add_resource(&mut ids, resolve, *id)?;
    }
    Ok(ids)
}

/// Imports the resources of the interface, one after the other, each under its name.
pub(crate) fn import_resources<P: Placement>(
    encoder: &mut NestedEncoder<'_, P>,
    imports: &[TypeImport],
) -> Result<(), BuildFault>
    requires back { RefersBack encoder.old.home.types }
    requires stage { encoder.old.stage ≡ stages.Importing }
    requires own { AllByRecursion (IsOwnResource P.given P.origin encoder.old.home) imports.now }
    requires right { AreTablesRight P.given P.origin encoder.old.home encoder.old.stage
        encoder.old.contents.items encoder.old.maps }
    ensures home { OnOk result
        (encoder.new.home ≡ with_resources encoder.old.home (imported_ids imports.now)) }
    ensures stage { OnOk result (encoder.new.stage ≡ encoder.old.stage) }
    ensures grows { OnOk result (GrowsBy P.given P.origin encoder.new.home encoder.old.stage
        imports.now encoder.old.contents encoder.new.contents []) }
    ensures right { OnOk result (AreTablesRight P.given P.origin encoder.new.home encoder.new.stage
        encoder.new.contents.items encoder.new.maps) }
    ensures cause { IfErr result (IsCause is_full encoder.new.contents.items) }
{
    for import in imports {
        import_resource(encoder, import)?;
    }
    Ok(())
}

/// Imports a resource of the interface under the name that was chosen for it.
fn import_resource<P: Placement>(
    encoder: &mut NestedEncoder<'_, P>,
    import: &TypeImport,
) -> Result<(), BuildFault>
    requires back { RefersBack encoder.old.home.types }
    requires stage { encoder.old.stage ≡ stages.Importing }
    requires own { IsOwnResource P.given P.origin encoder.old.home import.now }
    requires right { AreTablesRight P.given P.origin encoder.old.home encoder.old.stage
        encoder.old.contents.items encoder.old.maps }
    ensures home { OnOk result
        (encoder.new.home ≡ with_resources encoder.old.home (import.now.id ∷ [])) }
    ensures stage { OnOk result (encoder.new.stage ≡ encoder.old.stage) }
    ensures grows { OnOk result (GrowsBy P.given P.origin encoder.old.home encoder.old.stage
        (import.now ∷ []) encoder.old.contents encoder.new.contents []) }
    ensures right { OnOk result (AreTablesRight P.given P.origin encoder.new.home encoder.new.stage
        encoder.new.contents.items encoder.new.maps) }
    ensures cause { IfErr result (IsCause is_full encoder.new.contents.items) }
{
    record_resource(encoder, import)?;
    encoder.pass_resource(import.id)?;
    Ok(())
}

/// Imports a resource of the interface, and records it.
fn record_resource<P: Placement>(
    encoder: &mut NestedEncoder<'_, P>,
    import: &TypeImport,
) -> Result<(), BuildFault>
    requires back { RefersBack encoder.old.home.types }
    requires stage { encoder.old.stage ≡ stages.Importing }
    requires own { IsOwnResource P.given P.origin encoder.old.home import.now }
    requires right { AreTablesRight P.given P.origin encoder.old.home encoder.old.stage
        encoder.old.contents.items encoder.old.maps }
    ensures home { OnOk result (encoder.new.home ≡ encoder.old.home) }
    ensures stage { OnOk result (encoder.new.stage ≡ encoder.old.stage) }
    ensures grows { OnOk result (GrowsBy P.given P.origin encoder.old.home encoder.old.stage
        (import.now ∷ []) encoder.old.contents encoder.new.contents []) }
    ensures recorded { OnOk result (HasIndex encoder.new.maps import.now.id) }
    ensures right { OnOk result (AreTablesRight P.given P.origin encoder.new.home encoder.new.stage
        encoder.new.contents.items encoder.new.maps) }
    ensures cause { IfErr result (IsCause is_full encoder.new.contents.items) }
{
    let index = encoder.add_type_import(import, None)?;
    record_type_index(encoder, import.id, index)?;
    Ok(())
}
