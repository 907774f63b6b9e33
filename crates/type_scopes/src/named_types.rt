//! The types of an interface, in its instance type.

ghost use Rattle.std.specs.Prelude.{◌≡◌, ◌++◌, ◌∷◌, ◌<◌, ◌+◌, [], length, Some, true, false, take, is_some, IfOk, IfErr, OnOk};
ghost use Rattle.std.specs.List.{AllByRecursion};
ghost use Rattle.wit_data.specs.Sound.{IsSound};
ghost use Rattle.wit_data.specs.Values.{kind_at};
ghost use Rattle.wit_types.specs.Settings.{name_at};
ghost use Rattle.wit_types.specs.Allowing.{is_resource, IsDefinedHere};
ghost use Rattle.wit_types.specs.Denoting.{IsCause};
ghost use Rattle.wit_types.specs.Maps.{HasIndex};
ghost use Rattle.type_scopes.specs.Members.{is_full};
ghost use Rattle.type_scopes.specs.Offers.{placed};
ghost use Rattle.type_scopes.specs.Titles.{IsTitled, HasTitle, IsKnownByName};
ghost use Rattle.type_scopes.specs.Interfaces.{IsRight, AreExported, IsNext, AreInOrder};

use crate::instance_type::InstanceTypeEncoder;
use crate::placement::Placement;
use byte_encoding::BuildFault;
use comp_bytes::ExternName;
use comp_lists::Text;
use std::alloc::{AllocError, Global};
use wit_data::{Resolve, TypeDef, TypeDefKind, TypeId, kind_of};
use wit_types::{encode_definition, record_type_index};

/// The name of the type with an index, which has one.
#[tactic(auto, using(wit_types::proofs::Owning::name_there))]
fn title_of(alloc: Global, types: &[TypeDef], id: TypeId) -> Result<Text, AllocError>
    requires present { id.index < length types.now }
    requires titled { is_some (name_at types.now id.index) ≡ true }
    ensures { IfOk result (λ name. name_at types.now id.index ≡ Some name) }
{
    match &types[id.index].name {
        Some(name) => name.clone(alloc),
        None => unreachable!(),
    }
}

/// Whether a type is a resource.
fn is_resource(kind: &TypeDefKind) -> bool
    ensures { result ≡ is_resource kind.now }
{
    matches!(kind, TypeDefKind::Resource)
}

/// Defines a type of values of the interface, exports it under its name, and records it.
fn export_value_type<P: Placement>(
    alloc: Global,
    encoder: &mut InstanceTypeEncoder<'_, P>,
    resolve: &Resolve,
    id: TypeId,
    name: ExternName,
) -> Result<(), BuildFault>
    requires sound { IsSound resolve.now }
    requires same { encoder.old.outer.types ≡ resolve.now.types }
    requires titled { IsTitled resolve.now.types encoder.old.interface id name.name }
    requires defined { IsDefinedHere (placed P.surroundings P.origin encoder.old.outer
        encoder.old.interface encoder.old.passed.now) (kind_at resolve.now.types id.index) }
    requires exported { AreExported P.surroundings P.origin encoder.old.outer encoder.old.interface
        encoder.old.passed.now encoder.old.members }
    requires right { IsRight P.surroundings P.origin encoder.old.outer encoder.old.interface
        encoder.old.passed.now encoder.old.members encoder.old.maps }
    ensures exported { OnOk result (AreExported P.surroundings P.origin encoder.old.outer
        encoder.old.interface (encoder.old.passed.now ++ id ∷ []) encoder.new.members) }
    ensures recorded { OnOk result (HasIndex encoder.new.maps id) }
    ensures right { OnOk result (IsRight P.surroundings P.origin encoder.old.outer
        encoder.old.interface encoder.old.passed.now encoder.new.members encoder.new.maps) }
    ensures outer { OnOk result (encoder.new.outer ≡ encoder.old.outer) }
    ensures interface { OnOk result (encoder.new.interface ≡ encoder.old.interface) }
    ensures cause { IfErr result (IsCause is_full encoder.new.members) }
{
    let index = encode_definition(alloc, encoder, resolve, id)?;
    let index = encoder.add_type(name, index)?;
    record_type_index(encoder, id, index)?;
    Ok(())
}

/// Exports a resource of the interface under its name, and records it.
fn export_resource<P: Placement>(
    encoder: &mut InstanceTypeEncoder<'_, P>,
    resolve: &Resolve,
    id: TypeId,
    name: ExternName,
) -> Result<(), BuildFault>
    requires sound { IsSound resolve.now }
    requires same { encoder.old.outer.types ≡ resolve.now.types }
    requires titled { IsTitled resolve.now.types encoder.old.interface id name.name }
    requires resource { is_resource (kind_at resolve.now.types id.index) ≡ true }
    requires known { IsKnownByName P.surroundings P.origin resolve.now.types id }
    requires exported { AreExported P.surroundings P.origin encoder.old.outer encoder.old.interface
        encoder.old.passed.now encoder.old.members }
    requires right { IsRight P.surroundings P.origin encoder.old.outer encoder.old.interface
        encoder.old.passed.now encoder.old.members encoder.old.maps }
    ensures exported { OnOk result (AreExported P.surroundings P.origin encoder.old.outer
        encoder.old.interface (encoder.old.passed.now ++ id ∷ []) encoder.new.members) }
    ensures recorded { OnOk result (HasIndex encoder.new.maps id) }
    ensures right { OnOk result (IsRight P.surroundings P.origin encoder.old.outer
        encoder.old.interface encoder.old.passed.now encoder.new.members encoder.new.maps) }
    ensures outer { OnOk result (encoder.new.outer ≡ encoder.old.outer) }
    ensures interface { OnOk result (encoder.new.interface ≡ encoder.old.interface) }
    ensures cause { IfErr result (IsCause is_full encoder.new.members) }
{
    let index = encoder.add_resource(name)?;
    record_type_index(encoder, id, index)?;
    Ok(())
}

/// Exports a type of the interface under its name, and records it.
fn export_named_type<P: Placement>(
    alloc: Global,
    encoder: &mut InstanceTypeEncoder<'_, P>,
    resolve: &Resolve,
    id: TypeId,
) -> Result<(), BuildFault>
    requires sound { IsSound resolve.now }
    requires same { encoder.old.outer.types ≡ resolve.now.types }
    requires titled { HasTitle resolve.now.types encoder.old.interface id }
    requires known { IsKnownByName P.surroundings P.origin resolve.now.types id }
    requires next { IsNext P.surroundings P.origin encoder.old.outer encoder.old.interface
        encoder.old.passed.now id }
    requires exported { AreExported P.surroundings P.origin encoder.old.outer encoder.old.interface
        encoder.old.passed.now encoder.old.members }
    requires right { IsRight P.surroundings P.origin encoder.old.outer encoder.old.interface
        encoder.old.passed.now encoder.old.members encoder.old.maps }
    ensures exported { OnOk result (AreExported P.surroundings P.origin encoder.old.outer
        encoder.old.interface (encoder.old.passed.now ++ id ∷ []) encoder.new.members) }
    ensures recorded { OnOk result (HasIndex encoder.new.maps id) }
    ensures right { OnOk result (IsRight P.surroundings P.origin encoder.old.outer
        encoder.old.interface encoder.old.passed.now encoder.new.members encoder.new.maps) }
    ensures outer { OnOk result (encoder.new.outer ≡ encoder.old.outer) }
    ensures interface { OnOk result (encoder.new.interface ≡ encoder.old.interface) }
    ensures cause { IfErr result (IsCause is_full encoder.new.members) }
{
    let name = ExternName {
        name: title_of(alloc, resolve.types.as_slice(), id)?,
        version_suffix: None,
    };
    if is_resource(kind_of(resolve.types.as_slice(), id.index)) {
        export_resource(encoder, resolve, id, name)
    } else {
        export_value_type(alloc, encoder, resolve, id, name)
    }
}

/// Exports the type at an index of these, once those before it were passed.
fn export_next<'a, P: Placement>(
    alloc: Global,
    encoder: &mut InstanceTypeEncoder<'a, P>,
    resolve: &Resolve,
    ids: &'a [TypeId],
    n: usize,
) -> Result<(), BuildFault>
    requires sound { IsSound resolve.now }
    requires same { encoder.old.outer.types ≡ resolve.now.types }
    requires present { n < length ids.now }
    requires titled { AllByRecursion (HasTitle resolve.now.types encoder.old.interface) ids.now }
    requires known { AllByRecursion (IsKnownByName P.surroundings P.origin resolve.now.types)
        ids.now }
    requires order { AreInOrder P.surroundings P.origin encoder.old.outer encoder.old.interface
        ids.now }
    requires passed { encoder.old.passed.now ≡ take n ids.now }
    requires exported { AreExported P.surroundings P.origin encoder.old.outer encoder.old.interface
        (take n ids.now) encoder.old.members }
    requires right { IsRight P.surroundings P.origin encoder.old.outer encoder.old.interface
        (take n ids.now) encoder.old.members encoder.old.maps }
    ensures passed { OnOk result (encoder.new.passed.now ≡ take (n + 1) ids.now) }
    ensures exported { OnOk result (AreExported P.surroundings P.origin encoder.old.outer
        encoder.old.interface (take (n + 1) ids.now) encoder.new.members) }
    ensures right { OnOk result (IsRight P.surroundings P.origin encoder.old.outer
        encoder.old.interface (take (n + 1) ids.now) encoder.new.members encoder.new.maps) }
    ensures outer { OnOk result (encoder.new.outer ≡ encoder.old.outer) }
    ensures interface { OnOk result (encoder.new.interface ≡ encoder.old.interface) }
    ensures cause { IfErr result (IsCause is_full encoder.new.members) }
{
    export_named_type(alloc, encoder, resolve, ids[n])?;
    encoder.pass(&ids[..n + 1]);
    Ok(())
}

/// Exports these types of the interface, one after the other, where none was passed.
pub(crate) fn export_types<'a, P: Placement>(
    alloc: Global,
    encoder: &mut InstanceTypeEncoder<'a, P>,
    resolve: &Resolve,
    ids: &'a [TypeId],
) -> Result<(), BuildFault>
    requires sound { IsSound resolve.now }
    requires same { encoder.old.outer.types ≡ resolve.now.types }
    requires titled { AllByRecursion (HasTitle resolve.now.types encoder.old.interface) ids.now }
    requires known { AllByRecursion (IsKnownByName P.surroundings P.origin resolve.now.types)
        ids.now }
    requires order { AreInOrder P.surroundings P.origin encoder.old.outer encoder.old.interface
        ids.now }
    requires passed { encoder.old.passed.now ≡ [] }
    requires exported { AreExported P.surroundings P.origin encoder.old.outer encoder.old.interface
        [] encoder.old.members }
    requires right { IsRight P.surroundings P.origin encoder.old.outer encoder.old.interface []
        encoder.old.members encoder.old.maps }
    ensures passed { OnOk result (encoder.new.passed.now ≡ ids.now) }
    ensures exported { OnOk result (AreExported P.surroundings P.origin encoder.old.outer
        encoder.old.interface ids.now encoder.new.members) }
    ensures right { OnOk result (IsRight P.surroundings P.origin encoder.old.outer
        encoder.old.interface ids.now encoder.new.members encoder.new.maps) }
    ensures outer { OnOk result (encoder.new.outer ≡ encoder.old.outer) }
    ensures interface { OnOk result (encoder.new.interface ≡ encoder.old.interface) }
    ensures cause { IfErr result (IsCause is_full encoder.new.members) }
{
    for n in 0..ids.len() {
        export_next(alloc, encoder, resolve, ids, n)?;
    }
    Ok(())
}
