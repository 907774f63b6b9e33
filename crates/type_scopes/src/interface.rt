//! The instance type of an interface.

ghost use Rattle.std.specs.Prelude.{◌≡◌, [], IfOk, IfErr};
ghost use Rattle.std.specs.List.{AllByRecursion, flat_map};
ghost use Rattle.wit_data.specs.Sound.{IsSound, HasFunction};
ghost use Rattle.comp_bytes.specs.ScopeNames.{member_export};
ghost use Rattle.comp_trees.specs.Members.{AreMembersRight, member_trees};
ghost use Rattle.type_scopes.specs.Places.{Place};
ghost use Rattle.type_scopes.specs.Members.{IsExcess};
ghost use Rattle.type_scopes.specs.Exports.{IsExport, function_exports};
ghost use Rattle.type_scopes.specs.Offers.{IsOffered, placed};
ghost use Rattle.type_scopes.specs.Titles.{HasTitle, AreTitlesApart, AscendFrom, IsKnownByName, names_exported};
ghost use Rattle.type_scopes.specs.Needs.{AreNeedsMet};
ghost use Rattle.type_scopes.specs.Interfaces.{TypesIn, FunctionsIn, ExportsType, used_among};

use crate::functions::encode_functions;
use crate::instance_type::InstanceTypeEncoder;
use crate::named_types::export_types;
use crate::outer_type::OuterType;
use crate::outer_types::OuterTypes;
use crate::placement::Placement;
use byte_encoding::BuildFault;
use comp_bytes::InstanceType;
use comp_lists::{Keyed, Text};
use std::alloc::Global;
use std::marker::Brand;
use wit_data::{Function, InterfaceId, Resolve, TypeId};

/// The instance type of an interface that has these types, and then those of these functions whose
/// names are used. Types of other interfaces are those of the outer scope, whose indices there the
/// table has. An instance of it exports each of the interface's types under its name, then each of
/// those functions, in their order, and nothing else.
///
/// The types are those of the interface that have a name and are live, in the order of the resolve.
/// Everything of which they and the functions are made is one of them, has no name, or is a type of
/// another interface that the table has.
pub fn encode_interface_type(
    alloc: Global,
    resolve: &Resolve,
    table: &Keyed<OuterType, u32>,
    interface: InterfaceId,
    types: &[TypeId],
    used: &Keyed<Text, ()>,
    functions: &Keyed<Text, Function>,
) -> Result<InstanceType, BuildFault>
    ghost place: { Place }
    requires sound { IsSound resolve.now }
    requires offered { IsOffered place.surroundings place.origin
        (record { types = resolve.now.types; table = table.now }) }
    requires functions { AllByRecursion (λ e. HasFunction resolve.now e.1) functions.now }
    requires titled { AllByRecursion (HasTitle resolve.now.types interface) types.now }
    requires apart { AreTitlesApart resolve.now.types interface types.now }
    requires ascend { AscendFrom 0 types.now }
    requires known { AllByRecursion
        (IsKnownByName place.surroundings place.origin resolve.now.types) types.now }
    requires needs { AreNeedsMet (record { types = resolve.now.types; table = table.now }) interface
        types.now (used_among used.now functions.now) }
    ensures types { IfOk result (λ ty. TypesIn (placed place.surroundings place.origin
        (record { types = resolve.now.types; table = table.now }) interface types.now)
        (member_trees place.surroundings [] ty.members) (IsExport ty.members) types.now) }
    ensures exported { IfOk result (λ ty. AllByRecursion
        (ExportsType place.surroundings place.origin resolve.now.types interface ty.members)
        types.now) }
    ensures functions { IfOk result (λ ty. FunctionsIn (placed place.surroundings place.origin
        (record { types = resolve.now.types; table = table.now }) interface types.now)
        (member_trees place.surroundings [] ty.members) (function_exports ty.members)
        (used_among used.now functions.now)) }
    ensures names { IfOk result (λ ty. flat_map member_export ty.members
        ≡ names_exported resolve.now.types types.now (used_among used.now functions.now)) }
    ensures members { IfOk result (λ ty. AreMembersRight place.surroundings [] ty.members) }
    ensures cause { IfErr result IsExcess }
{
    encode_placed::<Brand>(alloc, resolve, table, interface, types, used, functions)
}

/// The same at a placement, which says what the place is.
fn encode_placed<P: Placement>(
    alloc: Global,
    resolve: &Resolve,
    table: &Keyed<OuterType, u32>,
    interface: InterfaceId,
    types: &[TypeId],
    used: &Keyed<Text, ()>,
    functions: &Keyed<Text, Function>,
) -> Result<InstanceType, BuildFault>
    requires sound { IsSound resolve.now }
    requires offered { IsOffered P.surroundings P.origin
        (record { types = resolve.now.types; table = table.now }) }
    requires functions { AllByRecursion (λ e. HasFunction resolve.now e.1) functions.now }
    requires titled { AllByRecursion (HasTitle resolve.now.types interface) types.now }
    requires apart { AreTitlesApart resolve.now.types interface types.now }
    requires ascend { AscendFrom 0 types.now }
    requires known { AllByRecursion (IsKnownByName P.surroundings P.origin resolve.now.types)
        types.now }
    requires needs { AreNeedsMet (record { types = resolve.now.types; table = table.now }) interface
        types.now (used_among used.now functions.now) }
    ensures types { IfOk result (λ ty. TypesIn (placed P.surroundings P.origin
        (record { types = resolve.now.types; table = table.now }) interface types.now)
        (member_trees P.surroundings [] ty.members) (IsExport ty.members) types.now) }
    ensures exported { IfOk result (λ ty. AllByRecursion
        (ExportsType P.surroundings P.origin resolve.now.types interface ty.members)
        types.now) }
    ensures functions { IfOk result (λ ty. FunctionsIn (placed P.surroundings P.origin
        (record { types = resolve.now.types; table = table.now }) interface types.now)
        (member_trees P.surroundings [] ty.members) (function_exports ty.members)
        (used_among used.now functions.now)) }
    ensures names { IfOk result (λ ty. flat_map member_export ty.members
        ≡ names_exported resolve.now.types types.now (used_among used.now functions.now)) }
    ensures members { IfOk result (λ ty. AreMembersRight P.surroundings [] ty.members) }
    ensures cause { IfErr result IsExcess }
{
    let outer: OuterTypes<'_, P> = OuterTypes::new(resolve, table);
    let mut encoder = InstanceTypeEncoder::new(alloc, outer, interface, types);
    export_types(alloc, &mut encoder, resolve, types)?;
    encode_functions(alloc, &mut encoder, resolve, used, functions)?;
    Ok(encoder.into_type())
}
