//! The types of other interfaces of which the types and functions of an interface are made.
//!
//! A type is entered once: what is met in it is listed then.

ghost use Rattle.std.specs.Prelude.{◌≡◌, ◌<◌, [], length, get_or, IfOk, OnOk};
ghost use Rattle.std.specs.List.{AllByRecursion, flat_map};
ghost use Rattle.wit_data.specs.Parts.{RefersBack, IsBelow};
ghost use Rattle.wit_data.specs.Sound.{IsSound, HasFunction, HasTypeId};
ghost use Rattle.wit_data.specs.Values.{values, part_values};
ghost use Rattle.type_scopes.specs.Foreign.{meeting, met_in, met_in_function, met_in_all, with_each, KnowsEntered};
ghost use Rattle.type_scopes.specs.Interfaces.{used_function, used_among};

use crate::outer_type::OuterType;
use comp_lists::{Keyed, Text};
use std::alloc::{AllocError, Global};
use wit_data::{
    Function, InterfaceId, Param, Resolve, Type, TypeDef, TypeId, part_count_of, part_of,
};
use wit_types::{foreign, owner_of};

/// The types of other interfaces that were met, in the order in which they were met first, and the
/// types that were entered.
pub struct ForeignTypes {
    pub types: Keyed<OuterType, ()>,
    pub entered: Keyed<TypeId, ()>,
}

impl Drop for ForeignTypes {
    fn drop(self) {
        let ForeignTypes {
            types: _,
            entered: _,
        } = self;
    }
}

impl ForeignTypes {
    /// Nothing was met. It takes no memory.
    fn new(alloc: Global) -> ForeignTypes
        ensures types { result.types ≡ [] }
        ensures entered { result.entered ≡ [] }
    {
        ForeignTypes {
            types: Keyed::new(alloc),
            entered: Keyed::new(alloc),
        }
    }

    /// Those that were met.
    fn into_types(self) -> Keyed<OuterType, ()>
        ensures { result ≡ self.types }
    {
        let ForeignTypes { types, entered: _ } = self;
        types
    }
}

/// Meets what a type is made of, if there is one.
#[cycle(meeting)]
fn meet_part(
    types: &[TypeDef],
    here: InterfaceId,
    met: &mut ForeignTypes,
    part: Option<Type>,
) -> Result<(), AllocError>
    requires back { RefersBack types.now }
    requires present { IsBelow (length types.now) part }
    requires entered { KnowsEntered types.now here met.old }
    ensures met { OnOk result
        (met.new.types ≡ with_each met.old.types (met_in types.now here part)) }
    ensures entered { OnOk result (KnowsEntered types.now here met.new) }
{
    match part {
        None => Ok(()),
        Some(Type::Primitive(_)) => Ok(()),
        Some(Type::Id(id)) => meet_type(types, here, met, id),
    }
}

/// Meets what the type of a number is made of, unless it was entered.
#[cycle(meeting)]
fn meet_type(
    types: &[TypeDef],
    here: InterfaceId,
    met: &mut ForeignTypes,
    id: TypeId,
) -> Result<(), AllocError>
    requires back { RefersBack types.now }
    requires present { id.index < length types.now }
    requires entered { KnowsEntered types.now here met.old }
    ensures met { OnOk result (met.new.types
        ≡ with_each met.old.types
        (get_or (values (meeting types.now here) types.now) id.index [])) }
    ensures entered { OnOk result (KnowsEntered types.now here met.new) }
{
    if met.entered.contains_key(&id) {
        return Ok(());
    }
    enter_type(types, here, met, id)?;
    met.entered.insert_if_absent(id, ())?;
    Ok(())
}

/// Meets the type of a number, if another interface owns it, or else its parts.
#[cycle(meeting)]
fn enter_type(
    types: &[TypeDef],
    here: InterfaceId,
    met: &mut ForeignTypes,
    id: TypeId,
) -> Result<(), AllocError>
    requires back { RefersBack types.now }
    requires present { id.index < length types.now }
    requires entered { KnowsEntered types.now here met.old }
    ensures met { OnOk result (met.new.types
        ≡ with_each met.old.types
        (get_or (values (meeting types.now here) types.now) id.index [])) }
    ensures entered { OnOk result (KnowsEntered types.now here met.new) }
{
    match foreign(Some(here), owner_of(types, id)) {
        Some(interface) => {
            met.types.insert_if_absent(OuterType { interface, id }, ())?;
            Ok(())
        }
        None => meet_parts(types, here, met, id),
    }
}

/// Meets what the parts of the type of a number are made of.
#[cycle(meeting)]
fn meet_parts(
    types: &[TypeDef],
    here: InterfaceId,
    met: &mut ForeignTypes,
    id: TypeId,
) -> Result<(), AllocError>
    requires back { RefersBack types.now }
    requires present { id.index < length types.now }
    requires entered { KnowsEntered types.now here met.old }
    ensures met { OnOk result (met.new.types
        ≡ with_each met.old.types
        (flat_map (λ ts. ts) (part_values (meeting types.now here) types.now id.index))) }
    ensures entered { OnOk result (KnowsEntered types.now here met.new) }
{
    for n in 0..part_count_of(types, id.index) {
        meet_part(types, here, met, part_of(types, id.index, n))?;
    }
    Ok(())
}

/// Meets what these types are made of.
fn meet_types(
    types: &[TypeDef],
    here: InterfaceId,
    met: &mut ForeignTypes,
    ids: &[TypeId],
) -> Result<(), AllocError>
    requires back { RefersBack types.now }
    requires present { AllByRecursion (λ id. id.index < length types.now) ids.now }
    requires entered { KnowsEntered types.now here met.old }
    ensures met { OnOk result (met.new.types
        ≡ with_each met.old.types (flat_map
        (λ id. get_or (values (meeting types.now here) types.now) id.index [])
        ids.now)) }
    ensures entered { OnOk result (KnowsEntered types.now here met.new) }
{
    for n in 0..ids.len() {
        meet_type(types, here, met, ids[n])?;
    }
    Ok(())
}

/// Meets what the types of parameters are made of.
fn meet_params(
    types: &[TypeDef],
    here: InterfaceId,
    met: &mut ForeignTypes,
    params: &[Param],
) -> Result<(), AllocError>
    requires back { RefersBack types.now }
    requires present { AllByRecursion (λ p. IsBelow (length types.now) (Some p.ty)) params.now }
    requires entered { KnowsEntered types.now here met.old }
    ensures met { OnOk result (met.new.types
        ≡ with_each met.old.types
        (flat_map (λ p. met_in types.now here (Some p.ty)) params.now)) }
    ensures entered { OnOk result (KnowsEntered types.now here met.new) }
{
    for n in 0..params.len() {
        meet_part(types, here, met, Some(params[n].ty))?;
    }
    Ok(())
}

/// Meets what the types of a function are made of: of its parameters, then of its result.
fn meet_function(
    resolve: &Resolve,
    here: InterfaceId,
    met: &mut ForeignTypes,
    function: &Function,
) -> Result<(), AllocError>
    requires sound { IsSound resolve.now }
    requires present { HasFunction resolve.now function.now }
    requires entered { KnowsEntered resolve.now.types here met.old }
    ensures met { OnOk result (met.new.types
        ≡ with_each met.old.types (met_in_function resolve.now.types here function.now)) }
    ensures entered { OnOk result (KnowsEntered resolve.now.types here met.new) }
{
    let types = resolve.types.as_slice();
    meet_params(types, here, met, function.params.as_slice())?;
    meet_part(types, here, met, function.result)?;
    Ok(())
}

/// Meets what the types of a function are made of, if its name is used.
fn meet_used(
    resolve: &Resolve,
    here: InterfaceId,
    met: &mut ForeignTypes,
    used: &Keyed<Text, ()>,
    name: &Text,
    function: &Function,
) -> Result<(), AllocError>
    requires sound { IsSound resolve.now }
    requires present { HasFunction resolve.now function.now }
    requires entered { KnowsEntered resolve.now.types here met.old }
    ensures met { OnOk result (met.new.types
        ≡ with_each met.old.types (flat_map (met_in_function resolve.now.types here)
        (used_function used.now (name.now, function.now)))) }
    ensures entered { OnOk result (KnowsEntered resolve.now.types here met.new) }
{
    if used.contains_key(name) {
        meet_function(resolve, here, met, function)
    } else {
        Ok(())
    }
}

/// Meets what the types of those of these functions are made of whose names are used.
fn meet_functions(
    resolve: &Resolve,
    here: InterfaceId,
    met: &mut ForeignTypes,
    used: &Keyed<Text, ()>,
    functions: &Keyed<Text, Function>,
) -> Result<(), AllocError>
    requires sound { IsSound resolve.now }
    requires present { AllByRecursion (λ e. HasFunction resolve.now e.1) functions.now }
    requires entered { KnowsEntered resolve.now.types here met.old }
    ensures met { OnOk result (met.new.types
        ≡ with_each met.old.types (flat_map (met_in_function resolve.now.types here)
        (used_among used.now functions.now))) }
{
    for (name, function) in functions.iter() {
        meet_used(resolve, here, met, used, name, function)?;
    }
    Ok(())
}

/// The types of other interfaces of which these types of an interface, and then those of these
/// functions whose names are used, are made, each once, in the order in which the encoder of the
/// instance type meets them first ([`encode_interface_type`](crate::encode_interface_type)).
pub fn foreign_types(
    alloc: Global,
    resolve: &Resolve,
    interface: InterfaceId,
    types: &[TypeId],
    used: &Keyed<Text, ()>,
    functions: &Keyed<Text, Function>,
) -> Result<Keyed<OuterType, ()>, AllocError>
    requires sound { IsSound resolve.now }
    requires types { AllByRecursion (λ id. HasTypeId resolve.now id) types.now }
    requires functions { AllByRecursion (λ e. HasFunction resolve.now e.1) functions.now }
    ensures { IfOk result (λ met. met
        ≡ with_each [] (met_in_all resolve.now.types interface types.now
        (used_among used.now functions.now))) }
{
    let mut met = ForeignTypes::new(alloc);
    meet_types(resolve.types.as_slice(), interface, &mut met, types)?;
    meet_functions(resolve, interface, &mut met, used, functions)?;
    Ok(met.into_types())
}
