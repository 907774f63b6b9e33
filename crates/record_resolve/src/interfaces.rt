//! Interfaces: their types and functions.

ghost use Rattle.std.specs.Prelude.{◌≡◌, [], ◌∷◌, ◌++◌, OnOk};
ghost use Rattle.std.specs.Str.{bytes_eq};
ghost use Rattle.json_paths.specs.Faults.{Gives};
ghost use Rattle.record_values.specs.declared.names.Owner.TheVariants as owners;
ghost use Rattle.wit_data.specs.declared.types.TypeOwner.TheVariants as type_owners;
ghost use Rattle.record_resolve.specs.Steps.{Becomes, Makes};
ghost use Rattle.record_resolve.specs.Interfaces.{with_type_of, types_from, with_function_of, functions_from, items_of, made, with_made, with_interface, with_named};

use crate::functions::{function_kind, make_function};
use crate::ids::id_of;
use crate::making::{Making, Side, put_new};
use crate::types::make_named;
use comp_lists::{Keyed, Seq, Text, TryClone};
use json_paths::{Failure, fault_here};
use record_values::{Func, Interface, InterfaceName, Owner, Typed};
use std::alloc::{AllocError, Global};
use wit_data::{Function, IdName, InterfaceId, TypeId, TypeOwner};

/// Types by name.
type Types = Keyed<Text, TypeId>;

/// Functions by name.
type Functions = Keyed<Text, Function>;

/// Interfaces that are made, and the numbers of those of one side by name.
#[derive(Drop)]
pub(crate) struct MadeInterfaces {
    pub interfaces: Seq<wit_data::Interface>,
    pub ids: Keyed<InterfaceName, InterfaceId>,
}

#[tactic(auto, unfolding(crate::specs::Interfaces::with_type_of))]
fn add_type(
    alloc: Global,
    making: &mut Making,
    side: Side,
    owner: &Owner,
    type_owner: TypeOwner,
    typed: &Typed,
    types: &mut Types,
) -> Result<(), Failure>
    ensures { Becomes result (types.new, making.new)
        (with_type_of side owner.now type_owner typed.now (types.old, making.old)) }
{
    let nodes = typed.nodes.as_slice();
    let id = make_named(alloc, making, side, owner, type_owner, &typed.name, nodes)?;
    put_new(alloc, types, typed.name.clone(alloc)?, id)
}

fn make_types(
    alloc: Global,
    making: &mut Making,
    side: Side,
    owner: &Owner,
    type_owner: TypeOwner,
    types: &[Typed],
) -> Result<Types, Failure>
    ensures { Makes result making.new
        (types_from side owner.now type_owner types.now ([], making.old)) }
{
    let mut made = Keyed::new(alloc);
    for typed in types {
        add_type(alloc, making, side, owner, type_owner, typed, &mut made)?;
    }
    Ok(made)
}

#[tactic(auto, unfolding(crate::specs::Interfaces::with_function_of))]
fn add_function(
    alloc: Global,
    making: &mut Making,
    side: Side,
    owner: &Owner,
    function: &Func,
    functions: &mut Functions,
) -> Result<(), Failure>
    ensures { Becomes result (functions.new, making.new)
        (with_function_of side owner.now function.now (functions.old, making.old)) }
{
    let name = function.name.clone(alloc)?;
    let kind = function_kind(alloc, making, side, owner, function.is_async, name.as_str())?;
    let made = make_function(alloc, making, side, kind, function)?;
    put_new(alloc, functions, name, made)
}

fn make_functions(
    alloc: Global,
    making: &mut Making,
    side: Side,
    owner: &Owner,
    functions: &[Func],
) -> Result<Functions, Failure>
    ensures { Makes result making.new
        (functions_from side owner.now functions.now ([], making.old)) }
{
    let mut made = Keyed::new(alloc);
    for function in functions {
        add_function(alloc, making, side, owner, function, &mut made)?;
    }
    Ok(made)
}

/// The types and then the functions of an interface, in a scope of their own.
#[tactic(auto, unfolding(crate::specs::Interfaces::items_of))]
fn make_items(
    alloc: Global,
    making: &mut Making,
    side: Side,
    owner: &Owner,
    type_owner: TypeOwner,
    interface: &Interface,
) -> Result<(Types, Functions), Failure>
    ensures { Makes result making.new
        (items_of side owner.now type_owner interface.now making.old) }
{
    let outside = making.change_scope(Keyed::new(alloc));
    let types = make_types(
        alloc,
        making,
        side,
        owner,
        type_owner,
        interface.types.as_slice(),
    )?;
    let functions = make_functions(alloc, making, side, owner, interface.functions.as_slice())?;
    making.change_scope(outside);
    Ok((types, functions))
}

/// The types and functions of the interface of this name, which gets this number.
fn make_numbered(
    alloc: Global,
    making: &mut Making,
    side: Side,
    name: &InterfaceName,
    number: InterfaceId,
    interface: &Interface,
) -> Result<(Types, Functions), Failure>
    ensures { Makes result making.new (items_of side (owners.Interface name.now)
        (type_owners.Interface number) interface.now making.old) }
{
    let owner = Owner::Interface(name.try_clone(alloc)?);
    let type_owner = TypeOwner::Interface(number);
    make_items(alloc, making, side, &owner, type_owner, interface)
}

/// Adds an interface that is made, after the others.
fn push_made(
    made_interfaces: &mut MadeInterfaces,
    id: Option<IdName>,
    items: (Types, Functions),
) -> Result<(), AllocError>
    ensures interfaces { OnOk result
        (made_interfaces.new.interfaces ≡ made_interfaces.old.interfaces ++ made id items ∷ []) }
    ensures ids { made_interfaces.new.ids ≡ made_interfaces.old.ids }
{
    let (types, functions) = items;
    Ok(
        made_interfaces.interfaces.push(wit_data::Interface {
            id,
            types,
            functions,
        })?,
    )
}

/// Adds an interface that is made, after the others and by name.
fn put_made(
    alloc: Global,
    made_interfaces: &mut MadeInterfaces,
    name: &InterfaceName,
    number: InterfaceId,
    id: Option<IdName>,
    items: (Types, Functions),
) -> Result<(), Failure>
    ensures { Becomes result made_interfaces.new
        (with_made name.now number id items made_interfaces.old) }
{
    push_made(made_interfaces, id, items)?;
    put_new(
        alloc,
        &mut made_interfaces.ids,
        name.try_clone(alloc)?,
        number,
    )
}

/// The interface of this name, made as the next one.
#[tactic(auto, unfolding(crate::specs::Interfaces::with_interface))]
fn add_interface(
    alloc: Global,
    making: &mut Making,
    side: Side,
    name: &InterfaceName,
    interface: &Interface,
    made_interfaces: &mut MadeInterfaces,
) -> Result<(), Failure>
    ensures { Becomes result (made_interfaces.new, making.new)
        (with_interface side name.now interface.now (made_interfaces.old, making.old)) }
{
    let number = InterfaceId {
        index: made_interfaces.interfaces.len(),
    };
    let id = id_of(alloc, name)?;
    let items = make_numbered(alloc, making, side, name, number, interface)?;
    put_made(alloc, made_interfaces, name, number, id, items)
}

/// The interface of this name, looked up and made.
#[tactic(auto, unfolding(crate::specs::Interfaces::with_named))]
pub(crate) fn add_named(
    alloc: Global,
    making: &mut Making,
    side: Side,
    all: &Keyed<InterfaceName, Interface>,
    name: &InterfaceName,
    made_interfaces: &mut MadeInterfaces,
) -> Result<(), Failure>
    ensures { Becomes result (made_interfaces.new, making.new)
        (with_named side all.now name.now (made_interfaces.old, making.old)) }
{
    match all.get(name) {
        Some(interface) => add_interface(alloc, making, side, name, interface, made_interfaces),
        None => Err(fault_here(alloc)),
    }
}
