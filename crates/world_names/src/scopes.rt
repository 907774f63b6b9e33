//! What the imports of a core module under one module name are of.

ghost use Rattle.std.specs.Prelude.{◌≡◌, IfOk};
ghost use Rattle.std.specs.Option.{option_copied};
ghost use Rattle.world_names.specs.WorldNames.{owned};
ghost use Rattle.world_names.specs.Scopes.{root, of_interface, is_function, owner_has_function, has_function, resource, is_itself, owner_has_resource, is_own_resource};

use crate::labels::{Side, items_of};
use crate::tables::WorldNames;
use comp_lists::{Text, TryClone};
use record_values::{InterfaceName, Item, ItemKey, Owner, TypeName};
use std::alloc::{AllocError, Global};

/// The world itself, or an interface, on a side of the world.
#[derive(Drop)]
pub struct Scope {
    pub side: Side,
    pub owner: Owner,
}

pub fn root(side: Side) -> Scope
    ensures { result ≡ root side }
{
    Scope {
        side,
        owner: Owner::World,
    }
}

pub fn of_interface(side: Side, name: InterfaceName) -> Scope
    ensures { result ≡ of_interface side name }
{
    Scope {
        side,
        owner: Owner::Interface(name),
    }
}

/// What the owner of a scope has under a name.
pub fn owned(alloc: Global, scope: &Scope, name: &str) -> Result<TypeName, AllocError>
    ensures { IfOk result (λ t. t ≡ owned scope.now.owner name.now) }
{
    let owner = scope.owner.try_clone(alloc)?;
    let name = Text::from_str(alloc, name)?;
    Ok(TypeName { owner, name })
}

fn is_function(item: Option<&Item>) -> bool
    ensures { result ≡ is_function (option_copied item.entry) }
{
    match item {
        Some(Item::Function(_)) => true,
        _ => false,
    }
}

/// Whether the world itself has a function on a side.
fn has_world_function(
    alloc: Global,
    names: &WorldNames,
    side: Side,
    name: &str,
) -> Result<bool, AllocError>
    ensures { IfOk result (λ b. b ≡ owner_has_function names.now side Owner.World name.now) }
{
    let key = ItemKey::Name(Text::from_str(alloc, name)?);
    Ok(is_function(items_of(names, side).get(&key)))
}

/// Whether an interface has a function.
fn has_interface_function(
    alloc: Global,
    names: &WorldNames,
    side: Side,
    interface: &InterfaceName,
    name: &str,
) -> Result<bool, AllocError>
    ensures { IfOk result (λ b. b ≡ owner_has_function names.now side
        (Owner.Interface interface.now) name.now) }
{
    let owner = Owner::Interface(interface.try_clone(alloc)?);
    let name = Text::from_str(alloc, name)?;
    Ok(names.functions.contains_key(&TypeName { owner, name }))
}

/// Whether a scope has a function.
pub fn has_function(
    alloc: Global,
    names: &WorldNames,
    scope: &Scope,
    name: &str,
) -> Result<bool, AllocError>
    ensures { IfOk result (λ b. b ≡ has_function names.now scope.now name.now) }
{
    match &scope.owner {
        Owner::World => has_world_function(alloc, names, scope.side, name),
        Owner::Interface(interface) => {
            has_interface_function(alloc, names, scope.side, interface, name)
        }
    }
}

/// The resource that a scope has under a name, which may be that of another name.
pub fn resource(
    alloc: Global,
    names: &WorldNames,
    scope: &Scope,
    name: &str,
) -> Result<Option<TypeName>, AllocError>
    ensures { IfOk result (λ t. t ≡ resource names.now scope.now name.now) }
{
    let key = owned(alloc, scope, name)?;
    match names.resources.get(&key) {
        Some(resource) => Ok(Some(resource.try_clone(alloc)?)),
        None => Ok(None),
    }
}

fn is_itself(name: &TypeName, resource: Option<&TypeName>) -> bool
    ensures { result ≡ is_itself name.now (option_copied resource.entry) }
{
    match resource {
        Some(resource) => name == resource,
        None => false,
    }
}

fn has_interface_resource(
    alloc: Global,
    names: &WorldNames,
    interface: &InterfaceName,
    name: &str,
) -> Result<bool, AllocError>
    ensures { IfOk result (λ b. b ≡ owner_has_resource names.now
        (Owner.Interface interface.now) name.now) }
{
    let owner = Owner::Interface(interface.try_clone(alloc)?);
    let name = Text::from_str(alloc, name)?;
    let key = TypeName { owner, name };
    Ok(is_itself(&key, names.resources.get(&key)))
}

/// Whether a scope is an interface that has a resource under a name, and not as a further name for
/// another one.
pub fn is_own_resource(
    alloc: Global,
    names: &WorldNames,
    scope: &Scope,
    name: &str,
) -> Result<bool, AllocError>
    ensures { IfOk result (λ b. b ≡ is_own_resource names.now scope.now name.now) }
{
    match &scope.owner {
        Owner::World => Ok(false),
        Owner::Interface(interface) => has_interface_resource(alloc, names, interface, name),
    }
}
