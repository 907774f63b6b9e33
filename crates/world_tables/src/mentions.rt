//! The types that functions, interfaces and core imports name.

ghost use Rattle.std.specs.Prelude.{◌≡◌, [], ◌++◌, Some, map, IfOk, OnOk};
ghost use Rattle.std.specs.List.{flat_map, AllByRecursion};
ghost use Rattle.std.specs.Option.{option_copied};
ghost use Rattle.comp_lists.specs.Found.{found};
ghost use Rattle.wit_data.specs.Live.{named_types};
ghost use Rattle.wit_data.specs.Sound.{IsSound, HasInterface, HasAll, HasItem, HasEntry, HasType, HasWorld};
ghost use Rattle.wit_data.specs.declared.types.Type.TheVariants.{Id};
ghost use Rattle.world_values.specs.Items.{functions_of, function_in, root_function_at};
ghost use Rattle.world_values.specs.Mentions.{at_most_one, resource_of, function_types, types_of_function, interface_types, payload_in, payload_type, imported_payload, role_types, import_types, export_types, used_types, HasRole};
ghost use Rattle.comp_roles.specs.Borrowed.{core_import};

use comp_lists::{Keyed, Text};
use comp_roles::{Import, NamedImport, PayloadInfo, PayloadType};
use std::alloc::{AllocError, Global};
use wit_data::{
    Function, FunctionKind, Interface, InterfaceId, Param, Resolve, Type, TypeId, World, WorldItem,
    WorldKey,
};

/// The interface of this number.
#[tactic(auto, using(crate::proofs::Exists::types_there, crate::proofs::Exists::functions_there, crate::proofs::Exists::interface_sound))]
pub fn interface_of(resolve: &Resolve, id: InterfaceId) -> &Interface
    requires sound { IsSound resolve.now }
    requires present { HasInterface resolve.now id }
    ensures types { result.now.types ≡ named_types resolve.now id }
    ensures functions { result.now.functions ≡ functions_of resolve.now id }
    ensures sound { HasAll resolve.now result.now }
{
    &resolve.interfaces.as_slice()[id.index]
}

/// The resource that a function belongs to.
fn resource_of(kind: FunctionKind) -> Option<Type>
    ensures { result ≡ resource_of kind }
{
    match kind {
        FunctionKind::Freestanding | FunctionKind::AsyncFreestanding => None,
        FunctionKind::Method(id)
        | FunctionKind::AsyncMethod(id)
        | FunctionKind::Static(id)
        | FunctionKind::AsyncStatic(id)
        | FunctionKind::Constructor(id) => Some(Type::Id(id)),
    }
}

/// Adds a type, if there is one.
fn add_type(list: &mut Vec<Type>, ty: Option<Type>) -> Result<(), AllocError>
    ensures { OnOk result (list.new.items ≡ list.old.items ++ at_most_one ty) }
{
    match ty {
        Some(ty) => Ok(list.push(ty)?),
        None => Ok(()),
    }
}

/// Adds the types of parameters.
fn add_params(list: &mut Vec<Type>, params: &[Param]) -> Result<(), AllocError>
    ensures { OnOk result (list.new.items ≡ list.old.items ++ map (λ p. p.ty) params.now) }
{
    for param in params {
        list.push(param.ty)?;
    }
    Ok(())
}

/// Adds the types that a function names.
fn add_function(list: &mut Vec<Type>, function: &Function) -> Result<(), AllocError>
    ensures { OnOk result (list.new.items ≡ list.old.items ++ function_types function.now) }
{
    add_type(list, resource_of(function.kind))?;
    add_params(list, function.params.as_slice())?;
    add_type(list, function.result)
}

/// Adds these types.
fn add_types(list: &mut Vec<Type>, types: &Keyed<Text, TypeId>) -> Result<(), AllocError>
    ensures { OnOk result (list.new.items ≡ list.old.items ++ map (λ t. Id t.1) types.now) }
{
    for (_, id) in types.iter() {
        list.push(Type::Id(*id))?;
    }
    Ok(())
}

/// Adds the types that these functions name.
#[tactic(auto, using(comp_roles::proofs::Walking::item_step))]
fn add_functions(list: &mut Vec<Type>, functions: &Keyed<Text, Function>) -> Result<(), AllocError>
    ensures { OnOk result
        (list.new.items ≡ list.old.items ++ flat_map (λ f. function_types f.1) functions.now) }
{
    for (_, function) in functions.iter() {
        add_function(list, function)?;
    }
    Ok(())
}

/// Adds the types of an interface, and those that its functions name.
fn add_interface(list: &mut Vec<Type>, resolve: &Resolve, id: InterfaceId) -> Result<(), AllocError>
    requires sound { IsSound resolve.now }
    requires present { HasInterface resolve.now id }
    ensures { OnOk result (list.new.items ≡ list.old.items ++ interface_types resolve.now id) }
{
    let interface = interface_of(resolve, id);
    add_types(list, &interface.types)?;
    add_functions(list, &interface.functions)
}

/// The types of an interface, and those that its functions name.
#[tactic(auto, using(crate::proofs::Exists::listed_types_exist))]
pub fn interface_types(
    alloc: Global,
    resolve: &Resolve,
    id: InterfaceId,
) -> Result<Vec<Type>, AllocError>
    requires sound { IsSound resolve.now }
    requires present { HasInterface resolve.now id }
    ensures named { IfOk result (λ v. v.items ≡ interface_types resolve.now id) }
    ensures all_present { IfOk result
        (λ v. AllByRecursion (λ t. HasType resolve.now (Some t)) v.items) }
{
    let mut named = Vec::new(alloc);
    add_interface(&mut named, resolve, id)?;
    Ok(named)
}

/// The stream or the future of the role of a core import.
fn payload_in(role: &Import) -> Option<&PayloadInfo>
    ensures { option_copied result ≡ payload_in role.now }
{
    match role {
        Import::StreamNew(info)
        | Import::StreamDropReadable(info)
        | Import::StreamDropWritable(info)
        | Import::FutureNew(info)
        | Import::FutureDropReadable(info)
        | Import::FutureDropWritable(info) => Some(info),
        Import::StreamRead { info, .. }
        | Import::StreamWrite { info, .. }
        | Import::StreamCancelRead { info, .. }
        | Import::StreamCancelWrite { info, .. }
        | Import::FutureRead { info, .. }
        | Import::FutureWrite { info, .. }
        | Import::FutureCancelRead { info, .. }
        | Import::FutureCancelWrite { info, .. } => Some(info),
        _ => None,
    }
}

fn payload_type(ty: &PayloadType) -> Option<Type>
    ensures { result ≡ payload_type ty.now }
{
    match ty {
        PayloadType::Typed { id, .. } => Some(Type::Id(*id)),
        PayloadType::UnitFuture | PayloadType::UnitStream => None,
    }
}

/// The type of a stream or a future that occurs in an import.
fn imported_payload(role: &Import) -> Option<Type>
    ensures { result ≡ imported_payload (payload_in role.now) }
{
    let info = payload_in(role)?;
    if info.imported {
        payload_type(&info.ty)
    } else {
        None
    }
}

/// The function that the world imports at its root at a key.
fn root_function_at<'a>(
    entries: &'a Keyed<WorldKey, WorldItem>,
    key: &WorldKey,
) -> Option<&'a Function>
    ensures { option_copied result ≡ root_function_at entries.now key.now }
{
    match entries.get(key) {
        Some(WorldItem::Function(function)) => Some(function),
        _ => None,
    }
}

/// The function of an interface by its name.
fn interface_function<'a>(
    resolve: &'a Resolve,
    id: InterfaceId,
    name: &Text,
) -> Option<&'a Function>
    ensures { option_copied result ≡ found name.now (functions_of resolve.now id) }
{
    let interface = resolve.interfaces.as_slice().get(id.index)?;
    interface.functions.get(name)
}

/// Adds the types that a function names, if there is one.
fn add_found(list: &mut Vec<Type>, function: Option<&Function>) -> Result<(), AllocError>
    ensures { OnOk result
        (list.new.items ≡ list.old.items ++ types_of_function (option_copied function.entry)) }
{
    match function {
        Some(function) => add_function(list, function),
        None => Ok(()),
    }
}

/// Adds the types that a core import names.
fn add_role(
    list: &mut Vec<Type>,
    resolve: &Resolve,
    entries: &Keyed<WorldKey, WorldItem>,
    role: &Import,
) -> Result<(), AllocError>
    ensures { OnOk result
        (list.new.items ≡ list.old.items ++ role_types resolve.now entries.now role.now) }
{
    match role {
        Import::WorldFunc(key, _, _) => add_found(list, root_function_at(entries, key)),
        Import::InterfaceFunc(_, id, name, _) => {
            add_found(list, interface_function(resolve, *id, name))
        }
        Import::ImportedResourceDrop(_, _, id) => add_type(list, Some(Type::Id(*id))),
        _ => add_type(list, imported_payload(role)),
    }
}

/// Adds the types that core imports name.
#[tactic(auto, using(comp_roles::proofs::Walking::item_step))]
fn add_roles(
    list: &mut Vec<Type>,
    resolve: &Resolve,
    entries: &Keyed<WorldKey, WorldItem>,
    imports: &[NamedImport<'_>],
) -> Result<(), AllocError>
    ensures { OnOk result (list.new.items
        ≡ list.old.items ++ flat_map (λ i. role_types resolve.now entries.now i.role)
        (map core_import imports.now)) }
{
    for import in imports {
        add_role(list, resolve, entries, import.role)?;
    }
    Ok(())
}

/// Adds the bare types that a world imports.
#[tactic(auto, using(comp_roles::proofs::Walking::item_step))]
fn add_imports(list: &mut Vec<Type>, entries: &Keyed<WorldKey, WorldItem>) -> Result<(), AllocError>
    ensures { OnOk result
        (list.new.items ≡ list.old.items ++ flat_map (λ e. import_types e.1) entries.now) }
{
    for (_, item) in entries.iter() {
        add_import(list, item)?;
    }
    Ok(())
}

/// Adds a type, if the world's import is a bare type.
fn add_import(list: &mut Vec<Type>, item: &WorldItem) -> Result<(), AllocError>
    ensures { OnOk result (list.new.items ≡ list.old.items ++ import_types item.now) }
{
    match item {
        WorldItem::NamedType(id) => add_type(list, Some(Type::Id(*id))),
        WorldItem::Interface(_) | WorldItem::Function(_) => Ok(()),
    }
}

/// Adds the types that an export of the world names.
fn add_export(list: &mut Vec<Type>, resolve: &Resolve, item: &WorldItem) -> Result<(), AllocError>
    requires sound { IsSound resolve.now }
    requires present { HasItem resolve.now item.now }
    ensures { OnOk result (list.new.items ≡ list.old.items ++ export_types resolve.now item.now) }
{
    match item {
        WorldItem::Interface(id) => add_interface(list, resolve, *id),
        WorldItem::Function(function) => add_function(list, function),
        WorldItem::NamedType(id) => add_type(list, Some(Type::Id(*id))),
    }
}

/// Adds the types that the exports of a world name.
#[tactic(auto, using(comp_roles::proofs::Walking::item_step))]
fn add_exports(
    list: &mut Vec<Type>,
    resolve: &Resolve,
    entries: &Keyed<WorldKey, WorldItem>,
) -> Result<(), AllocError>
    requires sound { IsSound resolve.now }
    requires all_present { AllByRecursion (HasEntry resolve.now) entries.now }
    ensures { OnOk result (list.new.items
        ≡ list.old.items ++ flat_map (λ e. export_types resolve.now e.1) entries.now) }
{
    for (_, item) in entries.iter() {
        add_export(list, resolve, item)?;
    }
    Ok(())
}

/// All types for which the component needs definitions, as they are listed.
fn listed_types(
    alloc: Global,
    imports: &[NamedImport<'_>],
    resolve: &Resolve,
    world: &World,
) -> Result<Vec<Type>, AllocError>
    requires sound { IsSound resolve.now }
    requires all_present { AllByRecursion (HasEntry resolve.now) world.now.exports }
    ensures { IfOk result
        (λ v. v.items ≡ used_types (map core_import imports.now) resolve.now world.now) }
{
    let mut list = Vec::new(alloc);
    add_roles(&mut list, resolve, &world.imports, imports)?;
    add_imports(&mut list, &world.imports)?;
    add_exports(&mut list, resolve, &world.exports)?;
    Ok(list)
}

/// The types that a component needs as far as core imports, or the world's imports and exports, name them.
pub(crate) fn used_types(
    alloc: Global,
    imports: &[NamedImport<'_>],
    resolve: &Resolve,
    world: &World,
) -> Result<Vec<Type>, AllocError>
    requires sound { IsSound resolve.now }
    requires present { HasWorld resolve.now world.now }
    requires roles { AllByRecursion (λ i. HasRole resolve.now i.role)
        (map core_import imports.now) }
    ensures used { IfOk result
        (λ v. v.items ≡ used_types (map core_import imports.now) resolve.now world.now) }
    ensures all_present { IfOk result
        (λ v. AllByRecursion (λ t. HasType resolve.now (Some t)) v.items) }
{
    let list = listed_types(alloc, imports, resolve, world)?;
    Ok(list)
}
