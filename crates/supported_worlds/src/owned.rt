//! Which roles of a user module's imports that are of resources of exported interfaces, or of
//! exported functions, are not encoded yet.

ghost use Rattle.std.specs.Prelude.{◌≡◌, true, false, codes, IfOk};
ghost use Rattle.std.specs.List.{list_any};
ghost use Rattle.std.specs.Map.{keys_of};
ghost use Rattle.std.specs.Option.{option_copied, option_map_or};
ghost use Rattle.comp_roles.specs.Lookups.{first_some};
ghost use Rattle.world_values.specs.Mentions.{same_interface};
ghost use Rattle.comp_worlds.specs.WorldContents.{interface_of_owner};
ghost use Rattle.supported_worlds.specs.LeftOut.{unless, required_of, own_payload_left_out, own_role_left_out, own_instance_left_out, own_group_left_out, own_left_out};
ghost use Rattle.supported_worlds.specs.Distinct.{are_apart};
ghost use Rattle.built_ins.specs.Payloads.{called_payload};
ghost use Rattle.comp_lists.specs.Found.{found};
ghost use Rattle.world_values.specs.Items.{functions_of};
ghost use Rattle.supported_worlds.specs.Placed.{is_required_at, is_own_at, is_own_resource, is_same_function, is_own_function};

use crate::kinds::import_kind;
use crate::payloads::is_own_payload;
use crate::placed::interface_of_owner;
use crate::resources::is_resource;
use crate::sets::{exported_at, required_set};
use built_ins::called_payload;
use comp_lists::{Keyed, Text};
use comp_roles::{Import, ImportInstance};
use comp_worlds::ValidatedModule;
use std::alloc::{AllocError, Global};
use wit_data::{Function, InterfaceId, Resolve, TypeDef, TypeId, TypeOwner, WorldItem, WorldKey};

/// Whether an interface is in a set.
#[tactic(auto, using(crate::proofs::Gathered::has_any))]
fn is_required(required: &Keyed<InterfaceId, ()>, id: InterfaceId) -> bool
    ensures { result ≡ list_any (same_interface id) (keys_of required.now) }
{
    let there = required.contains_key(&id);
    there
}

/// Whether an interface is exported at a key, and the module has to export it.
pub(crate) fn is_required_at(
    exports: &Keyed<WorldKey, WorldItem>,
    required: &Keyed<InterfaceId, ()>,
    key: &WorldKey,
    id: InterfaceId,
) -> bool
    ensures { result ≡ is_required_at exports.now (keys_of required.now) key.now id }
{
    match exported_at(exports, key) {
        Some(other) => id == other && is_required(required, id),
        None => false,
    }
}

/// Whether the owner of a type is such an interface.
fn is_required_owner(
    exports: &Keyed<WorldKey, WorldItem>,
    required: &Keyed<InterfaceId, ()>,
    key: &WorldKey,
    owner: TypeOwner,
) -> bool
    ensures { result
        ≡ option_map_or (is_required_at exports.now (keys_of required.now) key.now)
        (interface_of_owner owner) false }
{
    match interface_of_owner(owner) {
        Some(id) => is_required_at(exports, required, key, id),
        None => false,
    }
}

/// Whether a type is a resource of such an interface.
fn is_own_at(
    exports: &Keyed<WorldKey, WorldItem>,
    required: &Keyed<InterfaceId, ()>,
    key: &WorldKey,
    def: &TypeDef,
) -> bool
    ensures { result ≡ is_own_at exports.now (keys_of required.now) key.now def.now }
{
    is_resource(def) && is_required_owner(exports, required, key, def.owner)
}

fn is_own_resource(
    types: &[TypeDef],
    exports: &Keyed<WorldKey, WorldItem>,
    required: &Keyed<InterfaceId, ()>,
    key: &WorldKey,
    id: TypeId,
) -> bool
    ensures { result ≡ is_own_resource types.now exports.now (keys_of required.now) key.now id }
{
    match types.get(id.index) {
        Some(def) => is_own_at(exports, required, key, def),
        None => false,
    }
}

/// A role of a resource, unless that is one of an interface that the module has to export.
fn unless_own(
    types: &[TypeDef],
    exports: &Keyed<WorldKey, WorldItem>,
    required: &Keyed<InterfaceId, ()>,
    key: &WorldKey,
    id: TypeId,
    what: &'static str,
) -> Option<&'static str>
    ensures { option_copied result
        ≡ unless (is_own_resource types.now exports.now (keys_of required.now) key.now id)
        what.now }
{
    if is_own_resource(types, exports, required, key, id) {
        None
    } else {
        Some(what)
    }
}

/// Whether a function is the one of its name in an interface.
fn is_function_of(resolve: &Resolve, id: InterfaceId, function: &Function) -> bool
    ensures { result
        ≡ option_map_or (is_same_function function.now)
        (found function.now.name (functions_of resolve.now id)) false }
{
    match resolve.interfaces.as_slice().get(id.index) {
        Some(interface) => match interface.functions.get(&function.name) {
            Some(named) => function == named,
            None => false,
        },
        None => false,
    }
}

/// Whether a function is the one that is exported at a key: at the root, or in this interface, which the
/// module has to export.
fn is_own_function(
    resolve: &Resolve,
    exports: &Keyed<WorldKey, WorldItem>,
    required: &Keyed<InterfaceId, ()>,
    key: &WorldKey,
    interface: Option<InterfaceId>,
    function: &Function,
) -> bool
    ensures { result
        ≡ is_own_function resolve.now exports.now (keys_of required.now) key.now interface
        function.now }
{
    match interface {
        None => match exports.get(key) {
            Some(WorldItem::Function(exported)) => function == exported,
            _ => false,
        },
        Some(id) => {
            is_required_at(exports, required, key, id) && is_function_of(resolve, id, function)
        }
    }
}

/// `task.return`, unless it is of a function that is exported at the key.
fn unless_exported(
    resolve: &Resolve,
    exports: &Keyed<WorldKey, WorldItem>,
    required: &Keyed<InterfaceId, ()>,
    key: &WorldKey,
    interface: Option<InterfaceId>,
    function: &Function,
) -> Option<&'static str>
    ensures { option_copied result
        ≡ unless (is_own_function resolve.now exports.now (keys_of required.now) key.now interface
        function.now) (codes "task-return") }
{
    if is_own_function(resolve, exports, required, key, interface, function) {
        None
    } else {
        Some("task-return")
    }
}

/// A built-in function of a stream or a future, unless that is one of a function that is imported, or
/// exported at its key.
fn own_payload_left_out(
    resolve: &Resolve,
    exports: &Keyed<WorldKey, WorldItem>,
    required: &Keyed<InterfaceId, ()>,
    role: &Import,
) -> Option<&'static str>
    ensures { option_copied result
        ≡ own_payload_left_out resolve.now exports.now (keys_of required.now) role.now
        (called_payload role.now) }
{
    match called_payload(role) {
        Some(info) => {
            if is_own_payload(resolve, exports, required, info) {
                None
            } else {
                Some(import_kind(role))
            }
        }
        None => None,
    }
}

fn own_role_left_out(
    resolve: &Resolve,
    exports: &Keyed<WorldKey, WorldItem>,
    required: &Keyed<InterfaceId, ()>,
    role: &Import,
) -> Option<&'static str>
    ensures { option_copied result
        ≡ own_role_left_out resolve.now exports.now (keys_of required.now) role.now }
{
    let types = resolve.types.as_slice();
    match role {
        Import::ExportedResourceDrop(key, id) => {
            unless_own(types, exports, required, key, *id, "exported-drop")
        }
        Import::ExportedResourceRep(key, id) => {
            unless_own(types, exports, required, key, *id, "exported-rep")
        }
        Import::ExportedResourceNew(key, id) => {
            unless_own(types, exports, required, key, *id, "exported-new")
        }
        Import::ExportedTaskReturn(key, interface, function) => {
            unless_exported(resolve, exports, required, key, *interface, function)
        }
        _ => own_payload_left_out(resolve, exports, required, role),
    }
}

/// The first such role among the fields that are imported from one module.
fn own_fields_left_out(
    resolve: &Resolve,
    exports: &Keyed<WorldKey, WorldItem>,
    required: &Keyed<InterfaceId, ()>,
    fields: &Keyed<Text, Import>,
) -> Option<&'static str>
    ensures { option_copied result
        ≡ first_some (λ f. own_role_left_out resolve.now exports.now (keys_of required.now) f.1)
        fields.now }
{
    for (_, role) in fields.iter() {
        if let Some(what) = own_role_left_out(resolve, exports, required, role) {
            return Some(what);
        }
    }
    None
}

fn own_instance_left_out(
    resolve: &Resolve,
    exports: &Keyed<WorldKey, WorldItem>,
    required: &Keyed<InterfaceId, ()>,
    instance: &ImportInstance,
) -> Option<&'static str>
    ensures { option_copied result
        ≡ own_instance_left_out resolve.now exports.now (keys_of required.now) instance.now }
{
    match instance {
        ImportInstance::Names(fields) => own_fields_left_out(resolve, exports, required, fields),
        ImportInstance::Whole(_) => None,
    }
}

/// The first role of these imports that is of a resource of an exported interface, unless that is
/// one of an interface that the module has to export at the role's key.
fn groups_left_out(
    resolve: &Resolve,
    exports: &Keyed<WorldKey, WorldItem>,
    required: &Keyed<InterfaceId, ()>,
    groups: &Keyed<Text, ImportInstance>,
) -> Option<&'static str>
    ensures { option_copied result
        ≡ first_some (own_group_left_out resolve.now exports.now (keys_of required.now)) groups.now }
{
    for (_, instance) in groups.iter() {
        if let Some(what) = own_instance_left_out(resolve, exports, required, instance) {
            return Some(what);
        }
    }
    None
}

/// The first role of a module's imports that is of a resource of an exported interface, unless that
/// is one of an interface at one of the keys that the module has to export.
#[tactic(auto, using(crate::proofs::Reporting::own_found))]
pub(crate) fn own_left_out(
    alloc: Global,
    resolve: &Resolve,
    exports: &Keyed<WorldKey, WorldItem>,
    keys: &[WorldKey],
    info: &ValidatedModule,
) -> Result<Option<&'static str>, AllocError>
    requires once { are_apart same_interface (required_of exports.now keys.now) ≡ true }
    ensures { IfOk result
        (λ o. option_copied o ≡ own_left_out resolve.now exports.now keys.now info.now) }
{
    match required_set(alloc, exports, keys)? {
        Some(required) => {
            let found = groups_left_out(resolve, exports, &required, &info.imports.modules);
            Ok(found)
        }
        None => unreachable!(),
    }
}
