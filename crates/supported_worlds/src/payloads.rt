//! Which streams and futures of core imports are encoded: those whose types have their place, and
//! that are of a function which is imported, or which the module has to export.

ghost use Rattle.std.specs.Prelude.{◌≡◌, is_some};
ghost use Rattle.std.specs.Map.{keys_of};
ghost use Rattle.comp_lists.specs.Found.{found};
ghost use Rattle.world_values.specs.Items.{functions_of};
ghost use Rattle.supported_worlds.specs.Placed.{is_payload, is_payload_at, is_payload_placed, is_exported_function, is_exported_payload, is_own_payload};

use crate::owned::is_required_at;
use crate::places::place_at;
use comp_lists::{Keyed, Text};
use comp_roles::{PayloadInfo, PayloadType};
use wit_data::{InterfaceId, Resolve, Type, TypeDef, TypeDefKind, TypeId, WorldItem, WorldKey};

/// Whether a type is a stream or a future.
fn is_payload(def: &TypeDef) -> bool
    ensures { result ≡ is_payload def.now }
{
    match &def.kind {
        TypeDefKind::Stream(_) | TypeDefKind::Future(_) => true,
        _ => false,
    }
}

fn is_payload_at(types: &[TypeDef], id: TypeId) -> bool
    ensures { result ≡ is_payload_at types.now id }
{
    match types.get(id.index) {
        Some(def) => is_payload(def),
        None => false,
    }
}

/// Whether the type of a stream or a future is one; of an imported function, it has the place of the
/// root or an earlier one.
#[tactic(auto)]
pub(crate) fn is_payload_placed(
    types: &[TypeDef],
    places: &[usize],
    root: usize,
    info: &PayloadInfo,
) -> bool
    ensures { result ≡ is_payload_placed types.now places.now root info.now }
{
    match &info.ty {
        PayloadType::Typed { id, .. } => {
            is_payload_at(types, *id)
                && (!info.imported || place_at(places, Some(Type::Id(*id))) <= root)
        }
        PayloadType::UnitFuture | PayloadType::UnitStream => true,
    }
}

/// Whether an interface has a function of this name.
fn has_function(resolve: &Resolve, id: InterfaceId, name: &Text) -> bool
    ensures { result ≡ is_some (found name.now (functions_of resolve.now id)) }
{
    match resolve.interfaces.as_slice().get(id.index) {
        Some(interface) => match interface.functions.get(name) {
            Some(_) => true,
            None => false,
        },
        None => false,
    }
}

/// Whether a function of this name is exported at a key: at the root, or in this interface, which the
/// module has to export.
fn is_exported_function(
    resolve: &Resolve,
    exports: &Keyed<WorldKey, WorldItem>,
    required: &Keyed<InterfaceId, ()>,
    key: &WorldKey,
    interface: Option<InterfaceId>,
    name: &Text,
) -> bool
    ensures { result
        ≡ is_exported_function resolve.now exports.now (keys_of required.now) key.now interface
        name.now }
{
    match interface {
        None => match exports.get(key) {
            Some(WorldItem::Function(_)) => true,
            _ => false,
        },
        Some(id) => is_required_at(exports, required, key, id) && has_function(resolve, id, name),
    }
}

/// Whether the function of a stream or a future is exported at its key.
fn is_exported_payload(
    resolve: &Resolve,
    exports: &Keyed<WorldKey, WorldItem>,
    required: &Keyed<InterfaceId, ()>,
    info: &PayloadInfo,
) -> bool
    ensures { result
        ≡ is_exported_payload resolve.now exports.now (keys_of required.now) info.now.key
        info.now.interface info.now.ty }
{
    match &info.ty {
        PayloadType::Typed { function, .. } => match &info.key {
            Some(key) => {
                is_exported_function(resolve, exports, required, key, info.interface, function)
            }
            None => false,
        },
        PayloadType::UnitFuture | PayloadType::UnitStream => true,
    }
}

/// The same, unless its function is imported.
pub(crate) fn is_own_payload(
    resolve: &Resolve,
    exports: &Keyed<WorldKey, WorldItem>,
    required: &Keyed<InterfaceId, ()>,
    info: &PayloadInfo,
) -> bool
    ensures { result ≡ is_own_payload resolve.now exports.now (keys_of required.now) info.now }
{
    info.imported || is_exported_payload(resolve, exports, required, info)
}
