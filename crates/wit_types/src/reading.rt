//! What the resolve says of a type: its owner, its name, its parts.

ghost use Rattle.std.specs.Prelude.{◌≡◌, ◌<◌, ◌≤◌, length, get_or, IfOk, IsTrue, None, is_some};
ghost use Rattle.wit_data.specs.Parts.{parts, RefersBack, IsBelow, height};
ghost use Rattle.wit_data.specs.Values.{kind_at};
ghost use Rattle.wit_types.specs.Settings.{owner_at, name_at};
ghost use Rattle.wit_types.specs.Allowing.{foreign, is_resource, is_allowed, IsDefinedHere};

use crate::encoder::ValtypeEncoder;
use comp_lists::Text;
use std::alloc::{AllocError, Global};
use wit_data::{InterfaceId, Type, TypeDef, TypeDefKind, TypeId, TypeOwner, part_of};

/// The interface of a type, where it is another one than the given one.
pub fn foreign(here: Option<InterfaceId>, owner: TypeOwner) -> Option<InterfaceId>
    ensures { result ≡ foreign here owner }
{
    match owner {
        TypeOwner::World(_) => None,
        TypeOwner::Interface(interface) => match here {
            None => Some(interface),
            Some(own) => {
                if own.index == interface.index {
                    None
                } else {
                    Some(interface)
                }
            }
        },
        TypeOwner::None => None,
    }
}

/// The owner of the type with an index.
#[tactic(auto, using(crate::proofs::Owning::owner_there))]
pub fn owner_of(types: &[TypeDef], id: TypeId) -> TypeOwner
    requires { id.index < length types.now }
    ensures { result ≡ owner_at types.now id.index }
{
    types[id.index].owner
}

/// The name of the type with an index, where it has one.
#[tactic(auto, using(crate::proofs::Owning::name_there))]
pub(crate) fn name_of(
    alloc: Global,
    types: &[TypeDef],
    id: TypeId,
) -> Result<Option<Text>, AllocError>
    requires { id.index < length types.now }
    ensures { IfOk result (λ name. name ≡ name_at types.now id.index) }
{
    match &types[id.index].name {
        Some(name) => Ok(Some(name.clone(alloc)?)),
        None => Ok(None),
    }
}

/// Whether the type with an index has a name.
#[tactic(auto, using(crate::proofs::Owning::name_there))]
pub(crate) fn has_name(types: &[TypeDef], id: TypeId) -> bool
    requires { id.index < length types.now }
    ensures { result ≡ is_some (name_at types.now id.index) }
{
    types[id.index].name.is_some()
}

/// Whether it is a resource.
pub(crate) fn is_resource(kind: &TypeDefKind) -> bool
    ensures { result ≡ is_resource kind.now }
{
    matches!(kind, TypeDefKind::Resource)
}

/// The part at an index of the type with an index, which may be encoded where the type is defined.
#[tactic(auto, using(crate::proofs::Permitting::part_allowed))]
pub(crate) fn part_in<E: ValtypeEncoder>(
    _encoder: &E,
    types: &[TypeDef],
    id: TypeId,
    n: usize,
) -> Option<Type>
    requires back { RefersBack types.now }
    requires present { id.index < length types.now }
    requires index { n < length (parts (kind_at types.now id.index)) }
    requires defined { IsDefinedHere (E.setting _encoder.now) (kind_at types.now id.index) }
    ensures value { result ≡ get_or (parts (kind_at types.now id.index)) n None }
    ensures present { IsBelow (length types.now) result }
    ensures lower { height result ≤ id.index }
    ensures allowed { IsTrue (is_allowed (E.setting _encoder.now) result) }
{
    part_of(types, id.index, n)
}
