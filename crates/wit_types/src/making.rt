//! A type that is defined of the value types of its parts.

ghost use Rattle.std.specs.Prelude.{◌≡◌, ◌<◌, ℕ, length, map, IfOk, IfErr, Some, None, true};
ghost use Rattle.comp_bytes.specs.References.{defined_references};
ghost use Rattle.comp_trees.specs.Trees.{Tree, OwnOf, BorrowOf, is_known};
ghost use Rattle.comp_trees.specs.WitTrees.{kind_tree};
ghost use Rattle.comp_trees.specs.DefinedTrees.{OfValues, defined_tree};
ghost use Rattle.wit_data.specs.Parts.{RefersBack, parts};
ghost use Rattle.wit_data.specs.Values.{kind_at};
ghost use Rattle.wit_data.specs.declared.types.Type.TheVariants.{Id};
ghost use Rattle.wit_types.specs.Settings.{tree_in};
ghost use Rattle.comp_trees.specs.DefinedScopes.{Denotes};
ghost use Rattle.wit_types.specs.Denoting.{Longer, AddsOne, AreTypes, ValueDenotes, IsCause};
ghost use Rattle.wit_types.specs.Order.{AddsParts};
ghost use Rattle.wit_types.specs.Definitions.{PartsDenote, OnlyPart, IsDefined};
ghost use Rattle.wit_types.specs.Maps.{Faithful};
ghost use Rattle.wit_types.specs.Allowing.{IsDefinedHere};

use crate::definitions::{definition, first};
use crate::encoder::ValtypeEncoder;
use byte_encoding::BuildFault;
use comp_bytes::{ComponentValType, DefinedType};
use std::alloc::Global;
use wit_data::{Type, TypeDef, TypeDefKind, TypeId, kind_of};

/// The value type of the type with an index, from those of its parts.
pub(crate) fn define<E: ValtypeEncoder>(
    alloc: Global,
    encoder: &mut E,
    types: &[TypeDef],
    id: TypeId,
    given: &[Option<ComponentValType>],
) -> Result<ComponentValType, BuildFault>
    requires back { RefersBack types.now }
    requires same { (E.setting encoder.old).types ≡ types.now }
    requires faithful { Faithful (E.setting encoder.old) (E.scope encoder.old) (E.names encoder.old)
        (E.offers encoder.old) (E.maps encoder.old) }
    requires present { id.index < length types.now }
    requires defined { IsDefinedHere (E.setting encoder.old) (kind_at types.now id.index) }
    requires parts { PartsDenote (E.setting encoder.old) (E.scope encoder.old) given.now
        (kind_at types.now id.index) }
    ensures value { IfOk result (λ v. ValueDenotes (E.scope encoder.new) v
        (tree_in (E.setting encoder.old) (Some (Id id)))) }
    ensures adds { IfOk result (λ v. AddsParts (E.scope encoder.old) (E.scope encoder.new)
        (tree_in (E.setting encoder.old) (Some (Id id)))) }
    ensures grows { Longer (E.scope encoder.old) (E.scope encoder.new) }
    ensures setting { E.setting encoder.new ≡ E.setting encoder.old }
    ensures faithful { Faithful (E.setting encoder.new) (E.scope encoder.new) (E.names encoder.new)
        (E.offers encoder.new) (E.maps encoder.new) }
    ensures follows { E.follows encoder.old encoder.new }
    ensures cause { IfErr result (IsCause E.refuses encoder.new) }
{
    match kind_of(types, id.index) {
        TypeDefKind::Alias(ty) => Ok(only_value(encoder, given, *ty)),
        TypeDefKind::Own(resource) => define_own(encoder, given, *resource),
        TypeDefKind::Borrow(resource) => define_borrow(encoder, given, *resource),
        kind => define_kind(alloc, encoder, kind, given),
    }
}

/// The value type of the only part, of which the type is this.
fn only_value<E: ValtypeEncoder>(
    _encoder: &E,
    given: &[Option<ComponentValType>],
    ty: Type,
) -> ComponentValType
    requires only { OnlyPart (E.setting _encoder.now) (E.scope _encoder.now) given.now ty }
    ensures { ValueDenotes (E.scope _encoder.now) result
        (tree_in (E.setting _encoder.now) (Some ty)) }
{
    match first(given) {
        Some(value) => value,
        None => unreachable!(),
    }
}

/// A handle that owns its resource.
fn define_own<E: ValtypeEncoder>(
    encoder: &mut E,
    given: &[Option<ComponentValType>],
    resource: TypeId,
) -> Result<ComponentValType, BuildFault>
    requires faithful { Faithful (E.setting encoder.old) (E.scope encoder.old) (E.names encoder.old)
        (E.offers encoder.old) (E.maps encoder.old) }
    requires only { OnlyPart (E.setting encoder.old) (E.scope encoder.old) given.now (Id resource) }
    ensures value { IfOk result (λ v. ValueDenotes (E.scope encoder.new) v
        (OwnOf (tree_in (E.setting encoder.old) (Some (Id resource))))) }
    ensures adds { IfOk result (λ v. AddsParts (E.scope encoder.old) (E.scope encoder.new)
        (OwnOf (tree_in (E.setting encoder.old) (Some (Id resource))))) }
    ensures grows { Longer (E.scope encoder.old) (E.scope encoder.new) }
    ensures setting { E.setting encoder.new ≡ E.setting encoder.old }
    ensures faithful { Faithful (E.setting encoder.new) (E.scope encoder.new) (E.names encoder.new)
        (E.offers encoder.new) (E.maps encoder.new) }
    ensures follows { E.follows encoder.old encoder.new }
    ensures cause { IfErr result (IsCause E.refuses encoder.new) }
{
    let value = only_value(encoder, given, Type::Id(resource));
    let named = index_of(encoder, value)?;
    let index = define_type(encoder, DefinedType::Own(named))?;
    Ok(ComponentValType::Defined(index))
}

/// A handle that borrows its resource.
fn define_borrow<E: ValtypeEncoder>(
    encoder: &mut E,
    given: &[Option<ComponentValType>],
    resource: TypeId,
) -> Result<ComponentValType, BuildFault>
    requires faithful { Faithful (E.setting encoder.old) (E.scope encoder.old) (E.names encoder.old)
        (E.offers encoder.old) (E.maps encoder.old) }
    requires only { OnlyPart (E.setting encoder.old) (E.scope encoder.old) given.now (Id resource) }
    ensures value { IfOk result (λ v. ValueDenotes (E.scope encoder.new) v
        (BorrowOf (tree_in (E.setting encoder.old) (Some (Id resource))))) }
    ensures adds { IfOk result (λ v. AddsParts (E.scope encoder.old) (E.scope encoder.new)
        (BorrowOf (tree_in (E.setting encoder.old) (Some (Id resource))))) }
    ensures grows { Longer (E.scope encoder.old) (E.scope encoder.new) }
    ensures setting { E.setting encoder.new ≡ E.setting encoder.old }
    ensures faithful { Faithful (E.setting encoder.new) (E.scope encoder.new) (E.names encoder.new)
        (E.offers encoder.new) (E.maps encoder.new) }
    ensures follows { E.follows encoder.old encoder.new }
    ensures cause { IfErr result (IsCause E.refuses encoder.new) }
{
    let value = only_value(encoder, given, Type::Id(resource));
    let named = index_of(encoder, value)?;
    let index = define_type(encoder, DefinedType::Borrow(named))?;
    Ok(ComponentValType::Defined(index))
}

/// A type of a kind that has a definition of its own.
fn define_kind<E: ValtypeEncoder>(
    alloc: Global,
    encoder: &mut E,
    kind: &TypeDefKind,
    given: &[Option<ComponentValType>],
) -> Result<ComponentValType, BuildFault>
    requires faithful { Faithful (E.setting encoder.old) (E.scope encoder.old) (E.names encoder.old)
        (E.offers encoder.old) (E.maps encoder.old) }
    requires defined { IsDefined kind.now }
    requires parts { PartsDenote (E.setting encoder.old) (E.scope encoder.old) given.now kind.now }
    ensures value { (n : ℕ)
        → IfOk result (λ v. ValueDenotes (E.scope encoder.new) v (kind_tree
        (E.setting encoder.old).origin n kind.now
        (map (tree_in (E.setting encoder.old)) (parts kind.now)))) }
    ensures adds { (n : ℕ)
        → IfOk result (λ v. AddsParts (E.scope encoder.old) (E.scope encoder.new) (kind_tree
        (E.setting encoder.old).origin n kind.now
        (map (tree_in (E.setting encoder.old)) (parts kind.now)))) }
    ensures grows { Longer (E.scope encoder.old) (E.scope encoder.new) }
    ensures setting { E.setting encoder.new ≡ E.setting encoder.old }
    ensures faithful { Faithful (E.setting encoder.new) (E.scope encoder.new) (E.names encoder.new)
        (E.offers encoder.new) (E.maps encoder.new) }
    ensures follows { E.follows encoder.old encoder.new }
    ensures cause { IfErr result (IsCause E.refuses encoder.new) }
{
    match definition(alloc, kind, given)? {
        Some(ty) => Ok(ComponentValType::Defined(define_type(encoder, ty)?)),
        None => unreachable!(),
    }
}

/// The index of a value type, which gets a definition where it is a primitive one.
pub(crate) fn index_of<E: ValtypeEncoder>(
    encoder: &mut E,
    value: ComponentValType,
) -> Result<u32, BuildFault>
    requires faithful { Faithful (E.setting encoder.old) (E.scope encoder.old) (E.names encoder.old)
        (E.offers encoder.old) (E.maps encoder.old) }
    ensures denotes { (t : Tree)
        → ValueDenotes (E.scope encoder.old) value t
        → IfOk result (λ index. Denotes (E.scope encoder.new) index (OfValues t)) }
    ensures adds { (t : Tree)
        → ValueDenotes (E.scope encoder.old) value t
        → IfOk result (λ index. AddsParts (E.scope encoder.old) (E.scope encoder.new) t) }
    ensures grows { Longer (E.scope encoder.old) (E.scope encoder.new) }
    ensures setting { E.setting encoder.new ≡ E.setting encoder.old }
    ensures faithful { Faithful (E.setting encoder.new) (E.scope encoder.new) (E.names encoder.new)
        (E.offers encoder.new) (E.maps encoder.new) }
    ensures follows { E.follows encoder.old encoder.new }
    ensures cause { IfErr result (IsCause E.refuses encoder.new) }
{
    match value {
        ComponentValType::Defined(index) => Ok(index),
        ComponentValType::Primitive(primitive) => {
            define_type(encoder, DefinedType::Primitive(primitive))
        }
    }
}

/// Defines a type of values, in which nothing is unknown.
pub(crate) fn define_type<E: ValtypeEncoder>(
    encoder: &mut E,
    ty: DefinedType,
) -> Result<u32, BuildFault>
    requires faithful { Faithful (E.setting encoder.old) (E.scope encoder.old) (E.names encoder.old)
        (E.offers encoder.old) (E.maps encoder.old) }
    requires present { AreTypes (length (E.scope encoder.old)) (defined_references ty) }
    requires known { is_known (defined_tree (E.scope encoder.old) ty) ≡ true }
    ensures denotes { IfOk result (λ index. Denotes (E.scope encoder.new) index
        (OfValues (defined_tree (E.scope encoder.old) ty))) }
    ensures adds { IfOk result (λ index. AddsOne (E.scope encoder.old) (E.scope encoder.new)
        (OfValues (defined_tree (E.scope encoder.old) ty))) }
    ensures grows { Longer (E.scope encoder.old) (E.scope encoder.new) }
    ensures setting { E.setting encoder.new ≡ E.setting encoder.old }
    ensures faithful { Faithful (E.setting encoder.new) (E.scope encoder.new) (E.names encoder.new)
        (E.offers encoder.new) (E.maps encoder.new) }
    ensures follows { E.follows encoder.old encoder.new }
    ensures cause { IfErr result (IsCause E.refuses encoder.new) }
{
    encoder.defined_type(ty)
}
