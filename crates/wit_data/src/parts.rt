//! The types that a type names, as one list for every kind.

ghost use Rattle.std.specs.Prelude.{◌≡◌, ◌<◌, ◌≤◌, length, get_or, None};
ghost use Rattle.wit_data.specs.Parts.{parts, RefersBack, IsBelow, height};
ghost use Rattle.wit_data.specs.Values.{kind_at};

use crate::types::{Type, TypeDef, TypeDefKind};

impl TypeDefKind {
    /// How many parts the kind has: the types that it names. A case without a type counts as one.
    pub fn part_count(&self) -> usize
        ensures { result ≡ length (parts self.now) }
    {
        match self {
            TypeDefKind::Record(fields) => fields.len(),
            TypeDefKind::Variant(cases) => cases.len(),
            TypeDefKind::Enum(_) => 0,
            TypeDefKind::Flags(_) => 0,
            TypeDefKind::Tuple(types) => types.len(),
            TypeDefKind::Option(_) => 2,
            TypeDefKind::Result(_) => 2,
            TypeDefKind::List(_) => 1,
            TypeDefKind::Own(_) => 1,
            TypeDefKind::Borrow(_) => 1,
            TypeDefKind::Resource => 0,
            TypeDefKind::Stream(_) => 1,
            TypeDefKind::Future(_) => 1,
            TypeDefKind::Alias(_) => 1,
        }
    }

    /// The part of the kind at an index, from 0.
    pub fn part(&self, index: usize) -> Option<Type>
        requires { index < length (parts self.now) }
        ensures { result ≡ get_or (parts self.now) index None }
    {
        match self {
            TypeDefKind::Record(fields) => Some(fields.as_slice()[index].ty),
            TypeDefKind::Variant(cases) => cases.as_slice()[index].ty,
            TypeDefKind::Enum(_) => None,
            TypeDefKind::Flags(_) => None,
            TypeDefKind::Tuple(types) => Some(types.as_slice()[index]),
            TypeDefKind::Option(ty) => { if index == 0 { None } else { Some(*ty) } }
            TypeDefKind::Result(result) => { if index == 0 { result.ok } else { result.err } }
            TypeDefKind::List(ty) => Some(*ty),
            TypeDefKind::Own(id) => Some(Type::Id(*id)),
            TypeDefKind::Borrow(id) => Some(Type::Id(*id)),
            TypeDefKind::Resource => None,
            TypeDefKind::Stream(ty) => *ty,
            TypeDefKind::Future(ty) => *ty,
            TypeDefKind::Alias(ty) => Some(*ty),
        }
    }
}

/// How many parts the type with an index has.
#[tactic(auto, using(crate::proofs::Values::kind_there))]
pub fn part_count_of(types: &[TypeDef], id: usize) -> usize
    requires { id < length types.now }
    ensures { result ≡ length (parts (kind_at types.now id)) }
{
    types[id].kind.part_count()
}

/// The part at an index of the type with an index. It is an earlier type.
#[tactic(auto, using(crate::proofs::Values::kind_there, crate::proofs::Values::part_below, crate::proofs::Values::height_below, crate::proofs::Values::below_later))]
pub fn part_of(types: &[TypeDef], id: usize, index: usize) -> Option<Type>
    requires back { RefersBack types.now }
    requires present { id < length types.now }
    requires index { index < length (parts (kind_at types.now id)) }
    ensures value { result ≡ get_or (parts (kind_at types.now id)) index None }
    ensures earlier { IsBelow id result }
    ensures present { IsBelow (length types.now) result }
    ensures lower { height result ≤ id }
{
    types[id].kind.part(index)
}

/// The kind of the type with an index.
#[tactic(auto, using(crate::proofs::Values::kind_there))]
pub fn kind_of(types: &[TypeDef], id: usize) -> &TypeDefKind
    requires { id < length types.now }
    ensures { result.now ≡ kind_at types.now id }
{
    &types[id].kind
}
