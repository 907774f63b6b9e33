//! What types contain.

ghost use Rattle.std.specs.Prelude.{⊤, ◌≡◌, ◌<◌, ◌||◌, ◌&&◌, length, get_or, Some, false, codes, [], ◌∷◌};
ghost use Rattle.std.specs.List.{list_any};
ghost use Rattle.wit_data.specs.Parts.{RefersBack, IsBelow};
ghost use Rattle.wit_data.specs.Sound.{IsSound, HasType, HasTypeId};
ghost use Rattle.wit_data.specs.Values.{values, part_values, kind_at};
ghost use Rattle.wit_data.specs.Contents.{is_entered, is_text, is_list, finding_texts, finding_lists, has_text, has_list, contents_bits, carried_by};

use crate::ids::TypeId;
use crate::parts::{kind_of, part_count_of, part_of};
use crate::resolve::Resolve;
use crate::types::{Type, TypeDef, TypeDefKind};
use bitflags::{Flag, Flags, bitflag_items};
use standard_kinds::Primitive;

/// What a type contains that is in memory (Canonical ABI: `store`, `load`).
#[derive(Clone, Copy, Debug, PartialEq, Eq)]
pub struct TypeContents(u8);

bitflag_items! {
    impl TypeContents: u8 {
        const STRING = 1;
        const NEEDS_MEMORY = 2;
    }
}

impl Flags for TypeContents {
    type Bits = u8;

    ghost exact = { ⊤ };

    ghost table = { (codes "STRING", 1) ∷ (codes "NEEDS_MEMORY", 2) ∷ [] };

    ghost set_of = { λ c. c.0 };

    fn flags<'a>() -> &'a [Flag<TypeContents>] {
        TypeContents::FLAGS
    }

    fn bits(&self) -> u8 {
        self.0
    }

    fn from_bits_retain(bits: u8) -> TypeContents {
        TypeContents(bits)
    }
}

/// What was found in a type.
#[derive(Clone, Copy, Debug, PartialEq, Eq)]
struct Met {
    text: bool,
    list: bool,
}

impl Met {
    /// What was found in either.
    fn or(self, other: Met) -> Met
        ensures text { result.text ≡ (self.text || other.text) }
        ensures list { result.list ≡ (self.list || other.list) }
    {
        Met {
            text: self.text || other.text,
            list: self.list || other.list,
        }
    }

    /// Whether all of it was found.
    fn is_all(self) -> bool
        ensures { result ≡ (self.text && self.list) }
    {
        self.text && self.list
    }
}

impl TypeDefKind {
    /// Whether the types that it names are in its values.
    fn is_entered(&self) -> bool
        ensures { result ≡ is_entered self.now }
    {
        match self {
            TypeDefKind::Own(_) => false,
            TypeDefKind::Borrow(_) => false,
            TypeDefKind::Stream(_) => false,
            TypeDefKind::Future(_) => false,
            TypeDefKind::Record(_) => true,
            TypeDefKind::Variant(_) => true,
            TypeDefKind::Enum(_) => true,
            TypeDefKind::Flags(_) => true,
            TypeDefKind::Tuple(_) => true,
            TypeDefKind::Option(_) => true,
            TypeDefKind::Result(_) => true,
            TypeDefKind::List(_) => true,
            TypeDefKind::Resource => true,
            TypeDefKind::Alias(_) => true,
        }
    }

    fn is_list(&self) -> bool
        ensures { result ≡ is_list self.now }
    {
        matches!(self, TypeDefKind::List(_))
    }
}

fn is_text(primitive: Primitive) -> bool
    ensures { result ≡ is_text primitive }
{
    matches!(primitive, Primitive::String)
}

/// What is found in a type, if there is one.
#[cycle(meeting)]
fn met_in(types: &[TypeDef], part: Option<Type>) -> Met
    requires sound { RefersBack types.now }
    requires present { IsBelow (length types.now) part }
    ensures text { result.text ≡ has_text types.now part }
    ensures list { result.list ≡ has_list types.now part }
{
    match part {
        None => Met {
            text: false,
            list: false,
        },
        Some(Type::Primitive(primitive)) => Met {
            text: is_text(primitive),
            list: false,
        },
        Some(Type::Id(id)) => met_in_kind(types, id.index),
    }
}

/// What is found in the type with this index.
#[cycle(meeting)]
fn met_in_kind(types: &[TypeDef], id: usize) -> Met
    requires sound { RefersBack types.now }
    requires present { id < length types.now }
    ensures text { result.text ≡ get_or (values finding_texts types.now) id false }
    ensures list { result.list ≡ get_or (values finding_lists types.now) id false }
{
    let kind = kind_of(types, id);
    let own = Met {
        text: false,
        list: kind.is_list(),
    };
    if kind.is_entered() {
        met_in_parts(types, id, own)
    } else {
        own
    }
}

/// What is found in the parts of the type with this index, together with what was found before. It stops
/// once everything was found.
#[cycle(meeting)]
fn met_in_parts(types: &[TypeDef], id: usize, before: Met) -> Met
    requires sound { RefersBack types.now }
    requires present { id < length types.now }
    ensures text { result.text
        ≡ (before.text || list_any (λ b. b) (part_values finding_texts types.now id)) }
    ensures list { result.list
        ≡ (before.list || list_any (λ b. b) (part_values finding_lists types.now id)) }
{
    let mut met = before;
    for n in 0..part_count_of(types, id) {
        if met.is_all() {
            return met;
        }
        met = met.or(met_in(types, part_of(types, id, n)));
    }
    met
}

impl Resolve {
    /// What a type contains: a string, or anything in memory.
    pub fn type_contents(&self, ty: &Type) -> TypeContents
        requires sound { IsSound self.now }
        requires present { HasType self.now (Some ty.now) }
        ensures { result.0 ≡ contents_bits self.now.types (Some ty.now) }
    {
        self.contents_of(Some(*ty))
    }

    /// What a type contains, if there is one: a string, or anything in memory. Without a type it is
    /// nothing.
    pub fn contents_of(&self, part: Option<Type>) -> TypeContents
        requires sound { IsSound self.now }
        requires present { HasType self.now part }
        ensures { result.0 ≡ contents_bits self.now.types part }
    {
        let met = met_in(self.types.as_slice(), part);
        match (met.text, met.list) {
            (false, false) => TypeContents(0),
            (true, false) => TypeContents(1),
            (false, true) => TypeContents(2),
            (true, true) => TypeContents(3),
        }
    }

    /// The type of what a stream or a future carries, if it carries anything.
    pub fn carried_by(&self, id: TypeId) -> Option<Type>
        requires sound { IsSound self.now }
        requires present { HasTypeId self.now id }
        ensures carried { result ≡ carried_by (kind_at self.now.types id.index) }
        ensures present { HasType self.now result }
    {
        let types = self.types.as_slice();
        match kind_of(types, id.index) {
            TypeDefKind::Stream(_) => part_of(types, id.index, 0),
            TypeDefKind::Future(_) => part_of(types, id.index, 0),
            _ => None,
        }
    }
}
