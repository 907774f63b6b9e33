//! Sorts, value types, names, descriptions and aliases, each from the front of bytes.
//!
//! Component model, binary format: `core:sort`, `sort`, `valtype`, `externdesc`, `importname'`, `alias`.

ghost use Rattle.std.specs.Prelude.{◌≡◌, List, ℕ, Option};
ghost use Rattle.part_readers.specs.Reading.{Gives, Read, tagged};
ghost use Rattle.part_readers.specs.PartReaders.{kind_at, sort_at, primitive_of, value_type_at, field_at, case_at, result_at, extern_name_at, type_bound_at, description_at, core_alias_at, export_alias_at, outer_alias_at, type_alias_at, alias_at};

use crate::fault::PartFault;
use crate::numbers::{Decode, byte, expect_byte, name, number, option, type_index};
use comp_bytes::{
    Alias, Case, ComponentExportKind, ComponentValType, Description, ExternName, Field, Sort,
};
use standard_kinds::{ExportKind, Primitive};
use std::alloc::Global;

#[tactic(auto, unfolding(crate::specs::PartReaders::kind_at))]
pub fn kind(bytes: &[u8]) -> Result<(ExportKind, &[u8]), PartFault>
    ensures { Gives (λ x. (x.0, x.1.now)) result (kind_at bytes.now) }
{
    let (tag, rest) = byte(bytes)?;
    let kind = match tag {
        0x00 => ExportKind::Func,
        0x01 => ExportKind::Table,
        0x02 => ExportKind::Memory,
        0x03 => ExportKind::Global,
        _ => return Err(PartFault::Malformed),
    };
    Ok((kind, rest))
}

#[tactic(auto, unfolding(crate::specs::PartReaders::sort_at))]
pub fn sort(bytes: &[u8]) -> Result<(Sort, &[u8]), PartFault>
    ensures { Gives (λ x. (x.0, x.1.now)) result (sort_at bytes.now) }
{
    let (tag, rest) = byte(bytes)?;
    match tag {
        0x00 => {
            let (kind, rest) = kind(rest)?;
            Ok((Sort::Core(kind), rest))
        }
        0x01 => Ok((Sort::Func, rest)),
        0x03 => Ok((Sort::Type, rest)),
        0x04 => Ok((Sort::Component, rest)),
        0x05 => Ok((Sort::Instance, rest)),
        _ => Err(PartFault::Malformed),
    }
}

pub fn primitive_of(tag: u8) -> Option<Primitive>
    ensures { result ≡ primitive_of tag }
{
    match tag {
        0x7f => Some(Primitive::Bool),
        0x7e => Some(Primitive::S8),
        0x7d => Some(Primitive::U8),
        0x7c => Some(Primitive::S16),
        0x7b => Some(Primitive::U16),
        0x7a => Some(Primitive::S32),
        0x79 => Some(Primitive::U32),
        0x78 => Some(Primitive::S64),
        0x77 => Some(Primitive::U64),
        0x76 => Some(Primitive::F32),
        0x75 => Some(Primitive::F64),
        0x74 => Some(Primitive::Char),
        0x73 => Some(Primitive::String),
        0x64 => Some(Primitive::ErrorContext),
        _ => None,
    }
}

impl Decode for ComponentValType {
    ghost at = { value_type_at };

    #[tactic(auto, unfolding(crate::specs::PartReaders::value_type_at, crate::specs::PartReaders::primitive_after))]
    fn decode(_alloc: Global, bytes: &[u8]) -> Result<(ComponentValType, &[u8]), PartFault> {
        let (tag, rest) = byte(bytes)?;
        if let Some(primitive) = primitive_of(tag) {
            return Ok((ComponentValType::Primitive(primitive), rest));
        }
        let (index, rest) = type_index(bytes)?;
        Ok((ComponentValType::Defined(index), rest))
    }
}

impl Decode for Field {
    ghost at = { field_at };

    #[tactic(auto, unfolding(crate::specs::PartReaders::field_at))]
    fn decode(alloc: Global, bytes: &[u8]) -> Result<(Field, &[u8]), PartFault> {
        let (name, rest) = name(alloc, bytes)?;
        let (ty, rest) = ComponentValType::decode(alloc, rest)?;
        Ok((Field { name, ty }, rest))
    }
}

impl Decode for Case {
    ghost at = { case_at };

    #[tactic(auto, unfolding(crate::specs::PartReaders::case_at))]
    fn decode(alloc: Global, bytes: &[u8]) -> Result<(Case, &[u8]), PartFault> {
        let (name, rest) = name(alloc, bytes)?;
        let (ty, rest) = option(alloc, rest)?;
        let rest = expect_byte(0x00, rest)?;
        Ok((Case { name, ty }, rest))
    }
}

/// The result of a function: `00` and a value type, or `01 00` for none.
#[tactic(auto, unfolding(crate::specs::PartReaders::result_at))]
pub fn result_of(
    alloc: Global,
    bytes: &[u8],
) -> Result<(Option<ComponentValType>, &[u8]), PartFault>
    ensures { Gives (λ x. (x.0, x.1.now)) result (result_at bytes.now) }
{
    let (tag, rest) = byte(bytes)?;
    match tag {
        0x00 => {
            let (ty, rest) = ComponentValType::decode(alloc, rest)?;
            Ok((Some(ty), rest))
        }
        0x01 => Ok((None, expect_byte(0x00, rest)?)),
        _ => Err(PartFault::Malformed),
    }
}

#[tactic(auto, unfolding(crate::specs::PartReaders::extern_name_at))]
pub fn extern_name(alloc: Global, bytes: &[u8]) -> Result<(ExternName, &[u8]), PartFault>
    ensures { Gives (λ x. (x.0, x.1.now)) result (extern_name_at bytes.now) }
{
    let (tag, rest) = byte(bytes)?;
    match tag {
        0x00 => {
            let (name, rest) = name(alloc, rest)?;
            let version_suffix = None;
            Ok((
                ExternName {
                    name,
                    version_suffix,
                },
                rest,
            ))
        }
        0x01 => {
            let (name, rest) = name(alloc, rest)?;
            let (suffix, rest) = crate::numbers::name(alloc, rest)?;
            let version_suffix = Some(suffix);
            Ok((
                ExternName {
                    name,
                    version_suffix,
                },
                rest,
            ))
        }
        _ => Err(PartFault::Malformed),
    }
}

#[tactic(auto, unfolding(crate::specs::PartReaders::type_bound_at))]
fn type_bound(bytes: &[u8]) -> Result<(Description, &[u8]), PartFault>
    ensures { Gives (λ x. (x.0, x.1.now)) result (type_bound_at bytes.now) }
{
    let (tag, rest) = byte(bytes)?;
    match tag {
        0x00 => {
            let (index, rest) = number(rest)?;
            Ok((Description::TypeEqual(index), rest))
        }
        0x01 => Ok((Description::SubResource, rest)),
        _ => Err(PartFault::Malformed),
    }
}

impl Decode for Description {
    ghost at = { description_at };

    #[tactic(auto, unfolding(crate::specs::PartReaders::description_at))]
    fn decode(_alloc: Global, bytes: &[u8]) -> Result<(Description, &[u8]), PartFault> {
        let (tag, rest) = byte(bytes)?;
        match tag {
            0x01 => {
                let (index, rest) = number(rest)?;
                Ok((Description::Func(index), rest))
            }
            0x03 => type_bound(rest),
            0x05 => {
                let (index, rest) = number(rest)?;
                Ok((Description::Instance(index), rest))
            }
            _ => Err(PartFault::Malformed),
        }
    }
}

#[tactic(auto, unfolding(crate::specs::PartReaders::core_alias_at))]
fn core_alias(alloc: Global, bytes: &[u8]) -> Result<(Alias, &[u8]), PartFault>
    ensures { Gives (λ x. (x.0, x.1.now)) result (core_alias_at bytes.now) }
{
    let (kind, rest) = kind(bytes)?;
    let rest = expect_byte(0x01, rest)?;
    let (instance, rest) = number(rest)?;
    let (name, rest) = name(alloc, rest)?;
    Ok((
        Alias::CoreExport {
            kind,
            instance,
            name,
        },
        rest,
    ))
}

#[tactic(auto, unfolding(crate::specs::PartReaders::export_alias_at))]
fn export_alias(
    alloc: Global,
    kind: ComponentExportKind,
    bytes: &[u8],
) -> Result<(Alias, &[u8]), PartFault>
    ensures { Gives (λ x. (x.0, x.1.now)) result (export_alias_at kind bytes.now) }
{
    let (instance, rest) = number(bytes)?;
    let (name, rest) = name(alloc, rest)?;
    Ok((
        Alias::Export {
            kind,
            instance,
            name,
        },
        rest,
    ))
}

#[tactic(auto, unfolding(crate::specs::PartReaders::outer_alias_at))]
fn outer_alias(bytes: &[u8]) -> Result<(Alias, &[u8]), PartFault>
    ensures { Gives (λ x. (x.0, x.1.now)) result (outer_alias_at bytes.now) }
{
    let (count, rest) = number(bytes)?;
    let (index, rest) = number(rest)?;
    Ok((Alias::Outer { count, index }, rest))
}

/// An alias of a type, which is an export or one of an outer scope.
#[tactic(auto, unfolding(crate::specs::PartReaders::type_alias_at))]
fn type_alias(alloc: Global, bytes: &[u8]) -> Result<(Alias, &[u8]), PartFault>
    ensures { Gives (λ x. (x.0, x.1.now)) result (type_alias_at bytes.now) }
{
    let (tag, rest) = byte(bytes)?;
    match tag {
        0x00 => export_alias(alloc, ComponentExportKind::Type, rest),
        0x02 => outer_alias(rest),
        _ => Err(PartFault::Malformed),
    }
}

#[tactic(auto, unfolding(crate::specs::PartReaders::alias_at))]
pub fn alias(alloc: Global, bytes: &[u8]) -> Result<(Alias, &[u8]), PartFault>
    ensures { Gives (λ x. (x.0, x.1.now)) result (alias_at bytes.now) }
{
    let (tag, rest) = byte(bytes)?;
    match tag {
        0x00 => core_alias(alloc, rest),
        0x01 => {
            let rest = expect_byte(0x00, rest)?;
            export_alias(alloc, ComponentExportKind::Func, rest)
        }
        0x03 => type_alias(alloc, rest),
        0x04 => {
            let rest = expect_byte(0x00, rest)?;
            export_alias(alloc, ComponentExportKind::Component, rest)
        }
        0x05 => {
            let rest = expect_byte(0x00, rest)?;
            export_alias(alloc, ComponentExportKind::Instance, rest)
        }
        _ => Err(PartFault::Malformed),
    }
}
