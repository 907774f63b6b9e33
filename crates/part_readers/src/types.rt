//! Types, each from the front of bytes.
//!
//! Component model, binary format: `deftype`, `defvaltype`, `functype`, `resourcetype`, `instancetype`.

ghost use Rattle.std.specs.Prelude.{◌≡◌, List, ℕ, Option, Bool};
ghost use Rattle.part_readers.specs.Reading.{Gives, Read};
ghost use Rattle.part_readers.specs.PartReaders.{result_type_at, small_type_after, defined_after, func_type_at, type_def_after, member_at, instance_type_at};

use crate::fault::PartFault;
use crate::numbers::{Decode, byte, expect_byte, list, number, option};
use crate::values::{alias, extern_name, primitive_of, result_of};
use comp_bytes::{
    ComponentValType, DefinedType, Description, FuncTypeDef, InstanceType, Member, TypeDef,
};
use std::alloc::Global;

/// A type of values other than one of fields, cases, types or names, after its first byte.
#[tactic(auto, unfolding(crate::specs::PartReaders::small_type_after, crate::specs::PartReaders::primitive_after))]
fn small_type(alloc: Global, tag: u8, bytes: &[u8]) -> Result<(DefinedType, &[u8]), PartFault>
    ensures { Gives (λ x. (x.0, x.1.now)) result (small_type_after tag bytes.now) }
{
    match tag {
        0x70 => {
            let (ty, rest) = ComponentValType::decode(alloc, bytes)?;
            Ok((DefinedType::List(ty), rest))
        }
        0x6b => {
            let (ty, rest) = ComponentValType::decode(alloc, bytes)?;
            Ok((DefinedType::Option(ty), rest))
        }
        0x6a => result_type(alloc, bytes),
        0x69 => {
            let (index, rest) = number(bytes)?;
            Ok((DefinedType::Own(index), rest))
        }
        0x68 => {
            let (index, rest) = number(bytes)?;
            Ok((DefinedType::Borrow(index), rest))
        }
        0x66 => {
            let (ty, rest) = option(alloc, bytes)?;
            Ok((DefinedType::Stream(ty), rest))
        }
        0x65 => {
            let (ty, rest) = option(alloc, bytes)?;
            Ok((DefinedType::Future(ty), rest))
        }
        _ => match primitive_of(tag) {
            Some(primitive) => Ok((DefinedType::Primitive(primitive), bytes)),
            None => Err(PartFault::Malformed),
        },
    }
}

#[tactic(auto, unfolding(crate::specs::PartReaders::result_type_at))]
fn result_type(alloc: Global, bytes: &[u8]) -> Result<(DefinedType, &[u8]), PartFault>
    ensures { Gives (λ x. (x.0, x.1.now)) result (result_type_at bytes.now) }
{
    let (ok, rest) = option(alloc, bytes)?;
    let (err, rest) = option(alloc, rest)?;
    Ok((DefinedType::Result { ok, err }, rest))
}

/// A type of values, after its first byte.
#[tactic(auto, unfolding(crate::specs::PartReaders::defined_after))]
fn defined(alloc: Global, tag: u8, bytes: &[u8]) -> Result<(DefinedType, &[u8]), PartFault>
    ensures { Gives (λ x. (x.0, x.1.now)) result (defined_after tag bytes.now) }
{
    match tag {
        0x72 => {
            let (fields, rest) = list(alloc, bytes)?;
            Ok((DefinedType::Record(fields), rest))
        }
        0x71 => {
            let (cases, rest) = list(alloc, bytes)?;
            Ok((DefinedType::Variant(cases), rest))
        }
        0x6f => {
            let (types, rest) = list(alloc, bytes)?;
            Ok((DefinedType::Tuple(types), rest))
        }
        0x6e => {
            let (names, rest) = list(alloc, bytes)?;
            Ok((DefinedType::Flags(names), rest))
        }
        0x6d => {
            let (names, rest) = list(alloc, bytes)?;
            Ok((DefinedType::Enum(names), rest))
        }
        _ => small_type(alloc, tag, bytes),
    }
}

/// A type of functions, after its first byte.
#[tactic(auto, unfolding(crate::specs::PartReaders::func_type_at))]
fn func_type(alloc: Global, async_: bool, bytes: &[u8]) -> Result<(FuncTypeDef, &[u8]), PartFault>
    ensures { Gives (λ x. (x.0, x.1.now)) result (func_type_at async_ bytes.now) }
{
    let (params, rest) = list(alloc, bytes)?;
    let (result, rest) = result_of(alloc, rest)?;
    Ok((
        FuncTypeDef {
            async_,
            params,
            result,
        },
        rest,
    ))
}

/// A type other than an instance type, after its first byte.
#[tactic(auto, unfolding(crate::specs::PartReaders::type_def_after))]
pub fn type_def(alloc: Global, tag: u8, bytes: &[u8]) -> Result<(TypeDef, &[u8]), PartFault>
    ensures { Gives (λ x. (x.0, x.1.now)) result (type_def_after tag bytes.now) }
{
    match tag {
        0x40 => {
            let (func, rest) = func_type(alloc, false, bytes)?;
            Ok((TypeDef::Func(func), rest))
        }
        0x43 => {
            let (func, rest) = func_type(alloc, true, bytes)?;
            Ok((TypeDef::Func(func), rest))
        }
        0x3f => {
            let rest = expect_byte(0x7f, bytes)?;
            let (destructor, rest) = option(alloc, rest)?;
            Ok((TypeDef::Resource(destructor), rest))
        }
        _ => {
            let (ty, rest) = defined(alloc, tag, bytes)?;
            Ok((TypeDef::Defined(ty), rest))
        }
    }
}

impl Decode for Member {
    ghost at = { member_at };

    #[tactic(auto, unfolding(crate::specs::PartReaders::member_at))]
    fn decode(alloc: Global, bytes: &[u8]) -> Result<(Member, &[u8]), PartFault> {
        let (tag, rest) = byte(bytes)?;
        match tag {
            0x01 => {
                let (tag, rest) = byte(rest)?;
                let (ty, rest) = type_def(alloc, tag, rest)?;
                Ok((Member::Type(ty), rest))
            }
            0x02 => {
                let (alias, rest) = alias(alloc, rest)?;
                Ok((Member::Alias(alias), rest))
            }
            0x04 => {
                let (name, rest) = extern_name(alloc, rest)?;
                let (description, rest) = Description::decode(alloc, rest)?;
                Ok((Member::Export { name, description }, rest))
            }
            _ => Err(PartFault::Malformed),
        }
    }
}

/// An instance type, after its first byte.
#[tactic(auto, unfolding(crate::specs::PartReaders::instance_type_at))]
pub fn instance_type(alloc: Global, bytes: &[u8]) -> Result<(InstanceType, &[u8]), PartFault>
    ensures { Gives (λ x. (x.0, x.1.now)) result (instance_type_at bytes.now) }
{
    let (members, rest) = list(alloc, bytes)?;
    Ok((InstanceType { members }, rest))
}
