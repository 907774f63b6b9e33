//! The declarations of a world and of an instance type.
//!
//! Component model, binary format: `componentdecl`, `instancedecl`, `importdecl`, `exportdecl`.

ghost use Rattle.std.specs.Prelude.{◌≡◌, List, ℕ, length};
ghost use Rattle.part_readers.specs.Reading.{byte_at};
ghost use Rattle.part_readers.specs.PartReaders.{extern_name_at, description_at};
ghost use Rattle.package_syntax.specs.declared.fault.Reason.TheVariants as reasons;
ghost use Rattle.package_syntax.specs.Placing.{Gives, ok_or, stop};
ghost use Rattle.package_syntax.specs.Declarations.{type_reason, sort_reason, alias_reason, kind_reason, placed_type_at, placed_alias_at, described_at, type_member_at, alias_member_at, export_member_at, member_after, placed_member_at, instance_type_declaration_at, plain_type_declaration_at, type_declaration_at, alias_declaration_at, import_declaration_at, export_declaration_at, declaration_after, placed_declaration_at};

use crate::fault::{Reason, StopFault};
use crate::placing::{Place, list, stopped};
use crate::syntax::Declaration;
use comp_bytes::{Alias, Description, ExternName, InstanceType, Member, TypeDef};
use part_readers::{Decode, PartFault, alias, extern_name, type_def};
use std::alloc::Global;

/// Why a type is not read, by its first byte.
fn type_reason(tag: u8) -> Reason
    ensures { result ≡ type_reason tag }
{
    match tag {
        0x67 => Reason::FixedLengthList,
        0x63 => Reason::Map,
        0x42 => Reason::NestedInstanceType,
        0x41 => Reason::ComponentType,
        _ => Reason::Declaration,
    }
}

/// Why an import or an export is not read, by its sort.
fn sort_reason(bytes: &[u8]) -> Reason
    ensures { result ≡ sort_reason bytes.now }
{
    match bytes {
        [] => Reason::Declaration,
        [sort, _rest @ ..] => match *sort {
            0x00 => Reason::CoreModule,
            0x02 => Reason::Value,
            0x04 => Reason::Component,
            _ => Reason::Declaration,
        },
    }
}

/// Why an alias is not read, by its sort.
fn alias_reason(bytes: &[u8]) -> Reason
    ensures { result ≡ alias_reason bytes.now }
{
    match bytes {
        [] => Reason::Declaration,
        [sort, _rest @ ..] => {
            if *sort == 0x02 {
                Reason::Value
            } else {
                Reason::Declaration
            }
        }
    }
}

/// Why a declaration is none, by its first byte.
fn kind_reason(tag: u8) -> Reason
    ensures { result ≡ kind_reason tag }
{
    if tag == 0x00 {
        Reason::CoreType
    } else {
        Reason::Declaration
    }
}

/// The first byte of what begins before so many bytes.
fn first(left: usize, bytes: &[u8]) -> Result<(u8, &[u8]), StopFault>
    ensures { Gives (λ x. (x.0, x.1.now)) result (ok_or (stop left reasons.Declaration)
        (byte_at bytes.now)) }
{
    match bytes {
        [] => Err(stopped(left, Reason::Declaration)),
        [first, rest @ ..] => Ok((*first, rest)),
    }
}

#[tactic(auto, unfolding(crate::specs::Declarations::placed_type_at))]
fn placed_type(alloc: Global, left: usize, bytes: &[u8]) -> Result<(TypeDef, &[u8]), StopFault>
    ensures { Gives (λ x. (x.0, x.1.now)) result (placed_type_at left bytes.now) }
{
    let (tag, rest) = first(left, bytes)?;
    match type_def(alloc, tag, rest) {
        Ok(read) => Ok(read),
        Err(PartFault::Memory) => Err(StopFault::Memory),
        Err(PartFault::Malformed) => Err(stopped(left, type_reason(tag))),
    }
}

#[tactic(auto, unfolding(crate::specs::Declarations::placed_alias_at))]
fn placed_alias(alloc: Global, left: usize, bytes: &[u8]) -> Result<(Alias, &[u8]), StopFault>
    ensures { Gives (λ x. (x.0, x.1.now)) result (placed_alias_at left bytes.now) }
{
    match alias(alloc, bytes) {
        Ok(read) => Ok(read),
        Err(PartFault::Memory) => Err(StopFault::Memory),
        Err(PartFault::Malformed) => Err(stopped(left, alias_reason(bytes))),
    }
}

/// The name of an import or an export.
fn placed_name(alloc: Global, left: usize, bytes: &[u8]) -> Result<(ExternName, &[u8]), StopFault>
    ensures { Gives (λ x. (x.0, x.1.now)) result (ok_or (stop left reasons.Declaration)
        (extern_name_at bytes.now)) }
{
    match extern_name(alloc, bytes) {
        Ok(read) => Ok(read),
        Err(PartFault::Memory) => Err(StopFault::Memory),
        Err(PartFault::Malformed) => Err(stopped(left, Reason::Declaration)),
    }
}

fn placed_description(
    alloc: Global,
    left: usize,
    bytes: &[u8],
) -> Result<(Description, &[u8]), StopFault>
    ensures { Gives (λ x. (x.0, x.1.now)) result (ok_or (stop left (sort_reason bytes.now))
        (description_at bytes.now)) }
{
    match Description::decode(alloc, bytes) {
        Ok(read) => Ok(read),
        Err(PartFault::Memory) => Err(StopFault::Memory),
        Err(PartFault::Malformed) => Err(stopped(left, sort_reason(bytes))),
    }
}

/// An import or an export, after its first byte.
#[tactic(auto, unfolding(crate::specs::Declarations::described_at))]
fn described(
    alloc: Global,
    left: usize,
    bytes: &[u8],
) -> Result<(ExternName, Description, &[u8]), StopFault>
    ensures { Gives (λ x. ((x.0, x.1), x.2.now)) result (described_at left bytes.now) }
{
    let (name, rest) = placed_name(alloc, left, bytes)?;
    let (description, rest) = placed_description(alloc, left, rest)?;
    Ok((name, description, rest))
}

fn type_member(alloc: Global, left: usize, bytes: &[u8]) -> Result<(Member, &[u8]), StopFault>
    ensures { Gives (λ x. (x.0, x.1.now)) result (type_member_at left bytes.now) }
{
    let (ty, rest) = placed_type(alloc, left, bytes)?;
    Ok((Member::Type(ty), rest))
}

fn alias_member(alloc: Global, left: usize, bytes: &[u8]) -> Result<(Member, &[u8]), StopFault>
    ensures { Gives (λ x. (x.0, x.1.now)) result (alias_member_at left bytes.now) }
{
    let (alias, rest) = placed_alias(alloc, left, bytes)?;
    Ok((Member::Alias(alias), rest))
}

fn export_member(alloc: Global, left: usize, bytes: &[u8]) -> Result<(Member, &[u8]), StopFault>
    ensures { Gives (λ x. (x.0, x.1.now)) result (export_member_at left bytes.now) }
{
    let (name, description, rest) = described(alloc, left, bytes)?;
    Ok((Member::Export { name, description }, rest))
}

/// A declaration of an instance type, after its first byte.
#[tactic(auto, unfolding(crate::specs::Declarations::member_after))]
fn member(alloc: Global, left: usize, tag: u8, bytes: &[u8]) -> Result<(Member, &[u8]), StopFault>
    ensures { Gives (λ x. (x.0, x.1.now)) result (member_after left tag bytes.now) }
{
    match tag {
        0x01 => type_member(alloc, left, bytes),
        0x02 => alias_member(alloc, left, bytes),
        0x04 => export_member(alloc, left, bytes),
        _ => Err(stopped(left, kind_reason(tag))),
    }
}

impl Place for Member {
    ghost at = { placed_member_at };

    #[tactic(auto, unfolding(crate::specs::Declarations::placed_member_at))]
    fn read(alloc: Global, bytes: &[u8]) -> Result<(Member, &[u8]), StopFault> {
        let (tag, rest) = first(bytes.len(), bytes)?;
        member(alloc, bytes.len(), tag, rest)
    }
}

fn instance_type(alloc: Global, bytes: &[u8]) -> Result<(Declaration, &[u8]), StopFault>
    ensures { Gives (λ x. (x.0, x.1.now)) result (instance_type_declaration_at bytes.now) }
{
    let (members, rest) = list(alloc, bytes)?;
    Ok((Declaration::InstanceType(InstanceType { members }), rest))
}

fn plain_type(alloc: Global, left: usize, bytes: &[u8]) -> Result<(Declaration, &[u8]), StopFault>
    ensures { Gives (λ x. (x.0, x.1.now)) result (plain_type_declaration_at left bytes.now) }
{
    let (ty, rest) = placed_type(alloc, left, bytes)?;
    Ok((Declaration::Type(ty), rest))
}

#[tactic(auto, unfolding(crate::specs::Declarations::type_declaration_at))]
fn type_declaration(
    alloc: Global,
    left: usize,
    bytes: &[u8],
) -> Result<(Declaration, &[u8]), StopFault>
    ensures { Gives (λ x. (x.0, x.1.now)) result (type_declaration_at left bytes.now) }
{
    let (tag, rest) = first(left, bytes)?;
    if tag == 0x42 {
        instance_type(alloc, rest)
    } else {
        plain_type(alloc, left, bytes)
    }
}

fn alias_declaration(
    alloc: Global,
    left: usize,
    bytes: &[u8],
) -> Result<(Declaration, &[u8]), StopFault>
    ensures { Gives (λ x. (x.0, x.1.now)) result (alias_declaration_at left bytes.now) }
{
    let (alias, rest) = placed_alias(alloc, left, bytes)?;
    Ok((Declaration::Alias(alias), rest))
}

fn import_declaration(
    alloc: Global,
    left: usize,
    bytes: &[u8],
) -> Result<(Declaration, &[u8]), StopFault>
    ensures { Gives (λ x. (x.0, x.1.now)) result (import_declaration_at left bytes.now) }
{
    let (name, description, rest) = described(alloc, left, bytes)?;
    Ok((Declaration::Import { name, description }, rest))
}

fn export_declaration(
    alloc: Global,
    left: usize,
    bytes: &[u8],
) -> Result<(Declaration, &[u8]), StopFault>
    ensures { Gives (λ x. (x.0, x.1.now)) result (export_declaration_at left bytes.now) }
{
    let (name, description, rest) = described(alloc, left, bytes)?;
    Ok((Declaration::Export { name, description }, rest))
}

/// A declaration of a world, after its first byte.
#[tactic(auto, unfolding(crate::specs::Declarations::declaration_after))]
fn declaration(
    alloc: Global,
    left: usize,
    tag: u8,
    bytes: &[u8],
) -> Result<(Declaration, &[u8]), StopFault>
    ensures { Gives (λ x. (x.0, x.1.now)) result (declaration_after left tag bytes.now) }
{
    match tag {
        0x01 => type_declaration(alloc, left, bytes),
        0x02 => alias_declaration(alloc, left, bytes),
        0x03 => import_declaration(alloc, left, bytes),
        0x04 => export_declaration(alloc, left, bytes),
        _ => Err(stopped(left, kind_reason(tag))),
    }
}

impl Place for Declaration {
    ghost at = { placed_declaration_at };

    #[tactic(auto, unfolding(crate::specs::Declarations::placed_declaration_at))]
    fn read(alloc: Global, bytes: &[u8]) -> Result<(Declaration, &[u8]), StopFault> {
        let (tag, rest) = first(bytes.len(), bytes)?;
        declaration(alloc, bytes.len(), tag, rest)
    }
}
