//! What instance types copy.
//!
//! Component model, binary format: `instancetype`, `instancedecl`.

ghost use Rattle.std.specs.Prelude.{◌≡◌, [], slice_get, IfOk, OnOk};
ghost use Rattle.package_copies.specs.Weights.{type_weight, text_weight, entry_weight};
ghost use Rattle.package_copies.specs.Instances.{with_entry, with_exported, alias_step, export_step, member_step, members_after, nothing};

use crate::weights::{entry_weight, sum, text_weight, type_weight};
use comp_bytes::{Alias, Description, Member, TypeDef};
use comp_lists::{Seq, Text};
use std::alloc::{AllocError, Global};

/// What the declarations of an instance type copy so far, with the weights of its types, and of what it exports.
#[derive(Drop)]
pub(crate) struct Inside {
    pub scope: Seq<usize>,
    pub copies: usize,
    pub content: usize,
}

/// Adds a type of this weight, as which it is built.
fn add_entry(inside: &mut Inside, weight: usize) -> Result<(), AllocError>
    ensures { OnOk result (inside.new ≡ with_entry inside.old weight) }
{
    inside.copies = sum(inside.copies, weight);
    Ok(inside.scope.push(weight)?)
}

/// Adds what is exported, of this weight with its name.
fn add_exported(inside: &mut Inside, weight: usize) -> Result<(), AllocError>
    ensures { OnOk result (inside.new ≡ with_exported inside.old weight) }
{
    inside.copies = sum(inside.copies, weight);
    inside.content = sum(inside.content, weight);
    Ok(())
}

fn type_step(inside: &mut Inside, ty: &TypeDef) -> Result<(), AllocError>
    ensures { OnOk result (inside.new ≡ with_entry inside.old
        (type_weight inside.old.scope ty.now)) }
{
    let weight = type_weight(inside.scope.as_slice(), ty);
    add_entry(inside, weight)
}

fn alias_step(outer: &[usize], inside: &mut Inside, alias: &Alias) -> Result<(), AllocError>
    ensures { OnOk result (inside.new ≡ alias_step outer.now inside.old alias.now) }
{
    match alias {
        Alias::Outer { count: _, index } => add_entry(inside, entry_weight(outer, *index)),
        Alias::Export {
            kind: _,
            instance: _,
            name: _,
        } => Ok(()),
        Alias::CoreExport {
            kind: _,
            instance: _,
            name: _,
        } => Ok(()),
    }
}

/// Adds an exported type, of which a use copies the name.
fn named_step(inside: &mut Inside, name: &Text, weight: usize) -> Result<(), AllocError>
    ensures { OnOk result (inside.new ≡ with_entry (with_exported inside.old weight)
        (text_weight name.now)) }
{
    add_exported(inside, weight)?;
    add_entry(inside, text_weight(name))
}

fn equal_step(inside: &mut Inside, name: &Text, index: u32) -> Result<(), AllocError>
    ensures { OnOk result (inside.new ≡ with_entry (with_exported inside.old
        (entry_weight (slice_get inside.old.scope index))) (text_weight name.now)) }
{
    let weight = entry_weight(inside.scope.as_slice(), index);
    named_step(inside, name, weight)
}

fn function_step(inside: &mut Inside, index: u32) -> Result<(), AllocError>
    ensures { OnOk result (inside.new ≡ with_exported inside.old
        (entry_weight (slice_get inside.old.scope index))) }
{
    let weight = entry_weight(inside.scope.as_slice(), index);
    add_exported(inside, weight)
}

fn export_step(inside: &mut Inside, name: &Text, description: Description) -> Result<(), AllocError>
    ensures { OnOk result (inside.new ≡ export_step inside.old name.now description) }
{
    match description {
        Description::TypeEqual(index) => equal_step(inside, name, index),
        Description::SubResource => named_step(inside, name, 1),
        Description::Func(index) => function_step(inside, index),
        Description::Instance(_) => Ok(()),
    }
}

fn member_step(outer: &[usize], inside: &mut Inside, member: &Member) -> Result<(), AllocError>
    ensures { OnOk result (inside.new ≡ member_step outer.now inside.old member.now) }
{
    match member {
        Member::Type(ty) => type_step(inside, ty),
        Member::Alias(alias) => alias_step(outer, inside, alias),
        Member::Export { name, description } => export_step(inside, &name.name, *description),
    }
}

/// What the declarations of an instance type copy together.
pub(crate) fn inside_of(
    alloc: Global,
    outer: &[usize],
    members: &[Member],
) -> Result<Inside, AllocError>
    ensures { IfOk result (λ i. i ≡ members_after outer.now members.now nothing) }
{
    let mut inside = Inside {
        scope: Seq::new(alloc),
        copies: 0,
        content: 0,
    };
    for member in members {
        member_step(outer, &mut inside, member)?;
    }
    Ok(inside)
}
