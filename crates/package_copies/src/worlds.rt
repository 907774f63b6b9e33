//! What the declarations of a world copy.
//!
//! Component model, binary format: `componentdecl`, `importdecl`, `exportdecl`.

ghost use Rattle.std.specs.Prelude.{◌≡◌, ◌+◌, ◌*◌, [], min, slice_get, nat_lt, IfOk, OnOk};
ghost use Rattle.package_copies.specs.Weights.{type_weight, text_weight, entry_weight};
ghost use Rattle.package_copies.specs.Worlds.{allowed, with_copies, with_type, with_name, instance_step, alias_step, import_step, export_step, declaration_step, first_over, start};

use crate::instances::{Inside, inside_of};
use crate::weights::{entry_weight, sum, text_weight, type_weight};
use comp_bytes::{Alias, Description, InstanceType, TypeDef};
use comp_lists::{Seq, Text};
use package_syntax::Declaration;
use std::alloc::{AllocError, Global};

/// What the declarations of a world copy so far, with the weights of its types.
#[derive(Drop)]
pub(crate) struct Counted {
    pub scope: Seq<usize>,
    pub copies: usize,
}

/// How much a package of this length, in bytes, may copy.
#[tactic(auto, using(crate::proofs::Sums::small))]
fn allowed(length: usize) -> usize
    ensures { result ≡ allowed length }
{
    length.min(67_108_864) * 64 + 65_536
}

fn add_copies(counted: &mut Counted, weight: usize) -> Result<(), AllocError>
    ensures { OnOk result (counted.new ≡ with_copies counted.old weight) }
{
    counted.copies = sum(counted.copies, weight);
    Ok(())
}

/// Adds a type of this weight, as which it is built.
fn add_type(counted: &mut Counted, weight: usize) -> Result<(), AllocError>
    ensures { OnOk result (counted.new ≡ with_type counted.old weight) }
{
    counted.copies = sum(counted.copies, weight);
    Ok(counted.scope.push(weight)?)
}

fn type_step(counted: &mut Counted, ty: &TypeDef) -> Result<(), AllocError>
    ensures { OnOk result (counted.new ≡ with_type counted.old
        (type_weight counted.old.scope ty.now)) }
{
    let weight = type_weight(counted.scope.as_slice(), ty);
    add_type(counted, weight)
}

fn add_instance(counted: &mut Counted, inside: &Inside) -> Result<(), AllocError>
    ensures { OnOk result (counted.new ≡ instance_step counted.old inside.now) }
{
    counted.copies = sum(counted.copies, inside.copies);
    Ok(counted.scope.push(inside.content)?)
}

fn instance_step(alloc: Global, counted: &mut Counted, ty: &InstanceType) -> Result<(), AllocError>
    ensures { OnOk result (counted.new ≡ declaration_step counted.old
        (Declaration.InstanceType ty.now)) }
{
    let inside = inside_of(alloc, counted.scope.as_slice(), ty.members.as_slice())?;
    add_instance(counted, &inside)
}

/// Adds a type of which a use copies the name.
fn add_name(counted: &mut Counted, name: &Text) -> Result<(), AllocError>
    ensures { OnOk result (counted.new ≡ with_name counted.old name.now) }
{
    add_type(counted, text_weight(name))
}

fn alias_step(counted: &mut Counted, alias: &Alias) -> Result<(), AllocError>
    ensures { OnOk result (counted.new ≡ alias_step counted.old alias.now) }
{
    match alias {
        Alias::Export {
            kind: _,
            instance: _,
            name,
        } => add_name(counted, name),
        Alias::Outer { count: _, index: _ } => Ok(()),
        Alias::CoreExport {
            kind: _,
            instance: _,
            name: _,
        } => Ok(()),
    }
}

/// Adds a copy of the type at an index.
fn use_step(counted: &mut Counted, index: u32) -> Result<(), AllocError>
    ensures { OnOk result (counted.new ≡ with_copies counted.old
        (entry_weight (slice_get counted.old.scope index))) }
{
    let weight = entry_weight(counted.scope.as_slice(), index);
    add_copies(counted, weight)
}

fn equal_step(counted: &mut Counted, name: &Text, index: u32) -> Result<(), AllocError>
    ensures { OnOk result (counted.new ≡ with_name (with_copies counted.old
        (entry_weight (slice_get counted.old.scope index))) name.now) }
{
    use_step(counted, index)?;
    add_name(counted, name)
}

fn import_step(
    counted: &mut Counted,
    name: &Text,
    description: Description,
) -> Result<(), AllocError>
    ensures { OnOk result (counted.new ≡ import_step counted.old name.now description) }
{
    match description {
        Description::Func(index) => use_step(counted, index),
        Description::TypeEqual(index) => equal_step(counted, name, index),
        Description::SubResource => add_name(counted, name),
        Description::Instance(index) => use_step(counted, index),
    }
}

fn export_step(counted: &mut Counted, description: Description) -> Result<(), AllocError>
    ensures { OnOk result (counted.new ≡ export_step counted.old description) }
{
    match description {
        Description::Func(index) => use_step(counted, index),
        Description::TypeEqual(_) => Ok(()),
        Description::SubResource => Ok(()),
        Description::Instance(index) => use_step(counted, index),
    }
}

fn declaration_step(
    alloc: Global,
    counted: &mut Counted,
    declaration: &Declaration,
) -> Result<(), AllocError>
    ensures { OnOk result (counted.new ≡ declaration_step counted.old declaration.now) }
{
    match declaration {
        Declaration::Type(ty) => type_step(counted, ty),
        Declaration::InstanceType(ty) => instance_step(alloc, counted, ty),
        Declaration::Alias(alias) => alias_step(counted, alias),
        Declaration::Import { name, description } => {
            import_step(counted, &name.name, *description)
        }
        Declaration::Export {
            name: _,
            description,
        } => export_step(counted, *description),
    }
}

/// The position of the first declaration of a world with which more is copied than is allowed, if there is one.
fn first_over_limit(
    alloc: Global,
    limit: usize,
    declarations: &[Declaration],
) -> Result<Option<usize>, AllocError>
    ensures { IfOk result (λ n. n ≡ first_over limit 0 declarations.now start) }
{
    let mut counted = Counted {
        scope: Seq::new(alloc),
        copies: 0,
    };
    for (position, declaration) in declarations.iter().enumerate() {
        declaration_step(alloc, &mut counted, declaration)?;
        if counted.copies > limit {
            return Ok(Some(position));
        }
    }
    Ok(None)
}

/// The position of the first declaration of a world with which more is copied than a package of
/// this length, in bytes, may copy, if there is one: 64 nodes and bytes of text for each of its
/// bytes, and 65,536 more. The only error is out of memory.
pub fn first_over(
    alloc: Global,
    length: usize,
    declarations: &[Declaration],
) -> Result<Option<usize>, AllocError>
    ensures { IfOk result (λ n. n ≡ first_over (allowed length) 0 declarations.now start) }
{
    first_over_limit(alloc, allowed(length), declarations)
}
