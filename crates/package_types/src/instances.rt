//! The content of an instance type.
//!
//! Component model, binary format: `instancetype`, `instancedecl`.

ghost use Rattle.std.specs.Prelude.{◌≡◌, ℕ, slice_get, Some, OnOk, IfOk};
ghost use Rattle.package_types.specs.declared.instances.MemberFault.TheVariants as faults;
ghost use Rattle.package_types.specs.Types.{Gives};
ghost use Rattle.package_types.specs.Instances.{alias_entry, outer_entry, type_name, with_entry, with_type, with_function, new_name, type_step, resource_step, function_step, export_step, definition_step, alias_step, member_step, at_position, members_from, empty, content, content_of, GivesIn};

use crate::fault::{Cause, TypeFault};
use crate::functions::{entry_of, named_function};
use crate::named::{Meaning, meaning_of, plain_name, resource};
use crate::scopes::{Content, Entry, Facts};
use comp_bytes::{Alias, Description, ExternName, Member, TypeDef};
use comp_lists::{Keyed, Seq, Text, TryClone};
use record_values::{Func, Interface, InterfaceName, Owner, TypeName, Typed};
use std::alloc::{AllocError, Global};

/// Why an instance type has no meaning: the position of its declaration that has none, and the cause.
#[derive(Clone, Copy, Debug, PartialEq, Eq)]
pub enum MemberFault {
    Memory,
    Refused { member: usize, cause: Cause },
}

/// What the declarations of an instance type say so far.
#[derive(Drop)]
pub(crate) struct Inside {
    pub scope: Seq<Entry>,
    pub types: Seq<Typed>,
    pub known: Keyed<Text, Facts>,
    pub functions: Seq<Func>,
    pub seen: Keyed<Text, ()>,
}

/// An entry that is what an outer one is.
fn alias_entry(alloc: Global, entry: &Entry) -> Result<Entry, TypeFault>
    ensures { Gives (λ e. e) result (alias_entry (Some entry.now)) }
{
    match entry {
        Entry::Name { name, facts } => Ok(Entry::Name {
            name: name.try_clone(alloc)?,
            facts: *facts,
        }),
        Entry::Type { nodes, size } => Ok(Entry::Type {
            nodes: nodes.clone(alloc)?,
            size: *size,
        }),
        Entry::Function(_) => Err(TypeFault::Refused(Cause::Alias)),
        Entry::Instance(_) => Err(TypeFault::Refused(Cause::Alias)),
    }
}

fn outer_type(alloc: Global, outer: &[Entry], index: u32) -> Result<Entry, TypeFault>
    ensures { Gives (λ e. e) result (alias_entry (slice_get outer.now index)) }
{
    match outer.get(index as usize) {
        Some(entry) => alias_entry(alloc, entry),
        None => Err(TypeFault::Refused(Cause::Index)),
    }
}

/// The entry that an alias of a type of the scope one further out adds.
fn outer_entry(alloc: Global, outer: &[Entry], alias: &Alias) -> Result<Entry, TypeFault>
    ensures { Gives (λ e. e) result (outer_entry outer.now alias.now) }
{
    match alias {
        Alias::Outer { count, index } => {
            if *count == 1 {
                outer_type(alloc, outer, *index)
            } else {
                Err(TypeFault::Refused(Cause::Alias))
            }
        }
        Alias::Export {
            kind: _,
            instance: _,
            name: _,
        } => Err(TypeFault::Refused(Cause::Alias)),
        Alias::CoreExport {
            kind: _,
            instance: _,
            name: _,
        } => Err(TypeFault::Refused(Cause::Alias)),
    }
}

fn type_name(alloc: Global, owner: &InterfaceName, name: &Text) -> Result<TypeName, AllocError>
    ensures { IfOk result (λ n. n ≡ type_name owner.now name.now) }
{
    Ok(TypeName {
        owner: Owner::Interface(owner.try_clone(alloc)?),
        name: name.clone(alloc)?,
    })
}

/// A name that no type has.
fn new_type_name(
    alloc: Global,
    known: &Keyed<Text, Facts>,
    name: &ExternName,
) -> Result<Text, TypeFault>
    ensures { Gives (λ n. n) result (new_name known.now name.now) }
{
    let name = plain_name(alloc, name)?;
    if known.contains_key(&name) {
        return Err(TypeFault::Refused(Cause::NameTwice));
    }
    Ok(name)
}

/// A name that no function has.
fn new_function_name(
    alloc: Global,
    seen: &Keyed<Text, ()>,
    name: &ExternName,
) -> Result<Text, TypeFault>
    ensures { Gives (λ n. n) result (new_name seen.now name.now) }
{
    let name = plain_name(alloc, name)?;
    if seen.contains_key(&name) {
        return Err(TypeFault::Refused(Cause::NameTwice));
    }
    Ok(name)
}

/// Adds a type of this name. From now on, the next index means the name.
fn add_type(
    alloc: Global,
    owner: &InterfaceName,
    inside: &mut Inside,
    name: Text,
    meaning: Meaning,
) -> Result<(), AllocError>
    ensures { OnOk result (inside.new ≡ with_type owner.now inside.old name meaning) }
{
    let Meaning { nodes, facts } = meaning;
    let entry = Entry::Name {
        name: type_name(alloc, owner, &name)?,
        facts,
    };
    let key = name.clone(alloc)?;
    inside.scope.push(entry)?;
    inside.known.insert_if_absent(key, facts)?;
    Ok(inside.types.push(Typed { name, nodes })?)
}

#[tactic(auto, unfolding(crate::specs::Instances::type_step))]
fn type_step(
    alloc: Global,
    owner: &InterfaceName,
    inside: &mut Inside,
    name: &ExternName,
    index: u32,
) -> Result<(), TypeFault>
    ensures { Gives (λ _. inside.new) result (type_step owner.now inside.old name.now index) }
{
    let name = new_type_name(alloc, &inside.known, name)?;
    let meaning = meaning_of(alloc, inside.scope.as_slice(), index)?;
    Ok(add_type(alloc, owner, inside, name, meaning)?)
}

#[tactic(auto, unfolding(crate::specs::Instances::resource_step))]
fn resource_step(
    alloc: Global,
    owner: &InterfaceName,
    inside: &mut Inside,
    name: &ExternName,
) -> Result<(), TypeFault>
    ensures { Gives (λ _. inside.new) result (resource_step owner.now inside.old name.now) }
{
    let name = new_type_name(alloc, &inside.known, name)?;
    let meaning = resource(alloc)?;
    Ok(add_type(alloc, owner, inside, name, meaning)?)
}

fn add_function(alloc: Global, inside: &mut Inside, function: Func) -> Result<(), AllocError>
    ensures { OnOk result (inside.new ≡ with_function inside.old function) }
{
    let key = function.name.clone(alloc)?;
    inside.seen.insert_if_absent(key, ())?;
    Ok(inside.functions.push(function)?)
}

#[tactic(auto, unfolding(crate::specs::Instances::function_step))]
fn function_step(
    alloc: Global,
    inside: &mut Inside,
    name: &ExternName,
    index: u32,
) -> Result<(), TypeFault>
    ensures { Gives (λ _. inside.new) result (function_step inside.old name.now index) }
{
    let name = new_function_name(alloc, &inside.seen, name)?;
    let function = named_function(alloc, inside.scope.as_slice(), &name, index)?;
    Ok(add_function(alloc, inside, function)?)
}

fn export_step(
    alloc: Global,
    owner: &InterfaceName,
    inside: &mut Inside,
    name: &ExternName,
    description: Description,
) -> Result<(), TypeFault>
    ensures { Gives (λ _. inside.new) result
        (export_step owner.now inside.old name.now description) }
{
    match description {
        Description::TypeEqual(index) => type_step(alloc, owner, inside, name, index),
        Description::SubResource => resource_step(alloc, owner, inside, name),
        Description::Func(index) => function_step(alloc, inside, name, index),
        Description::Instance(_) => Err(TypeFault::Refused(Cause::NestedInstance)),
    }
}

fn definition_step(alloc: Global, inside: &mut Inside, ty: &TypeDef) -> Result<(), TypeFault>
    ensures { Gives (λ _. inside.new) result (definition_step inside.old ty.now) }
{
    let entry = entry_of(alloc, inside.scope.as_slice(), ty)?;
    Ok(inside.scope.push(entry)?)
}

fn alias_step(
    alloc: Global,
    outer: &[Entry],
    inside: &mut Inside,
    alias: &Alias,
) -> Result<(), TypeFault>
    ensures { Gives (λ _. inside.new) result (alias_step outer.now inside.old alias.now) }
{
    let entry = outer_entry(alloc, outer, alias)?;
    Ok(inside.scope.push(entry)?)
}

/// Reads a declaration.
fn member_step(
    alloc: Global,
    outer: &[Entry],
    owner: &InterfaceName,
    inside: &mut Inside,
    member: &Member,
) -> Result<(), TypeFault>
    ensures { Gives (λ _. inside.new) result
        (member_step outer.now owner.now inside.old member.now) }
{
    match member {
        Member::Type(ty) => definition_step(alloc, inside, ty),
        Member::Alias(alias) => alias_step(alloc, outer, inside, alias),
        Member::Export { name, description } => {
            export_step(alloc, owner, inside, name, *description)
        }
    }
}

/// Reads the declaration at a position.
fn placed_step(
    alloc: Global,
    outer: &[Entry],
    owner: &InterfaceName,
    inside: &mut Inside,
    position: usize,
    member: &Member,
) -> Result<(), MemberFault>
    ensures { GivesIn (λ _. inside.new) result (at_position position
        (member_step outer.now owner.now inside.old member.now)) }
{
    match member_step(alloc, outer, owner, inside, member) {
        Ok(()) => Ok(()),
        Err(TypeFault::Memory) => Err(MemberFault::Memory),
        Err(TypeFault::Refused(cause)) => Err(MemberFault::Refused {
            member: position,
            cause,
        }),
    }
}

/// What the declarations say together.
fn inside_of(
    alloc: Global,
    outer: &[Entry],
    owner: &InterfaceName,
    members: &[Member],
) -> Result<Inside, MemberFault>
    ensures { GivesIn (λ i. i) result (members_from outer.now owner.now 0 members.now empty) }
{
    let mut inside = Inside {
        scope: Seq::new(alloc),
        types: Seq::new(alloc),
        known: Keyed::new(alloc),
        functions: Seq::new(alloc),
        seen: Keyed::new(alloc),
    };
    for (position, member) in members.iter().enumerate() {
        placed_step(alloc, outer, owner, &mut inside, position, member)?;
    }
    Ok(inside)
}

fn content(inside: Inside) -> Content
    ensures { result ≡ content inside }
{
    let Inside {
        scope: _,
        types,
        known,
        functions,
        seen: _,
    } = inside;
    Content {
        interface: Interface { types, functions },
        known,
    }
}

/// The content of an instance type in a world's scope, where its own types have this owner.
#[tactic(auto, unfolding(crate::specs::Instances::content_of))]
pub fn content_of(
    alloc: Global,
    outer: &[Entry],
    owner: &InterfaceName,
    members: &[Member],
) -> Result<Content, MemberFault>
    ensures { GivesIn (λ c. c) result (content_of outer.now owner.now members.now) }
{
    let inside = inside_of(alloc, outer, owner, members)?;
    Ok(content(inside))
}
