//! What each declaration of a world says.
//!
//! Component model, binary format: `componentdecl`, `importdecl`, `exportdecl`.

ghost use Rattle.std.specs.Prelude.{◌≡◌, ℕ, slice_get, Ok, OnOk, IfOk};
ghost use Rattle.std.specs.Map.{lookup};
ghost use Rattle.std.specs.Str.{bytes_eq};
ghost use Rattle.package_types.specs.declared.scopes.Entry.TheVariants as entries;
ghost use Rattle.wit_packages.specs.declared.state.Side.TheVariants as sides;
ghost use Rattle.wit_packages.specs.declared.fault.Wrong.TheVariants as wrongs;
ghost use Rattle.wit_packages.specs.declared.fault.StepFault.TheVariants as faults;
ghost use Rattle.package_types.specs.Functions.{entry_of};
ghost use Rattle.package_types.specs.Named.{meaning_by, plain_name};
ghost use Rattle.package_types.specs.Instances.{type_name, content_of};
ghost use Rattle.wit_packages.specs.Steps.{◌>=>◌, Gives, own, within, with_entry, type_step, unnamed, instance_type_step, known_entry, exported_entry, instance_entry, exported_type, alias_entry, alias_step, item_step, function_item, function_step, world_name, named_step, equal_step, resource_step, import_step, export_step, declaration_step};

use crate::fault::{StepFault, Wrong};
use crate::interfaces::instance_step;
use crate::state::{Instance, Side, State};
use comp_bytes::{
    Alias, ComponentExportKind, Description, ExternName, InstanceType, Member, TypeDef,
};
use comp_lists::{Keyed, Text, TryClone};
use package_syntax::Declaration;
use package_types::{
    Cause, Entry, Facts, Meaning, MemberFault, TypeFault, content_of, entry_of, meaning_of,
    named_function, plain_name, resource,
};
use record_values::{InterfaceName, Item, ItemKey, Owner, TypeName};
use std::alloc::{AllocError, Global};

pub(crate) fn refused(cause: Cause) -> StepFault
    ensures { result ≡ faults.Refused (wrongs.Cause cause) }
{
    StepFault::Refused(Wrong::Cause(cause))
}

/// The entry of a declared type.
fn own_entry(alloc: Global, scope: &[Entry], ty: &TypeDef) -> Result<Entry, StepFault>
    ensures { Gives (λ e. e) result (own (entry_of scope.now ty.now)) }
{
    match entry_of(alloc, scope, ty) {
        Ok(entry) => Ok(entry),
        Err(TypeFault::Memory) => Err(StepFault::Memory),
        Err(TypeFault::Refused(cause)) => Err(refused(cause)),
    }
}

pub(crate) fn own_name(alloc: Global, name: &ExternName) -> Result<Text, StepFault>
    ensures { Gives (λ n. n) result (own (plain_name name.now)) }
{
    match plain_name(alloc, name) {
        Ok(name) => Ok(name),
        Err(TypeFault::Memory) => Err(StepFault::Memory),
        Err(TypeFault::Refused(cause)) => Err(refused(cause)),
    }
}

fn own_meaning(alloc: Global, scope: &[Entry], index: u32) -> Result<Meaning, StepFault>
    ensures { Gives (λ m. m) result (own (meaning_by (slice_get scope.now index))) }
{
    match meaning_of(alloc, scope, index) {
        Ok(meaning) => Ok(meaning),
        Err(TypeFault::Memory) => Err(StepFault::Memory),
        Err(TypeFault::Refused(cause)) => Err(refused(cause)),
    }
}

/// The item that is a function of this name, of the type at an index.
fn own_function(alloc: Global, scope: &[Entry], name: &Text, index: u32) -> Result<Item, StepFault>
    ensures { Gives (λ f. f) result (own (function_item name.now (slice_get scope.now index))) }
{
    match named_function(alloc, scope, name, index) {
        Ok(function) => Ok(Item::Function(function)),
        Err(TypeFault::Memory) => Err(StepFault::Memory),
        Err(TypeFault::Refused(cause)) => Err(refused(cause)),
    }
}

fn type_step(alloc: Global, state: &mut State, ty: &TypeDef) -> Result<(), StepFault>
    ensures { Gives (λ _. state.new) result (type_step state.old ty.now) }
{
    let entry = own_entry(alloc, state.scope.as_slice(), ty)?;
    Ok(state.scope.push(entry)?)
}

/// The entry of an instance type.
fn instance_type_entry(
    alloc: Global,
    scope: &[Entry],
    members: &[Member],
) -> Result<Entry, StepFault>
    ensures { Gives (λ e. e) result (within
        (content_of scope.now unnamed members.now) >=> λ c. Ok (entries.Instance c)) }
{
    match content_of(alloc, scope, &InterfaceName::Unused(0), members) {
        Ok(content) => Ok(Entry::Instance(content)),
        Err(MemberFault::Memory) => Err(StepFault::Memory),
        Err(MemberFault::Refused { member, cause }) => {
            Err(StepFault::Refused(Wrong::Member { member, cause }))
        }
    }
}

fn instance_type_step(alloc: Global, state: &mut State, ty: &InstanceType) -> Result<(), StepFault>
    ensures { Gives (λ _. state.new) result (instance_type_step state.old ty.now) }
{
    let entry = instance_type_entry(alloc, state.scope.as_slice(), ty.members.as_slice())?;
    Ok(state.scope.push(entry)?)
}

/// A type of an interface, as an entry.
fn type_entry(
    alloc: Global,
    interface: &InterfaceName,
    name: &Text,
    facts: Facts,
) -> Result<Entry, AllocError>
    ensures { IfOk result (λ e. e ≡ entries.Name (type_name interface.now name.now) facts) }
{
    let name = TypeName {
        owner: Owner::Interface(interface.try_clone(alloc)?),
        name: name.clone(alloc)?,
    };
    Ok(Entry::Name { name, facts })
}

fn known_entry(
    alloc: Global,
    interface: &InterfaceName,
    known: &Keyed<Text, Facts>,
    name: &Text,
) -> Result<Entry, StepFault>
    ensures { Gives (λ e. e) result (own (known_entry interface.now name.now (lookup
        (bytes_eq name.now) known.now))) }
{
    match known.get(name) {
        Some(facts) => Ok(type_entry(alloc, interface, name, *facts)?),
        None => Err(refused(Cause::Index)),
    }
}

/// A type of the instance type at an index.
fn exported_entry(
    alloc: Global,
    scope: &[Entry],
    interface: &InterfaceName,
    ty: u32,
    name: &Text,
) -> Result<Entry, StepFault>
    ensures { Gives (λ e. e) result (own (exported_entry interface.now name.now
        (slice_get scope.now ty))) }
{
    match scope.get(ty as usize) {
        Some(Entry::Instance(content)) => known_entry(alloc, interface, &content.known, name),
        _ => Err(refused(Cause::Index)),
    }
}

/// A type of the instance at an index.
fn instance_entry(
    alloc: Global,
    scope: &[Entry],
    instances: &[Instance],
    index: u32,
    name: &Text,
) -> Result<Entry, StepFault>
    ensures { Gives (λ e. e) result (own (instance_entry scope.now name.now
        (slice_get instances.now index))) }
{
    match instances.get(index as usize) {
        Some(instance) => exported_entry(alloc, scope, &instance.name, instance.ty, name),
        None => Err(refused(Cause::Index)),
    }
}

fn exported_type(
    alloc: Global,
    state: &State,
    kind: ComponentExportKind,
    index: u32,
    name: &Text,
) -> Result<Entry, StepFault>
    ensures { Gives (λ e. e) result (own (exported_type state.now kind index name.now)) }
{
    match kind {
        ComponentExportKind::Type => instance_entry(
            alloc,
            state.scope.as_slice(),
            state.instances.as_slice(),
            index,
            name,
        ),
        ComponentExportKind::Func => Err(refused(Cause::Alias)),
        ComponentExportKind::Component => Err(refused(Cause::Alias)),
        ComponentExportKind::Instance => Err(refused(Cause::Alias)),
    }
}

fn alias_entry(alloc: Global, state: &State, alias: &Alias) -> Result<Entry, StepFault>
    ensures { Gives (λ e. e) result (own (alias_entry state.now alias.now)) }
{
    match alias {
        Alias::Export {
            kind,
            instance,
            name,
        } => exported_type(alloc, state, *kind, *instance, name),
        Alias::CoreExport {
            kind: _,
            instance: _,
            name: _,
        } => Err(refused(Cause::Alias)),
        Alias::Outer { count: _, index: _ } => Err(refused(Cause::Alias)),
    }
}

fn alias_step(alloc: Global, state: &mut State, alias: &Alias) -> Result<(), StepFault>
    ensures { Gives (λ _. state.new) result (alias_step state.old alias.now) }
{
    let entry = alias_entry(alloc, state, alias)?;
    Ok(state.scope.push(entry)?)
}

fn import_item(state: &mut State, key: ItemKey, item: Item) -> Result<(), StepFault>
    ensures { Gives (λ _. state.new) result (item_step sides.Import state.old key item) }
{
    if state.imports.contains_key(&key) {
        return Err(refused(Cause::NameTwice));
    }
    Ok(state.imports.insert(key, item)?)
}

fn export_item(state: &mut State, key: ItemKey, item: Item) -> Result<(), StepFault>
    ensures { Gives (λ _. state.new) result (item_step sides.Export state.old key item) }
{
    if state.exports.contains_key(&key) {
        return Err(refused(Cause::NameTwice));
    }
    Ok(state.exports.insert(key, item)?)
}

/// Adds an item, whose key has to be new on its side.
pub(crate) fn item_step(
    side: Side,
    state: &mut State,
    key: ItemKey,
    item: Item,
) -> Result<(), StepFault>
    ensures { Gives (λ _. state.new) result (item_step side state.old key item) }
{
    match side {
        Side::Import => import_item(state, key, item),
        Side::Export => export_item(state, key, item),
    }
}

#[tactic(auto, unfolding(crate::specs::Steps::function_step))]
fn function_step(
    alloc: Global,
    side: Side,
    state: &mut State,
    name: &ExternName,
    index: u32,
) -> Result<(), StepFault>
    ensures { Gives (λ _. state.new) result (function_step side state.old name.now index) }
{
    let name = own_name(alloc, name)?;
    let item = own_function(alloc, state.scope.as_slice(), &name, index)?;
    item_step(side, state, ItemKey::Name(name), item)
}

/// The entry of a type of the world.
fn world_entry(alloc: Global, name: &Text, facts: Facts) -> Result<Entry, AllocError>
    ensures { IfOk result (λ e. e ≡ entries.Name (world_name name.now) facts) }
{
    let name = TypeName {
        owner: Owner::World,
        name: name.clone(alloc)?,
    };
    Ok(Entry::Name { name, facts })
}

fn add_entry(state: &mut State, entry: Entry) -> Result<(), StepFault>
    ensures { Gives (λ _. state.new) result (Ok (with_entry state.old entry)) }
{
    Ok(state.scope.push(entry)?)
}

/// Adds a type of the world.
fn named_step(
    alloc: Global,
    state: &mut State,
    name: Text,
    meaning: Meaning,
) -> Result<(), StepFault>
    ensures { Gives (λ _. state.new) result (named_step state.old name meaning) }
{
    let Meaning { nodes, facts } = meaning;
    let entry = world_entry(alloc, &name, facts)?;
    item_step(Side::Import, state, ItemKey::Name(name), Item::Type(nodes))?;
    add_entry(state, entry)
}

#[tactic(auto, unfolding(crate::specs::Steps::equal_step))]
fn equal_step(
    alloc: Global,
    state: &mut State,
    name: &ExternName,
    index: u32,
) -> Result<(), StepFault>
    ensures { Gives (λ _. state.new) result (equal_step state.old name.now index) }
{
    let name = own_name(alloc, name)?;
    let meaning = own_meaning(alloc, state.scope.as_slice(), index)?;
    named_step(alloc, state, name, meaning)
}

#[tactic(auto, unfolding(crate::specs::Steps::resource_step))]
fn resource_step(alloc: Global, state: &mut State, name: &ExternName) -> Result<(), StepFault>
    ensures { Gives (λ _. state.new) result (resource_step state.old name.now) }
{
    let name = own_name(alloc, name)?;
    let meaning = resource(alloc)?;
    named_step(alloc, state, name, meaning)
}

fn import_step(
    alloc: Global,
    state: &mut State,
    name: &ExternName,
    description: Description,
) -> Result<(), StepFault>
    ensures { Gives (λ _. state.new) result (import_step state.old name.now description) }
{
    match description {
        Description::Func(index) => function_step(alloc, Side::Import, state, name, index),
        Description::TypeEqual(index) => equal_step(alloc, state, name, index),
        Description::SubResource => resource_step(alloc, state, name),
        Description::Instance(index) => instance_step(alloc, Side::Import, state, name, index),
    }
}

fn export_step(
    alloc: Global,
    state: &mut State,
    name: &ExternName,
    description: Description,
) -> Result<(), StepFault>
    ensures { Gives (λ _. state.new) result (export_step state.old name.now description) }
{
    match description {
        Description::Func(index) => function_step(alloc, Side::Export, state, name, index),
        Description::TypeEqual(_) => Err(StepFault::Refused(Wrong::ExportedType)),
        Description::SubResource => Err(StepFault::Refused(Wrong::ExportedType)),
        Description::Instance(index) => instance_step(alloc, Side::Export, state, name, index),
    }
}

/// Reads a declaration.
pub(crate) fn declaration_step(
    alloc: Global,
    state: &mut State,
    declaration: &Declaration,
) -> Result<(), StepFault>
    ensures { Gives (λ _. state.new) result (declaration_step state.old declaration.now) }
{
    match declaration {
        Declaration::Type(ty) => type_step(alloc, state, ty),
        Declaration::InstanceType(ty) => instance_type_step(alloc, state, ty),
        Declaration::Alias(alias) => alias_step(alloc, state, alias),
        Declaration::Import { name, description } => {
            import_step(alloc, state, name, *description)
        }
        Declaration::Export { name, description } => {
            export_step(alloc, state, name, *description)
        }
    }
}
