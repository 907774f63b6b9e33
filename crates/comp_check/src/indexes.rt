//! Whether each index of a component names an earlier item.
//!
//! Component model, binary format: index spaces. Each scope counts its items in turn; a reference
//! has to name an item that was counted before.

ghost use Rattle.std.specs.Prelude.{◌≡◌, ◌∷◌, ◌+◌, ◌<◌, ◌≤◌, ◌^◌, [], List, ℕ, map, length, IfOk, IfErr};
ghost use Rattle.std.specs.List.{AllByRecursion};
ghost use Rattle.comp_bytes.specs.Spaces.{member_space, item_space, space_of};
ghost use Rattle.comp_bytes.specs.References.{item_references};
ghost use Rattle.comp_bytes.specs.Scopes.{EachIn, InScope, MemberScoped, InsideScoped, ItemScoped, DefScoped, Scoped};
ghost use Rattle.comp_bytes.specs.declared.def.Item.{Item};
ghost use Rattle.comp_check.specs.Indexes.{FaultAfter, InsideFault, ItemFault, DefFault, IsIndexFault, lines};
ghost use Rattle.comp_check.specs.Lacking.{counted, MembersFault, AroundFault, NestedFault, FaultFrom};

use crate::fault::IndexFault;
use crate::scope::{Counts, Lack, Scopes};
use crate::{items, types};
use comp_bytes::{Def, Defs, Item, Member};

/// The members of an instance type, in these scopes.
fn check_members(outer: &[Counts], members: &[Member]) -> Result<(), Lack>
    ensures ok { IfOk result
        (λ _. EachIn member_space (MemberScoped (map counted outer.now)) [] members.now) }
    ensures cause { IfErr result (λ e. MembersFault (map counted outer.now) members.now e) }
{
    let mut own = Counts::new();
    for member in members {
        types::check_member(&Scopes::new(&own, outer), member)?;
        own.count(items::member_space(member));
    }
    Ok(())
}

/// The members of an instance type, in these scopes: they have a scope of their own.
fn check_instance_type(scopes: &Scopes, inner: &[Member]) -> Result<(), Lack>
    requires { length scopes.now ≤ 2 }
    ensures ok { IfOk result
        (λ _. EachIn member_space (MemberScoped (map counted scopes.now)) [] inner.now) }
    ensures cause { IfErr result (λ e. MembersFault (map counted scopes.now) inner.now e) }
{
    let (own, outer) = scopes.parts();
    match outer {
        [] => check_members(&[*own], inner),
        [top, ..] => check_members(&[*own, *top], inner),
    }
}

/// What is nested in an item, in these scopes.
fn check_inside(scopes: &Scopes, item: &Item) -> Result<(), Lack>
    requires { length scopes.now ≤ 2 }
    ensures ok { IfOk result (λ _. InsideScoped (map counted scopes.now) item.now) }
    ensures cause { IfErr result
        (λ e. InsideFault (map counted scopes.now) e.space e.index item.now) }
{
    match item {
        Item::InstanceType(ty) => check_instance_type(scopes, ty.members.as_slice()),
        Item::CoreModule(_)
        | Item::CoreInstantiate { .. }
        | Item::CoreExports(_)
        | Item::Instantiate { .. }
        | Item::Alias(_)
        | Item::Type(_)
        | Item::Lift { .. }
        | Item::Lower { .. }
        | Item::Intrinsic(_)
        | Item::Import { .. }
        | Item::Export { .. }
        | Item::Custom { .. } => Ok(()),
    }
}

/// An item, with what is nested in it.
#[tactic(auto, using(crate::proofs::CheckedPrefix::all_there, crate::proofs::CheckedPrefix::one_missing))]
fn check_item(scopes: &Scopes, item: &Item) -> Result<(), Lack>
    requires { length scopes.now ≤ 2 }
    ensures named { IfOk result
        (λ _. AllByRecursion (InScope (map counted scopes.now)) (item_references item.now)) }
    ensures within { IfOk result (λ _. InsideScoped (map counted scopes.now) item.now) }
    ensures cause { IfErr result
        (λ e. AroundFault (map counted scopes.now) item.now e.space e.index) }
{
    items::check_named(scopes, item)?;
    check_inside(scopes, item)
}

/// An item on a line, in these scopes.
fn check_item_on(line: u128, scopes: &Scopes, item: &Item) -> Result<(), IndexFault>
    requires { length scopes.now ≤ 2 }
    ensures named { IfOk result
        (λ _. AllByRecursion (InScope (map counted scopes.now)) (item_references item.now)) }
    ensures within { IfOk result (λ _. InsideScoped (map counted scopes.now) item.now) }
    ensures cause { IfErr result (λ e. AroundFault (map counted scopes.now) item.now e.space e.index
        × (e.definition ≡ line)) }
{
    match check_item(scopes, item) {
        Ok(()) => Ok(()),
        Err(lack) => Err(IndexFault {
            definition: line,
            space: lack.space,
            index: lack.index,
        }),
    }
}

/// The items of a component nested on a line; each has a line after that one.
fn check_component(line: u128, top: &Counts, inner: &[Item]) -> Result<(), IndexFault>
    requires { line + 2 ^ 64 < 2 ^ 128 }
    ensures ok { IfOk result
        (λ _. EachIn item_space (ItemScoped (counted top.now ∷ [])) [] inner.now) }
    ensures cause { IfErr result (λ e. NestedFault line (counted top.now) inner.now e) }
{
    let outer = [*top];
    let mut own = Counts::new();
    for (item_index, item) in inner.iter().enumerate() {
        check_item_on(
            line + 1 + item_index as u128,
            &Scopes::new(&own, &outer),
            item,
        )?;
        own.count(items::item_space(item));
    }
    Ok(())
}

/// A definition that begins on a line, in the scope of the whole component.
#[tactic(auto, using(crate::proofs::Faults::on_own_line))]
fn check_definition(line: u128, own: &Counts, def: &Def) -> Result<(), IndexFault>
    requires { line + 2 ^ 64 < 2 ^ 128 }
    ensures ok { IfOk result (λ _. DefScoped (counted own.now) def.now) }
    ensures cause { IfErr result (λ e. FaultFrom line (counted own.now) def.now e) }
{
    match def {
        Def::Item(item) => check_item_on(line, &Scopes::new(own, &[]), item),
        Def::Component(inner) => check_component(line, own, inner.as_slice()),
    }
}

/// The lines of a definition.
fn lines(def: &Def) -> u128
    ensures lines { result ≡ lines def.now }
    ensures few { result ≤ 2 ^ 64 }
{
    match def {
        Def::Item(_) => 1,
        Def::Component(inner) => 1 + inner.len() as u128,
    }
}

/// Whether each index names an earlier item of its scope. It allocates nothing.
///
/// Component model, binary format: index spaces.
///
/// # Errors
///
/// An index that names no earlier item, and the definition that names it.
#[tactic(auto, using(crate::proofs::Faults::refuses))]
pub fn check_indexes(definitions: &Defs) -> Result<(), IndexFault>
    ensures ok { IfOk result (λ _. Scoped definitions.now) }
    ensures cause { IfErr result (λ e. IsIndexFault definitions.now e.definition e.space e.index) }
    ensures refused { IfErr result (λ _. Scoped definitions.now → ⊥) }
{
    check_definitions(definitions.as_slice())
}

fn check_definitions(definitions: &[Def]) -> Result<(), IndexFault>
    ensures ok { IfOk result (λ _. Scoped definitions.now) }
    ensures cause { IfErr result (λ e. IsIndexFault definitions.now e.definition e.space e.index) }
{
    let mut own = Counts::new();
    let mut line = 0;
    for def in definitions {
        check_definition(line, &own, def)?;
        own.count(items::space_of(def));
        line += lines(def);
    }
    Ok(())
}
