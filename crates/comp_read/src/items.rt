//! The definitions of one section.
//!
//! Component model, binary format: `section`, `core:instance`, `instance`, `canon`, `import`, `export`.

ghost use Rattle.std.specs.Prelude.{◌≡◌, List, ℕ, Some, [], ◌∷◌};
ghost use Rattle.part_readers.specs.Reading.{Gives, Read, items_at};
ghost use Rattle.part_readers.specs.ArgumentReaders.{core_argument_at, core_inline_export_at, argument_at};
ghost use Rattle.comp_read.specs.ItemReaders.{core_instance_at, instance_at, type_item_at, lift_at, lower_at, canon_at, import_at, export_at, item_at, counted_at, custom_at, module_at, contents_at};

use crate::canon::{index_and_options, intrinsic};
use comp_bytes::{CoreModule, Description, Item};
use comp_lists::{Bytes, Seq, SharedBytes};
use part_readers::{
    Decode, PartFault, alias, byte, expect_byte, extern_name, instance_type, kind, list, name,
    number, option, sort, type_def,
};
use std::alloc::Global;

#[tactic(auto, unfolding(crate::specs::ItemReaders::core_instance_at))]
fn core_instance(alloc: Global, bytes: &[u8]) -> Result<(Item, &[u8]), PartFault>
    ensures { Gives (λ x. (x.0, x.1.now)) result (core_instance_at bytes.now) }
{
    let (tag, rest) = byte(bytes)?;
    match tag {
        0x00 => {
            let (module, rest) = number(rest)?;
            let (args, rest) = list(alloc, rest)?;
            Ok((Item::CoreInstantiate { module, args }, rest))
        }
        0x01 => {
            let (exports, rest) = list(alloc, rest)?;
            Ok((Item::CoreExports(exports), rest))
        }
        _ => Err(PartFault::Malformed),
    }
}

#[tactic(auto, unfolding(crate::specs::ItemReaders::instance_at))]
fn instance(alloc: Global, bytes: &[u8]) -> Result<(Item, &[u8]), PartFault>
    ensures { Gives (λ x. (x.0, x.1.now)) result (instance_at bytes.now) }
{
    let rest = expect_byte(0x00, bytes)?;
    let (component, rest) = number(rest)?;
    let (args, rest) = list(alloc, rest)?;
    Ok((Item::Instantiate { component, args }, rest))
}

#[tactic(auto, unfolding(crate::specs::ItemReaders::type_item_at))]
fn type_item(alloc: Global, bytes: &[u8]) -> Result<(Item, &[u8]), PartFault>
    ensures { Gives (λ x. (x.0, x.1.now)) result (type_item_at bytes.now) }
{
    let (tag, rest) = byte(bytes)?;
    if tag == 0x42 {
        let (ty, rest) = instance_type(alloc, rest)?;
        return Ok((Item::InstanceType(ty), rest));
    }
    let (ty, rest) = type_def(alloc, tag, rest)?;
    Ok((Item::Type(ty), rest))
}

/// A lift of a core function, after its first byte.
#[tactic(auto, unfolding(crate::specs::ItemReaders::lift_at))]
fn lift(alloc: Global, bytes: &[u8]) -> Result<(Item, &[u8]), PartFault>
    ensures { Gives (λ x. (x.0, x.1.now)) result (lift_at bytes.now) }
{
    let rest = expect_byte(0x00, bytes)?;
    let (func, options, rest) = index_and_options(alloc, rest)?;
    let (ty, rest) = number(rest)?;
    Ok((Item::Lift { func, options, ty }, rest))
}

/// A lowering of a function, after its first byte.
#[tactic(auto, unfolding(crate::specs::ItemReaders::lower_at))]
fn lower(alloc: Global, bytes: &[u8]) -> Result<(Item, &[u8]), PartFault>
    ensures { Gives (λ x. (x.0, x.1.now)) result (lower_at bytes.now) }
{
    let rest = expect_byte(0x00, bytes)?;
    let (func, options, rest) = index_and_options(alloc, rest)?;
    Ok((Item::Lower { func, options }, rest))
}

#[tactic(auto, unfolding(crate::specs::ItemReaders::canon_at))]
fn canon(alloc: Global, bytes: &[u8]) -> Result<(Item, &[u8]), PartFault>
    ensures { Gives (λ x. (x.0, x.1.now)) result (canon_at bytes.now) }
{
    let (tag, rest) = byte(bytes)?;
    match tag {
        0x00 => lift(alloc, rest),
        0x01 => lower(alloc, rest),
        _ => {
            let (intrinsic, rest) = intrinsic(alloc, tag, rest)?;
            Ok((Item::Intrinsic(intrinsic), rest))
        }
    }
}

#[tactic(auto, unfolding(crate::specs::ItemReaders::import_at))]
fn import(alloc: Global, bytes: &[u8]) -> Result<(Item, &[u8]), PartFault>
    ensures { Gives (λ x. (x.0, x.1.now)) result (import_at bytes.now) }
{
    let (name, rest) = extern_name(alloc, bytes)?;
    let (description, rest) = Description::decode(alloc, rest)?;
    Ok((Item::Import { name, description }, rest))
}

#[tactic(auto, unfolding(crate::specs::ItemReaders::export_at))]
fn export(alloc: Global, bytes: &[u8]) -> Result<(Item, &[u8]), PartFault>
    ensures { Gives (λ x. (x.0, x.1.now)) result (export_at bytes.now) }
{
    let (name, rest) = extern_name(alloc, bytes)?;
    let (sort, rest) = sort(rest)?;
    let (index, rest) = number(rest)?;
    let (description, rest) = option(alloc, rest)?;
    Ok((
        Item::Export {
            name,
            sort,
            index,
            description,
        },
        rest,
    ))
}

/// A definition of a section that several definitions share.
#[tactic(auto, unfolding(crate::specs::ItemReaders::item_at))]
fn item(alloc: Global, id: u8, bytes: &[u8]) -> Result<(Item, &[u8]), PartFault>
    ensures { Gives (λ x. (x.0, x.1.now)) result (item_at id bytes.now) }
{
    match id {
        2 => core_instance(alloc, bytes),
        5 => instance(alloc, bytes),
        6 => {
            let (alias, rest) = alias(alloc, bytes)?;
            Ok((Item::Alias(alias), rest))
        }
        7 => type_item(alloc, bytes),
        8 => canon(alloc, bytes),
        10 => import(alloc, bytes),
        11 => export(alloc, bytes),
        _ => Err(PartFault::Malformed),
    }
}

/// Definitions one after another. Nothing is allocated by their count.
#[tactic(auto, unfolding(part_readers::specs::Reading::items_at))]
fn items(alloc: Global, id: u8, count: u32, bytes: &[u8]) -> Result<(Seq<Item>, &[u8]), PartFault>
    ensures { Gives (λ x. (x.0, x.1.now)) result (items_at (item_at id) count bytes.now) }
{
    let mut items = Seq::new(alloc);
    let mut rest = bytes;
    for _ in 0..count {
        let (item, after) = item(alloc, id, rest)?;
        items.push(item)?;
        rest = after;
    }
    Ok((items, rest))
}

/// The contents of a section that several definitions share.
#[tactic(auto, unfolding(crate::specs::ItemReaders::counted_at))]
fn counted(alloc: Global, id: u8, bytes: &[u8]) -> Result<Seq<Item>, PartFault>
    ensures { Gives (λ x. x) result (counted_at id bytes.now) }
{
    let (count, rest) = number(bytes)?;
    if count == 0 {
        return Err(PartFault::Malformed);
    }
    let (items, rest) = items(alloc, id, count, rest)?;
    if !rest.is_empty() {
        return Err(PartFault::Malformed);
    }
    Ok(items)
}

fn one(alloc: Global, item: Item) -> Result<Seq<Item>, PartFault>
    ensures { Gives (λ x. x) result (Some (item ∷ [])) }
{
    let mut items = Seq::new(alloc);
    items.push(item)?;
    Ok(items)
}

#[tactic(auto, unfolding(crate::specs::ItemReaders::custom_at))]
fn custom(alloc: Global, bytes: &[u8]) -> Result<Seq<Item>, PartFault>
    ensures { Gives (λ x. x) result (custom_at bytes.now) }
{
    let (name, rest) = name(alloc, bytes)?;
    let contents = Bytes::from_vec(Vec::from_slice(alloc, rest)?);
    one(alloc, Item::Custom { name, contents })
}

/// The contents of a section.
#[tactic(auto, unfolding(crate::specs::ItemReaders::module_at))]
fn module(alloc: Global, bytes: &[u8]) -> Result<Seq<Item>, PartFault>
    ensures { Gives (λ x. x) result (module_at bytes.now) }
{
    let bytes = SharedBytes::from_vec(Vec::from_slice(alloc, bytes)?)?;
    match CoreModule::from_bytes(bytes) {
        Some(module) => one(alloc, Item::CoreModule(module)),
        None => Err(PartFault::Malformed),
    }
}

#[tactic(auto, unfolding(crate::specs::ItemReaders::contents_at))]
pub(crate) fn contents(alloc: Global, id: u8, bytes: &[u8]) -> Result<Seq<Item>, PartFault>
    ensures { Gives (λ x. x) result (contents_at id bytes.now) }
{
    match id {
        0 => custom(alloc, bytes),
        1 => module(alloc, bytes),
        _ => counted(alloc, id, bytes),
    }
}
