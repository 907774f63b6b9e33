//! The items of a core module: its functions, tables, memories and globals.

ghost use Rattle.std.specs.Prelude.{◌≡◌, IfOk, option_map};
ghost use Rattle.std.specs.List.{slice_get};
ghost use Rattle.core_sections.specs.declared.entries.ExportedItem.TheVariants as exported;
ghost use Rattle.core_sections.specs.Entries.{has_type_below, with_item, with_items, exported_item, no_items};
ghost use Rattle.core_sections.specs.Reading.{Gives};

use crate::entries::{EntityType, ExportIndex, ExportKind, ExportedItem};
use crate::reading::ReadFault;
use comp_lists::Seq;
use std::alloc::{AllocError, Global};

/// The items of a module by kind, imported or defined, in the order of their indices.
#[derive(Debug, Drop)]
pub struct Items {
    pub functions: Seq<EntityType>,
    pub tables: Seq<EntityType>,
    pub memories: Seq<EntityType>,
    pub globals: Seq<EntityType>,
}

/// No items.
pub(crate) fn no_items(alloc: Global) -> Items
    ensures { result ≡ no_items }
{
    Items {
        functions: Seq::new(alloc),
        tables: Seq::new(alloc),
        memories: Seq::new(alloc),
        globals: Seq::new(alloc),
    }
}

/// Whether a function or a tag names one of so many types.
fn has_type_below(count: usize, entity: &EntityType) -> bool
    ensures { result ≡ has_type_below count entity.now }
{
    match *entity {
        EntityType::Function(index) | EntityType::Tag(index) => (index as usize) < count,
        _ => true,
    }
}

/// Adds an item after those of its kind.
fn add_item(items: Items, entity: EntityType) -> Result<Items, AllocError>
    ensures { IfOk result (λ s. s ≡ with_item items entity) }
{
    let Items {
        mut functions,
        mut tables,
        mut memories,
        mut globals,
    } = items;
    match entity {
        EntityType::Function(_) => functions.push(entity)?,
        EntityType::Table { .. } => tables.push(entity)?,
        EntityType::Memory(_) => memories.push(entity)?,
        EntityType::Global { .. } => globals.push(entity)?,
        EntityType::Tag(_) => {}
    }
    Ok(Items {
        functions,
        tables,
        memories,
        globals,
    })
}

/// Adds items, each of which names one of so many types, where it names one.
pub(crate) fn add_items(count: usize, items: Items, more: &[EntityType]) -> Result<Items, ReadFault>
    ensures { Gives (λ s. s) result (with_items count items more.now) }
{
    let mut all = items;
    for entity in more {
        if !has_type_below(count, entity) {
            return Err(ReadFault::Malformed);
        }
        all = add_item(all, *entity)?;
    }
    Ok(all)
}

/// The item of an index.
fn entity_at(items: &Seq<EntityType>, index: u32) -> Option<ExportedItem>
    ensures { result ≡ option_map exported.Entity (slice_get items.now index) }
{
    Some(ExportedItem::Entity(*items.as_slice().get(index as usize)?))
}

/// The item that an export names.
pub(crate) fn exported_item(items: &Items, export: ExportIndex) -> Option<ExportedItem>
    ensures { result ≡ exported_item items.now export }
{
    match export.kind {
        ExportKind::Function => entity_at(&items.functions, export.index),
        ExportKind::Table => entity_at(&items.tables, export.index),
        ExportKind::Memory => entity_at(&items.memories, export.index),
        ExportKind::Global => entity_at(&items.globals, export.index),
        ExportKind::Tag => Some(ExportedItem::Tag),
    }
}
