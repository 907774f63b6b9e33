//! The entries of a core module, section by section.

ghost use Rattle.std.specs.Prelude.{◌≡◌, map, IfOk};
ghost use Rattle.core_sections.specs.Reading.{Gives};
ghost use Rattle.core_sections.specs.Sections.{body_view, Gives as GivesSections};
ghost use Rattle.core_sections.specs.Entries.{with_items, with_export, with_exports, after_types, after_imports, after_definitions, after_exports, after_section, after_body, module_of};

use crate::definitions::{Functions, Globals, Memories, Tables};
use crate::entries::{CoreExport, CoreImport, EntityType, ExportedItem, FuncType};
use crate::fault::SectionFault;
use crate::items::{Items, add_items, exported_item, no_items};
use crate::reading::{Read, ReadFault, read_all};
use crate::sections::{Content, PREAMBLE, sections_of};
use comp_lists::{Keyed, Seq, Text};
use std::alloc::{AllocError, Global};

/// The types, imports, items and exports of a core module.
#[derive(Drop)]
pub struct CoreModule {
    pub types: Seq<FuncType>,
    pub imports: Seq<CoreImport>,
    pub items: Items,
    pub exports: Keyed<Text, ExportedItem>,
}

#[tactic(auto, unfolding(crate::specs::Entries::after_types))]
fn add_types(alloc: Global, so_far: CoreModule, contents: &[u8]) -> Result<CoreModule, ReadFault>
    ensures { Gives (λ m. m) result (after_types so_far contents.now) }
{
    let more = read_all::<FuncType>(alloc, contents)?;
    let CoreModule {
        mut types,
        imports,
        items,
        exports,
    } = so_far;
    types.append(more)?;
    Ok(CoreModule {
        types,
        imports,
        items,
        exports,
    })
}

/// The entity types of these imports.
fn entities_of(alloc: Global, imports: &[CoreImport]) -> Result<Vec<EntityType>, AllocError>
    ensures { IfOk result (λ v. v.items ≡ map (λ i. i.entity) imports.now) }
{
    let mut entities = Vec::new(alloc);
    for import in imports {
        entities.push(import.entity)?;
    }
    Ok(entities)
}

/// Adds the entity types of these imports, each of which names one of so many types, where it names one.
fn add_imported(
    alloc: Global,
    count: usize,
    items: Items,
    imports: &[CoreImport],
) -> Result<Items, ReadFault>
    ensures { Gives (λ s. s) result (with_items count items (map (λ i. i.entity) imports.now)) }
{
    let entities = entities_of(alloc, imports)?;
    add_items(count, items, &entities)
}

#[tactic(auto, unfolding(crate::specs::Entries::after_imports))]
fn add_imports(alloc: Global, so_far: CoreModule, contents: &[u8]) -> Result<CoreModule, ReadFault>
    ensures { Gives (λ m. m) result (after_imports so_far contents.now) }
{
    let more = read_all::<CoreImport>(alloc, contents)?;
    let CoreModule {
        types,
        mut imports,
        items,
        exports,
    } = so_far;
    let items = add_imported(alloc, types.len(), items, more.as_slice())?;
    imports.append(more)?;
    Ok(CoreModule {
        types,
        imports,
        items,
        exports,
    })
}

/// A module with further items that it defines.
#[tactic(auto, unfolding(crate::specs::Entries::after_definitions))]
fn add_definitions<T: Read<Value = EntityType>>(
    alloc: Global,
    so_far: CoreModule,
    contents: &[u8],
) -> Result<CoreModule, ReadFault>
    ensures { Gives (λ m. m) result (after_definitions T.at so_far contents.now) }
{
    let more = read_all::<T>(alloc, contents)?;
    let CoreModule {
        types,
        imports,
        items,
        exports,
    } = so_far;
    let items = add_items(types.len(), items, more.as_slice())?;
    Ok(CoreModule {
        types,
        imports,
        items,
        exports,
    })
}

/// A table with one more export, whose name is new.
fn add_export(
    table: Keyed<Text, ExportedItem>,
    name: Text,
    item: ExportedItem,
) -> Result<Keyed<Text, ExportedItem>, ReadFault>
    ensures { Gives (λ t. t) result (with_export table name item) }
{
    let mut all = table;
    if all.contains_key(&name) {
        return Err(ReadFault::Malformed);
    }
    all.insert(name, item)?;
    Ok(all)
}

/// A table with further exports.
fn add_all(
    items: &Items,
    table: Keyed<Text, ExportedItem>,
    exports: Vec<CoreExport>,
) -> Result<Keyed<Text, ExportedItem>, ReadFault>
    ensures { Gives (λ t. t) result (with_exports items.now table exports.items) }
{
    let mut all = table;
    for export in exports {
        let CoreExport { name, index } = export;
        let Some(item) = exported_item(items, index) else {
            return Err(ReadFault::Malformed);
        };
        all = add_export(all, name, item)?;
    }
    Ok(all)
}

#[tactic(auto, unfolding(crate::specs::Entries::after_exports))]
fn add_exports(alloc: Global, so_far: CoreModule, contents: &[u8]) -> Result<CoreModule, ReadFault>
    ensures { Gives (λ m. m) result (after_exports so_far contents.now) }
{
    let more = read_all::<CoreExport>(alloc, contents)?;
    let CoreModule {
        types,
        imports,
        items,
        exports,
    } = so_far;
    let exports = add_all(&items, exports, more.into_vec())?;
    Ok(CoreModule {
        types,
        imports,
        items,
        exports,
    })
}

/// A module with what a section of this id says.
fn add_section(
    alloc: Global,
    so_far: CoreModule,
    id: u8,
    contents: &[u8],
) -> Result<CoreModule, ReadFault>
    ensures { Gives (λ m. m) result (after_section so_far id contents.now) }
{
    match id {
        1 => add_types(alloc, so_far, contents),
        2 => add_imports(alloc, so_far, contents),
        3 => add_definitions::<Functions>(alloc, so_far, contents),
        4 => add_definitions::<Tables>(alloc, so_far, contents),
        5 => add_definitions::<Memories>(alloc, so_far, contents),
        6 => add_definitions::<Globals>(alloc, so_far, contents),
        7 => add_exports(alloc, so_far, contents),
        _ => Ok(so_far),
    }
}

fn add_content(
    alloc: Global,
    so_far: CoreModule,
    content: Content<'_>,
) -> Result<CoreModule, ReadFault>
    ensures { Gives (λ m. m) result (after_body so_far (body_view content.entry)) }
{
    match content {
        Content::Custom { .. } => Ok(so_far),
        Content::Coded { id, bytes } => add_section(alloc, so_far, id, bytes),
    }
}

/// The entries of a core module.
///
/// Indices of types, of exported items except tags, and names of exports are checked. The fault is
/// `NotModule`, or `Section` at the first section that is cut short or whose contents are
/// malformed, or out of memory.
#[tactic(auto, unfolding(crate::specs::Entries::module_of), using(crate::proofs::Offsets::all_before))]
pub fn read_module(alloc: Global, bytes: &[u8]) -> Result<CoreModule, SectionFault>
    ensures { GivesSections (λ m. m) result (module_of bytes.now) }
{
    let sections = sections_of(alloc, bytes)?;
    let mut entries = CoreModule {
        types: Seq::new(alloc),
        imports: Seq::new(alloc),
        items: no_items(alloc),
        exports: Keyed::new(alloc),
    };
    let mut offset = PREAMBLE.len();
    for section in &sections {
        entries = match add_content(alloc, entries, section.content) {
            Ok(entries) => entries,
            Err(ReadFault::Memory) => return Err(SectionFault::Memory),
            Err(ReadFault::Malformed) => return Err(SectionFault::Section { place: offset }),
        };
        offset += section.whole.len();
    }
    Ok(entries)
}
