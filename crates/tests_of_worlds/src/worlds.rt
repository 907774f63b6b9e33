//! Other modules of a world.
//!
//! The query is one of these:
//!
//! - `realloc`, a module (`main`, or the name of an adapter), and its own realloc, or `_`: which module's realloc it takes, in a
//!   world whose main exports `main's` and which has a library `library`;
//! - `lowerings`, and two names, each followed by a form of call: whether their lowerings are one;
//! - `copy`: whether a copy of a library's arguments equals them.

use comp_lists::{Keyed, Seq, SharedBytes, Text};
use comp_worlds::{
    ComponentWorld, CustomModule, Export, ExportMap, FunctionKey, ImportMap, Instance, Item,
    LibraryArgument, LibraryInfo, LoweringKey, MainOrAdapter, ModuleMetadata, ValidatedModule,
    WorldAdapter,
};
use standard_kinds::{ExportKind, StringEncoding};
use std::alloc::{AllocError, Global};
use test_cases::word_and_rest;
use wit_data::{Resolve, WorldId};
use wit_texts::abi_of;

/// A module of these bytes, with these exports.
fn module(alloc: Global, bytes: SharedBytes, exports: ExportMap) -> ValidatedModule {
    let import_encodings: Keyed<FunctionKey, StringEncoding> = Keyed::new(alloc);
    let export_encodings: Keyed<FunctionKey, StringEncoding> = Keyed::new(alloc);
    ValidatedModule {
        bytes,
        imports: ImportMap {
            modules: Keyed::new(alloc),
        },
        exports,
        imported: Seq::new(alloc),
        offered: Keyed::new(alloc),
        metadata: ModuleMetadata {
            import_encodings,
            export_encodings,
        },
    }
}

/// A realloc of this name.
fn realloc(alloc: Global, name: &str) -> Result<ExportMap, AllocError> {
    let mut exports = Keyed::new(alloc);
    let name = Text::from_str(alloc, name)?;
    exports.insert_if_absent(name, Export::GeneralPurposeRealloc)?;
    Ok(ExportMap { exports })
}

/// A library of these bytes, with these exports.
fn library(alloc: Global, bytes: SharedBytes, exports: ExportMap) -> WorldAdapter {
    WorldAdapter {
        info: module(alloc, bytes, exports),
        required_exports: Seq::new(alloc),
        library_info: Some(LibraryInfo {
            arguments: Seq::new(alloc),
        }),
    }
}

/// The library `library`, with a realloc of its own.
fn libraries(alloc: Global) -> Result<Keyed<Text, WorldAdapter>, AllocError> {
    let name = Text::from_str(alloc, "library")?;
    let bytes = SharedBytes::from_vec(Vec::new(alloc))?;
    let exports = realloc(alloc, "its")?;
    let mut adapters = Keyed::new(alloc);
    adapters.insert_if_absent(name, library(alloc, bytes, exports))?;
    Ok(adapters)
}

/// A world of main with these bytes and exports, and of these adapters.
fn world_of(
    alloc: Global,
    bytes: SharedBytes,
    exports: ExportMap,
    adapters: Keyed<Text, WorldAdapter>,
) -> ComponentWorld {
    ComponentWorld {
        resolve: Resolve {
            interfaces: Seq::new(alloc),
            types: Seq::new(alloc),
            worlds: Seq::new(alloc),
        },
        world: WorldId { index: 0 },
        main: module(alloc, bytes, exports),
        main_exports: Seq::new(alloc),
        adapters,
        import_map: Keyed::new(alloc),
        live_type_imports: Keyed::new(alloc),
        exports_used: Keyed::new(alloc),
        can_use_context_slot_1: false,
    }
}

/// A world with a realloc in main, and a library.
fn world(alloc: Global) -> Result<ComponentWorld, AllocError> {
    let bytes = SharedBytes::from_vec(Vec::new(alloc))?;
    let adapters = libraries(alloc)?;
    match realloc(alloc, "main's") {
        Ok(exports) => Ok(world_of(alloc, bytes, exports, adapters)),
        Err(refused) => {
            drop(bytes);
            drop(adapters);
            Err(refused)
        }
    }
}

fn module_of<'a>(word: &'a str) -> CustomModule<'a> {
    match word {
        "main" => CustomModule::Main,
        _ => CustomModule::Adapter(word),
    }
}

fn own_realloc<'a>(word: &'a str) -> Option<&'a str> {
    match word {
        "_" => None,
        _ => Some(word),
    }
}

fn print_taken(
    alloc: Global,
    taken: Option<(CustomModule<'_>, &str)>,
) -> Result<String, AllocError> {
    match taken {
        Some((CustomModule::Main, name)) => format!(in alloc; "main {name}"),
        Some((CustomModule::Adapter(adapter), name)) => format!(in alloc; "{adapter} {name}"),
        None => String::from_str(alloc, "none"),
    }
}

fn realloc_answer(alloc: Global, text: &str) -> Result<String, AllocError> {
    let (which, own) = word_and_rest(text);
    let world = world(alloc)?;
    let printed = print_taken(
        alloc,
        world.resolve_realloc(module_of(which), own_realloc(own)),
    );
    drop(world);
    printed
}

/// A function as it is lowered: its name, and the form in which it is called.
fn lowering_key(alloc: Global, text: &str) -> Result<LoweringKey, AllocError> {
    let (name, abi) = word_and_rest(text);
    let name = Text::from_str(alloc, name)?;
    Ok(LoweringKey {
        name,
        abi: abi_of(abi),
    })
}

fn print_whether(alloc: Global, same: bool) -> Result<String, AllocError> {
    String::from_str(alloc, if same { "equal" } else { "different" })
}

fn lowerings_answer(alloc: Global, text: &str) -> Result<String, AllocError> {
    let (left, right) = text.split_once(", ").unwrap_or((text, ""));
    let left = lowering_key(alloc, left)?;
    let right = lowering_key(alloc, right)?;
    print_whether(alloc, left == right)
}

fn adapter(alloc: Global, name: &str) -> Result<MainOrAdapter, AllocError> {
    match Text::from_str(alloc, name) {
        Ok(name) => Ok(MainOrAdapter::Adapter(name)),
        Err(refused) => Err(refused),
    }
}

/// A table of the adapter `b`, under another name.
fn item(alloc: Global) -> Result<Item, AllocError> {
    let which = adapter(alloc, "b")?;
    let alias = Text::from_str(alloc, "t")?;
    let name = Text::from_str(alloc, "table")?;
    Ok(Item {
        alias,
        kind: ExportKind::Table,
        which,
        name,
    })
}

fn items(alloc: Global) -> Result<Instance, AllocError> {
    let mut items = Seq::new(alloc);
    items.push(item(alloc)?)?;
    Ok(Instance::Items(items))
}

fn add_argument(
    alloc: Global,
    arguments: &mut Seq<LibraryArgument>,
    name: &str,
    instance: Instance,
) -> Result<(), AllocError> {
    let name = Text::from_str(alloc, name)?;
    arguments.push(LibraryArgument { name, instance })?;
    Ok(())
}

/// Main, an adapter and an item, each under a name.
fn arguments(alloc: Global) -> Result<Seq<LibraryArgument>, AllocError> {
    let mut arguments = Seq::new(alloc);
    let main = Instance::MainOrAdapter(MainOrAdapter::Main);
    add_argument(alloc, &mut arguments, "env", main)?;
    let whole = Instance::MainOrAdapter(adapter(alloc, "a")?);
    add_argument(alloc, &mut arguments, "a", whole)?;
    let items = items(alloc)?;
    add_argument(alloc, &mut arguments, "items", items)?;
    Ok(arguments)
}

/// Whether a copy equals this.
fn print_copy(alloc: Global, info: &LibraryInfo) -> Result<String, AllocError> {
    let copy = info.clone(alloc)?;
    let same = copy == *info;
    drop(copy);
    print_whether(alloc, same)
}

fn copy_answer(alloc: Global) -> Result<String, AllocError> {
    let arguments = arguments(alloc)?;
    let info = LibraryInfo { arguments };
    let printed = print_copy(alloc, &info);
    drop(info);
    printed
}

pub(crate) fn answer(alloc: Global, asked: &str) -> Result<String, AllocError> {
    let (question, rest) = word_and_rest(asked);
    match question {
        "realloc" => realloc_answer(alloc, rest),
        "lowerings" => lowerings_answer(alloc, rest),
        "copy" => copy_answer(alloc),
        _ => String::from_str(alloc, "no question"),
    }
}
