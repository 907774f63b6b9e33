//! A world that tests are run on, and core modules of one function type.
//!
//! The world imports `f: func(string)` and an interface with `g: func() -> u64`; it exports
//! `h: func(u64) -> string` and an interface with `k: func(f32) -> f64`.

use comp_lists::{Keyed, Seq, Text};
use core_sections::{CoreModule, FuncType, Items, ValType};
use std::alloc::{AllocError, Global};
use wit_data::{Function, Interface, InterfaceId, Resolve, World, WorldId, WorldItem, WorldKey};
use wit_texts::named_function_of;

/// The one world.
pub(crate) const WORLD: WorldId = WorldId { index: 0 };

/// The imported and the exported interface.
pub(crate) const IMPORTED: InterfaceId = InterfaceId { index: 0 };

pub(crate) const EXPORTED: InterfaceId = InterfaceId { index: 1 };

/// `h: func(u64) -> string`.
pub(crate) fn h(alloc: Global) -> Result<Function, AllocError> {
    named_function_of(alloc, "h", "u64 -> string")
}

/// `k: func(f32) -> f64`.
pub(crate) fn k(alloc: Global) -> Result<Function, AllocError> {
    named_function_of(alloc, "k", "f32 -> f64")
}

/// A function by its name.
fn functions(alloc: Global, function: Function) -> Result<Keyed<Text, Function>, AllocError> {
    let key = function.name.clone(alloc)?;
    let mut functions = Keyed::new(alloc);
    functions.insert_if_absent(key, function)?;
    Ok(functions)
}

/// An interface without a name, of these functions.
fn interface(alloc: Global, functions: Keyed<Text, Function>) -> Interface {
    Interface {
        id: None,
        types: Keyed::new(alloc),
        functions,
    }
}

/// Adds an interface of this function.
fn push_interface(
    alloc: Global,
    interfaces: &mut Seq<Interface>,
    function: Function,
) -> Result<(), AllocError> {
    let functions = functions(alloc, function)?;
    interfaces.push(interface(alloc, functions))?;
    Ok(())
}

fn interfaces(alloc: Global) -> Result<Seq<Interface>, AllocError> {
    let mut interfaces = Seq::new(alloc);
    push_interface(
        alloc,
        &mut interfaces,
        named_function_of(alloc, "g", "-> u64")?,
    )?;
    push_interface(alloc, &mut interfaces, k(alloc)?)?;
    Ok(interfaces)
}

fn root_key(alloc: Global, name: &str) -> Result<WorldKey, AllocError> {
    match Text::from_str(alloc, name) {
        Ok(name) => Ok(WorldKey::Name(name)),
        Err(refused) => Err(refused),
    }
}

/// A function at the root, and an interface.
fn side(
    alloc: Global,
    key: WorldKey,
    function: Function,
    interface: InterfaceId,
) -> Result<Keyed<WorldKey, WorldItem>, AllocError> {
    let mut entries = Keyed::new(alloc);
    entries.insert_if_absent(key, WorldItem::Function(function))?;
    let key = WorldKey::Interface(interface);
    entries.insert_if_absent(key, WorldItem::Interface(interface))?;
    Ok(entries)
}

fn imports(alloc: Global) -> Result<Keyed<WorldKey, WorldItem>, AllocError> {
    let key = root_key(alloc, "f")?;
    let f = named_function_of(alloc, "f", "string ->")?;
    side(alloc, key, f, IMPORTED)
}

fn exports(alloc: Global) -> Result<Keyed<WorldKey, WorldItem>, AllocError> {
    let key = root_key(alloc, "h")?;
    let h = h(alloc)?;
    side(alloc, key, h, EXPORTED)
}

fn world(alloc: Global) -> Result<World, AllocError> {
    let imports = imports(alloc)?;
    let exports = exports(alloc)?;
    Ok(World { imports, exports })
}

fn worlds(alloc: Global) -> Result<Seq<World>, AllocError> {
    let world = world(alloc)?;
    let mut worlds = Seq::new(alloc);
    worlds.push(world)?;
    Ok(worlds)
}

/// The world's resolve.
pub(crate) fn resolve(alloc: Global) -> Result<Resolve, AllocError> {
    let interfaces = interfaces(alloc)?;
    let worlds = worlds(alloc)?;
    Ok(Resolve {
        interfaces,
        types: Seq::new(alloc),
        worlds,
    })
}

/// The type of a letter: `i` is i32, `l` i64, `f` f32, and all others are f64.
fn value(letter: char) -> ValType {
    match letter {
        'i' => ValType::I32,
        'l' => ValType::I64,
        'f' => ValType::F32,
        _ => ValType::F64,
    }
}

/// The type of a function by the letters of its parameters, `>`, and those of its results.
fn func_type(alloc: Global, letters: &str) -> Result<FuncType, AllocError> {
    let mut params = Seq::new(alloc);
    let mut results = Seq::new(alloc);
    let mut is_after = false;
    for letter in letters.chars() {
        if letter == '>' {
            is_after = true;
        } else if is_after {
            results.push(value(letter))?;
        } else {
            params.push(value(letter))?;
        }
    }
    Ok(FuncType { params, results })
}

/// A module whose one type is that of the letters.
pub(crate) fn module(alloc: Global, letters: &str) -> Result<CoreModule, AllocError> {
    let mut types = Seq::new(alloc);
    types.push(func_type(alloc, letters)?)?;
    Ok(CoreModule {
        types,
        imports: Seq::new(alloc),
        items: Items {
            functions: Seq::new(alloc),
            tables: Seq::new(alloc),
            memories: Seq::new(alloc),
            globals: Seq::new(alloc),
        },
        exports: Keyed::new(alloc),
    })
}
