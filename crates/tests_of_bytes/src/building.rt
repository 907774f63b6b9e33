//! Components that are built again: each definition that was read is passed to the call that adds one like it.

use crate::components::{not_built, refused};
use byte_encoding::BuildFault;
use comp_builder::ComponentBuilder;
use comp_bytes::{
    Alias, CoreModule, Def, Defs, ExternName, InstanceType, Intrinsic, Item, TypeDef,
};
use comp_check::CheckFault;
use comp_lists::{Seq, SharedBytes, Text};
use comp_read::read_component;
use std::alloc::{AllocError, Global};
use std::mem;

/// The debug name that a word gives: `-` gives none.
fn debug_name(word: Option<&str>) -> Option<&str> {
    match word {
        Some("-") => None,
        other => other,
    }
}

/// An index that a call returned.
fn indexed(index: Result<u32, BuildFault>) -> Result<Option<u32>, BuildFault> {
    Ok(Some(index?))
}

/// Adds the custom section of debug names, which has no index.
fn add_names(builder: &mut ComponentBuilder) -> Result<Option<u32>, BuildFault> {
    builder.append_names()?;
    Ok(None)
}

/// Adds an alias. No call adds one of an outer scope.
fn add_alias(
    builder: &mut ComponentBuilder,
    debug: Option<&str>,
    alias: &Alias,
) -> Result<Option<u32>, BuildFault> {
    match alias {
        Alias::Export {
            kind,
            instance,
            name,
        } => indexed(builder.alias_export(*instance, name.as_str(), *kind)),
        Alias::CoreExport {
            kind,
            instance,
            name,
        } => indexed(builder.core_alias_export(debug, *instance, name.as_str(), *kind)),
        Alias::Outer { .. } => Ok(None),
    }
}

fn add_type(
    builder: &mut ComponentBuilder,
    debug: Option<&str>,
    ty: TypeDef,
) -> Result<u32, BuildFault> {
    match ty {
        TypeDef::Func(func) => builder.type_function(debug, func),
        TypeDef::Resource(destructor) => builder.type_resource(debug, destructor),
        TypeDef::Defined(defined) => builder.type_defined(debug, defined),
    }
}

/// What a list holds, which is empty then.
fn taken<T>(alloc: Global, list: &mut Seq<T>) -> Seq<T> {
    mem::replace(list, Seq::new(alloc))
}

/// A name, which is empty then.
fn taken_name(alloc: Global, name: &mut ExternName) -> ExternName {
    let empty = ExternName {
        name: Text::new(alloc),
        version_suffix: None,
    };
    mem::replace(name, empty)
}

/// Adds an import or an export.
fn add_named(
    alloc: Global,
    builder: &mut ComponentBuilder,
    item: &mut Item,
) -> Result<Option<u32>, BuildFault> {
    match item {
        Item::Import { name, description } => {
            indexed(builder.import(taken_name(alloc, name), *description))
        }
        Item::Export {
            name,
            sort,
            index,
            description,
        } => { indexed(builder.export(taken_name(alloc, name), *sort, *index, *description)) }
        _ => Ok(None),
    }
}

/// Adds a core module by a copy of its bytes.
fn add_module(
    alloc: Global,
    builder: &mut ComponentBuilder,
    debug: Option<&str>,
    bytes: &[u8],
) -> Result<Option<u32>, BuildFault> {
    let bytes = SharedBytes::from_vec(Vec::from_slice(alloc, bytes)?)?;
    match CoreModule::from_bytes(bytes) {
        Some(module) => indexed(builder.core_module_raw(debug, module.bytes())),
        None => Ok(None),
    }
}

/// Adds a definition by what it holds: a core module, an alias, or a custom section. Of the last only that it is
/// there is kept: it is that of the debug names, which the builder writes itself.
fn add_borrowed(
    alloc: Global,
    builder: &mut ComponentBuilder,
    debug: Option<&str>,
    item: &Item,
) -> Result<Option<u32>, BuildFault> {
    match item {
        Item::CoreModule(module) => add_module(alloc, builder, debug, module.as_slice()),
        Item::Alias(alias) => add_alias(builder, debug, alias),
        Item::Custom { .. } => add_names(builder),
        _ => Ok(None),
    }
}

fn is_borrowed(item: &Item) -> bool {
    matches!(
        item,
        Item::CoreModule(_) | Item::Alias(_) | Item::Custom { .. }
    )
}

/// Adds a definition that is no component. What it owns is passed to the call that adds one like it.
fn add_item(
    alloc: Global,
    builder: &mut ComponentBuilder,
    debug: Option<&str>,
    item: &mut Item,
) -> Result<Option<u32>, BuildFault> {
    match item {
        Item::CoreInstantiate { module, args } => {
            indexed(builder.core_instantiate(debug, *module, taken(alloc, args)))
        }
        Item::CoreExports(exports) => {
            indexed(builder.core_instantiate_exports(debug, taken(alloc, exports)))
        }
        Item::Instantiate { component, args } => {
            indexed(builder.instantiate(debug, *component, taken(alloc, args)))
        }
        Item::Type(ty) => {
            let ty = mem::replace(ty, TypeDef::Resource(None));
            indexed(add_type(builder, debug, ty))
        }
        Item::InstanceType(ty) => {
            let members = taken(alloc, &mut ty.members);
            indexed(builder.type_instance(debug, InstanceType { members }))
        }
        Item::Lift { func, options, ty } => {
            indexed(builder.lift_func(debug, *func, *ty, taken(alloc, options)))
        }
        Item::Lower { func, options } => {
            indexed(builder.lower_func(debug, *func, taken(alloc, options)))
        }
        Item::Intrinsic(intrinsic) => {
            indexed(builder.intrinsic(mem::replace(intrinsic, Intrinsic::TaskCancel)))
        }
        _ => add_named(alloc, builder, item),
    }
}

/// Adds a definition with its debug name, and returns its index.
fn add(
    alloc: Global,
    builder: &mut ComponentBuilder,
    debug: Option<&str>,
    definition: Def,
) -> Result<Option<u32>, BuildFault> {
    match definition {
        Def::Item(item) if is_borrowed(&item) => add_borrowed(alloc, builder, debug, &item),
        Def::Item(mut item) => add_item(alloc, builder, debug, &mut item),
        Def::Component(items) => indexed(builder.component(debug, items)),
    }
}

/// Adds definitions with their debug names, and writes the index of each.
fn add_all(
    alloc: Global,
    builder: &mut ComponentBuilder,
    indices: &mut String,
    names: &str,
    definitions: Defs,
) -> Result<(), BuildFault> {
    let mut words = names.split(' ');
    for definition in definitions.into_vec() {
        if let Some(index) = add(alloc, builder, debug_name(words.next()), definition)? {
            write!(indices, "{index} ")?;
        }
    }
    Ok(())
}

/// The bytes of these definitions with these debug names.
fn build(
    alloc: Global,
    indices: &mut String,
    names: &str,
    definitions: Defs,
) -> Result<Vec<u8>, BuildFault> {
    let mut builder = ComponentBuilder::new(alloc);
    match add_all(alloc, &mut builder, indices, names, definitions) {
        Ok(()) => builder.finish(),
        Err(fault) => Err(fault),
    }
}

/// How many bytes these definitions with these debug names have.
fn measure(alloc: Global, names: &str, definitions: Defs) -> Result<u32, BuildFault> {
    let mut builder = ComponentBuilder::new(alloc);
    let mut indices = String::new(alloc);
    match add_all(alloc, &mut builder, &mut indices, names, definitions) {
        Ok(()) => builder.measure(),
        Err(fault) => Err(fault),
    }
}

fn measure_again(alloc: Global, names: &str, definitions: Defs) -> Result<String, AllocError> {
    match measure(alloc, names, definitions) {
        Ok(size) => format!(in alloc; "{size}"),
        Err(fault) => not_built(alloc, fault),
    }
}

/// How many bytes the component of these bytes has when it is built again of its definitions, with these debug names.
pub(crate) fn measured(alloc: Global, names: &str, bytes: &[u8]) -> Result<String, AllocError> {
    match read_component(alloc, bytes) {
        Ok(definitions) => measure_again(alloc, names, definitions),
        Err(fault) => refused(alloc, CheckFault::from(fault)),
    }
}

/// The indices of what was built, and whether it has these bytes; else its own.
fn build_again(
    alloc: Global,
    names: &str,
    definitions: Defs,
    bytes: &[u8],
) -> Result<String, AllocError> {
    let mut text = String::new(alloc);
    match build(alloc, &mut text, names, definitions) {
        Ok(built) => {
            if built.as_slice() == bytes {
                text.push_str("in the same bytes")?;
            } else {
                text.push_str(hex::encode(alloc, &built)?.as_str())?;
            }
            Ok(text)
        }
        Err(fault) => not_built(alloc, fault),
    }
}

/// How the component of these bytes is built again of its definitions, with these debug names: the index
/// that each call returned, and whether that gives the same bytes.
pub(crate) fn built(alloc: Global, names: &str, bytes: &[u8]) -> Result<String, AllocError> {
    match read_component(alloc, bytes) {
        Ok(definitions) => build_again(alloc, names, definitions, bytes),
        Err(fault) => refused(alloc, CheckFault::from(fault)),
    }
}
