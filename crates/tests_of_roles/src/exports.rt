//! Look-ups in the roles of the exports of a core module.
//!
//! Given are exports, with `; ` between them: a name, `=`, and its role, as `memory 1`, `dtor 3` or
//! `func 0 f GuestExport`. A function, its post-return (`post`) and its callback (`back`) have the
//! index of an interface, or `root`, before their names. The query is what is looked up. The answer
//! is the name of an export, or `none`.

use comp_lists::{Keyed, Text};
use comp_roles::{Export, ExportMap};
use core_types::MemoryType;
use std::alloc::{AllocError, Global};
use test_cases::{number, word_and_rest};
use wit_data::{AbiVariant, Function, InterfaceId, WorldKey};
use wit_texts::{abi_of, id, named_function_of};

/// A memory of at least so many pages.
pub(crate) fn memory(minimum: u32) -> MemoryType {
    MemoryType {
        minimum,
        maximum: None,
    }
}

/// The key of an interface, or of the root function of a name.
fn key(alloc: Global, owner: &str, name: &str) -> Result<WorldKey, AllocError> {
    if owner != "root" {
        return Ok(WorldKey::Interface(InterfaceId {
            index: number(owner),
        }));
    }
    let text = Text::from_str(alloc, name)?;
    Ok(WorldKey::Name(text))
}

/// The role of an export of a function at the root.
fn root_role(word: &str, key: WorldKey, name: Text, abi: AbiVariant) -> Export {
    match word {
        "func" => Export::WorldFunc(key, name, abi),
        "post" => {
            drop(name);
            Export::WorldFuncPostReturn(key)
        }
        _ => {
            drop(name);
            Export::WorldFuncCallback(key)
        }
    }
}

/// The role of an export of a function of an interface.
fn interface_role(
    word: &str,
    id: InterfaceId,
    key: WorldKey,
    name: Text,
    abi: AbiVariant,
) -> Export {
    match word {
        "func" => Export::InterfaceFunc(key, id, name, abi),
        "post" => Export::InterfaceFuncPostReturn(key, name),
        _ => Export::InterfaceFuncCallback(key, name),
    }
}

fn function_role(alloc: Global, word: &str, rest: &str) -> Result<Export, AllocError> {
    let (owner, rest) = word_and_rest(rest);
    let (name, abi) = word_and_rest(rest);
    let text = Text::from_str(alloc, name)?;
    let key = key(alloc, owner, name)?;
    if owner == "root" {
        return Ok(root_role(word, key, text, abi_of(abi)));
    }
    let id = InterfaceId {
        index: number(owner),
    };
    Ok(interface_role(word, id, key, text, abi_of(abi)))
}

fn plain_role(word: &str, rest: &str) -> Export {
    match word {
        "memory" => Export::Memory(memory(rest.parse::<u32>().unwrap_or(0))),
        "dtor" => Export::ResourceDtor(id(rest)),
        "realloc" => Export::GeneralPurposeRealloc,
        "import-realloc" => Export::GeneralPurposeImportRealloc,
        "export-realloc" => Export::GeneralPurposeExportRealloc,
        "adapter-realloc" => Export::ReallocForAdapter,
        "initialize" => Export::Initialize,
        _ => Export::WasmTaskHook,
    }
}

fn role(alloc: Global, text: &str) -> Result<Export, AllocError> {
    let (word, rest) = word_and_rest(text);
    match word {
        "func" | "post" | "back" => function_role(alloc, word, rest),
        _ => Ok(plain_role(word, rest)),
    }
}

fn add_export(
    alloc: Global,
    exports: &mut Keyed<Text, Export>,
    text: &str,
) -> Result<(), AllocError> {
    let (name, role_text) = text.split_once("=").unwrap_or((text, ""));
    let name = Text::from_str(alloc, name)?;
    let role = role(alloc, role_text)?;
    exports.insert_if_absent(name, role)
}

fn export_map(alloc: Global, given: &str) -> Result<ExportMap, AllocError> {
    let mut exports = Keyed::new(alloc);
    for text in given.split("; ") {
        add_export(alloc, &mut exports, text)?;
    }
    Ok(ExportMap { exports })
}

/// A name that may be absent.
fn print_name(alloc: Global, name: Option<&str>) -> Result<String, AllocError> {
    String::from_str(alloc, name.unwrap_or("none"))
}

fn print_memory(alloc: Global, found: Option<(&str, MemoryType)>) -> Result<String, AllocError> {
    match found {
        Some((name, ty)) => match ty.maximum {
            Some(maximum) => format!(in alloc; "{name} {} {maximum}", ty.minimum),
            None => format!(in alloc; "{name} {}", ty.minimum),
        },
        None => String::from_str(alloc, "none"),
    }
}

/// The name of the first export.
fn first_name(exports: &ExportMap) -> Option<&str> {
    let mut entries = exports.iter();
    let (name, _) = entries.next()?;
    Some(name.as_str())
}

fn print_reallocs(alloc: Global, exports: &ExportMap) -> Result<String, AllocError> {
    let names = exports.reallocs(alloc)?;
    let mut out = String::new(alloc);
    for name in &names {
        if !out.is_empty() {
            out.push_str(", ")?;
        }
        out.push_str(name)?;
    }
    Ok(out)
}

fn print_abi(alloc: Global, abi: Option<AbiVariant>) -> Result<String, AllocError> {
    match abi {
        Some(abi) => format!(in alloc; "{abi:?}"),
        None => String::from_str(alloc, "none"),
    }
}

/// What is looked up of the function of a key.
fn print_of_function(
    alloc: Global,
    exports: &ExportMap,
    question: &str,
    key: &WorldKey,
    function: &Function,
) -> Result<String, AllocError> {
    match question {
        "abi" => print_abi(alloc, exports.abi(key, function)),
        "post" => print_name(alloc, exports.post_return(key, function)),
        _ => print_name(alloc, exports.callback(key, function)),
    }
}

fn print_function(
    alloc: Global,
    exports: &ExportMap,
    question: &str,
    rest: &str,
) -> Result<String, AllocError> {
    let (owner, name) = word_and_rest(rest);
    let key = key(alloc, owner, name)?;
    let function = named_function_of(alloc, name, "->")?;
    print_of_function(alloc, exports, question, &key, &function)
}

/// The realloc of calls of the exported function of an interface's number and a name.
fn print_export_realloc(
    alloc: Global,
    exports: &ExportMap,
    rest: &str,
) -> Result<String, AllocError> {
    let (owner, name) = word_and_rest(rest);
    let key = key(alloc, owner, name)?;
    print_name(alloc, exports.export_realloc_for(&key, name))
}

fn print_found(alloc: Global, exports: &ExportMap, asked: &str) -> Result<String, AllocError> {
    let (question, rest) = word_and_rest(asked);
    match question {
        "first" => print_name(alloc, first_name(exports)),
        "memory" => print_memory(alloc, exports.memory()),
        "initialize" => print_name(alloc, exports.initialize()),
        "hook" => print_name(alloc, exports.wasm_task_hook()),
        "dtor" => print_name(alloc, exports.resource_dtor(id(rest))),
        "abi" | "post" | "back" => print_function(alloc, exports, question, rest),
        _ => print_realloc(alloc, exports, question, rest),
    }
}

fn print_realloc(
    alloc: Global,
    exports: &ExportMap,
    question: &str,
    rest: &str,
) -> Result<String, AllocError> {
    match question {
        "reallocs" => print_reallocs(alloc, exports),
        "realloc" => print_name(alloc, exports.general_purpose_realloc()),
        "import-fallback" => print_name(alloc, exports.import_realloc_fallback()),
        "import-realloc" => print_name(alloc, exports.import_realloc_for(None, rest)),
        "export-realloc" => print_export_realloc(alloc, exports, rest),
        _ => String::from_str(alloc, "no question"),
    }
}

pub(crate) fn answer(alloc: Global, given: &str, asked: &str) -> Result<String, AllocError> {
    let exports = export_map(alloc, given)?;
    let printed = print_found(alloc, &exports, asked);
    drop(exports);
    printed
}
