//! The arguments of libraries in the cases of test programs: a library is its name and then words
//! `MODULE=INSTANCE`, with a blank before each. An instance is `*WHICH`, which is `main` or the
//! name of an adapter, or a list of items `ALIAS:KIND:WHICH:NAME` with a comma between two of them.
#![tactic(auto)]

use comp_lists::{Seq, Text};
use comp_roles::{Instance, Item, LibraryArgument, LibraryInfo, MainOrAdapter};
use standard_kinds::ExportKind;
use std::alloc::{AllocError, Global};

fn which_of(alloc: Global, word: &str) -> Result<MainOrAdapter, AllocError> {
    match word {
        "main" => Ok(MainOrAdapter::Main),
        _ => Ok(MainOrAdapter::Adapter(Text::from_str(alloc, word)?)),
    }
}

fn kind_of(word: &str) -> ExportKind {
    match word {
        "func" => ExportKind::Func,
        "table" => ExportKind::Table,
        "memory" => ExportKind::Memory,
        _ => ExportKind::Global,
    }
}

/// The text before a mark, and that after it.
fn cut<'a>(text: &'a str, mark: &str) -> (&'a str, &'a str) {
    text.split_once(mark).unwrap_or((text, ""))
}

fn item_of(alloc: Global, text: &str) -> Result<Item, AllocError> {
    let (alias, rest) = cut(text, ":");
    let (kind, rest) = cut(rest, ":");
    let (which, name) = cut(rest, ":");
    let alias = Text::from_str(alloc, alias)?;
    let which = which_of(alloc, which)?;
    let name = Text::from_str(alloc, name)?;
    Ok(Item {
        alias,
        kind: kind_of(kind),
        which,
        name,
    })
}

fn items_of(alloc: Global, text: &str) -> Result<Seq<Item>, AllocError> {
    let mut items = Seq::new(alloc);
    for word in text.split(",") {
        if !word.is_empty() {
            let item = item_of(alloc, word)?;
            items.push(item)?;
        }
    }
    Ok(items)
}

fn instance_of(alloc: Global, text: &str) -> Result<Instance, AllocError> {
    match text.strip_prefix("*") {
        Some(which) => Ok(Instance::MainOrAdapter(which_of(alloc, which)?)),
        None => Ok(Instance::Items(items_of(alloc, text)?)),
    }
}

fn argument_of(alloc: Global, text: &str) -> Result<LibraryArgument, AllocError> {
    let (name, instance) = cut(text, "=");
    let name = Text::from_str(alloc, name)?;
    let instance = instance_of(alloc, instance)?;
    Ok(LibraryArgument { name, instance })
}

fn arguments_of(alloc: Global, text: &str) -> Result<Seq<LibraryArgument>, AllocError> {
    let mut arguments = Seq::new(alloc);
    for word in text.split(" ") {
        if !word.is_empty() {
            let argument = argument_of(alloc, word)?;
            arguments.push(argument)?;
        }
    }
    Ok(arguments)
}

/// The name of a library, and the words of its arguments.
pub fn name_and_arguments(text: &str) -> (&str, &str) {
    cut(text, " ")
}

/// What makes an adapter a library with the arguments that stand in a text, one word each.
pub fn library_info(alloc: Global, arguments: &str) -> Result<LibraryInfo, AllocError> {
    let arguments = arguments_of(alloc, arguments)?;
    Ok(LibraryInfo { arguments })
}
