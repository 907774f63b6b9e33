//! Counts, index spaces, the texts of faults, and laws.

use byte_encoding::{BuildFault, count_of, next_count, one_name, one_number, one_type_index};
use comp_bytes::{ComponentExportKind, Description, Sort, Space, one_list, space_of_kind};
use comp_lists::Text;
use comp_names::NameFault;
use comp_read::ReadFault;
use standard_kinds::ExportKind;
use std::alloc::{AllocError, Global};

/// The count that follows, or what is refused.
fn next(alloc: Global, count: u32) -> Result<String, AllocError> {
    match next_count(count) {
        Ok(next) => format!(in alloc; "{next}"),
        Err(excess) => {
            let fault = BuildFault::TooMany { excess };
            format!(in alloc; "{}, {fault}", excess.get())
        }
    }
}

/// How many there are of the bytes of a text and of one word together.
fn together(alloc: Global, given: &str) -> Result<String, AllocError> {
    let (text, word) = given.split_once(' ').unwrap_or((given, ""));
    match count_of(text.as_bytes(), &[word]) {
        Ok(count) => format!(in alloc; "{count}"),
        Err(excess) => format!(in alloc; "{excess}"),
    }
}

/// The space of a word, or that in which an item of what the word says is counted.
fn space_of(word: &str) -> Option<Space> {
    match word {
        "CoreFunc" => Some(Space::CoreFunc),
        "CoreTable" => Some(Space::CoreTable),
        "CoreMemory" => Some(Space::CoreMemory),
        "CoreGlobal" => Some(Space::CoreGlobal),
        "CoreModule" => Some(Space::CoreModule),
        "CoreInstance" => Some(Space::CoreInstance),
        "Func" => Some(Space::Func),
        "Type" => Some(Space::Type),
        "Component" => Some(Space::Component),
        "Instance" => Some(Space::Instance),
        "ExportKind::Memory" => Some(space_of_kind(ExportKind::Memory)),
        "ComponentExportKind::Component" => Some(ComponentExportKind::Component.space()),
        "Sort::Core(Table)" => Some(Sort::Core(ExportKind::Table).space()),
        "Description::SubResource" => Some(Description::SubResource.space()),
        _ => None,
    }
}

fn space_text(alloc: Global, space: Option<Space>) -> Result<String, AllocError> {
    match space {
        Some(space) => format!(in alloc; "{space}"),
        None => String::from_str(alloc, "no space"),
    }
}

/// The text of a fault in a name: that it occurs twice, or has no form.
fn name_fault(alloc: Global, is_twice: bool, name: &str) -> Result<String, AllocError> {
    let name = Text::from_str(alloc, name)?;
    let fault = if is_twice {
        NameFault::Twice { name }
    } else {
        NameFault::Form { name }
    };
    format!(in alloc; "{fault}")
}

/// Nothing is done when a law is called: what it says is its contract.
fn laws(alloc: Global) -> Result<String, AllocError> {
    one_number();
    one_type_index();
    one_name();
    one_list();
    String::from_str(alloc, "called")
}

/// A number; 0 for anything else.
fn number(text: &str) -> u32 {
    text.parse::<u32>().unwrap_or(0)
}

/// The result of any other call.
pub(crate) fn called(alloc: Global, call: &str, given: &str) -> Result<String, AllocError> {
    match call {
        "next_count" => next(alloc, number(given)),
        "count_of" => together(alloc, given),
        "space" => space_text(alloc, space_of(given)),
        "BuildFault::Memory" => format!(in alloc; "{}", BuildFault::Memory),
        "ReadFault::Memory" => format!(in alloc; "{}", ReadFault::Memory),
        "ReadFault::Grammar" => {
            let offset = number(given) as usize;
            format!(in alloc; "{}", ReadFault::Grammar { place: offset })
        }
        "NameFault::Memory" => format!(in alloc; "{}", NameFault::Memory),
        "NameFault::Twice" => name_fault(alloc, true, given),
        "NameFault::Form" => name_fault(alloc, false, given),
        "laws" => laws(alloc),
        _ => String::from_str(alloc, "no call"),
    }
}
