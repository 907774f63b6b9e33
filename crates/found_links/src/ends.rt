//! What items are called where links are shown.

ghost use Rattle.std.specs.Prelude.{◌≡◌, ◌++◌, Some, OnOk, string_bytes, codes};
ghost use Rattle.std.specs.List.{flat_map};
ghost use Rattle.std.specs.Fmt.{decimal};
ghost use Rattle.comp_lines.specs.Texts.{quoted};
ghost use Rattle.found_links.specs.Ends.{numbered, of_core_instance, core_instance, exported, aliased_core, of_core_export, core_export, option_text};
ghost use Rattle.found_links.specs.Ends.{of_instance, instance, aliased_func, of_func, func, intrinsic_word};
ghost use Rattle.found_links.specs.Ends.{of_core_source, core_source, of_core_how, core_how, of_func_source, func_source, of_func_how, func_how};

use crate::items::Items;
use comp_bytes::{Alias, CanonicalOption, ExternName, Intrinsic, Item, Space};
use comp_lines::{put_item, put_number, put_quoted};
use comp_lists::Text;
use std::alloc::AllocError;

/// Writes the space and the index of an item.
fn put_numbered(out: &mut String, space: Space, index: u32) -> Result<(), AllocError>
    ensures { OnOk result (string_bytes out.new ≡ string_bytes out.old ++ numbered space index) }
{
    put_item(out, space, u64::from(index))
}

/// Writes the name of a module.
pub(crate) fn put_module(out: &mut String, number: u32) -> Result<(), AllocError>
    ensures { OnOk result
        (string_bytes out.new ≡ string_bytes out.old ++ (codes "module " ++ decimal number)) }
{
    out.push_str("module ")?;
    put_number(out, u64::from(number))?;
    Ok(())
}

/// Writes a space, and a name in quotes.
pub(crate) fn put_named(out: &mut String, name: &Text) -> Result<(), AllocError>
    ensures { OnOk result
        (string_bytes out.new ≡ string_bytes out.old ++ (codes " " ++ quoted name.now)) }
{
    out.push_str(" ")?;
    put_quoted(out, name.as_str())?;
    Ok(())
}

fn put_of_core_instance(out: &mut String, index: u32, item: &Item) -> Result<(), AllocError>
    ensures { OnOk result
        (string_bytes out.new ≡ string_bytes out.old ++ of_core_instance index (Some item.now)) }
{
    match item {
        Item::CoreInstantiate { module, .. } => put_module(out, *module),
        _ => put_numbered(out, Space::CoreInstance, index),
    }
}

/// Writes the module that a core instance is one of.
pub(crate) fn put_core_instance(
    out: &mut String,
    items: &Items,
    index: u32,
) -> Result<(), AllocError>
    ensures { OnOk result
        (string_bytes out.new ≡ string_bytes out.old ++ core_instance items.now index) }
{
    match items.item(Space::CoreInstance, index) {
        Some(item) => put_of_core_instance(out, index, item),
        None => put_numbered(out, Space::CoreInstance, index),
    }
}

/// Writes an export of a core instance.
pub(crate) fn put_exported(
    out: &mut String,
    items: &Items,
    instance: u32,
    name: &Text,
) -> Result<(), AllocError>
    ensures { OnOk result
        (string_bytes out.new ≡ string_bytes out.old ++ exported items.now instance name.now) }
{
    put_core_instance(out, items, instance)?;
    put_named(out, name)?;
    Ok(())
}

fn put_aliased_core(
    out: &mut String,
    items: &Items,
    space: Space,
    index: u32,
    alias: &Alias,
) -> Result<(), AllocError>
    ensures { OnOk result (string_bytes out.new
        ≡ string_bytes out.old ++ aliased_core items.now space index alias.now) }
{
    match alias {
        Alias::CoreExport { instance, name, .. } => put_exported(out, items, *instance, name),
        _ => put_numbered(out, space, index),
    }
}

fn put_of_core_export(
    out: &mut String,
    items: &Items,
    space: Space,
    index: u32,
    item: &Item,
) -> Result<(), AllocError>
    ensures { OnOk result (string_bytes out.new
        ≡ string_bytes out.old ++ of_core_export items.now space index (Some item.now)) }
{
    match item {
        Item::Alias(alias) => put_aliased_core(out, items, space, index, alias),
        _ => put_numbered(out, space, index),
    }
}

/// Writes which export of a core instance a core item is.
fn put_core_export(
    out: &mut String,
    items: &Items,
    space: Space,
    index: u32,
) -> Result<(), AllocError>
    ensures { OnOk result
        (string_bytes out.new ≡ string_bytes out.old ++ core_export items.now space index) }
{
    match items.item(space, index) {
        Some(item) => put_of_core_export(out, items, space, index, item),
        None => put_numbered(out, space, index),
    }
}

/// Writes a word, and which export of a core instance a core item is.
fn put_word_and_export(
    out: &mut String,
    items: &Items,
    word: &str,
    space: Space,
    index: u32,
) -> Result<(), AllocError>
    ensures { OnOk result (string_bytes out.new
        ≡ string_bytes out.old ++ (word.now ++ core_export items.now space index)) }
{
    out.push_str(word)?;
    put_core_export(out, items, space, index)?;
    Ok(())
}

fn put_option(out: &mut String, items: &Items, option: CanonicalOption) -> Result<(), AllocError>
    ensures { OnOk result
        (string_bytes out.new ≡ string_bytes out.old ++ option_text items.now option) }
{
    match option {
        CanonicalOption::Utf8 => out.push_str(", utf8"),
        CanonicalOption::Utf16 => out.push_str(", utf16"),
        CanonicalOption::CompactUtf16 => out.push_str(", compact"),
        CanonicalOption::Memory(index) => {
            put_word_and_export(out, items, ", memory=", Space::CoreMemory, index)
        }
        CanonicalOption::Realloc(index) => {
            put_word_and_export(out, items, ", realloc=", Space::CoreFunc, index)
        }
        CanonicalOption::PostReturn(index) => {
            put_word_and_export(out, items, ", post-return=", Space::CoreFunc, index)
        }
        CanonicalOption::Async => out.push_str(", async"),
        CanonicalOption::Callback(index) => {
            put_word_and_export(out, items, ", callback=", Space::CoreFunc, index)
        }
    }
}

/// Writes a word, and options of a canonical function.
fn put_options(
    out: &mut String,
    items: &Items,
    word: &str,
    options: &[CanonicalOption],
) -> Result<(), AllocError>
    ensures { OnOk result (string_bytes out.new
        ≡ string_bytes out.old ++ (word.now ++ flat_map (option_text items.now) options.now)) }
{
    out.push_str(word)?;
    put_each_option(out, items, options)?;
    Ok(())
}

fn put_each_option(
    out: &mut String,
    items: &Items,
    options: &[CanonicalOption],
) -> Result<(), AllocError>
    ensures { OnOk result (string_bytes out.new
        ≡ string_bytes out.old ++ flat_map (option_text items.now) options.now) }
{
    for option in options {
        put_option(out, items, *option)?;
    }
    Ok(())
}

fn put_import(out: &mut String, name: &ExternName) -> Result<(), AllocError>
    ensures { OnOk result
        (string_bytes out.new ≡ string_bytes out.old ++ (codes "import " ++ quoted name.now.name)) }
{
    out.push_str("import ")?;
    put_quoted(out, name.name.as_str())?;
    Ok(())
}

fn put_of_instance(out: &mut String, index: u32, item: &Item) -> Result<(), AllocError>
    ensures { OnOk result
        (string_bytes out.new ≡ string_bytes out.old ++ of_instance index (Some item.now)) }
{
    match item {
        Item::Import { name, .. } => put_import(out, name),
        _ => put_numbered(out, Space::Instance, index),
    }
}

/// Writes the import that an instance is.
pub(crate) fn put_instance(out: &mut String, items: &Items, index: u32) -> Result<(), AllocError>
    ensures { OnOk result
        (string_bytes out.new ≡ string_bytes out.old ++ instance items.now index) }
{
    match items.item(Space::Instance, index) {
        Some(item) => put_of_instance(out, index, item),
        None => put_numbered(out, Space::Instance, index),
    }
}

/// Writes an export of an instance.
fn put_member(out: &mut String, items: &Items, from: u32, name: &Text) -> Result<(), AllocError>
    ensures { OnOk result (string_bytes out.new
        ≡ string_bytes out.old ++ (instance items.now from ++ codes " " ++ quoted name.now)) }
{
    put_instance(out, items, from)?;
    put_named(out, name)?;
    Ok(())
}

fn put_aliased_func(
    out: &mut String,
    items: &Items,
    index: u32,
    alias: &Alias,
) -> Result<(), AllocError>
    ensures { OnOk result (string_bytes out.new
        ≡ string_bytes out.old ++ aliased_func items.now index alias.now) }
{
    match alias {
        Alias::Export { instance, name, .. } => put_member(out, items, *instance, name),
        _ => put_numbered(out, Space::Func, index),
    }
}

fn put_of_func(out: &mut String, items: &Items, index: u32, item: &Item) -> Result<(), AllocError>
    ensures { OnOk result (string_bytes out.new
        ≡ string_bytes out.old ++ of_func items.now index (Some item.now)) }
{
    match item {
        Item::Import { name, .. } => put_import(out, name),
        Item::Alias(alias) => put_aliased_func(out, items, index, alias),
        _ => put_numbered(out, Space::Func, index),
    }
}

/// Writes the import that a function is, or of which it is an export.
fn put_func(out: &mut String, items: &Items, index: u32) -> Result<(), AllocError>
    ensures { OnOk result (string_bytes out.new ≡ string_bytes out.old ++ func items.now index) }
{
    match items.item(Space::Func, index) {
        Some(item) => put_of_func(out, items, index, item),
        None => put_numbered(out, Space::Func, index),
    }
}

fn word_of_intrinsic(intrinsic: &Intrinsic) -> &'static str
    ensures { result.now ≡ intrinsic_word intrinsic.now }
{
    match intrinsic {
        Intrinsic::ResourceNew(_) => "resource.new",
        Intrinsic::ResourceDrop(_) => "resource.drop",
        Intrinsic::ResourceRep(_) => "resource.rep",
        Intrinsic::TaskCancel => "task.cancel",
        Intrinsic::SubtaskCancel { .. } => "subtask.cancel",
        Intrinsic::TaskReturn { .. } => "task.return",
        Intrinsic::ContextGet { .. } => "context.get",
        Intrinsic::ContextSet { .. } => "context.set",
        Intrinsic::SubtaskDrop => "subtask.drop",
        Intrinsic::StreamNew(_) => "stream.new",
        Intrinsic::StreamRead { .. } => "stream.read",
        Intrinsic::StreamWrite { .. } => "stream.write",
        Intrinsic::StreamCancelRead { .. } => "stream.cancel-read",
        Intrinsic::StreamCancelWrite { .. } => "stream.cancel-write",
        Intrinsic::StreamDropReadable(_) => "stream.drop-readable",
        Intrinsic::StreamDropWritable(_) => "stream.drop-writable",
        Intrinsic::FutureNew(_) => "future.new",
        Intrinsic::FutureRead { .. } => "future.read",
        Intrinsic::FutureWrite { .. } => "future.write",
        Intrinsic::FutureCancelRead { .. } => "future.cancel-read",
        Intrinsic::FutureCancelWrite { .. } => "future.cancel-write",
        Intrinsic::FutureDropReadable(_) => "future.drop-readable",
        Intrinsic::FutureDropWritable(_) => "future.drop-writable",
        Intrinsic::ErrorContextNew { .. } => "error-context.new",
        Intrinsic::ErrorContextDebugMessage { .. } => "error-context.debug-message",
        Intrinsic::ErrorContextDrop => "error-context.drop",
        Intrinsic::WaitableSetNew => "waitable-set.new",
        Intrinsic::WaitableSetWait { .. } => "waitable-set.wait",
        Intrinsic::WaitableSetPoll { .. } => "waitable-set.poll",
        Intrinsic::WaitableSetDrop => "waitable-set.drop",
        Intrinsic::WaitableJoin => "waitable.join",
        Intrinsic::BackpressureInc => "backpressure.inc",
        Intrinsic::BackpressureDec => "backpressure.dec",
    }
}

fn put_intrinsic(out: &mut String, intrinsic: &Intrinsic) -> Result<(), AllocError>
    ensures { OnOk result (string_bytes out.new
        ≡ string_bytes out.old ++ (codes "built-in " ++ intrinsic_word intrinsic.now)) }
{
    out.push_str("built-in ")?;
    out.push_str(word_of_intrinsic(intrinsic))?;
    Ok(())
}

fn put_of_core_source(
    out: &mut String,
    items: &Items,
    space: Space,
    index: u32,
    item: &Item,
) -> Result<(), AllocError>
    ensures { OnOk result (string_bytes out.new
        ≡ string_bytes out.old ++ of_core_source items.now space index (Some item.now)) }
{
    match item {
        Item::Lower { func, .. } => put_func(out, items, *func),
        Item::Intrinsic(intrinsic) => put_intrinsic(out, intrinsic),
        _ => put_of_core_export(out, items, space, index, item),
    }
}

/// Writes what a core item is from.
pub(crate) fn put_core_source(
    out: &mut String,
    items: &Items,
    space: Space,
    index: u32,
) -> Result<(), AllocError>
    ensures { OnOk result
        (string_bytes out.new ≡ string_bytes out.old ++ core_source items.now space index) }
{
    match items.item(space, index) {
        Some(item) => put_of_core_source(out, items, space, index, item),
        None => put_numbered(out, space, index),
    }
}

fn put_of_core_how(out: &mut String, items: &Items, item: &Item) -> Result<(), AllocError>
    ensures { OnOk result
        (string_bytes out.new ≡ string_bytes out.old ++ of_core_how items.now (Some item.now)) }
{
    match item {
        Item::Lower { options, .. } => put_options(out, items, ", lowered", options.as_slice()),
        _ => Ok(()),
    }
}

/// Writes how a core item is made of what it is from.
pub(crate) fn put_core_how(
    out: &mut String,
    items: &Items,
    space: Space,
    index: u32,
) -> Result<(), AllocError>
    ensures { OnOk result
        (string_bytes out.new ≡ string_bytes out.old ++ core_how items.now space index) }
{
    match items.item(space, index) {
        Some(item) => put_of_core_how(out, items, item),
        None => Ok(()),
    }
}

fn put_of_func_source(
    out: &mut String,
    items: &Items,
    index: u32,
    item: &Item,
) -> Result<(), AllocError>
    ensures { OnOk result (string_bytes out.new
        ≡ string_bytes out.old ++ of_func_source items.now index (Some item.now)) }
{
    match item {
        Item::Lift { func, .. } => put_core_export(out, items, Space::CoreFunc, *func),
        _ => put_of_func(out, items, index, item),
    }
}

/// Writes what a function is from that is exported.
pub(crate) fn put_func_source(out: &mut String, items: &Items, index: u32) -> Result<(), AllocError>
    ensures { OnOk result
        (string_bytes out.new ≡ string_bytes out.old ++ func_source items.now index) }
{
    match items.item(Space::Func, index) {
        Some(item) => put_of_func_source(out, items, index, item),
        None => put_numbered(out, Space::Func, index),
    }
}

fn put_of_func_how(out: &mut String, items: &Items, item: &Item) -> Result<(), AllocError>
    ensures { OnOk result
        (string_bytes out.new ≡ string_bytes out.old ++ of_func_how items.now (Some item.now)) }
{
    match item {
        Item::Lift { options, .. } => put_options(out, items, ", lifted", options.as_slice()),
        _ => Ok(()),
    }
}

/// Writes how a function is made of what it is from.
pub(crate) fn put_func_how(out: &mut String, items: &Items, index: u32) -> Result<(), AllocError>
    ensures { OnOk result
        (string_bytes out.new ≡ string_bytes out.old ++ func_how items.now index) }
{
    match items.item(Space::Func, index) {
        Some(item) => put_of_func_how(out, items, item),
        None => Ok(()),
    }
}
