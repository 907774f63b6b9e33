//! What an item is made of, form by form.

ghost use Rattle.std.specs.Prelude.{◌≡◌, [], ◌++◌, ◌∷◌, string_bytes, codes, Some};
ghost use Rattle.std.specs.List.{flat_map};
ghost use Rattle.std.specs.Fmt.{decimal};
ghost use Rattle.comp_bytes.specs.Grammar.{intrinsic_bytes, description_bytes};
ghost use Rattle.comp_bytes.specs.Spaces.{sort_space, alias_space, item_space};
ghost use Rattle.hex.specs.Hex.{encode_lower};
ghost use Rattle.comp_lines.specs.Texts.{quoted};
ghost use Rattle.comp_lines.specs.Lines.{space_word, core_export, option, extern, alias, shown, made_of, left, item_line};
ghost use Rattle.comp_lines.specs.Written.{Puts};
ghost use Rattle.comp_bytes.specs.declared.space.Space.TheVariants.{Component};

use crate::parts::{Printable, put_each, put_extern, put_item, put_numbered};
use crate::texts::{put_hex, put_number, put_quoted};
use byte_encoding::BuildFault;
use comp_bytes::{
    Alias, CanonicalOption, CoreInlineExport, Description, ExternName, Intrinsic, Item, Sort,
    Space, space_of_kind,
};
use comp_lists::{Seq, Text};
use measured_bytes::{Emit, encoded};
use std::alloc::Global;

/// Writes a size in bytes.
fn put_size(out: &mut String, bytes: usize) -> Result<(), BuildFault>
    ensures { Puts (string_bytes out.old) (string_bytes out.new) result
        (decimal bytes ++ codes " bytes") [] }
{
    put_number(out, bytes as u64)?;
    out.push_str(" bytes")?;
    Ok(())
}

/// Writes a word, a number and each of some values.
fn put_with_each<T: Printable>(
    out: &mut String,
    word: &str,
    number: u32,
    items: &[T],
) -> Result<(), BuildFault>
    ensures { Puts (string_bytes out.old) (string_bytes out.new) result
        (word.now ++ decimal number ++ flat_map T.text items.now) [] }
{
    put_numbered(out, word, number)?;
    put_each(out, items)?;
    Ok(())
}

/// Writes what is instantiated, and its arguments.
fn put_instantiate<T: Printable>(
    out: &mut String,
    made: u32,
    args: &Seq<T>,
) -> Result<(), BuildFault>
    ensures { Puts (string_bytes out.old) (string_bytes out.new) result
        (codes "instantiate " ++ decimal made ++ flat_map T.text args.now) [] }
{
    put_with_each(out, "instantiate ", made, args.as_slice())
}

fn put_exports(out: &mut String, exports: &[CoreInlineExport]) -> Result<(), BuildFault>
    ensures { Puts (string_bytes out.old) (string_bytes out.new) result
        (codes "exports" ++ flat_map core_export exports.now) [] }
{
    out.push_str("exports")?;
    put_each(out, exports)?;
    Ok(())
}

/// Writes which export of an instance is aliased.
fn put_alias_of(out: &mut String, instance: u32, name: &Text) -> Result<(), BuildFault>
    ensures { Puts (string_bytes out.old) (string_bytes out.new) result
        (codes "alias " ++ decimal instance ++ codes " " ++ quoted name.now) [] }
{
    put_numbered(out, "alias ", instance)?;
    out.push_str(" ")?;
    put_quoted(out, name.as_str())?;
    Ok(())
}

fn put_outer(out: &mut String, count: u32, index: u32) -> Result<(), BuildFault>
    ensures { Puts (string_bytes out.old) (string_bytes out.new) result
        (codes "outer " ++ decimal count ++ codes " " ++ decimal index) [] }
{
    put_numbered(out, "outer ", count)?;
    put_numbered(out, " ", index)?;
    Ok(())
}

fn put_alias(out: &mut String, aliased: &Alias) -> Result<(), BuildFault>
    ensures { Puts (string_bytes out.old) (string_bytes out.new) result (alias aliased.now) [] }
{
    match aliased {
        Alias::Export { instance, name, .. } => put_alias_of(out, *instance, name),
        Alias::CoreExport { instance, name, .. } => put_alias_of(out, *instance, name),
        Alias::Outer { count, index } => put_outer(out, *count, *index),
    }
}

fn put_lift(
    out: &mut String,
    func: u32,
    options: &[CanonicalOption],
    ty: u32,
) -> Result<(), BuildFault>
    ensures { Puts (string_bytes out.old) (string_bytes out.new) result
        (codes "lift " ++ decimal func ++ codes " " ++ decimal ty ++ flat_map option options.now)
        [] }
{
    put_numbered(out, "lift ", func)?;
    put_numbered(out, " ", ty)?;
    put_each(out, options)?;
    Ok(())
}

/// Writes the bytes that encode a value.
fn put_encoded<T: Emit>(alloc: Global, out: &mut String, value: &T) -> Result<(), BuildFault>
    ensures { Puts (string_bytes out.old) (string_bytes out.new) result
        (encode_lower (T.encoding value.now).bytes) (T.encoding value.now).counts }
{
    let bytes = encoded(alloc, value)?;
    put_hex(out, bytes.as_slice())?;
    Ok(())
}

fn put_intrinsic(alloc: Global, out: &mut String, intrinsic: &Intrinsic) -> Result<(), BuildFault>
    ensures { Puts (string_bytes out.old) (string_bytes out.new) result
        (codes "canon " ++ encode_lower (intrinsic_bytes intrinsic.now).bytes)
        (intrinsic_bytes intrinsic.now).counts }
{
    out.push_str("canon ")?;
    put_encoded(alloc, out, intrinsic)?;
    Ok(())
}

fn put_import(
    alloc: Global,
    out: &mut String,
    name: &ExternName,
    description: &Description,
) -> Result<(), BuildFault>
    ensures { Puts (string_bytes out.old) (string_bytes out.new) result (codes "import "
        ++ extern name.now ++ codes " "
        ++ encode_lower (description_bytes description.now).bytes)
        (description_bytes description.now).counts }
{
    out.push_str("import ")?;
    put_extern(out, name)?;
    out.push_str(" ")?;
    put_encoded(alloc, out, description)?;
    Ok(())
}

fn put_export(out: &mut String, name: &ExternName, sort: Sort, index: u32) -> Result<(), BuildFault>
    ensures { Puts (string_bytes out.old) (string_bytes out.new) result (codes "export "
        ++ extern name.now ++ codes " " ++ space_word (sort_space sort) ++ codes " "
        ++ decimal index) [] }
{
    out.push_str("export ")?;
    put_extern(out, name)?;
    out.push_str(" ")?;
    put_item(out, sort.space(), u64::from(index))?;
    Ok(())
}

fn put_custom(out: &mut String, name: &Text, bytes: usize) -> Result<(), BuildFault>
    ensures { Puts (string_bytes out.old) (string_bytes out.new) result
        (codes "custom " ++ quoted name.now ++ codes " " ++ decimal bytes ++ codes " bytes") [] }
{
    out.push_str("custom ")?;
    put_quoted(out, name.as_str())?;
    out.push_str(" ")?;
    put_size(out, bytes)?;
    Ok(())
}

/// Writes what an item is made of.
fn put_made_of(alloc: Global, out: &mut String, item: &Item) -> Result<(), BuildFault>
    ensures { Puts (string_bytes out.old) (string_bytes out.new) result (made_of item.now)
        (shown item.now).counts }
{
    match item {
        Item::CoreModule(bytes) => put_size(out, bytes.len()),
        Item::CoreInstantiate { module, args } => put_instantiate(out, *module, args),
        Item::CoreExports(exports) => put_exports(out, exports.as_slice()),
        Item::Instantiate { component, args } => put_instantiate(out, *component, args),
        Item::Alias(aliased) => put_alias(out, aliased),
        Item::Type(ty) => put_encoded(alloc, out, ty),
        Item::InstanceType(ty) => put_encoded(alloc, out, ty),
        Item::Lift { func, options, ty } => put_lift(out, *func, options.as_slice(), *ty),
        Item::Lower { func, options } => put_with_each(out, "lower ", *func, options.as_slice()),
        Item::Intrinsic(intrinsic) => put_intrinsic(alloc, out, intrinsic),
        Item::Import { name, description } => put_import(alloc, out, name, description),
        Item::Export {
            name,
            sort,
            index,
            ..
        } => put_export(out, name, *sort, *index),
        Item::Custom { name, contents } => put_custom(out, name, contents.len()),
    }
}

fn space_of_alias(aliased: &Alias) -> Space
    ensures { result ≡ alias_space aliased.now }
{
    match aliased {
        Alias::Export { kind, .. } => kind.space(),
        Alias::CoreExport { kind, .. } => space_of_kind(*kind),
        Alias::Outer { .. } => Space::Type,
    }
}

/// The space in which an item is made; a custom section makes none.
pub fn space_of_item(item: &Item) -> Option<Space>
    ensures { result ≡ item_space item.now }
{
    match item {
        Item::CoreModule(_) => Some(Space::CoreModule),
        Item::CoreInstantiate { .. } => Some(Space::CoreInstance),
        Item::CoreExports(_) => Some(Space::CoreInstance),
        Item::Instantiate { .. } => Some(Space::Instance),
        Item::Alias(aliased) => Some(space_of_alias(aliased)),
        Item::Type(_) => Some(Space::Type),
        Item::InstanceType(_) => Some(Space::Type),
        Item::Lift { .. } => Some(Space::Func),
        Item::Lower { .. } => Some(Space::CoreFunc),
        Item::Intrinsic(_) => Some(Space::CoreFunc),
        Item::Import { description, .. } => Some(description.space()),
        Item::Export { sort, .. } => Some(sort.space()),
        Item::Custom { .. } => None,
    }
}

/// Writes the left side of a line: the item's space and index.
pub(crate) fn put_left(out: &mut String, space: Option<Space>, index: u64) -> Result<(), BuildFault>
    ensures { Puts (string_bytes out.old) (string_bytes out.new) result (left space index) [] }
{
    if let Some(space) = space {
        put_item(out, space, index)?;
        out.push_str(" = ")?;
    }
    Ok(())
}

/// Writes the line of an item with this index.
pub(crate) fn put_item_line(
    alloc: Global,
    out: &mut String,
    index: u64,
    item: &Item,
) -> Result<(), BuildFault>
    ensures { Puts (string_bytes out.old) (string_bytes out.new) result (item_line index item.now)
        (shown item.now).counts }
{
    put_left(out, space_of_item(item), index)?;
    put_made_of(alloc, out, item)?;
    Ok(())
}

/// Writes the line of a nested component with this index and this many definitions.
pub(crate) fn put_component_line(
    out: &mut String,
    index: u64,
    definitions: usize,
) -> Result<(), BuildFault>
    ensures { Puts (string_bytes out.old) (string_bytes out.new) result
        (left (Some Component) index ++ decimal definitions ++ codes " definitions") [] }
{
    put_left(out, Some(Space::Component), index)?;
    put_number(out, definitions as u64)?;
    out.push_str(" definitions")?;
    Ok(())
}
