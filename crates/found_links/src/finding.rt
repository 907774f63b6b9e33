//! The links of a component.

ghost use Rattle.std.specs.Prelude.{◌≡◌, ◌++◌, ◌∷◌, [], Some, IfOk, OnOk, map, string_bytes};
ghost use Rattle.comp_bytes.specs.Spaces.{kind_space, sort_space};
ghost use Rattle.comp_bytes.specs.declared.space.Sort.TheVariants as sorts;
ghost use Rattle.std.specs.List.{flat_map};
ghost use Rattle.found_links.specs.Ends.{numbered, exported, instance, core_source, core_how, func_source, func_how};
ghost use Rattle.found_links.specs.Links.{core_link as core_link_of, module_text, named, entry_link as entry_link_of, whole_link as whole_link_of, of_argument, given_as as instance_given_as, filled as shims_filled, argument_links};
ghost use Rattle.found_links.specs.Links.{other_link, func_link as func_link_of, nested_links, of_exported_instance, export_links, item_links, definition_links, links as links_of};

use crate::ends::{
    put_core_how, put_core_instance, put_core_source, put_exported, put_func_how, put_func_source,
    put_instance, put_module, put_named,
};
use crate::items::Items;
use crate::link::Link;
use comp_bytes::{Argument, CoreArgument, CoreInlineExport, Def, Item, Sort, Space, space_of_kind};
use comp_lines::put_item;
use comp_lists::{Seq, Text};
use std::alloc::{AllocError, Global};

// ---- texts

fn no_text(alloc: Global) -> Text
    ensures { result ≡ [] }
{
    Text::from_string(String::new(alloc))
}

fn module_name(alloc: Global, number: u32) -> Result<Text, AllocError>
    ensures { IfOk result (λ t. t ≡ module_text number) }
{
    let mut text = String::new(alloc);
    put_module(&mut text, number)?;
    Ok(Text::from_string(text))
}

/// A name in quotes, behind a space.
fn name_text(alloc: Global, name: &Text) -> Result<Text, AllocError>
    ensures { IfOk result (λ t. t ≡ named name.now) }
{
    let mut text = String::new(alloc);
    put_named(&mut text, name)?;
    Ok(Text::from_string(text))
}

/// Two names in quotes, each behind a space.
fn names_text(alloc: Global, outer: &Text, inner: &Text) -> Result<Text, AllocError>
    ensures { IfOk result (λ t. t ≡ named outer.now ++ named inner.now) }
{
    let mut text = String::new(alloc);
    put_named(&mut text, outer)?;
    put_named(&mut text, inner)?;
    Ok(Text::from_string(text))
}

fn shim_name(alloc: Global, items: &Items, shims: u32, name: &Text) -> Result<Text, AllocError>
    ensures { IfOk result (λ t. t ≡ exported items.now shims name.now) }
{
    let mut text = String::new(alloc);
    put_exported(&mut text, items, shims, name)?;
    Ok(Text::from_string(text))
}

fn core_source_text(
    alloc: Global,
    items: &Items,
    space: Space,
    index: u32,
) -> Result<Text, AllocError>
    ensures { IfOk result (λ t. t ≡ core_source items.now space index) }
{
    let mut text = String::new(alloc);
    put_core_source(&mut text, items, space, index)?;
    Ok(Text::from_string(text))
}

fn core_how_text(alloc: Global, items: &Items, space: Space, index: u32) -> Result<Text, AllocError>
    ensures { IfOk result (λ t. t ≡ core_how items.now space index) }
{
    let mut text = String::new(alloc);
    put_core_how(&mut text, items, space, index)?;
    Ok(Text::from_string(text))
}

fn func_source_text(alloc: Global, items: &Items, index: u32) -> Result<Text, AllocError>
    ensures { IfOk result (λ t. t ≡ func_source items.now index) }
{
    let mut text = String::new(alloc);
    put_func_source(&mut text, items, index)?;
    Ok(Text::from_string(text))
}

fn func_how_text(alloc: Global, items: &Items, index: u32) -> Result<Text, AllocError>
    ensures { IfOk result (λ t. t ≡ func_how items.now index) }
{
    let mut text = String::new(alloc);
    put_func_how(&mut text, items, index)?;
    Ok(Text::from_string(text))
}

// ---- what a core module is given

fn core_link(
    alloc: Global,
    items: &Items,
    user: Text,
    name: Text,
    space: Space,
    index: u32,
) -> Result<Link, AllocError>
    ensures { IfOk result (λ l. l ≡ core_link_of items.now user name space index) }
{
    let source = core_source_text(alloc, items, space, index)?;
    let how = core_how_text(alloc, items, space, index)?;
    Ok(Link {
        user,
        name,
        source,
        how,
    })
}

/// The link of a shim: what is behind it.
fn shim_link(
    alloc: Global,
    items: &Items,
    shims: u32,
    entry: &CoreInlineExport,
) -> Result<Link, AllocError>
    ensures { IfOk result (λ l. l
        ≡ core_link_of items.now (exported items.now shims entry.now.name) []
        (kind_space entry.now.kind) entry.now.index) }
{
    let user = shim_name(alloc, items, shims, &entry.name)?;
    let space = space_of_kind(entry.kind);
    core_link(alloc, items, user, no_text(alloc), space, entry.index)
}

/// The link of an import, by the names of an argument and an entry.
fn import_link(
    alloc: Global,
    items: &Items,
    user: u32,
    argument: &Text,
    entry: &CoreInlineExport,
) -> Result<Link, AllocError>
    ensures { IfOk result (λ l. l
        ≡ core_link_of items.now (module_text user) (named argument.now ++ named entry.now.name)
        (kind_space entry.now.kind) entry.now.index) }
{
    let user = module_name(alloc, user)?;
    let name = names_text(alloc, argument, &entry.name)?;
    let space = space_of_kind(entry.kind);
    core_link(alloc, items, user, name, space, entry.index)
}

/// The link of an entry of an argument.
fn entry_link(
    alloc: Global,
    items: &Items,
    shims: Option<u32>,
    user: u32,
    argument: &Text,
    entry: &CoreInlineExport,
) -> Result<Link, AllocError>
    ensures { IfOk result (λ l. l ≡ entry_link_of items.now shims user argument.now entry.now) }
{
    match shims {
        Some(shims) => shim_link(alloc, items, shims, entry),
        None => import_link(alloc, items, user, argument, entry),
    }
}

fn add_entries(
    alloc: Global,
    items: &Items,
    shims: Option<u32>,
    user: u32,
    argument: &Text,
    entries: &[CoreInlineExport],
    links: &mut Seq<Link>,
) -> Result<(), AllocError>
    ensures { OnOk result (links.new
        ≡ links.old ++ map (entry_link_of items.now shims user argument.now) entries.now) }
{
    for entry in entries {
        let link = entry_link(alloc, items, shims, user, argument, entry)?;
        links.push(link)?;
    }
    Ok(())
}

/// The link of an argument that is an instance as a whole.
fn whole_link(
    alloc: Global,
    items: &Items,
    user: u32,
    argument: &CoreArgument,
) -> Result<Link, AllocError>
    ensures { IfOk result (λ l. l ≡ whole_link_of items.now user argument.now) }
{
    let mut source = String::new(alloc);
    put_core_instance(&mut source, items, argument.instance)?;
    let user = module_name(alloc, user)?;
    let name = name_text(alloc, &argument.name)?;
    Ok(Link {
        user,
        name,
        source: Text::from_string(source),
        how: no_text(alloc),
    })
}

fn add_whole(
    alloc: Global,
    items: &Items,
    user: u32,
    argument: &CoreArgument,
    links: &mut Seq<Link>,
) -> Result<(), AllocError>
    ensures { OnOk result
        (links.new ≡ links.old ++ whole_link_of items.now user argument.now ∷ []) }
{
    let link = whole_link(alloc, items, user, argument)?;
    links.push(link)?;
    Ok(())
}

fn add_of_argument(
    alloc: Global,
    items: &Items,
    shims: Option<u32>,
    user: u32,
    argument: &CoreArgument,
    item: &Item,
    links: &mut Seq<Link>,
) -> Result<(), AllocError>
    ensures { OnOk result (links.new
        ≡ links.old ++ of_argument items.now shims user argument.now (Some item.now)) }
{
    match item {
        Item::CoreExports(entries) => add_entries(
            alloc,
            items,
            shims,
            user,
            &argument.name,
            entries.as_slice(),
            links,
        ),
        _ => add_whole(alloc, items, user, argument, links),
    }
}

/// The instance that is given under a name.
fn given_as(name: &str, arguments: &[CoreArgument]) -> Option<u32>
    ensures { result ≡ instance_given_as name.now arguments.now }
{
    let mut rest = arguments;
    loop {
        match rest {
            [] => return None,
            [argument, behind @ ..] => {
                if argument.name.as_str() == name {
                    return Some(argument.instance);
                }
                rest = behind;
            }
        }
    }
}

/// The instance whose shims an argument fills.
fn filled(shims: Option<u32>, argument: &CoreArgument) -> Option<u32>
    ensures { result ≡ shims_filled shims argument.now }
{
    if argument.name.as_str() == "actual" {
        shims
    } else {
        None
    }
}

/// Adds the links of an argument.
fn add_argument(
    alloc: Global,
    items: &Items,
    shims: Option<u32>,
    user: u32,
    argument: &CoreArgument,
    links: &mut Seq<Link>,
) -> Result<(), AllocError>
    ensures { OnOk result
        (links.new ≡ links.old ++ argument_links items.now shims user argument.now) }
{
    let shims = filled(shims, argument);
    match items.item(Space::CoreInstance, argument.instance) {
        Some(item) => add_of_argument(alloc, items, shims, user, argument, item, links),
        None => add_whole(alloc, items, user, argument, links),
    }
}

fn add_arguments(
    alloc: Global,
    items: &Items,
    shims: Option<u32>,
    user: u32,
    arguments: &[CoreArgument],
    links: &mut Seq<Link>,
) -> Result<(), AllocError>
    ensures { OnOk result (links.new
        ≡ links.old ++ flat_map (argument_links items.now shims user) arguments.now) }
{
    for argument in arguments {
        add_argument(alloc, items, shims, user, argument, links)?;
    }
    Ok(())
}

// ---- what is exported

fn func_link(alloc: Global, items: &Items, name: Text, index: u32) -> Result<Link, AllocError>
    ensures { IfOk result (λ l. l ≡ func_link_of items.now name index) }
{
    let user = Text::from_str(alloc, "exports")?;
    let source = func_source_text(alloc, items, index)?;
    let how = func_how_text(alloc, items, index)?;
    Ok(Link {
        user,
        name,
        source,
        how,
    })
}

fn add_func(
    alloc: Global,
    items: &Items,
    name: Text,
    index: u32,
    links: &mut Seq<Link>,
) -> Result<(), AllocError>
    ensures { OnOk result (links.new ≡ links.old ++ func_link_of items.now name index ∷ []) }
{
    let link = func_link(alloc, items, name, index)?;
    links.push(link)?;
    Ok(())
}

/// Adds the link of an argument of a nested component, where it is a function.
fn add_nested(
    alloc: Global,
    items: &Items,
    name: &Text,
    argument: &Argument,
    links: &mut Seq<Link>,
) -> Result<(), AllocError>
    ensures { OnOk result
        (links.new ≡ links.old ++ nested_links items.now name.now argument.now) }
{
    match argument.sort {
        Sort::Func => {
            let name = names_text(alloc, name, &argument.name)?;
            add_func(alloc, items, name, argument.index, links)
        }
        _ => Ok(()),
    }
}

fn add_each_nested(
    alloc: Global,
    items: &Items,
    name: &Text,
    arguments: &[Argument],
    links: &mut Seq<Link>,
) -> Result<(), AllocError>
    ensures { OnOk result
        (links.new ≡ links.old ++ flat_map (nested_links items.now name.now) arguments.now) }
{
    for argument in arguments {
        add_nested(alloc, items, name, argument, links)?;
    }
    Ok(())
}

/// Adds the link of an export that is no function, and of which this is the source.
fn add_other(
    alloc: Global,
    name: &Text,
    source: String,
    links: &mut Seq<Link>,
) -> Result<(), AllocError>
    ensures { OnOk result (links.new ≡ links.old
        ++ other_link name.now (string_bytes source) ∷ []) }
{
    let user = Text::from_str(alloc, "exports")?;
    let name = name_text(alloc, name)?;
    links.push(Link {
        user,
        name,
        source: Text::from_string(source),
        how: no_text(alloc),
    })?;
    Ok(())
}

fn add_instance(
    alloc: Global,
    items: &Items,
    name: &Text,
    index: u32,
    links: &mut Seq<Link>,
) -> Result<(), AllocError>
    ensures { OnOk result (links.new ≡ links.old
        ++ other_link name.now (instance items.now index) ∷ []) }
{
    let mut source = String::new(alloc);
    put_instance(&mut source, items, index)?;
    add_other(alloc, name, source, links)
}

fn add_of_instance(
    alloc: Global,
    items: &Items,
    name: &Text,
    index: u32,
    item: &Item,
    links: &mut Seq<Link>,
) -> Result<(), AllocError>
    ensures { OnOk result (links.new
        ≡ links.old ++ of_exported_instance items.now name.now index (Some item.now)) }
{
    match item {
        Item::Instantiate { args, .. } => {
            add_each_nested(alloc, items, name, args.as_slice(), links)
        }
        _ => add_instance(alloc, items, name, index, links),
    }
}

fn add_exported_instance(
    alloc: Global,
    items: &Items,
    name: &Text,
    index: u32,
    links: &mut Seq<Link>,
) -> Result<(), AllocError>
    ensures { OnOk result
        (links.new ≡ links.old ++ export_links items.now name.now sorts.Instance index) }
{
    match items.item(Space::Instance, index) {
        Some(item) => add_of_instance(alloc, items, name, index, item, links),
        None => add_instance(alloc, items, name, index, links),
    }
}

fn add_exported_func(
    alloc: Global,
    items: &Items,
    name: &Text,
    index: u32,
    links: &mut Seq<Link>,
) -> Result<(), AllocError>
    ensures { OnOk result
        (links.new ≡ links.old ++ export_links items.now name.now sorts.Func index) }
{
    let name = name_text(alloc, name)?;
    add_func(alloc, items, name, index, links)
}

fn add_numbered(
    alloc: Global,
    name: &Text,
    sort: Sort,
    index: u32,
    links: &mut Seq<Link>,
) -> Result<(), AllocError>
    ensures { OnOk result (links.new ≡ links.old
        ++ other_link name.now (numbered (sort_space sort) index) ∷ []) }
{
    let mut source = String::new(alloc);
    put_item(&mut source, sort.space(), u64::from(index))?;
    add_other(alloc, name, source, links)
}

/// Adds the links of an export.
fn add_export(
    alloc: Global,
    items: &Items,
    name: &Text,
    sort: Sort,
    index: u32,
    links: &mut Seq<Link>,
) -> Result<(), AllocError>
    ensures { OnOk result (links.new ≡ links.old ++ export_links items.now name.now sort index) }
{
    match sort {
        Sort::Func => add_exported_func(alloc, items, name, index, links),
        Sort::Instance => add_exported_instance(alloc, items, name, index, links),
        _ => add_numbered(alloc, name, sort, index, links),
    }
}

// ---- all of them

fn add_item(
    alloc: Global,
    items: &Items,
    item: &Item,
    links: &mut Seq<Link>,
) -> Result<(), AllocError>
    ensures { OnOk result (links.new ≡ links.old ++ item_links items.now item.now) }
{
    match item {
        Item::CoreInstantiate { module, args } => {
            let shims = given_as("shim", args.as_slice());
            add_arguments(alloc, items, shims, *module, args.as_slice(), links)
        }
        Item::Export {
            name,
            sort,
            index,
            ..
        } => add_export(alloc, items, &name.name, *sort, *index, links),
        _ => Ok(()),
    }
}

fn add_definition(
    alloc: Global,
    items: &Items,
    definition: &Def,
    links: &mut Seq<Link>,
) -> Result<(), AllocError>
    ensures { OnOk result (links.new ≡ links.old ++ definition_links items.now definition.now) }
{
    match definition {
        Def::Item(item) => add_item(alloc, items, item, links),
        Def::Component(_) => Ok(()),
    }
}

fn add_definitions(
    alloc: Global,
    items: &Items,
    definitions: &[Def],
    links: &mut Seq<Link>,
) -> Result<(), AllocError>
    ensures { OnOk result
        (links.new ≡ links.old ++ flat_map (definition_links items.now) definitions.now) }
{
    for definition in definitions {
        add_definition(alloc, items, definition, links)?;
    }
    Ok(())
}

/// The links of a component, in the order of its definitions: each import of each instance of a core
/// module with the item that it is given, what is behind each shim, and what each export is.
///
/// An index may name no item: that is shown as its number. It takes time in the size of the
/// definitions and of the result, and refuses only when out of memory.
pub fn find_links(alloc: Global, definitions: &[Def]) -> Result<Seq<Link>, AllocError>
    ensures { IfOk result (λ found. found ≡ links_of definitions.now) }
{
    let items = Items::of(alloc, definitions)?;
    let mut links = Seq::new(alloc);
    add_definitions(alloc, &items, definitions, &mut links)?;
    Ok(links)
}
