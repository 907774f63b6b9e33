//! The adapters that a user module names: in the arguments of a library, and as modules whose
//! instances its imports are given.

ghost use Rattle.std.specs.Prelude.{◌≡◌};
ghost use Rattle.std.specs.Option.{option_copied};
ghost use Rattle.comp_roles.specs.Lookups.{first_some};
ghost use Rattle.comp_worlds.specs.Absent as specs;

use crate::world::WorldAdapter;
use comp_lists::{Keyed, Text};
use comp_roles::{
    Import, ImportInstance, ImportMap, Instance, Item, LibraryArgument, LibraryInfo, MainOrAdapter,
};

/// The name of the adapter that is named, where the table has none of that name.
fn absent_module<'a, V>(table: &Keyed<Text, V>, which: &'a MainOrAdapter) -> Option<&'a Text>
    ensures { option_copied result ≡ specs.absent_module table.now which.now }
{
    match which {
        MainOrAdapter::Main => None,
        MainOrAdapter::Adapter(name) => {
            if table.contains_key(name) {
                None
            } else {
                Some(name)
            }
        }
    }
}

/// The first such name in these items.
fn absent_in_items<'a, V>(table: &Keyed<Text, V>, items: &'a [Item]) -> Option<&'a Text>
    ensures { option_copied result
        ≡ first_some (λ i. specs.absent_module table.now i.which) items.now }
{
    for item in items {
        if let Some(name) = absent_module(table, &item.which) {
            return Some(name);
        }
    }
    None
}

/// The first such name in what satisfies the imports from one module.
fn absent_in_instance<'a, V>(table: &Keyed<Text, V>, instance: &'a Instance) -> Option<&'a Text>
    ensures { option_copied result ≡ specs.absent_in_instance table.now instance.now }
{
    match instance {
        Instance::MainOrAdapter(which) => absent_module(table, which),
        Instance::Items(items) => absent_in_items(table, items.as_slice()),
    }
}

/// The first such name in the arguments of a library.
fn absent_in_arguments<'a, V>(
    table: &Keyed<Text, V>,
    arguments: &'a [LibraryArgument],
) -> Option<&'a Text>
    ensures { option_copied result
        ≡ first_some (λ a. specs.absent_in_instance table.now a.instance) arguments.now }
{
    for argument in arguments {
        if let Some(name) = absent_in_instance(table, &argument.instance) {
            return Some(name);
        }
    }
    None
}

/// The first adapter that the arguments of a library name and that is not in a table. A plain adapter names none.
pub fn absent_argument<'a, V>(
    table: &Keyed<Text, V>,
    info: &'a Option<LibraryInfo>,
) -> Option<&'a Text>
    ensures { option_copied result ≡ specs.absent_argument table.now info.now }
{
    match info {
        None => None,
        Some(info) => absent_in_arguments(table, info.arguments.as_slice()),
    }
}

/// The name of the adapter of which an import is given an item, where the table has none of that name.
fn absent_item<'a, V>(table: &Keyed<Text, V>, import: &'a Import) -> Option<&'a Text>
    ensures { option_copied result ≡ specs.absent_item table.now import.now }
{
    match import {
        Import::Item(item) => absent_module(table, &item.which),
        _ => None,
    }
}

/// The first such name among the items that fields are given.
fn absent_in_fields<'a, V>(
    table: &Keyed<Text, V>,
    fields: &'a Keyed<Text, Import>,
) -> Option<&'a Text>
    ensures { option_copied result ≡ first_some (λ f. specs.absent_item table.now f.1) fields.now }
{
    for (_, import) in fields.iter() {
        if let Some(name) = absent_item(table, import) {
            return Some(name);
        }
    }
    None
}

/// The first such name in what the imports from one module are given.
fn absent_in_group<'a, V>(table: &Keyed<Text, V>, instance: &'a ImportInstance) -> Option<&'a Text>
    ensures { option_copied result ≡ specs.absent_in_group table.now instance.now }
{
    match instance {
        ImportInstance::Names(fields) => absent_in_fields(table, fields),
        ImportInstance::Whole(which) => absent_module(table, which),
    }
}

/// The first such name in what the imports of a module are given.
fn absent_in_imports<'a, V>(table: &Keyed<Text, V>, imports: &'a ImportMap) -> Option<&'a Text>
    ensures { option_copied result ≡ specs.absent_in_imports table.now imports.now }
{
    for (_, instance) in imports.modules.iter() {
        if let Some(name) = absent_in_group(table, instance) {
            return Some(name);
        }
    }
    None
}

/// The first adapter that an adapter names and that is not in a table: in its arguments, or as a
/// module whose instance, or an item of that, its imports are given.
pub fn absent_adapter<'a, V>(table: &Keyed<Text, V>, adapter: &'a WorldAdapter) -> Option<&'a Text>
    ensures { option_copied result ≡ specs.absent_adapter table.now adapter.now }
{
    match absent_argument(table, &adapter.library_info) {
        Some(name) => Some(name),
        None => absent_in_imports(table, &adapter.info.imports),
    }
}
