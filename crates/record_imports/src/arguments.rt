//! What satisfies the imports of a library from a module that stands in its arguments.

ghost use Rattle.std.specs.Prelude.{◌≡◌, Some, IfOk};
ghost use Rattle.std.specs.Option.{option_copied};
ghost use Rattle.comp_roles.specs.declared.libraries.Instance.TheVariants as arguments;
ghost use Rattle.record_imports.specs.Arguments.{argument_for, item_of, instance_given};
ghost use Rattle.record_imports.specs.Finding.{FindsItems, HasItems, FindsArguments};

use comp_lists::{Keyed, Text};
use comp_roles::{
    ExternType, Import, ImportInstance, Instance, Item, LibraryArgument, MainOrAdapter,
};
use std::alloc::{AllocError, Global};
use std::marker::Model;

// ---- tables

/// What satisfies the imports from one module, with the first item under each alias where it has
/// items. Contracts see what satisfies them, without the table.
#[derive(Drop)]
pub(crate) struct Argument<'a> {
    instance: &'a Instance,
    items: Keyed<Text, &'a Item>,
}

impl<'a> Model for Argument<'a> {
    ghost use Rattle.comp_roles.specs.declared.libraries.Instance.{Instance};
    ghost use Rattle.record_imports.specs.Finding.{HasItems};

    ghost Value = { Instance };

    ghost view = { λ a. a.instance.now };

    ghost invariant = { λ a. HasItems a.instance.now a.items };
}

/// The arguments of a library, which contracts see as their list.
///
/// It is made once of that list. Then a look-up by the name of a module, or by the alias of an
/// item, takes the time of a hash.
#[derive(Drop)]
pub struct Arguments<'a> {
    /// What contracts see. No look-up reads it.
    list: &'a [LibraryArgument],
    first: Keyed<Text, Argument<'a>>,
}

impl<'a> Model for Arguments<'a> {
    ghost use Rattle.std.specs.Prelude.{List};
    ghost use Rattle.comp_roles.specs.declared.libraries.LibraryArgument.{LibraryArgument};
    ghost use Rattle.record_imports.specs.Finding.{FindsArguments};

    ghost Value = { List LibraryArgument };

    ghost view = { λ a. a.list.now };

    ghost invariant = { λ a. FindsArguments a.list.now a.first };
}

/// The first item under each alias.
#[tactic(auto, using(crate::proofs::Finding::items_next))]
fn first_items<'a>(alloc: Global, items: &'a [Item]) -> Result<Keyed<Text, &'a Item>, AllocError>
    ensures { IfOk result (FindsItems items.now) }
{
    let mut first = Keyed::new(alloc);
    for item in items {
        first.insert_if_absent(item.alias.clone(alloc)?, item)?;
    }
    Ok(first)
}

/// The items of what satisfies the imports from a module; a whole instance has none.
fn items_in<'a>(alloc: Global, instance: &'a Instance) -> Result<Keyed<Text, &'a Item>, AllocError>
    ensures { IfOk result (HasItems instance.now) }
{
    match instance {
        Instance::MainOrAdapter(_) => Ok(Keyed::new(alloc)),
        Instance::Items(items) => first_items(alloc, items.as_slice()),
    }
}

/// The first argument for each module.
#[tactic(auto, using(crate::proofs::Finding::arguments_next))]
fn first_arguments<'a>(
    alloc: Global,
    list: &'a [LibraryArgument],
) -> Result<Keyed<Text, Argument<'a>>, AllocError>
    ensures { IfOk result (FindsArguments list.now) }
{
    let mut first = Keyed::new(alloc);
    for argument in list {
        let name = argument.name.clone(alloc)?;
        let argument = Argument::of(alloc, &argument.instance)?;
        first.insert_if_absent(name, argument)?;
    }
    Ok(first)
}

impl<'a> Argument<'a> {
    /// What satisfies the imports from a module, with its table.
    fn of(alloc: Global, instance: &'a Instance) -> Result<Argument<'a>, AllocError>
        ensures { IfOk result (λ a. a ≡ instance.now) }
    {
        let items = items_in(alloc, instance)?;
        Ok(Argument { instance, items })
    }

    fn instance(&self) -> &Instance
        ensures { result.now ≡ self.now }
    {
        self.instance
    }

    /// The item that an import of this field and type is given, if there is one.
    pub(crate) fn item_of(
        &self,
        alloc: Global,
        field: &Text,
        ty: &ExternType,
    ) -> Result<Option<Item>, AllocError>
        ensures { IfOk result (λ o. o ≡ item_of self.now field.now ty.now) }
    {
        item_of(alloc, self.instance, &self.items, field, ty)
    }
}

impl<'a> Arguments<'a> {
    /// These arguments. Of two for one module the first counts, and of two items under one alias.
    /// The only error is out of memory.
    pub fn of(alloc: Global, list: &'a [LibraryArgument]) -> Result<Arguments<'a>, AllocError>
        ensures { IfOk result (λ a. a ≡ list.now) }
    {
        let first = first_arguments(alloc, list)?;
        Ok(Arguments { list, first })
    }

    /// The first argument for a module.
    pub(crate) fn argument_for(&self, name: &Text) -> Option<&Argument<'a>>
        ensures { option_copied result ≡ argument_for self.now name.now }
    {
        self.first.get(name)
    }
}

// ---- what an import is given

/// What satisfies the imports from a module, by the first argument for it.
pub(crate) fn instance_for<'a>(arguments: &'a Arguments<'_>, name: &Text) -> Option<&'a Instance>
    ensures { option_copied result ≡ argument_for arguments.now name.now }
{
    let argument = arguments.argument_for(name)?;
    Some(argument.instance())
}

/// The export of a whole module under its own name.
fn export_of(
    alloc: Global,
    which: &MainOrAdapter,
    name: &Text,
    ty: &ExternType,
) -> Result<Item, AllocError>
    ensures { IfOk result
        (λ i. Some i ≡ item_of (arguments.MainOrAdapter which.now) name.now ty.now) }
{
    let alias = name.clone(alloc)?;
    let which = which.clone(alloc)?;
    let name = name.clone(alloc)?;
    Ok(Item {
        alias,
        kind: ty.kind(),
        which,
        name,
    })
}

/// The same item, if there is one.
fn copied_item(alloc: Global, item: Option<&Item>) -> Result<Option<Item>, AllocError>
    ensures { IfOk result (λ o. o ≡ option_copied item.entry) }
{
    match item {
        Some(item) => {
            let item = item.clone(alloc)?;
            Ok(Some(item))
        }
        None => Ok(None),
    }
}

/// The item that an import of this field and type is given, by what satisfies the imports from its
/// module, and its items.
fn item_of(
    alloc: Global,
    instance: &Instance,
    items: &Keyed<Text, &Item>,
    field: &Text,
    ty: &ExternType,
) -> Result<Option<Item>, AllocError>
    requires { HasItems instance.now items.now }
    ensures { IfOk result (λ o. o ≡ item_of instance.now field.now ty.now) }
{
    match instance {
        Instance::MainOrAdapter(which) => {
            let item = export_of(alloc, which, field, ty)?;
            Ok(Some(item))
        }
        Instance::Items(_) => copied_item(alloc, items.get(field).copied()),
    }
}

/// The imports from one module: a whole instance satisfies all of them, or each has its role.
pub(crate) fn instance_given(
    alloc: Global,
    argument: Option<&Instance>,
    fields: Keyed<Text, Import>,
) -> Result<ImportInstance, AllocError>
    ensures { IfOk result (λ i. i ≡ instance_given (option_copied argument.entry) fields) }
{
    match argument {
        Some(Instance::MainOrAdapter(which)) => {
            drop(fields);
            Ok(ImportInstance::Whole(which.clone(alloc)?))
        }
        _ => Ok(ImportInstance::Names(fields)),
    }
}
