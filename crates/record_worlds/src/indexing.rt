//! The interfaces of a record by index.

ghost use Rattle.std.specs.Prelude.{◌≡◌, [], IfOk};
ghost use Rattle.record_worlds.specs.Indexing.{types_of, functions_of, indexed, indexed_from};

use crate::naming::{Names, index_name};
use crate::tables::InterfaceSet;
use comp_lists::{Keyed, Seq, Text};
use record_sides::IndexedInterface;
use record_types::{ReadInterface, TypeFacts};
use record_values::{Func, rename_name};
use std::alloc::{AllocError, Global};

/// The named types of an interface, and of each whether it is a resource itself.
fn types_of(alloc: Global, known: &Keyed<Text, TypeFacts>) -> Result<Keyed<Text, bool>, AllocError>
    ensures { IfOk result (λ t. t ≡ types_of known.now) }
{
    let mut types = Keyed::new(alloc);
    for (name, facts) in known.iter() {
        types.insert_if_absent(name.clone(alloc)?, facts.is_resource)?;
    }
    Ok(types)
}

/// Functions by name, with their indices.
fn functions_of(alloc: Global, functions: &[Func]) -> Result<Keyed<Text, usize>, AllocError>
    ensures { IfOk result (λ t. t ≡ functions_of functions.now) }
{
    let mut table = Keyed::new(alloc);
    for (index, function) in functions.iter().enumerate() {
        table.insert_if_absent(function.name.clone(alloc)?, index)?;
    }
    Ok(table)
}

/// The interface at an index.
fn index_interface(
    alloc: Global,
    names: &Names,
    imported: &InterfaceSet,
    exported: &InterfaceSet,
    index: usize,
    read: &ReadInterface,
) -> Result<IndexedInterface, AllocError>
    ensures { IfOk result (λ p. p ≡ indexed names.now imported.now exported.now index read.now) }
{
    let name = rename_name(alloc, names, &index_name(index))?;
    let types = types_of(alloc, &read.known)?;
    let functions = functions_of(alloc, read.functions.as_slice())?;
    let is_imported = imported.contains_key(&name);
    let is_exported = exported.contains_key(&name);
    Ok(IndexedInterface {
        name,
        is_imported,
        is_exported,
        types,
        functions,
    })
}

/// The interfaces of a record by index.
pub(crate) fn index_interfaces(
    alloc: Global,
    names: &Names,
    imported: &InterfaceSet,
    exported: &InterfaceSet,
    interfaces: &[ReadInterface],
) -> Result<Seq<IndexedInterface>, AllocError>
    ensures { IfOk result
        (λ p. p ≡ indexed_from names.now imported.now exported.now 0 interfaces.now) }
{
    let mut all = Seq::new(alloc);
    for (index, read) in interfaces.iter().enumerate() {
        all.push(index_interface(alloc, names, imported, exported, index, read)?)?;
    }
    Ok(all)
}
