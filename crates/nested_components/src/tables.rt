//! Copies of the tables of types.

ghost use Rattle.std.specs.Prelude.{◌≡◌, IfOk};
ghost use Rattle.nested_components.specs.Tables.{types_alone};

use comp_lists::{Keyed, TryClone};
use std::alloc::{AllocError, Global};
use wit_data::{TypeDefKind, TypeId};
use wit_types::TypeEncodingMaps;

/// An equal table of types by their numbers, memory allowing.
fn copy_ids(alloc: Global, table: &Keyed<TypeId, u32>) -> Result<Keyed<TypeId, u32>, AllocError>
    ensures { IfOk result (λ copy. copy ≡ table.now) }
{
    let mut copy = Keyed::new(alloc);
    for (id, index) in table.iter() {
        copy.insert(*id, *index)?;
    }
    Ok(copy)
}

/// An equal table of types without names by their kinds, memory allowing.
fn copy_kinds(
    alloc: Global,
    table: &Keyed<TypeDefKind, u32>,
) -> Result<Keyed<TypeDefKind, u32>, AllocError>
    ensures { IfOk result (λ copy. copy ≡ table.now) }
{
    let mut copy = Keyed::new(alloc);
    for (kind, index) in table.iter() {
        copy.insert(kind.try_clone(alloc)?, *index)?;
    }
    Ok(copy)
}

/// The tables without the types of functions, memory allowing.
pub(crate) fn copy_type_tables(
    alloc: Global,
    maps: &TypeEncodingMaps,
) -> Result<TypeEncodingMaps, AllocError>
    ensures { IfOk result (λ copy. copy ≡ types_alone maps.now) }
{
    let id_to_index = copy_ids(alloc, &maps.id_to_index)?;
    let def_to_index = copy_kinds(alloc, &maps.def_to_index)?;
    Ok(TypeEncodingMaps {
        id_to_index,
        def_to_index,
        func_type_map: Keyed::new(alloc),
    })
}
