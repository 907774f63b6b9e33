//! What an adapter imports: main's realloc, globals, and a memory.

ghost use Rattle.std.specs.Prelude.{◌≡◌, ◌≤◌, ◌<◌, ◌+◌, ◌^◌, length, option_map};
ghost use Rattle.adapter_fitting.specs.Stack.{is_realloc, functions_after, function_type_of};
ghost use Rattle.adapter_fitting.specs.Stack.{realloc_import, realloc_from, imported_from};
ghost use Rattle.adapter_fitting.specs.Stack.{globals_after, globals_from, is_memory, shares_memory};
ghost use Rattle.adapter_fitting.specs.Stack.{is_i32, are_i32, is_realloc_type};

use core_sections::{CoreImport, EntityType, FuncType, ValType};

/// The import of main's realloc: its index among the functions, and that of its type.
#[derive(Clone, Copy)]
pub(crate) struct ReallocImport {
    pub(crate) index: usize,
    pub(crate) type_index: u32,
}

fn is_realloc(import: &CoreImport) -> bool
    ensures { result ≡ is_realloc import.now }
{
    import.module.as_str() == "__main_module__" && import.field.as_str() == "cabi_realloc"
}

/// How many functions there are after this item.
fn functions_after(index: usize, entity: EntityType) -> usize
    requires { index + 1 < 2 ^ 64 }
    ensures { result ≡ functions_after index entity }
{
    match entity {
        EntityType::Function(_) => index + 1,
        _ => index,
    }
}

fn function_type_of(entity: EntityType) -> Option<u32>
    ensures { result ≡ function_type_of entity }
{
    match entity {
        EntityType::Function(type_index) => Some(type_index),
        _ => None,
    }
}

/// The import of main's realloc, if it is this one.
fn realloc_import(index: usize, import: &CoreImport) -> Option<ReallocImport>
    ensures { result ≡ realloc_import index import.now }
{
    if !is_realloc(import) {
        return None;
    }
    let type_index = function_type_of(import.entity)?;
    Some(ReallocImport { index, type_index })
}

/// The first import of main's realloc.
pub(crate) fn find_realloc(imports: &[CoreImport]) -> Option<ReallocImport>
    ensures { result ≡ realloc_from 0 imports.now }
{
    let mut index = 0;
    for import in imports {
        if let Some(found) = realloc_import(index, import) {
            return Some(found);
        }
        index = functions_after(index, import.entity);
    }
    None
}

/// How many functions are imported.
pub(crate) fn imported(imports: &[CoreImport]) -> usize
    ensures { result ≡ imported_from 0 imports.now }
{
    let mut index = 0;
    for import in imports {
        index = functions_after(index, import.entity);
    }
    index
}

/// How many globals there are after this item.
fn globals_after(index: usize, entity: EntityType) -> usize
    requires { index + 1 < 2 ^ 64 }
    ensures { result ≡ globals_after index entity }
{
    match entity {
        EntityType::Global { .. } => index + 1,
        _ => index,
    }
}

/// How many globals are imported.
pub(crate) fn imported_globals(imports: &[CoreImport]) -> usize
    ensures { result ≡ globals_from 0 imports.now }
{
    let mut index = 0;
    for import in imports {
        index = globals_after(index, import.entity);
    }
    index
}

fn is_memory(import: &CoreImport) -> bool
    ensures { result ≡ is_memory import.now }
{
    matches!(import.entity, EntityType::Memory(_))
}

/// Whether a memory is imported.
pub(crate) fn shares_memory(imports: &[CoreImport]) -> bool
    ensures { result ≡ shares_memory imports.now }
{
    for import in imports {
        if is_memory(import) {
            return true;
        }
    }
    false
}

/// Whether these are so many numbers of 32 bits.
fn are_i32(count: usize, types: &[ValType]) -> bool
    ensures { result ≡ are_i32 count types.now }
{
    let mut numbers = 0;
    for ty in types {
        if *ty == ValType::I32 {
            numbers += 1;
        }
    }
    types.len() == count && numbers == count
}

/// Whether this is the type of a realloc: four numbers of 32 bits, and one as the result.
pub(crate) fn is_realloc_type(ty: Option<&FuncType>) -> bool
    ensures { result ≡ is_realloc_type (option_map (λ t. t.now) ty.entry) }
{
    match ty {
        None => false,
        Some(ty) => are_i32(4, ty.params.as_slice()) && are_i32(1, ty.results.as_slice()),
    }
}
