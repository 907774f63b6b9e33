//! What types contain. Given are types; the query is the index of one. The answer is its bits: 1
//! where it has texts in it, 2 where it needs memory.

use bitflags::Flags;
use std::alloc::{AllocError, Global};
use wit_data::{Resolve, Type, TypeId};
use wit_texts::{id, resolve_of};

fn print_contents(alloc: Global, resolve: &Resolve, id: TypeId) -> Result<String, AllocError> {
    if !resolve.is_sound() || id.index >= resolve.types.len() {
        return String::from_str(alloc, "unsound");
    }
    let bits = resolve.type_contents(&Type::Id(id)).bits();
    format!(in alloc; "{bits}")
}

pub(crate) fn answer(alloc: Global, given: &str, asked: &str) -> Result<String, AllocError> {
    let resolve = resolve_of(alloc, given)?;
    let printed = print_contents(alloc, &resolve, id(asked));
    drop(resolve);
    printed
}
