//! Whether types are sound: those that name others, and those at the limits and past them. The query is the types.

use std::alloc::{AllocError, Global};
use wit_data::Resolve;
use wit_texts::resolve_of;

/// Whether a resolve is sound.
pub(crate) fn soundness_of(alloc: Global, resolve: &Resolve) -> Result<String, AllocError> {
    if resolve.is_sound() {
        String::from_str(alloc, "sound")
    } else {
        String::from_str(alloc, "unsound")
    }
}

pub(crate) fn answer(alloc: Global, asked: &str) -> Result<String, AllocError> {
    let resolve = resolve_of(alloc, asked)?;
    let answer = soundness_of(alloc, &resolve);
    drop(resolve);
    answer
}
