//! The string encodings of functions, where the interfaces that have them have numbers.

ghost use Rattle.std.specs.Prelude.{◌≡◌, [], IfOk, OnOk};
ghost use Rattle.record_role_targets.specs.Keys as meanings;
ghost use Rattle.record_role_targets.specs.Metadata.{with_encoding, encodings_after, resolved_metadata};

use crate::keys::resolved_key;
use crate::sides::Side;
use comp_lists::Keyed;
use comp_roles::{FunctionKey, ModuleMetadata};
use record_merge::{FunctionOf, Roles};
use record_resolve::Resolved;
use standard_kinds::StringEncoding;
use std::alloc::{AllocError, Global};

/// Functions with their encodings.
type Encodings = Keyed<FunctionKey, StringEncoding>;

/// Adds the encoding of a function, if its key resolves and the function is new.
fn add_encoding(
    alloc: Global,
    resolved: &Resolved,
    side: Side,
    all: &mut Encodings,
    named: &FunctionOf,
    encoding: StringEncoding,
) -> Result<(), AllocError>
    ensures { OnOk result (all.new
        ≡ with_encoding all.old (meanings.resolved_key side resolved.now named.now.key)
        named.now.function encoding) }
{
    match resolved_key(alloc, resolved, side, &named.key)? {
        Some(key) => {
            let function = named.function.clone(alloc)?;
            all.insert_if_absent(FunctionKey { key, function }, encoding)
        }
        None => Ok(()),
    }
}

/// The encodings of the functions of a side.
fn resolve_encodings(
    alloc: Global,
    resolved: &Resolved,
    side: Side,
    encodings: &Keyed<FunctionOf, StringEncoding>,
) -> Result<Encodings, AllocError>
    ensures { IfOk result (λ t. t ≡ encodings_after side resolved.now [] encodings.now) }
{
    let mut all = Keyed::new(alloc);
    for (named, encoding) in encodings.iter() {
        add_encoding(alloc, resolved, side, &mut all, named, *encoding)?;
    }
    Ok(all)
}

/// The string encodings of the functions that a module imports and exports, where interfaces have
/// numbers. A function whose key does not resolve is left out. The only refusal is out of memory.
pub fn resolved_metadata(
    alloc: Global,
    resolved: &Resolved,
    roles: &Roles,
) -> Result<ModuleMetadata, AllocError>
    ensures { IfOk result (λ m. m ≡ resolved_metadata resolved.now roles.now) }
{
    Ok(ModuleMetadata {
        import_encodings: resolve_encodings(
            alloc,
            resolved,
            Side::Imported,
            &roles.import_encodings,
        )?,
        export_encodings: resolve_encodings(
            alloc,
            resolved,
            Side::Exported,
            &roles.export_encodings,
        )?,
    })
}
