//! Shims that a module needs, before they have a place.

ghost use Rattle.std.specs.Prelude.{◌≡◌, [], ◌∷◌, ◌++◌, IfOk, OnOk};

use crate::kinds::ShimKind;
use crate::shims::Shim;
use comp_lists::{Seq, Text};
use comp_options::RequiredOptions;
use std::alloc::{AllocError, Global};
use wit_data::{WasmSignature, WasmType};

/// A shim that a module needs.
pub(crate) struct NeededShim {
    pub options: RequiredOptions,
    pub debug_name: Text,
    pub kind: ShimKind,
    pub sig: WasmSignature,
}

impl Drop for NeededShim {
    fn drop(self) {
        let NeededShim {
            options: _,
            debug_name: _,
            kind: _,
            sig: _,
        } = self;
    }
}

impl NeededShim {
    /// The shim under its name.
    pub(crate) fn named(self, name: Text) -> Shim
        ensures { result
            ≡ record {
              options = self.options;
              name = name;
              debug_name = self.debug_name;
              kind = self.kind;
              sig = self.sig;
            } }
    {
        let NeededShim {
            options,
            debug_name,
            kind,
            sig,
        } = self;
        Shim {
            options,
            name,
            debug_name,
            kind,
            sig,
        }
    }
}

/// Appends an item to a list. Where memory is refused, the item is dropped.
pub(crate) fn append<T: Drop>(items: &mut Vec<T>, item: T) -> Result<(), AllocError>
    ensures { OnOk result (items.new.items ≡ items.old.items ++ item ∷ []) }
{
    items.push(item)?;
    Ok(())
}

fn copy_types(alloc: Global, types: &[WasmType]) -> Result<Seq<WasmType>, AllocError>
    ensures { IfOk result (λ copy. copy ≡ types.now) }
{
    Ok(Seq::from_vec(Vec::from_slice(alloc, types)?))
}

/// An equal core signature.
pub(crate) fn copy_sig(alloc: Global, sig: &WasmSignature) -> Result<WasmSignature, AllocError>
    ensures { IfOk result (λ copy. copy ≡ sig.now) }
{
    let params = copy_types(alloc, sig.params.as_slice())?;
    let results = copy_types(alloc, sig.results.as_slice())?;
    Ok(WasmSignature {
        params,
        results,
        indirect_params: sig.indirect_params,
        retptr: sig.retptr,
    })
}
