//! What of the user modules is not encoded yet: of main, and of the adapters.

ghost use Rattle.std.specs.Prelude.{◌≡◌, true, None, IfOk};
ghost use Rattle.std.specs.List.{AllByRecursion};
ghost use Rattle.std.specs.Option.{option_copied};
ghost use Rattle.comp_roles.specs.Lookups.{first_some};
ghost use Rattle.world_values.specs.Mentions.{same_interface};
ghost use Rattle.supported_worlds.specs.Apart.{GroupsApart, AdaptersApart};
ghost use Rattle.supported_worlds.specs.Distinct.{are_apart};
ghost use Rattle.supported_worlds.specs.LeftOut.{required_of, module_left_out, adapter_left_out};

use crate::owned::own_left_out;
use crate::places::Places;
use crate::roles::roles_left_out;
use comp_lists::{Keyed, Text};
use comp_worlds::{ValidatedModule, WorldAdapter};
use std::alloc::{AllocError, Global};
use wit_data::{Resolve, WorldItem, WorldKey};

/// What of a module is left out that has to export these keys; where nothing is, no import of it occurs twice.
pub(crate) fn module_left_out(
    alloc: Global,
    resolve: &Resolve,
    exports: &Keyed<WorldKey, WorldItem>,
    places: &Places,
    keys: &[WorldKey],
    info: &ValidatedModule,
) -> Result<Option<&'static str>, AllocError>
    requires once { are_apart same_interface (required_of exports.now keys.now) ≡ true }
    ensures reported { IfOk result (λ o. option_copied o
        ≡ module_left_out resolve.now exports.now places.now.types
        places.now.interfaces.root keys.now info.now) }
    ensures apart { IfOk result
        (λ o. option_copied o ≡ None → GroupsApart info.now.imports.modules) }
{
    match own_left_out(alloc, resolve, exports, keys, info)? {
        Some(what) => Ok(Some(what)),
        None => Ok(roles_left_out(resolve.types.as_slice(), places, info)),
    }
}

/// What of an adapter is left out; where nothing is, no import of it occurs twice.
fn adapter_left_out(
    alloc: Global,
    resolve: &Resolve,
    exports: &Keyed<WorldKey, WorldItem>,
    places: &Places,
    name: &Text,
    adapter: &WorldAdapter,
) -> Result<Option<&'static str>, AllocError>
    requires once { are_apart same_interface (required_of exports.now adapter.now.required_exports)
        ≡ true }
    ensures reported { IfOk result (λ o. option_copied o
        ≡ adapter_left_out resolve.now exports.now places.now.types
        places.now.interfaces.root (name.now, adapter.now)) }
    ensures apart { IfOk result
        (λ o. option_copied o ≡ None → GroupsApart adapter.now.info.imports.modules) }
{
    let keys = adapter.required_exports.as_slice();
    module_left_out(alloc, resolve, exports, places, keys, &adapter.info)
}

/// What of the adapters is left out; where nothing is, no name of an adapter and no import of one occurs twice.
#[tactic(auto, using(crate::proofs::Walking::adapters_start, crate::proofs::Walking::adapters_step, crate::proofs::Walking::adapters_end))]
pub(crate) fn adapters_left_out(
    alloc: Global,
    resolve: &Resolve,
    exports: &Keyed<WorldKey, WorldItem>,
    places: &Places,
    adapters: &Keyed<Text, WorldAdapter>,
) -> Result<Option<&'static str>, AllocError>
    requires once { AllByRecursion
        (λ a. are_apart same_interface (required_of exports.now a.1.required_exports) ≡ true)
        adapters.now }
    ensures reported { IfOk result (λ o. option_copied o
        ≡ first_some (adapter_left_out resolve.now exports.now places.now.types
        places.now.interfaces.root) adapters.now) }
    ensures apart { IfOk result (λ o. option_copied o ≡ None → AdaptersApart adapters.now) }
{
    for (name, adapter) in adapters.iter() {
        if let Some(what) = adapter_left_out(alloc, resolve, exports, places, name, adapter)? {
            return Ok(Some(what));
        }
    }
    Ok(None)
}
