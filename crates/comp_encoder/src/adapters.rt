//! The table of adapters: how one is added, and whether those that a library names are there.

ghost use Rattle.std.specs.Prelude.{◌≡◌, None, IfErr, IsOk, OnOk, OnErr};
ghost use Rattle.std.specs.Str.{bytes_eq};
ghost use Rattle.indexmap.specs.IndexMap.{insert_entry};
ghost use Rattle.comp_worlds.specs.Absent.{absent_argument};
ghost use Rattle.comp_encoder.specs.Adapters.{IsAddRefusal};

use crate::fault::EncodeFault;
use comp_lists::{Keyed, Text};
use comp_roles::LibraryInfo;
use comp_worlds::absent_argument;
use std::alloc::{AllocError, Global};
use world_values::GatheredAdapter;

/// Checks that each adapter that the arguments of a library name was added.
pub(crate) fn check_arguments<B, F>(
    alloc: Global,
    adapters: &Keyed<Text, GatheredAdapter<B>>,
    library: &str,
    info: &Option<LibraryInfo>,
) -> Result<(), EncodeFault<F>>
    ensures refused { IsOk result → absent_argument adapters.now info.now ≡ None }
    ensures cause { IfErr result (IsAddRefusal adapters.now library.now info.now) }
{
    match absent_argument(adapters, info) {
        None => Ok(()),
        Some(name) => {
            let library = Text::from_str(alloc, library)?;
            let name = name.clone(alloc)?;
            Err(EncodeFault::UnknownAdapter { library, name })
        }
    }
}

/// Adds an adapter. One of a name that is there takes the place of the other.
pub(crate) fn put_adapter<B: Drop>(
    alloc: Global,
    adapters: &mut Keyed<Text, GatheredAdapter<B>>,
    name: &str,
    adapter: GatheredAdapter<B>,
) -> Result<(), AllocError>
    ensures ok { OnOk result (adapters.new ≡ insert_entry bytes_eq adapters.old name.now adapter) }
    ensures err { OnErr result (adapters.new ≡ adapters.old) }
{
    let name = Text::from_str(alloc, name)?;
    adapters.set(name, adapter)?;
    Ok(())
}
