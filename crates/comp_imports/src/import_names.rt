//! The names of interfaces: under which they are imported, and under which they are exported.

ghost use Rattle.std.specs.Prelude.{◌≡◌, IfOk};
ghost use Rattle.comp_links.specs.Naming.{import_name, name_of, plain_name, suffix_of};
ghost use Rattle.wit_data.specs.Names.{canonical_key_text};
ghost use Rattle.wit_data.specs.Sound.{IsSound, HasKey};
ghost use Rattle.comp_imports.specs.Names.{naming_of};

use comp_bytes::ExternName;
use comp_lists::{Keyed, Text};
use std::alloc::{AllocError, Global};
use wit_data::{Resolve, WorldKey};

/// How the names of interfaces are made, and whether core modules have names.
#[derive(Clone, Copy)]
pub struct ImportNames<'a> {
    /// Whether a name has the canonical part of its version alone, with the rest as a suffix.
    pub canonical: bool,
    /// Other names for imported interfaces, by their names with the whole version.
    pub renamed: &'a Keyed<Text, Text>,
    /// Whether the core modules of adapters, and those that are generated, have names for debuggers.
    pub debug_names: bool,
}

/// The rest of the version of an interface, which its canonical name lacks.
fn version_suffix_of(
    alloc: Global,
    resolve: &Resolve,
    key: &WorldKey,
) -> Result<Option<Text>, AllocError>
    requires sound { IsSound resolve.now }
    requires present { HasKey resolve.now key.now }
    ensures { IfOk result (λ suffix. suffix ≡ suffix_of resolve.now key.now) }
{
    match key {
        WorldKey::Name(_) => Ok(None),
        WorldKey::Interface(id) => match &resolve.interfaces.as_slice()[id.index].id {
            Some(name) => name.version_suffix(alloc),
            None => Ok(None),
        },
    }
}

/// The canonical name of a key, with its suffix.
fn canonical_name(
    alloc: Global,
    resolve: &Resolve,
    key: &WorldKey,
) -> Result<ExternName, AllocError>
    requires sound { IsSound resolve.now }
    requires present { HasKey resolve.now key.now }
    ensures { IfOk result (λ name. name
        ≡ record {
          name = canonical_key_text resolve.now key.now;
          version_suffix = suffix_of resolve.now key.now;
        }) }
{
    let name = resolve.name_canonicalized_world_key(alloc, key)?;
    let version_suffix = version_suffix_of(alloc, resolve, key)?;
    Ok(ExternName {
        name,
        version_suffix,
    })
}

impl ImportNames<'_> {
    /// The name of a key: with the part of its version that compatible versions share, and the rest
    /// as a suffix, where names are canonical, or else with its whole version. The only error is
    /// out of memory.
    pub fn key_name(
        &self,
        alloc: Global,
        resolve: &Resolve,
        key: &WorldKey,
    ) -> Result<ExternName, AllocError>
        requires sound { IsSound resolve.now }
        requires present { HasKey resolve.now key.now }
        ensures { IfOk result (λ name. name ≡ name_of (naming_of self.now) resolve.now key.now) }
    {
        if self.canonical {
            canonical_name(alloc, resolve, key)
        } else {
            Ok(without_suffix(resolve.name_world_key(alloc, key)?))
        }
    }

    /// The name under which the interface of a key is imported: the one that is given for its name
    /// with the whole version, or else that of the key. The only error is out of memory.
    pub fn name(
        &self,
        alloc: Global,
        resolve: &Resolve,
        key: &WorldKey,
    ) -> Result<ExternName, AllocError>
        requires sound { IsSound resolve.now }
        requires present { HasKey resolve.now key.now }
        ensures { IfOk result
            (λ name. name ≡ import_name (naming_of self.now) resolve.now key.now) }
    {
        let whole = resolve.name_world_key(alloc, key)?;
        match self.renamed.get(&whole) {
            Some(text) => Ok(without_suffix(text.clone(alloc)?)),
            None => {
                if self.canonical {
                    canonical_name(alloc, resolve, key)
                } else {
                    Ok(without_suffix(whole))
                }
            }
        }
    }
}

/// A name without a version suffix.
fn without_suffix(name: Text) -> ExternName
    ensures { result ≡ plain_name name }
{
    ExternName {
        name,
        version_suffix: None,
    }
}
