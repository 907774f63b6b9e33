//! Names of interfaces.

ghost use Rattle.std.specs.Prelude.{◌≡◌, ◌++◌, ◌∷◌, [], IfOk, OnOk, string_bytes, option_map, codes};
ghost use Rattle.wit_data.specs.Versions.{canonical_version};
ghost use Rattle.wit_data.specs.Sound.{IsSound, HasKey, HasInterface};
ghost use Rattle.wit_data.specs.Names.{path_text, version_part, id_text, canonical_id_text, version_suffix, id_name_of, key_text, canonical_key_text, text_of};

use crate::ids::InterfaceId;
use crate::resolve::Resolve;
use crate::versions::{PackageVersion, canonical_version};
use crate::worlds::WorldKey;
use comp_lists::Text;
use std::alloc::{AllocError, Global};

/// The name of an interface (component model, explainer: `interfacename`): a namespace, a package, the
/// interface's own name, and an optional version.
#[derive(Debug)]
pub struct IdName {
    pub namespace: Text,
    pub package: Text,
    pub interface: Text,
    pub version: Option<PackageVersion>,
}

impl Drop for IdName {
    fn drop(self) {
        let IdName {
            namespace: _,
            package: _,
            interface: _,
            version: _,
        } = self;
    }
}

/// Writes a sign and a text after it.
fn put_part(out: &mut String, sign: &str, text: &str) -> Result<(), AllocError>
    ensures { OnOk result (string_bytes out.new ≡ string_bytes out.old ++ (sign.now ++ text.now)) }
{
    out.push_str(sign)?;
    out.push_str(text)?;
    Ok(())
}

/// An equal version, where there is one.
fn clone_version(version: &Option<PackageVersion>) -> Result<Option<PackageVersion>, AllocError>
    ensures { IfOk result (λ v. v ≡ version.now) }
{
    match version {
        Some(version) => Ok(Some(version.clone()?)),
        None => Ok(None),
    }
}

impl IdName {
    /// An equal name. The only error is out of memory.
    pub fn clone(&self, alloc: Global) -> Result<IdName, AllocError>
        ensures { IfOk result (λ name. name ≡ self.now) }
    {
        Ok(IdName {
            namespace: self.namespace.clone(alloc)?,
            package: self.package.clone(alloc)?,
            interface: self.interface.clone(alloc)?,
            version: clone_version(&self.version)?,
        })
    }

    /// The name with its whole version, as `a:b/c@1.2.3`. The only error is out of memory.
    pub fn text(&self, alloc: Global) -> Result<Text, AllocError>
        ensures { IfOk result (λ t. t ≡ id_text self.now) }
    {
        let mut out = self.path(alloc)?;
        if let Some(version) = &self.version {
            let version = version.text(alloc)?;
            put_part(&mut out, "@", version.as_str())?;
        }
        Ok(Text::from_string(out))
    }

    /// The name with the part of its version that compatible versions share, as `a:b/c@1`. The only
    /// error is out of memory.
    pub fn canonical_text(&self, alloc: Global) -> Result<Text, AllocError>
        ensures { IfOk result (λ t. t ≡ canonical_id_text self.now) }
    {
        let mut out = self.path(alloc)?;
        if let Some(version) = &self.version {
            let canonical = canonical_version(alloc, version.as_version())?;
            put_part(&mut out, "@", canonical.version.as_str())?;
        }
        Ok(Text::from_string(out))
    }

    /// The rest of the version, which the canonical name lacks, as `.2.3`, where there is any (component
    /// model, explainer: `versionsuffix`). The only error is out of memory.
    pub fn version_suffix(&self, alloc: Global) -> Result<Option<Text>, AllocError>
        ensures { IfOk result (λ suffix. suffix ≡ version_suffix self.now) }
    {
        match &self.version {
            None => Ok(None),
            Some(version) => Ok(canonical_version(alloc, version.as_version())?.suffix),
        }
    }

    /// The name without its version, as `a:b/c`.
    fn path(&self, alloc: Global) -> Result<String, AllocError>
        ensures { IfOk result (λ out. string_bytes out ≡ path_text self.now) }
    {
        let mut out = String::new(alloc);
        out.push_str(self.namespace.as_str())?;
        put_part(&mut out, ":", self.package.as_str())?;
        put_part(&mut out, "/", self.interface.as_str())?;
        Ok(out)
    }
}

impl Resolve {
    /// The name of a world's import or export, an interface's with its whole version. An interface
    /// without a name has the empty text. The only error is out of memory.
    pub fn name_world_key(&self, alloc: Global, key: &WorldKey) -> Result<Text, AllocError>
        requires sound { IsSound self.now }
        requires present { HasKey self.now key.now }
        ensures { IfOk result (λ t. t ≡ key_text self.now key.now) }
    {
        match key {
            WorldKey::Name(text) => text.clone(alloc),
            WorldKey::Interface(id) => Ok(text_or_empty(alloc, self.id_of(alloc, *id)?)),
        }
    }

    /// The name of a world's import or export, an interface's with the part of its version that
    /// compatible versions share. An interface without a name has the empty text. The only refusal is
    /// out of memory.
    pub fn name_canonicalized_world_key(
        &self,
        alloc: Global,
        key: &WorldKey,
    ) -> Result<Text, AllocError>
        requires sound { IsSound self.now }
        requires present { HasKey self.now key.now }
        ensures { IfOk result (λ t. t ≡ canonical_key_text self.now key.now) }
    {
        match key {
            WorldKey::Name(text) => text.clone(alloc),
            WorldKey::Interface(id) => Ok(text_or_empty(
                alloc,
                self.canonicalized_id_of(alloc, *id)?,
            )),
        }
    }

    /// The name of an interface with its whole version, where it has a name. The only error is out
    /// of memory.
    pub fn id_of(&self, alloc: Global, id: InterfaceId) -> Result<Option<Text>, AllocError>
        requires sound { IsSound self.now }
        requires present { HasInterface self.now id }
        ensures { IfOk result (λ t. t ≡ option_map id_text (id_name_of self.now id)) }
    {
        match &self.interfaces.as_slice()[id.index].id {
            None => Ok(None),
            Some(name) => Ok(Some(name.text(alloc)?)),
        }
    }

    /// The name of an interface with the part of its version that compatible versions share, where it
    /// has a name. The only error is out of memory.
    pub fn canonicalized_id_of(
        &self,
        alloc: Global,
        id: InterfaceId,
    ) -> Result<Option<Text>, AllocError>
        requires sound { IsSound self.now }
        requires present { HasInterface self.now id }
        ensures { IfOk result (λ t. t ≡ option_map canonical_id_text (id_name_of self.now id)) }
    {
        match &self.interfaces.as_slice()[id.index].id {
            None => Ok(None),
            Some(name) => Ok(Some(name.canonical_text(alloc)?)),
        }
    }
}

/// The text, or the empty one.
fn text_or_empty(alloc: Global, text: Option<Text>) -> Text
    ensures { result ≡ text_of text }
{
    match text {
        Some(text) => text,
        None => Text::new(alloc),
    }
}
