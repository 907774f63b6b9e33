//! Versions of interfaces, up to what compatible versions share.

ghost use Rattle.std.specs.Prelude.{◌≡◌, IfOk};
ghost use Rattle.semver.specs.Identifiers.{parts_of, parts_text};
ghost use Rattle.wit_data.specs.Versions.{canonical_version, whole_version};

use comp_lists::Text;
use semver::Version;
use std::alloc::{AllocError, Global};
use std::marker::Model;

/// The version of a package, which contracts see as its numbers and texts: major, minor, patch, the
/// pre-release after a `-` and the build after a `+`.
#[derive(Debug, Drop)]
pub struct PackageVersion {
    version: Version,
}

impl Model for PackageVersion {
    ghost use Rattle.semver.specs.Identifiers.{parts_of};
    ghost use Rattle.semver.specs.Parse.{Parts};

    ghost Value = { Parts };

    ghost view = { λ v. parts_of v.version };
}

impl PackageVersion {
    /// It takes no memory.
    pub fn of(version: Version) -> PackageVersion
        ensures { result ≡ parts_of version }
    {
        PackageVersion { version }
    }

    pub fn as_version(&self) -> &Version
        ensures { parts_of result.now ≡ self.now }
    {
        &self.version
    }

    /// An equal version. The only error is out of memory.
    pub(crate) fn clone(&self) -> Result<PackageVersion, AllocError>
        ensures { IfOk result (λ v. v ≡ self.now) }
    {
        Ok(PackageVersion {
            version: self.version.clone()?,
        })
    }

    /// The whole version, as `1.2.3-rc.1+5`. The only error is out of memory.
    pub(crate) fn text(&self, alloc: Global) -> Result<Text, AllocError>
        ensures { IfOk result (λ t. t ≡ parts_text self.now) }
    {
        Ok(Text::from_string(self.version.to_string(alloc)?))
    }
}

/// A version in two parts (component model, explainer: `canonversion`, `versionsuffix`).
#[derive(Debug, Drop, PartialEq, Eq)]
pub struct CanonicalVersion {
    /// The part that compatible versions share.
    pub version: Text,
    /// The rest, with the dot before it, where anything is left.
    pub suffix: Option<Text>,
}

/// The part of a version that compatible versions share, and the rest (component model, explainer:
/// `canonversion`). Where the version has more than numbers, or begins with two zeros, it is the whole.
/// The only error is out of memory.
pub fn canonical_version(alloc: Global, version: &Version) -> Result<CanonicalVersion, AllocError>
    ensures version { IfOk result
        (λ c. c.version ≡ (canonical_version (parts_of version.now)).version) }
    ensures suffix { IfOk result
        (λ c. c.suffix ≡ (canonical_version (parts_of version.now)).suffix) }
{
    let (major, minor, patch) = (version.major, version.minor, version.patch);
    if !version.pre.is_empty() || !version.build.is_empty() {
        return whole_version(alloc, version);
    }
    if major > 0 {
        let suffix = format!(in alloc; ".{minor}.{patch}")?;
        return Ok(CanonicalVersion {
            version: Text::from_string(major.to_string(alloc)?),
            suffix: Some(Text::from_string(suffix)),
        });
    }
    if minor > 0 {
        let suffix = format!(in alloc; ".{patch}")?;
        return Ok(CanonicalVersion {
            version: Text::from_string(format!(in alloc; "0.{minor}")?),
            suffix: Some(Text::from_string(suffix)),
        });
    }
    whole_version(alloc, version)
}

/// A version that is kept whole.
fn whole_version(alloc: Global, version: &Version) -> Result<CanonicalVersion, AllocError>
    ensures version { IfOk result
        (λ c. c.version ≡ (whole_version (parts_of version.now)).version) }
    ensures suffix { IfOk result (λ c. c.suffix ≡ (whole_version (parts_of version.now)).suffix) }
{
    Ok(CanonicalVersion {
        version: Text::from_string(version.to_string(alloc)?),
        suffix: None,
    })
}
