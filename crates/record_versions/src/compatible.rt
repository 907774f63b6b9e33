//! The ids of interfaces that compatible versions share.

ghost use Rattle.std.specs.Prelude.{◌≡◌, ◌∷◌, ◌++◌, Ok, IfOk};
ghost use Rattle.semver.specs.Identifiers.{parts_of};
ghost use Rattle.semver.specs.Parse.{version_parts};
ghost use Rattle.json_paths.specs.Faults.{Gives};
ghost use Rattle.comp_lists.specs.Splits.{split_once};
ghost use Rattle.record_versions.specs.Compatible.{by_parts, by_version, of_id, compatible, is_newer};

use comp_lists::{Text, split_once};
use json_paths::Failure;
use record_values::InterfaceName;
use semver::Version;
use std::alloc::{AllocError, Global};
use version_texts::parse_version;
use wit_data::canonical_version;

/// The part of the id that compatible versions of an interface share, and the numbers of its version.
#[derive(Debug)]
pub struct Compatible {
    /// The id with the part of its version that compatible versions share, as `a:b/c@1`.
    pub canonical: Text,
    pub major: u64,
    pub minor: u64,
    pub patch: u64,
}

impl Drop for Compatible {
    fn drop(self) {
        let Compatible {
            canonical: _,
            major: _,
            minor: _,
            patch: _,
        } = self;
    }
}

/// A name with a version.
fn versioned(alloc: Global, path: &str, version: &str) -> Result<Text, AllocError>
    ensures { IfOk result (λ t. t ≡ path.now ++ 64 ∷ version.now) }
{
    let mut out = String::new(alloc);
    out.push_str(path)?;
    out.push_str("@")?;
    out.push_str(version)?;
    Ok(Text::from_string(out))
}

fn compatible_version(
    alloc: Global,
    path: &str,
    version: &Version,
) -> Result<Option<Compatible>, AllocError>
    ensures { IfOk result (λ c. c ≡ by_parts path.now (parts_of version.now)) }
{
    let cut = canonical_version(alloc, version)?;
    if cut.suffix.is_none() {
        return Ok(None);
    }
    Ok(Some(Compatible {
        canonical: versioned(alloc, path, cut.version.as_str())?,
        major: version.major,
        minor: version.minor,
        patch: version.patch,
    }))
}

fn compatible_text(alloc: Global, path: &str, text: &str) -> Result<Option<Compatible>, Failure>
    ensures { Gives (λ c. c) result (Ok (by_version path.now (version_parts text.now))) }
{
    match parse_version(alloc, text)? {
        Some(version) => Ok(compatible_version(alloc, path, &version)?),
        None => Ok(None),
    }
}

#[tactic(auto, unfolding(crate::specs::Compatible::of_id))]
fn compatible_id(alloc: Global, text: &str) -> Result<Option<Compatible>, Failure>
    ensures { Gives (λ c. c) result (Ok (of_id text.now)) }
{
    match split_once(text, '@') {
        None => Ok(None),
        Some((path, version)) => compatible_text(alloc, path, version),
    }
}

/// The part of the id that compatible versions of an interface share, where it has such an id (component
/// model, explainer: `canonversion`). The only refusal is out of memory.
pub fn compatible_of(alloc: Global, name: &InterfaceName) -> Result<Option<Compatible>, Failure>
    ensures { Gives (λ c. c) result (Ok (compatible name.now)) }
{
    match name {
        InterfaceName::Id(text) => compatible_id(alloc, text.as_str()),
        InterfaceName::Imported(_) => Ok(None),
        InterfaceName::Exported(_) => Ok(None),
        InterfaceName::Unused(_) => Ok(None),
    }
}

impl Compatible {
    /// Whether the version of the first is greater.
    pub(crate) fn is_newer(&self, other: &Compatible) -> bool
        ensures { result ≡ is_newer self.now other.now }
    {
        self.major > other.major
            || (self.major == other.major
                && (self.minor > other.minor
                    || (self.minor == other.minor && self.patch > other.patch)))
    }
}
