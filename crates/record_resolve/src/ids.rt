//! The parts of the ids of interfaces.

ghost use Rattle.json_paths.specs.Faults.{Gives};
ghost use Rattle.semver.specs.Identifiers.{parts_of};
ghost use Rattle.semver.specs.Parse.{version_parts};
ghost use Rattle.comp_lists.specs.Splits.{split_once};
ghost use Rattle.record_resolve.specs.Ids.{version_by, some_version, path_of, id_parts, some_id, id_of};

use comp_lists::{Text, split_once};
use json_paths::{Failure, fault_here};
use record_values::InterfaceName;
use semver::Version;
use std::alloc::Global;
use version_texts::parse_version;
use wit_data::{IdName, PackageVersion};

fn read_version(alloc: Global, text: &str) -> Result<Version, Failure>
    ensures { Gives parts_of result (version_by (version_parts text.now)) }
{
    match parse_version(alloc, text)? {
        Some(version) => Ok(version),
        None => Err(fault_here(alloc)),
    }
}

fn some_version(alloc: Global, text: &str) -> Result<Option<PackageVersion>, Failure>
    ensures { Gives (λ v. v) result (some_version text.now) }
{
    let version = read_version(alloc, text)?;
    Ok(Some(PackageVersion::of(version)))
}

/// The names before the version, and the version.
fn read_path(alloc: Global, text: &str) -> Result<(&str, Option<PackageVersion>), Failure>
    ensures { Gives (λ p. (p.0.now, p.1)) result (path_of text.now (split_once 64 text.now)) }
{
    match split_once(text, '@') {
        Some((path, version)) => {
            let version = some_version(alloc, version)?;
            Ok((path, version))
        }
        None => Ok((text, None)),
    }
}

#[tactic(auto, unfolding(crate::specs::Ids::id_parts))]
fn read_id(alloc: Global, text: &str) -> Result<IdName, Failure>
    ensures { Gives (λ id. id) result (id_parts text.now) }
{
    let (path, version) = read_path(alloc, text)?;
    let Some((namespace, rest)) = split_once(path, ':') else {
        return Err(fault_here(alloc));
    };
    let Some((package, interface)) = split_once(rest, '/') else {
        return Err(fault_here(alloc));
    };
    Ok(IdName {
        namespace: Text::from_str(alloc, namespace)?,
        package: Text::from_str(alloc, package)?,
        interface: Text::from_str(alloc, interface)?,
        version,
    })
}

fn some_id(alloc: Global, text: &str) -> Result<Option<IdName>, Failure>
    ensures { Gives (λ id. id) result (some_id text.now) }
{
    let id = read_id(alloc, text)?;
    Ok(Some(id))
}

/// The id of an interface, where it has one.
pub(crate) fn id_of(alloc: Global, name: &InterfaceName) -> Result<Option<IdName>, Failure>
    ensures { Gives (λ id. id) result (id_of name.now) }
{
    match name {
        InterfaceName::Id(text) => some_id(alloc, text.as_str()),
        InterfaceName::Imported(_) => Ok(None),
        InterfaceName::Exported(_) => Ok(None),
        InterfaceName::Unused(_) => Ok(None),
    }
}
