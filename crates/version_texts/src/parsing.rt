//! A text that is a version, or is none.

ghost use Rattle.std.specs.Prelude.{◌≡◌, Ok, true, IfOk, IfSome, IfNone};
ghost use Rattle.semver.specs.Identifiers.{parts_of};
ghost use Rattle.semver.specs.Parse.{memory_error, version_parts};
ghost use Rattle.version_texts.specs.Versions.{IsNoVersion};

use semver::{Error, Version};
use std::alloc::{AllocError, Global};

fn is_memory(fault: Error) -> bool
    ensures { fault ≡ memory_error → result ≡ true }
{
    fault == Error::from(AllocError)
}

/// The version that a text is, or `None` where it is no version. The only error is out of memory.
pub fn parse_version(alloc: Global, text: &str) -> Result<Option<Version>, AllocError>
    ensures some { IfOk result
        (λ found. IfSome found (λ version. version_parts text.now ≡ Ok (parts_of version))) }
    ensures none { IfOk result (λ found. IfNone found (IsNoVersion text.now)) }
{
    match Version::parse(alloc, text) {
        Ok(version) => Ok(Some(version)),
        Err(fault) => {
            if is_memory(fault) {
                Err(AllocError)
            } else {
                Ok(None)
            }
        }
    }
}
