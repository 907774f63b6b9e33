//! Names of new files.

ghost use Rattle.std.specs.Prelude.{◌≡◌, IfOk, string_bytes};
ghost use Rattle.atomic_files.specs.Naming.{folder, new_name};

use std::alloc::{AllocError, Global};

/// The text up to the last slash, and with it.
fn folder(name: &str) -> &str
    ensures { result.now ≡ folder name.now }
{
    match name.rfind('/') {
        Some(end) => &name[..=end],
        None => "",
    }
}

/// A name in the folder of this name. It is short whatever the name is, so that it is no longer
/// than a file system takes. The only error is out of memory.
pub(crate) fn new_name(alloc: Global, name: &str, number: u32) -> Result<String, AllocError>
    ensures { IfOk result (λ new. string_bytes new ≡ new_name name.now number) }
{
    let folder = folder(name);
    let new = format!(in alloc; "{folder}.component_new-{number}.part")?;
    Ok(new)
}
