//! Roles of core exports, by their words.

use crate::imports::{key, resource};
use crate::made::EXPORTED;
use comp_lists::Text;
use comp_roles::Export;
use std::alloc::{AllocError, Global};
use test_cases::word_and_rest;
use wit_data::{AbiVariant, WorldKey};
use wit_texts::abi_of;

/// What has the same type in every world.
pub(crate) fn plain(alloc: Global, word: &str) -> Export {
    match word {
        "world-callback" => Export::WorldFuncCallback(key()),
        "interface-callback" => Export::InterfaceFuncCallback(key(), Text::new(alloc)),
        "resource-dtor" => Export::ResourceDtor(resource()),
        "realloc" => Export::GeneralPurposeRealloc,
        "import-realloc" => Export::GeneralPurposeImportRealloc,
        "export-realloc" => Export::GeneralPurposeExportRealloc,
        "adapter-realloc" => Export::ReallocForAdapter,
        "initialize" => Export::Initialize,
        _ => Export::WasmTaskHook,
    }
}

/// The key of the exported interface.
fn exported() -> WorldKey {
    WorldKey::Interface(EXPORTED)
}

fn of_interface(name: Text, abi: AbiVariant) -> Export {
    Export::InterfaceFunc(exported(), EXPORTED, name, abi)
}

fn of_root(name: Text, root: Text, abi: AbiVariant) -> Export {
    Export::WorldFunc(WorldKey::Name(root), name, abi)
}

/// An exported function: `k` of the exported interface, others at the root.
pub(crate) fn function(alloc: Global, text: &str) -> Result<Export, AllocError> {
    let (name, abi) = word_and_rest(text);
    let text = Text::from_str(alloc, name)?;
    if name == "k" {
        return Ok(of_interface(text, abi_of(abi)));
    }
    let root = Text::from_str(alloc, name)?;
    Ok(of_root(text, root, abi_of(abi)))
}

/// A post-return of `h` or of `k`.
pub(crate) fn post_return(alloc: Global, name: &str) -> Result<Export, AllocError> {
    let text = Text::from_str(alloc, name)?;
    if name == "k" {
        return Ok(Export::InterfaceFuncPostReturn(exported(), text));
    }
    Ok(Export::WorldFuncPostReturn(WorldKey::Name(text)))
}
