//! The core modules of the user modules.
//!
//! Component model, explainer: core module definitions.
#![tactic(auto, using(comp_items::proofs::Extending::extends_none, comp_items::proofs::Extending::extends_same, comp_items::proofs::Extending::extends_then))]

ghost use Rattle.std.specs.Prelude.{◌≡◌, ◌≤◌, ◌^◌, [], ◌∷◌, length, IfOk, IfErr, OnOk};
ghost use Rattle.comp_bytes.specs.Spaces.{items_in};
ghost use Rattle.comp_bytes.specs.declared.space.Space.TheVariants as spaces;
ghost use Rattle.comp_items.specs.Items.{Extends};
ghost use Rattle.comp_links.specs.Modules.{user_modules};
ghost use Rattle.comp_terms.specs.Rules.{Grows, ModuleIs, bytes_marked};
ghost use Rattle.comp_terms.specs.UserBytes.{adapter_bytes, module_title};
ghost use Rattle.comp_worlds.specs.Encodable.{IsEncodable};
ghost use Rattle.core_types.specs.Core.{IsCoreModule};
ghost use Rattle.root_imports.specs.RootScopes.{IsRefusal};

use byte_encoding::BuildFault;
use comp_lists::{SharedBytes, Text};
use comp_worlds::{ComponentWorld, WorldAdapter};
use core_bytes::set_module_name;
use root_imports::RootScope;
use std::alloc::{AllocError, Global};

/// Adds a core module.
fn add_module(
    root: &mut RootScope<'_, ComponentWorld>,
    debug: &str,
    bytes: &SharedBytes,
) -> Result<(), BuildFault>
    requires { IsCoreModule bytes.now }
    ensures same { root.new ≡ record root.old { items = root.new.items } }
    ensures extends { Extends root.old.items root.new.items }
    ensures grows { OnOk result (Grows root.old.world.now root.old.items.defs root.new.items.defs
        (ModuleIs bytes.now ∷ [])) }
    ensures room { OnOk result (items_in spaces.CoreModule root.new.items.defs ≤ 2 ^ 32) }
    ensures cause { IfErr result IsRefusal }
{
    let _index = root.items.core_module(Some(debug), bytes)?;
    Ok(())
}

/// The name of an adapter's module: a library has its own name.
fn module_title(alloc: Global, name: &Text, adapter: &WorldAdapter) -> Result<Text, AllocError>
    ensures { IfOk result (λ title. title ≡ module_title (name.now, adapter.now)) }
{
    match &adapter.library_info {
        Some(_) => name.clone(alloc),
        None => {
            let mut text = String::from_str(alloc, "wit-component:adapter:")?;
            text.push_str(name.as_str())?;
            Ok(Text::from_string(text))
        }
    }
}

/// Adds the core module of an adapter, which gets its name where modules have names for debuggers.
fn add_adapter(
    root: &mut RootScope<'_, ComponentWorld>,
    name: &Text,
    adapter: &WorldAdapter,
    debug_names: bool,
) -> Result<(), BuildFault>
    requires { IsCoreModule adapter.now.info.bytes }
    ensures same { root.new ≡ record root.old { items = root.new.items } }
    ensures extends { Extends root.old.items root.new.items }
    ensures grows { OnOk result (Grows root.old.world.now root.old.items.defs root.new.items.defs
        (ModuleIs (adapter_bytes debug_names (name.now, adapter.now)) ∷ [])) }
    ensures room { OnOk result (items_in spaces.CoreModule root.new.items.defs ≤ 2 ^ 32) }
    ensures cause { IfErr result IsRefusal }
{
    let alloc = root.items.allocator();
    let title = module_title(alloc, name, adapter)?;
    let bytes = &adapter.info.bytes;
    if debug_names {
        let named = set_module_name(alloc, bytes.as_slice(), title.as_str())?;
        add_module(root, title.as_str(), &SharedBytes::from_vec(named)?)
    } else {
        add_module(root, title.as_str(), bytes)
    }
}

/// Adds the core modules of the user modules: main's, and then those of the adapters in order. They
/// are the first core modules of a component. Those of adapters get names for debuggers if
/// `debug_names` says so.
pub fn encode_core_modules(
    root: &mut RootScope<'_, ComponentWorld>,
    debug_names: bool,
) -> Result<(), BuildFault>
    requires valid { IsEncodable root.old.world.now }
    requires none { items_in spaces.CoreModule root.old.items.defs ≡ 0 }
    ensures same { root.new ≡ record root.old { items = root.new.items } }
    ensures extends { Extends root.old.items root.new.items }
    ensures grows { OnOk result (Grows root.old.world.now root.old.items.defs root.new.items.defs
        (bytes_marked debug_names root.old.world.now)) }
    ensures room { OnOk result (length (user_modules root.old.world.now) ≤ 2 ^ 32) }
    ensures cause { IfErr result IsRefusal }
{
    let world = root.world;
    add_module(root, "main", &world.main.bytes)?;
    for (name, adapter) in world.adapters.iter() {
        add_adapter(root, name, adapter, debug_names)?;
    }
    Ok(())
}
