//! The shims of destructors of resources.

ghost use Rattle.std.specs.Prelude.{◌≡◌, [], ◌∷◌, ◌++◌, IfOk, OnOk};
ghost use Rattle.std.specs.List.{flat_map};
ghost use Rattle.shim_plan.specs.Needed as specs;

use crate::kinds::ShimKind;
use crate::modules::UserModule;
use crate::needs::{NeededShim, append};
use bitflags::Flags;
use comp_lists::{Seq, Text};
use comp_options::RequiredOptions;
use comp_roles::{Export, MainOrAdapter};
use comp_worlds::ComponentWorld;
use std::alloc::{AllocError, Global};
use wit_data::{TypeId, WasmSignature, WasmType};

/// The core signature of a destructor (component model, explainer: the destructor of a resource type).
fn dtor_sig(alloc: Global) -> Result<WasmSignature, AllocError>
    ensures { IfOk result (λ s. s ≡ specs.dtor_sig) }
{
    let params = Vec::from_array(alloc, [WasmType::I32])?;
    Ok(WasmSignature {
        params: Seq::from_vec(params),
        results: Seq::new(alloc),
        indirect_params: false,
        retptr: false,
    })
}

/// The name of a type, or nothing where it has none.
fn type_text(world: &ComponentWorld, id: TypeId) -> &str
    ensures { result.now ≡ specs.type_text world.now id }
{
    match world.resolve.types.as_slice().get(id.index) {
        Some(ty) => match &ty.name {
            Some(name) => name.as_str(),
            None => "",
        },
        None => "",
    }
}

/// The debug name of the shim of a resource's destructor.
fn dtor_name(alloc: Global, world: &ComponentWorld, id: TypeId) -> Result<Text, AllocError>
    ensures { IfOk result (λ name. name ≡ specs.dtor_name world.now id) }
{
    let resource = type_text(world, id);
    Ok(Text::from_string(format!(in alloc; "dtor-{resource}")?))
}

/// Adds the shim of a destructor that a module exports.
fn add_dtor(
    needs: &mut Vec<NeededShim>,
    alloc: Global,
    world: &ComponentWorld,
    which: &MainOrAdapter,
    export: &Text,
    id: TypeId,
) -> Result<(), AllocError>
    ensures { OnOk result (needs.new.items
        ≡ needs.old.items ++ specs.dtor_shim world.now which.now export.now id ∷ []) }
{
    let debug_name = dtor_name(alloc, world, id)?;
    let module = which.clone(alloc)?;
    let export = export.clone(alloc)?;
    let sig = dtor_sig(alloc)?;
    append(
        needs,
        NeededShim {
            options: RequiredOptions::empty(),
            debug_name,
            kind: ShimKind::ResourceDtor { module, export },
            sig,
        },
    )
}

impl UserModule<'_> {
    /// Adds the shim of an export, if it is a destructor.
    fn add_export(
        &self,
        needs: &mut Vec<NeededShim>,
        alloc: Global,
        name: &Text,
        export: &Export,
    ) -> Result<(), AllocError>
        ensures { OnOk result (needs.new.items
            ≡ needs.old.items
            ++ specs.export_needs self.now.world.now self.now.which.now
            (name.now, export.now)) }
    {
        match export {
            Export::ResourceDtor(id) => add_dtor(needs, alloc, self.world, self.which, name, *id),
            _ => Ok(()),
        }
    }

    /// Adds the shims of all destructors that the module exports, in order.
    pub(crate) fn add_destructors(
        &self,
        needs: &mut Vec<NeededShim>,
        alloc: Global,
    ) -> Result<(), AllocError>
        ensures { OnOk result (needs.new.items
            ≡ needs.old.items ++ flat_map
            (specs.export_needs self.now.world.now self.now.which.now)
            self.now.found.now.exports.exports) }
    {
        for (name, export) in self.found.exports.iter() {
            self.add_export(needs, alloc, name, export)?;
        }
        Ok(())
    }
}
