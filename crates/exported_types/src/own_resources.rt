//! Resources of exported interfaces, which the component defines. The destructor of one is a shim: the user module
//! exports it that has to export the interface, and the instance of that module comes later.
//!
//! Component model, explainer: type definitions.
#![tactic(auto)]

ghost use Rattle.std.specs.Prelude.{◌≡◌, ◌<◌, [], ◌∷◌, true, length, IfOk, IfErr, OnOk, Some, slice_get};
ghost use Rattle.comp_inventories.specs.Inventories.{inventory};
ghost use Rattle.comp_items.specs.Items.{Extends};
ghost use Rattle.comp_links.specs.Links.{destructor_of};
ghost use Rattle.comp_links.specs.Lists.{provided_resources};
ghost use Rattle.comp_terms.specs.Rules.{Grows, IsDestructorRight, ResourceDefined};
ghost use Rattle.exported_types.specs.ExportedTypes.{IsDefinedType, AreDestructorSources, provided_by};
ghost use Rattle.comp_worlds.specs.Encodable.{IsEncodable};
ghost use Rattle.core_options.specs.MainOptions.{user_of};
ghost use Rattle.root_imports.specs.Keeping.{RootKept};
ghost use Rattle.root_imports.specs.RootScopes.{AreTablesRight, IsRefusal};
ghost use Rattle.shim_plan.specs.declared.kinds.ShimKind.TheVariants as kinds;
ghost use Rattle.shim_targets.specs.ShimTargets.{which_of};
ghost use Rattle.wit_data.specs.Values.{kind_at};
ghost use Rattle.wit_types.specs.Allowing.{is_resource};
ghost use Rattle.wit_types.specs.Maps.{HasIndex};

use byte_encoding::BuildFault;
use comp_lists::Text;
use comp_worlds::{ComponentWorld, CustomModule, ValidatedModule};
use main_instance::{main_or_adapter, shim_alias};
use root_imports::RootScope;
use shim_plan::{ShimKind, Shims};
use std::alloc::{AllocError, Global};
use wit_data::{Resolve, TypeDefKind, TypeId, kind_of};

/// The shims, and the instance of their module, where there are any.
#[derive(Clone, Copy)]
pub struct ShimSources<'a> {
    pub shims: &'a Shims,
    pub instance: Option<u32>,
}

/// What the destructors of resources are found in: a user module, with what validation found of it, and the shims.
#[derive(Clone, Copy)]
pub(crate) struct DestructorSources<'a> {
    pub shims: ShimSources<'a>,
    pub which: CustomModule<'a>,
    pub found: &'a ValidatedModule,
}

/// Whether a type is a resource.
pub(crate) fn is_resource(resolve: &Resolve, id: TypeId) -> bool
    requires { id.index < length resolve.now.types }
    ensures { result ≡ is_resource (kind_at resolve.now.types id.index) }
{
    matches!(
        kind_of(resolve.types.as_slice(), id.index),
        TypeDefKind::Resource
    )
}

/// The kind of the shim of a destructor that a user module exports under this name.
fn destructor_kind(
    alloc: Global,
    which: CustomModule<'_>,
    name: &str,
) -> Result<ShimKind, AllocError>
    ensures { IfOk result
        (λ kind. kind ≡ kinds.ResourceDtor (which_of (user_of which.entry)) name.now) }
{
    let export = Text::from_str(alloc, name)?;
    let module = main_or_adapter(alloc, which)?;
    Ok(ShimKind::ResourceDtor { module, export })
}

/// The shim for the destructor of a resource, if the user module exports one.
fn destructor_shim(
    root: &mut RootScope<'_, ComponentWorld>,
    sources: DestructorSources<'_>,
    id: TypeId,
) -> Result<Option<u32>, BuildFault>
    requires valid { IsEncodable root.old.world.now }
    requires sources { AreDestructorSources root.old.world.now root.old.items.defs sources }
    ensures same { root.new ≡ record root.old { items = root.new.items } }
    ensures extends { Extends root.old.items root.new.items }
    ensures grows { OnOk result
        (Grows root.old.world.now root.old.items.defs root.new.items.defs []) }
    ensures right { IfOk result (λ index. IsDestructorRight root.old.world.now root.new.items.defs
        index
        (destructor_of root.old.world.now (provided_by (user_of sources.entry.which) id))) }
    ensures cause { IfErr result IsRefusal }
{
    match sources.found.exports.resource_dtor(id) {
        Some(name) => {
            let kind = destructor_kind(root.items.allocator(), sources.which, name)?;
            let index = shim_alias(root, sources.shims.shims, sources.shims.instance, &kind)?;
            Ok(index)
        }
        None => Ok(None),
    }
}

/// Defines the next resource of the component: one that an exported interface lists under a name, which is its debug
/// name. `sources` has the user module that has to export the interface.
pub(crate) fn define_resource(
    root: &mut RootScope<'_, ComponentWorld>,
    sources: DestructorSources<'_>,
    name: &Text,
    id: TypeId,
) -> Result<(), BuildFault>
    requires valid { IsEncodable root.old.world.now }
    requires sources { AreDestructorSources root.old.world.now root.old.items.defs sources }
    requires tables { AreTablesRight root.old.world.now root.old.met root.old.instances
        root.old.items.defs root.old.maps }
    requires present { id.index < length root.old.world.now.resolve.types }
    requires resource { is_resource (kind_at root.old.world.now.resolve.types id.index) ≡ true }
    requires next { slice_get (provided_resources root.old.world.now)
        (inventory root.old.items.defs).resources
        ≡ Some (provided_by (user_of sources.which) id) }
    ensures kept { RootKept root.old.world.now root.old root.new }
    ensures grows { OnOk result
        (Grows root.old.world.now root.old.items.defs root.new.items.defs (ResourceDefined ∷ [])) }
    ensures defined { OnOk result (IsDefinedType root.old.world.now root.new.items.defs id) }
    ensures recorded { OnOk result (HasIndex root.new.maps id) }
    ensures cause { IfErr result IsRefusal }
{
    let destructor = destructor_shim(root, sources, id)?;
    let debug = Some(name.as_str());
    let index = root.items.resource_type(debug, destructor)?;
    root.record_resource(id, index)?;
    Ok(())
}
