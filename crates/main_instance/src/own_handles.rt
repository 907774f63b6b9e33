//! Functions of the handles of resources that the component defines.
#![tactic(auto, using(crate::proofs::Growth::growing))]

ghost use Rattle.std.specs.Prelude.{◌≡◌, [], IfOk, IfErr, OnOk};
ghost use Rattle.comp_bytes.specs.declared.space.Space.TheVariants.{CoreFunc};
ghost use Rattle.comp_items.specs.Items.{Extends};
ghost use Rattle.comp_links.specs.Targets.{New, Rep, Drop, OfResource};
ghost use Rattle.comp_terms.specs.Planned.{IsItemFor};
ghost use Rattle.comp_terms.specs.Rules.{Grows};
ghost use Rattle.main_instance.specs.Sources.{AreSources, IsDefinedHere};
ghost use Rattle.root_imports.specs.RootScopes.{IsRefusal};

use crate::instances::ImportSources;
use byte_encoding::BuildFault;
use comp_worlds::ComponentWorld;
use root_imports::RootScope;
use wit_data::TypeId;

impl ImportSources<'_> {
    /// Makes the drop of handles of a resource that the component defines.
    pub(crate) fn drop_own(
        &self,
        root: &mut RootScope<'_, ComponentWorld>,
        id: TypeId,
    ) -> Result<u32, BuildFault>
        requires sources { AreSources root.old.world.now self.now root.old.met root.old.items.defs
            root.old.maps root.old.instances }
        requires own { IsDefinedHere root.old.world.now id }
        ensures same { root.new ≡ record root.old { items = root.new.items } }
        ensures extends { Extends root.old.items root.new.items }
        ensures grows { OnOk result
            (Grows root.old.world.now root.old.items.defs root.new.items.defs []) }
        ensures dropped { IfOk result (λ index. IsItemFor root.old.world.now root.new.items.defs
            CoreFunc index (OfResource Drop id)) }
        ensures cause { IfErr result IsRefusal }
    {
        let ty = root.own_resource(id);
        let index = root.items.drop_resource(ty)?;
        Ok(index)
    }

    /// Makes `resource.rep` of a resource that the component defines.
    pub(crate) fn rep_of_own(
        &self,
        root: &mut RootScope<'_, ComponentWorld>,
        id: TypeId,
    ) -> Result<u32, BuildFault>
        requires sources { AreSources root.old.world.now self.now root.old.met root.old.items.defs
            root.old.maps root.old.instances }
        requires own { IsDefinedHere root.old.world.now id }
        ensures same { root.new ≡ record root.old { items = root.new.items } }
        ensures extends { Extends root.old.items root.new.items }
        ensures grows { OnOk result
            (Grows root.old.world.now root.old.items.defs root.new.items.defs []) }
        ensures represented { IfOk result (λ index. IsItemFor root.old.world.now root.new.items.defs
            CoreFunc index (OfResource Rep id)) }
        ensures cause { IfErr result IsRefusal }
    {
        let ty = root.own_resource(id);
        let index = root.items.rep_of_resource(ty)?;
        Ok(index)
    }

    /// Makes `resource.new` of a resource that the component defines.
    pub(crate) fn new_of_own(
        &self,
        root: &mut RootScope<'_, ComponentWorld>,
        id: TypeId,
    ) -> Result<u32, BuildFault>
        requires sources { AreSources root.old.world.now self.now root.old.met root.old.items.defs
            root.old.maps root.old.instances }
        requires own { IsDefinedHere root.old.world.now id }
        ensures same { root.new ≡ record root.old { items = root.new.items } }
        ensures extends { Extends root.old.items root.new.items }
        ensures grows { OnOk result
            (Grows root.old.world.now root.old.items.defs root.new.items.defs []) }
        ensures made { IfOk result (λ index. IsItemFor root.old.world.now root.new.items.defs
            CoreFunc index (OfResource New id)) }
        ensures cause { IfErr result IsRefusal }
    {
        let ty = root.own_resource(id);
        let index = root.items.new_of_resource(ty)?;
        Ok(index)
    }
}
