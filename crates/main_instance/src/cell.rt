//! The functions of the cell of the thread-local base, as imports of user modules are given them: the
//! module of shims exports them, the same for all.
#![tactic(auto, using(crate::proofs::Growth::growing))]

ghost use Rattle.std.specs.Prelude.{◌≡◌, [], IfOk, IfErr, OnOk, IsSome};
ghost use Rattle.comp_bytes.specs.declared.space.Space.TheVariants.{CoreFunc};
ghost use Rattle.comp_items.specs.Items.{Extends};
ghost use Rattle.comp_links.specs.Targets.{TlsGet, TlsSet};
ghost use Rattle.comp_terms.specs.Planned.{IsItemFor};
ghost use Rattle.comp_terms.specs.Rules.{Grows};
ghost use Rattle.comp_worlds.specs.Bases.{cell_type};
ghost use Rattle.main_instance.specs.Sources.{AreSources};
ghost use Rattle.root_imports.specs.RootScopes.{IsRefusal};

use crate::instances::ImportSources;
use crate::shims::cell_function;
use byte_encoding::BuildFault;
use comp_worlds::ComponentWorld;
use root_imports::RootScope;

impl ImportSources<'_> {
    /// The function that reads the cell.
    pub(crate) fn cell_getter(
        &self,
        root: &mut RootScope<'_, ComponentWorld>,
    ) -> Result<u32, BuildFault>
        requires sources { AreSources root.old.world.now self.now root.old.met root.old.items.defs
            root.old.maps root.old.instances }
        requires there { IsSome (cell_type root.old.world.now) }
        ensures same { root.new ≡ record root.old { items = root.new.items } }
        ensures extends { Extends root.old.items root.new.items }
        ensures grows { OnOk result
            (Grows root.old.world.now root.old.items.defs root.new.items.defs []) }
        ensures given { IfOk result (λ index. IsItemFor root.old.world.now root.new.items.defs
            CoreFunc index TlsGet) }
        ensures cause { IfErr result IsRefusal }
    {
        let index = cell_function(root, self.shim_instance, "$get-tls-base")?;
        Ok(index)
    }

    /// The function that sets it.
    pub(crate) fn cell_setter(
        &self,
        root: &mut RootScope<'_, ComponentWorld>,
    ) -> Result<u32, BuildFault>
        requires sources { AreSources root.old.world.now self.now root.old.met root.old.items.defs
            root.old.maps root.old.instances }
        requires there { IsSome (cell_type root.old.world.now) }
        ensures same { root.new ≡ record root.old { items = root.new.items } }
        ensures extends { Extends root.old.items root.new.items }
        ensures grows { OnOk result
            (Grows root.old.world.now root.old.items.defs root.new.items.defs []) }
        ensures given { IfOk result (λ index. IsItemFor root.old.world.now root.new.items.defs
            CoreFunc index TlsSet) }
        ensures cause { IfErr result IsRefusal }
    {
        let index = cell_function(root, self.shim_instance, "$set-tls-base")?;
        Ok(index)
    }
}
