//! Built-in functions.
#![tactic(auto, using(crate::proofs::Extending::extending))]

ghost use Rattle.std.specs.Prelude.{◌≡◌, ℕ, List, IfOk, Option, None};
ghost use Rattle.std.specs.List.{AllZip};
ghost use Rattle.comp_builder.specs.Built.{Adds};
ghost use Rattle.comp_bytes.specs.Parts.{parts_of};
ghost use Rattle.comp_inventories.specs.Inventories.{scope_of};
ghost use Rattle.comp_trees.specs.Operands.{IsOperand};
ghost use Rattle.comp_trees.specs.Trees.{Tree, Resource};
ghost use Rattle.comp_links.specs.Targets.{New, Rep, Drop};
ghost use Rattle.comp_terms.specs.Terms.{TermOption, IsOption, IsResource, IsOfResource, IsBuiltIn};

use crate::items::ComponentItems;
use byte_encoding::BuildFault;
use comp_bytes::{Def, Intrinsic, Item, Space};

impl ComponentItems {
    /// Adds the drop of handles of the resource with this index (`canon resource.drop`).
    pub fn drop_resource(&mut self, ty: u32) -> Result<u32, BuildFault>
        ensures adds { Adds self.old self.new result Space.CoreFunc
            (Def.Item (Item.Intrinsic (Intrinsic.ResourceDrop ty))) None }
        ensures dropped { IfOk result (λ index. (resource : Resource)
            → IsResource self.old.defs ty resource
            → IsOfResource self.new.defs index Drop resource) }
    {
        let index = self.component.intrinsic(Intrinsic::ResourceDrop(ty))?;
        Ok(index)
    }

    /// Adds the making of handles of the resource with this index (`canon resource.new`), which the
    /// component has to define.
    pub fn new_of_resource(&mut self, ty: u32) -> Result<u32, BuildFault>
        ensures adds { Adds self.old self.new result Space.CoreFunc
            (Def.Item (Item.Intrinsic (Intrinsic.ResourceNew ty))) None }
        ensures made { IfOk result (λ index. (resource : Resource)
            → IsResource self.old.defs ty resource
            → IsOfResource self.new.defs index New resource) }
    {
        let index = self.component.intrinsic(Intrinsic::ResourceNew(ty))?;
        Ok(index)
    }

    /// Adds the representation of handles of the resource with this index (`canon resource.rep`),
    /// which the component has to define.
    pub fn rep_of_resource(&mut self, ty: u32) -> Result<u32, BuildFault>
        ensures adds { Adds self.old self.new result Space.CoreFunc
            (Def.Item (Item.Intrinsic (Intrinsic.ResourceRep ty))) None }
        ensures represented { IfOk result (λ index. (resource : Resource)
            → IsResource self.old.defs ty resource
            → IsOfResource self.new.defs index Rep resource) }
    {
        let index = self.component.intrinsic(Intrinsic::ResourceRep(ty))?;
        Ok(index)
    }

    /// Adds a built-in function (`canon task.cancel` and its neighbours). It is of what its operand
    /// denotes, and has the options that are written.
    pub fn built_in(&mut self, intrinsic: Intrinsic) -> Result<u32, BuildFault>
        ensures adds { Adds self.old self.new result Space.CoreFunc
            (Def.Item (Item.Intrinsic intrinsic)) None }
        ensures made { IfOk result (λ index. (operand : Option Tree) (written : List TermOption)
            → IsOperand (scope_of self.old.defs) (parts_of intrinsic).operand operand
            → AllZip (IsOption self.old.defs) (parts_of intrinsic).options written
            → IsBuiltIn self.new.defs index (parts_of intrinsic).name operand written) }
    {
        let index = self.component.intrinsic(intrinsic)?;
        Ok(index)
    }
}
