//! Nested components, and their instances.
//!
//! Component model, explainer: component definitions, instance definitions.
#![tactic(auto, using(crate::proofs::Extending::extending))]

ghost use Rattle.std.specs.Prelude.{IfOk};
ghost use Rattle.comp_bytes.specs.ItemIndices.{IsAt};
ghost use Rattle.comp_builder.specs.Built.{Adds};
ghost use Rattle.comp_builder.specs.Optional.{option_now};

use crate::items::ComponentItems;
use byte_encoding::BuildFault;
use comp_bytes::{Argument, Def, Item, Space};
use comp_lists::Seq;

impl ComponentItems {
    /// Adds a nested component that has these items.
    pub fn nested_component(
        &mut self,
        debug: Option<&str>,
        items: Seq<Item>,
    ) -> Result<u32, BuildFault>
        ensures adds { Adds self.old self.new result Space.Component (Def.Component items)
            (option_now debug.entry) }
        ensures at { IfOk result
            (λ index. IsAt self.new.defs Space.Component index (Def.Component items)) }
    {
        let index = self.component.component(debug, items)?;
        Ok(index)
    }

    /// Adds an instance of the nested component with this index, which is given these items for its imports.
    pub fn nested_instance(
        &mut self,
        debug: Option<&str>,
        component: u32,
        arguments: Seq<Argument>,
    ) -> Result<u32, BuildFault>
        ensures adds { Adds self.old self.new result Space.Instance
            (Def.Item (Item.Instantiate component arguments)) (option_now debug.entry) }
        ensures at { IfOk result (λ index. IsAt self.new.defs Space.Instance index
            (Def.Item (Item.Instantiate component arguments))) }
    {
        let index = self.component.instantiate(debug, component, arguments)?;
        Ok(index)
    }
}
