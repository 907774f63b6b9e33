//! The state of a component under construction.

ghost use Rattle.std.specs.Prelude.{◌≡◌};
ghost use Rattle.comp_builder.specs.Built.{nothing_built};

use crate::alias_key::AliasKey;
use comp_builder::ComponentBuilder;
use comp_lists::Keyed;
use std::alloc::Global;
use std::marker::Model;

/// A component under construction, and the items that later calls find again.
pub struct ComponentItems {
    pub(crate) alloc: Global,
    pub(crate) component: ComponentBuilder,
    /// The aliases of what core instances export.
    pub(crate) aliases: Keyed<AliasKey, u32>,
}

impl Drop for ComponentItems {
    fn drop(self) {
        let ComponentItems {
            alloc: _,
            component: _,
            aliases: _,
        } = self;
    }
}

impl Model for ComponentItems {
    ghost use Rattle.comp_builder.specs.Built.{Built};
    ghost use Rattle.comp_items.specs.Items.{IsItems};

    ghost Value = { Built };

    ghost view = { λ s. s.component };

    ghost invariant = { λ s. IsItems s.component.defs s.aliases };
}

impl ComponentItems {
    /// A component with no definition. It allocates nothing.
    pub fn new(alloc: Global) -> ComponentItems
        ensures { result ≡ nothing_built }
    {
        ComponentItems {
            alloc,
            component: ComponentBuilder::new(alloc),
            aliases: Keyed::new(alloc),
        }
    }

    /// The allocator that the component grows in.
    pub fn allocator(&self) -> Global {
        self.alloc
    }

    /// The component as far as it was built.
    pub fn into_component(self) -> ComponentBuilder
        ensures { result ≡ self }
    {
        let ComponentItems {
            alloc: _,
            component,
            aliases: _,
        } = self;
        component
    }
}
