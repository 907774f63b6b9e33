//! What holds of the lists that are encoded: the function's contract is a law, and its body does nothing.

ghost use Rattle.std.specs.Prelude.{List};
ghost use Rattle.comp_bytes.specs.declared.def.Def.{Def};
ghost use Rattle.comp_worlds.specs.Worlds.{IsWorld};
ghost use Rattle.comp_worlds.specs.declared.world.ComponentWorld.{ComponentWorld};
ghost use Rattle.comp_links.specs.Lists.{AreExportsApart};
ghost use Rattle.comp_links.specs.Naming.{Naming};
ghost use Rattle.comp_terms.specs.Rules.{IsBuilt};
ghost use Rattle.link_laws.specs.Composition.{GeneratedModules, IsComposed};
ghost use Rattle.link_laws.specs.Linking.{Links};

/// A list of definitions that keeps the rules of a world is composed as it says, and links, where
/// the exported interfaces have names of their own.
pub fn built_lists_link()
    ensures { (n : Naming) (w : ComponentWorld) (ds : List Def)
        → IsWorld w
        → AreExportsApart n w
        → IsBuilt n w ds
        → (g : GeneratedModules) × IsComposed n w g ds × Links n w g ds }
{}
