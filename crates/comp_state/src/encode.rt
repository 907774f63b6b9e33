//! The steps in their order.
#![tactic(auto, using(crate::proofs::Growth::growing))]

ghost use Rattle.std.specs.Prelude.{◌≡◌, [], List, ℕ, IfOk, IfErr, OnOk, IsOk};
ghost use Rattle.comp_builder.specs.Naming.{with_names};
ghost use Rattle.comp_bytes.specs.Scopes.{Scoped};
ghost use Rattle.comp_links.specs.Lists.{required_functions};
ghost use Rattle.comp_worlds.specs.Encodable.{IsEncodable};
ghost use Rattle.comp_worlds.specs.Bases.{HasUnlikeBases};
ghost use Rattle.comp_worlds.specs.Made.{IsNotYetMade};
ghost use Rattle.comp_imports.specs.Names.{naming_of};
ghost use Rattle.root_imports.specs.RootScopes.{IsRefusal};
ghost use Rattle.comp_state.specs.declared.state.Step.TheVariants.{Started};
ghost use Rattle.comp_state.specs.Encoding.{naming_in};
ghost use Rattle.comp_terms.specs.Rules.{IsUnnamed, IsBuilt};
ghost use Rattle.comp_links.specs.Modules.{user_imports};
ghost use Rattle.core_options.specs.Causes.{IsCause, LacksEncoding, LacksMemory, LacksRealloc, ExportsLater, IsEncoded};

use crate::state::EncodingState;
use byte_encoding::BuildFault;
use comp_builder::ComponentBuilder;
use comp_imports::ImportNames;
use comp_worlds::ComponentWorld;
use core_options::StateFault;
use std::alloc::Global;

/// A component, with the names of its items.
fn name_items(mut component: ComponentBuilder) -> Result<ComponentBuilder, BuildFault>
    ensures ok { IfOk result (λ named. named ≡ with_names component) }
    ensures cause { IfErr result IsRefusal }
{
    component.append_names()?;
    Ok(component)
}

impl EncodingState<'_> {
    /// The component as far as it was built, with the names of its items.
    pub fn finish(self) -> Result<ComponentBuilder, StateFault>
        ensures ok { IfOk result (λ component. component ≡ with_names self.entry.built) }
        ensures cause { IfErr result (IsCause self.entry.world) }
    {
        let component = name_items(self.into_component().into_component())?;
        Ok(component)
    }

    /// All steps before the end, from the empty component.
    fn encode_all(&mut self) -> Result<(), StateFault>
        requires started { self.old.step ≡ Started }
        requires empty { self.old.built.defs ≡ [] }
        ensures world { self.new.world ≡ self.old.world }
        ensures built { OnOk result
            (IsUnnamed (naming_in self.old) self.old.world self.new.built.defs) }
        ensures encoded { OnOk result (IsEncoded self.old.world) }
        ensures cause { IfErr result (IsCause self.old.world) }
    {
        self.encode_imports()?;
        self.encode_core_modules()?;
        self.encode_core_instantiation()?;
        self.encode_exports()?;
        Ok(())
    }
}

/// The component of a validated world, definition by definition, with the names of its items.
/// Interfaces are imported under the names that `names` makes; core modules have names for
/// debuggers if it says so.
///
/// Refused when out of memory, where two modules use a cell for thread-local bases of different
/// types (`E6`), where a function is lowered or lifted with a memory and main has none, or a
/// realloc that there isn't for the module (`E7`, `E8`, with the name of the import's shim, the
/// import itself where main imports its memory, or the function that is lifted), where a function
/// that is imported or exported has no string encoding (`E9`, with the import, or the function),
/// where an adapter names another that is not instantiated before it (`E10`, with both), where an
/// interface uses types of another exported one that isn't exported before it (`E11`, with both),
/// and where a space would have more than 2^32 - 1 items, or a count or a size among the names, or
/// in a module that is generated or given a name, would pass that (`E16`).
pub fn encode_world(
    alloc: Global,
    world: &ComponentWorld,
    names: ImportNames<'_>,
) -> Result<ComponentBuilder, StateFault>
    requires { IsEncodable world.now }
    ensures ok { IfOk result (λ component. Scoped component.defs
        × IsBuilt (naming_of names.entry) world.now component.defs) }
    ensures refused { IsOk result → (place : List ℕ) → LacksEncoding world.now place → ⊥ }
    ensures memory { IsOk result
        → (place : List ℕ)
        → LacksMemory world.now (user_imports world.now) (required_functions world.now) place
        → ⊥ }
    ensures realloc { IsOk result
        → (place : List ℕ)
        → LacksRealloc world.now (user_imports world.now) (required_functions world.now) place
        → ⊥ }
    ensures bases { IsOk result → HasUnlikeBases world.now → ⊥ }
    ensures made { IsOk result → (adapter name : List ℕ) → IsNotYetMade world.now adapter name → ⊥ }
    ensures order { IsOk result → (interface used : List ℕ) → ExportsLater world.now interface used → ⊥ }
    ensures cause { IfErr result (IsCause world.now) }
{
    let mut state = EncodingState::new(alloc, world, names)?;
    state.encode_all()?;
    state.finish()
}
