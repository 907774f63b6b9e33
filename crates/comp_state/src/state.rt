//! The state while a world is encoded, and the steps in it.
#![tactic(auto, using(crate::proofs::Growth::growing))]

ghost use Rattle.std.specs.Prelude.{◌≡◌, [], IfOk, IfErr, OnOk};
ghost use Rattle.std.specs.List.{AllByRecursion};
ghost use Rattle.comp_builder.specs.Built.{nothing_built};
ghost use Rattle.comp_items.specs.Items.{Extends};
ghost use Rattle.comp_links.specs.Lists.{required_functions};
ghost use Rattle.comp_links.specs.Modules.{UserImport, user_imports};
ghost use Rattle.comp_links.specs.Supplied.{IsSuppliedImport};
ghost use Rattle.comp_state.specs.Encoding.{naming_in};
ghost use Rattle.comp_worlds.specs.Bases.{AreBasesAlike};
ghost use Rattle.comp_worlds.specs.ExportOrder.{AreExportsInOrder};
ghost use Rattle.comp_worlds.specs.Made.{AreMadeInOrder};
ghost use Rattle.comp_state.specs.declared.state.Step.TheVariants.{Started, Imported, Instantiated};
ghost use Rattle.comp_terms.specs.Exports.{exports_in};
ghost use Rattle.comp_terms.specs.Rules.{Grows, bytes_marked, imports_marked, exports_marked, landmarks};
ghost use Rattle.comp_worlds.specs.Encodable.{IsEncodable};
ghost use Rattle.core_instances.specs.Instances.{AreUserModules, AddsInstances};
ghost use Rattle.core_options.specs.Causes.{IsCause, IsEncodedExport};
ghost use Rattle.core_options.specs.MainOptions.{HasLowerOptions, HasLiftOptions};

use comp_imports::{ImportNames, import_all};
use comp_items::ComponentItems;
use comp_lists::{Keyed, Text};
use comp_worlds::ComponentWorld;
use core_instances::{encode_core_instantiation, encode_core_modules};
use core_options::{StateFault, UserInstances};
use main_exports::export_all;
use root_imports::RootScope;
use std::alloc::{AllocError, Global};
use std::marker::Model;

/// How far an encoding has come.
#[derive(Clone, Copy, Debug, PartialEq, Eq)]
pub enum Step {
    /// Nothing is imported yet.
    Started,
    /// What the world imports is there.
    Imported,
    /// The instances of the user modules are there too.
    Instantiated,
}

/// A world that is being encoded: the component under construction, and the items made so far.
///
/// After a refused step the component has only grown at its end, and is to be dropped.
pub struct EncodingState<'a> {
    /// The world, the component under construction, and the types that were met.
    pub(crate) root: RootScope<'a, ComponentWorld>,
    /// Makes the names of interfaces that are imported or exported, and says whether core modules have names.
    pub(crate) names: ImportNames<'a>,
    pub(crate) step: Step,
    /// The root functions that were imported.
    pub(crate) functions: Keyed<Text, u32>,
    /// The instances of the user modules.
    pub(crate) users: Option<UserInstances>,
}

impl Drop for EncodingState<'_> {
    fn drop(self) {
        let EncodingState {
            root: _,
            names: _,
            step: _,
            functions: _,
            users: _,
        } = self;
    }
}

impl<'a> Model for EncodingState<'a> {
    ghost use Rattle.comp_state.specs.Encoding.{Encoding};
    ghost use Rattle.comp_state.specs.Tables.{IsEncoding};

    ghost Value = { Encoding };

    ghost view = { λ s. record { world = s.root.world.now; canonical = s.names.canonical; renamed = s.names.renamed.now; debug_names = s.names.debug_names; built = s.root.items; step = s.step } };

    ghost invariant = { λ s. IsEncoding s.root.world.now s.root.met s.root.items.defs s.root.maps s.root.instances s.step s.functions s.users };
}

impl<'a> EncodingState<'a> {
    /// The state before the first step: no item is made yet. Interfaces are to be imported under the names that `names`
    /// makes, and core modules have names for debuggers if it says so.
    pub fn new(
        alloc: Global,
        world: &'a ComponentWorld,
        names: ImportNames<'a>,
    ) -> Result<EncodingState<'a>, AllocError>
        requires { IsEncodable world.now }
        ensures { IfOk result (λ s. s
            ≡ record {
              world = world.entry.now;
              canonical = names.entry.canonical;
              renamed = names.entry.renamed.now;
              debug_names = names.entry.debug_names;
              built = nothing_built;
              step = Started;
            }) }
    {
        Ok(EncodingState {
            root: RootScope::new(alloc, world),
            names,
            step: Step::Started,
            functions: Keyed::new(alloc),
            users: None,
        })
    }
}

impl EncodingState<'_> {
    /// The component as far as it was built.
    pub(crate) fn into_component(self) -> ComponentItems
        ensures { result ≡ self.entry.built }
    {
        let EncodingState {
            root,
            names: _,
            step: _,
            functions: _,
            users: _,
        } = self;
        root.into_items()
    }

    /// Imports the interfaces of which the component needs something, then the types of the world, and then the root
    /// functions that imports of user modules use, each in the order of the world.
    pub fn encode_imports(&mut self) -> Result<(), StateFault>
        requires started { self.old.step ≡ Started }
        requires empty { self.old.built.defs ≡ [] }
        ensures world { self.new.world ≡ self.old.world }
        ensures names { naming_in self.new ≡ naming_in self.old }
        ensures step { OnOk result (self.new.step ≡ Imported) }
        ensures extends { Extends self.old.built self.new.built }
        ensures grows { OnOk result (Grows self.old.world self.old.built.defs self.new.built.defs
            (imports_marked (naming_in self.old) self.old.world)) }
        ensures cause { IfErr result (IsCause self.old.world) }
    {
        let functions = import_all(&mut self.root, &self.names)?;
        self.functions = functions;
        self.step = Step::Imported;
        Ok(())
    }

    /// Appends the core modules of the user modules, main's and then those of the adapters in
    /// order: they are the first ones of the component.
    pub fn encode_core_modules(&mut self) -> Result<(), StateFault>
        requires { landmarks self.old.built.defs
            ≡ imports_marked (naming_in self.old) self.old.world }
        ensures same { self.new ≡ record self.old { built = self.new.built } }
        ensures extends { Extends self.old.built self.new.built }
        ensures grows { OnOk result (Grows self.old.world self.old.built.defs self.new.built.defs
            (bytes_marked self.old.debug_names self.old.world)) }
        ensures users { OnOk result (AreUserModules self.old.world self.new.built.defs) }
        ensures cause { IfErr result (IsCause self.old.world) }
    {
        encode_core_modules(&mut self.root, self.names.debug_names)?;
        Ok(())
    }

    /// Makes the instances of the user modules; before them that of the module of shims, where a
    /// module needs shims or a cell for the thread-local base, or main imports its memory, and after
    /// them that of the fixup, where a module needs shims.
    ///
    /// `E9` where an import of a function has no string encoding, `E6` where two modules use a cell
    /// for bases of different types, `E7` where a function is lowered with a memory and main has
    /// none, `E8` where it is lowered with a realloc and there is none for the module, `E10` where
    /// an adapter names one that is not instantiated before it, and `E11` where an exported
    /// interface uses types of another one that isn't exported before it.
    pub fn encode_core_instantiation(&mut self) -> Result<(), StateFault>
        requires users { AreUserModules self.old.world self.old.built.defs }
        requires imported { self.old.step ≡ Imported }
        ensures world { self.new.world ≡ self.old.world }
        ensures names { naming_in self.new ≡ naming_in self.old }
        ensures step { OnOk result (self.new.step ≡ Instantiated) }
        ensures extends { Extends self.old.built self.new.built }
        ensures ordered { OnOk result (AreExportsInOrder self.old.world) }
        ensures alike { OnOk result (AreBasesAlike self.old.world) }
        ensures in_order { OnOk result (AreMadeInOrder self.old.world) }
        ensures added { OnOk result (AddsInstances self.old.world self.old.debug_names
            self.old.built.defs self.new.built.defs) }
        ensures encoded { OnOk result (AllByRecursion
            (λ (i : UserImport). IsSuppliedImport self.old.world i.of i.core.role)
            (user_imports self.old.world)) }
        ensures lowered { OnOk result
            (AllByRecursion (HasLowerOptions self.old.world) (user_imports self.old.world)) }
        ensures cause { IfErr result (IsCause self.old.world) }
    {
        let users = encode_core_instantiation(
            &mut self.root,
            &self.functions,
            self.names.debug_names,
        )?;
        self.users = Some(users);
        self.step = Step::Instantiated;
        Ok(())
    }

    /// Lifts and exports what is required of main, and then of each adapter, in order.
    pub fn encode_exports(&mut self) -> Result<(), StateFault>
        requires instantiated { self.old.step ≡ Instantiated }
        requires none { exports_in self.old.built.defs ≡ 0 }
        ensures same { self.new ≡ record self.old { built = self.new.built } }
        ensures extends { Extends self.old.built self.new.built }
        ensures grows { OnOk result (Grows self.old.world self.old.built.defs self.new.built.defs
            (exports_marked (naming_in self.old) self.old.world)) }
        ensures encoded { OnOk result
            (AllByRecursion (IsEncodedExport self.old.world) (required_functions self.old.world)) }
        ensures has { OnOk result
            (AllByRecursion (HasLiftOptions self.old.world) (required_functions self.old.world)) }
        ensures cause { IfErr result (IsCause self.old.world) }
    {
        match &self.users {
            Some(users) => export_all(&mut self.root, users, &self.names),
            None => unreachable!(),
        }
    }
}
