//! The root functions that are imported.
#![tactic(auto, using(crate::proofs::Growth::growing))]

ghost use Rattle.std.specs.Prelude.{◌≡◌, [], ◌∷◌, List, ℕ, IfOk, IfErr, OnOk, IsTrue, IsSome, is_some, map};
ghost use Rattle.std.specs.List.{AllByRecursion};
ghost use Rattle.comp_lists.specs.Found.{found};
ghost use Rattle.comp_items.specs.Items.{Extends};
ghost use Rattle.comp_links.specs.Roles.{is_used, used_functions};
ghost use Rattle.comp_terms.specs.Planned.{type_of_function};
ghost use Rattle.comp_terms.specs.Rules.{Grows, named_import, names_marked};
ghost use Rattle.comp_terms.specs.Terms.{IsImportedFunction, imports_in};
ghost use Rattle.comp_worlds.specs.Encodable.{IsEncodable};
ghost use Rattle.comp_worlds.specs.WorldContents.{items_of, root_function};
ghost use Rattle.wit_data.specs.Sound.{HasFunction};
ghost use Rattle.root_imports.specs.Imports.{first_imports};
ghost use Rattle.root_imports.specs.Imports.{FindsImports, FindsMore, FindsUsed, IsNeededFunction, IsNext, IsNextItem};
ghost use Rattle.root_imports.specs.RootScopes.{AreTablesRight, ArePassed, IsRefusal};

use crate::root_scope::RootScope;
use crate::used::used_functions;
use byte_encoding::BuildFault;
use comp_bytes::ExternName;
use comp_lists::{Keyed, Text};
use comp_worlds::ComponentWorld;
use wit_data::{Function, WorldItem, WorldKey};

impl RootScope<'_, ComponentWorld> {
    /// Imports a root function under its name, with its type.
    fn import_function(&mut self, name: &Text, function: &Function) -> Result<u32, BuildFault>
        requires valid { IsEncodable self.old.world.now }
        requires present { HasFunction self.old.world.now.resolve function.now }
        requires needed { IsNeededFunction self.old.world.now None function.now }
        requires passed { ArePassed self.old.world.now self.old.met }
        requires tables { AreTablesRight self.old.world.now self.old.met self.old.instances
            self.old.items.defs self.old.maps }
        ensures world { self.new.world ≡ self.old.world }
        ensures met { self.new.met ≡ self.old.met }
        ensures instances { self.new.instances ≡ self.old.instances }
        ensures extends { Extends self.old.items self.new.items }
        ensures grows { OnOk result (Grows self.old.world.now self.old.items.defs
            self.new.items.defs (named_import name.now ∷ [])) }
        ensures tables { AreTablesRight self.old.world.now self.old.met self.new.instances
            self.new.items.defs self.new.maps }
        ensures imported { IfOk result (λ index. IsImportedFunction self.new.items.defs index
            (record { number = imports_in self.old.items.defs; inner = None })
            (type_of_function self.old.world.now function.now)) }
        ensures cause { IfErr result IsRefusal }
    {
        let name = ExternName {
            name: name.clone(self.items.allocator())?,
            version_suffix: None,
        };
        let ty = self.function_type(None, function)?;
        let index = self.items.import_function(name, ty)?;
        Ok(index)
    }

    /// Imports a root function, if an import of main uses it.
    fn import_used(
        &mut self,
        used: &Keyed<Text, ()>,
        functions: &mut Keyed<Text, u32>,
        name: &Text,
        function: &Function,
    ) -> Result<(), BuildFault>
        requires valid { IsEncodable self.old.world.now }
        requires present { HasFunction self.old.world.now.resolve function.now }
        requires passed { ArePassed self.old.world.now self.old.met }
        requires tables { AreTablesRight self.old.world.now self.old.met self.old.instances
            self.old.items.defs self.old.maps }
        requires used { (text : List ℕ)
            → is_some (found text used.now) ≡ is_used self.old.world.now text }
        requires next { IsNext self.old.world.now self.old.items.defs name.now function.now }
        requires imports { FindsImports self.old.world.now self.old.items.defs functions.old }
        ensures world { self.new.world ≡ self.old.world }
        ensures met { self.new.met ≡ self.old.met }
        ensures instances { self.new.instances ≡ self.old.instances }
        ensures extends { Extends self.old.items self.new.items }
        ensures grows { OnOk result (Grows self.old.world.now self.old.items.defs
            self.new.items.defs (names_marked self.old.world.now (name.now ∷ []))) }
        ensures tables { AreTablesRight self.old.world.now self.old.met self.new.instances
            self.new.items.defs self.new.maps }
        ensures imports { OnOk result
            (FindsImports self.old.world.now self.new.items.defs functions.new) }
        ensures finds { FindsMore functions.old functions.new }
        ensures found { OnOk result
            (IsTrue (is_used self.old.world.now name.now) → IsSome (found name.now functions.new)) }
        ensures cause { IfErr result IsRefusal }
    {
        if !used.contains_key(name) {
            return Ok(());
        }
        let index = self.import_function(name, function)?;
        let name = name.clone(self.items.allocator())?;
        functions.insert_if_absent(name, index)?;
        Ok(())
    }

    /// Imports an item of the world, if it is a root function that an import of main uses.
    fn import_function_item(
        &mut self,
        used: &Keyed<Text, ()>,
        functions: &mut Keyed<Text, u32>,
        key: &WorldKey,
        item: &WorldItem,
    ) -> Result<(), BuildFault>
        requires valid { IsEncodable self.old.world.now }
        requires passed { ArePassed self.old.world.now self.old.met }
        requires tables { AreTablesRight self.old.world.now self.old.met self.old.instances
            self.old.items.defs self.old.maps }
        requires used { (text : List ℕ)
            → is_some (found text used.now) ≡ is_used self.old.world.now text }
        requires next { IsNextItem self.old.world.now self.old.items.defs (key.now, item.now) }
        requires imports { FindsImports self.old.world.now self.old.items.defs functions.old }
        ensures world { self.new.world ≡ self.old.world }
        ensures met { self.new.met ≡ self.old.met }
        ensures instances { self.new.instances ≡ self.old.instances }
        ensures extends { Extends self.old.items self.new.items }
        ensures grows { OnOk result (Grows self.old.world.now self.old.items.defs
            self.new.items.defs
            (names_marked self.old.world.now (root_function (key.now, item.now)))) }
        ensures tables { AreTablesRight self.old.world.now self.old.met self.new.instances
            self.new.items.defs self.new.maps }
        ensures imports { OnOk result
            (FindsImports self.old.world.now self.new.items.defs functions.new) }
        ensures finds { FindsMore functions.old functions.new }
        ensures found { OnOk result (AllByRecursion (λ name. IsTrue
            (is_used self.old.world.now name)
            → IsSome (found name functions.new)) (root_function (key.now, item.now))) }
        ensures cause { IfErr result IsRefusal }
    {
        match (key, item) {
            (WorldKey::Name(name), WorldItem::Function(function)) => {
                self.import_used(used, functions, name, function)
            }
            _ => Ok(()),
        }
    }

    /// Imports those of these items that are root functions which imports of user modules use, in their order.
    fn import_items(
        &mut self,
        used: &Keyed<Text, ()>,
        items: &Keyed<WorldKey, WorldItem>,
    ) -> Result<Keyed<Text, u32>, BuildFault>
        requires valid { IsEncodable self.old.world.now }
        requires items { items.now ≡ (items_of self.old.world.now).imports }
        requires used { (text : List ℕ)
            → is_some (found text used.now) ≡ is_used self.old.world.now text }
        requires types { imports_in self.old.items.defs ≡ first_imports self.old.world.now }
        requires passed { ArePassed self.old.world.now self.old.met }
        requires tables { AreTablesRight self.old.world.now self.old.met self.old.instances
            self.old.items.defs self.old.maps }
        ensures world { self.new.world ≡ self.old.world }
        ensures met { self.new.met ≡ self.old.met }
        ensures instances { self.new.instances ≡ self.old.instances }
        ensures extends { Extends self.old.items self.new.items }
        ensures grows { OnOk result (Grows self.old.world.now self.old.items.defs
            self.new.items.defs (map named_import (used_functions self.old.world.now))) }
        ensures tables { AreTablesRight self.old.world.now self.old.met self.new.instances
            self.new.items.defs self.new.maps }
        ensures imports { IfOk result (FindsImports self.old.world.now self.new.items.defs) }
        ensures found { IfOk result (FindsUsed self.old.world.now) }
        ensures cause { IfErr result IsRefusal }
    {
        let mut functions = Keyed::new(self.items.allocator());
        for (key, item) in items.iter() {
            self.import_function_item(used, &mut functions, key, item)?;
        }
        Ok(functions)
    }

    /// Imports the root functions that imports of user modules use, in the order of the world, and returns their
    /// indices by their names. The interfaces and the types of the world are imported before.
    ///
    /// Refused when out of memory, and where a space would have more than 2^32 - 1 items. What was
    /// imported until then stays.
    pub fn import_functions(&mut self) -> Result<Keyed<Text, u32>, BuildFault>
        requires valid { IsEncodable self.old.world.now }
        requires types { imports_in self.old.items.defs ≡ first_imports self.old.world.now }
        requires passed { ArePassed self.old.world.now self.old.met }
        requires tables { AreTablesRight self.old.world.now self.old.met self.old.instances
            self.old.items.defs self.old.maps }
        ensures world { self.new.world ≡ self.old.world }
        ensures met { self.new.met ≡ self.old.met }
        ensures instances { self.new.instances ≡ self.old.instances }
        ensures extends { Extends self.old.items self.new.items }
        ensures grows { OnOk result (Grows self.old.world.now self.old.items.defs
            self.new.items.defs (map named_import (used_functions self.old.world.now))) }
        ensures tables { AreTablesRight self.old.world.now self.old.met self.new.instances
            self.new.items.defs self.new.maps }
        ensures imports { IfOk result (FindsImports self.old.world.now self.new.items.defs) }
        ensures found { IfOk result (FindsUsed self.old.world.now) }
        ensures cause { IfErr result IsRefusal }
    {
        let world = self.world;
        let used = used_functions(self.items.allocator(), world)?;
        self.import_items(&used, &world.items().imports)
    }
}
