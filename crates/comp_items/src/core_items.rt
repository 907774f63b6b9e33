//! Core modules, core instances, and aliases of what these export.
#![tactic(auto, using(crate::proofs::Extending::extending))]

ghost use Rattle.std.specs.Prelude.{◌≡◌, ℕ, IfOk, IfErr, OnOk, Some};
ghost use Rattle.comp_bytes.specs.ItemIndices.{IsAt};
ghost use Rattle.comp_bytes.specs.Spaces.{kind_space};
ghost use Rattle.comp_builder.specs.Built.{Adds, Full};
ghost use Rattle.comp_builder.specs.Optional.{option_now};
ghost use Rattle.comp_items.specs.Items.{Extends, MayAdd};
ghost use Rattle.comp_terms.specs.Terms.{IsInstanceOf, IsExported};
ghost use Rattle.core_types.specs.Core.{IsCoreModule};

use crate::alias_key::AliasKey;
use crate::items::ComponentItems;
use byte_encoding::BuildFault;
use comp_bytes::{Alias, CoreArgument, CoreInlineExport, Def, Item, Space};
use comp_lists::{Seq, SharedBytes, Text};
use standard_kinds::ExportKind;

impl ComponentItems {
    /// Adds a core module, by its bytes, which are shared.
    pub fn core_module(
        &mut self,
        debug: Option<&str>,
        bytes: &SharedBytes,
    ) -> Result<u32, BuildFault>
        requires { IsCoreModule bytes.now }
        ensures adds { Adds self.old self.new result Space.CoreModule
            (Def.Item (Item.CoreModule bytes.now)) (option_now debug.entry) }
        ensures at { IfOk result (λ index. IsAt self.new.defs Space.CoreModule index
            (Def.Item (Item.CoreModule bytes.now))) }
    {
        self.component.core_module_raw(debug, bytes)
    }

    /// Adds an instance of the core module with this index, which is given these arguments.
    pub fn core_instance(
        &mut self,
        debug: Option<&str>,
        module: u32,
        arguments: Seq<CoreArgument>,
    ) -> Result<u32, BuildFault>
        ensures adds { Adds self.old self.new result Space.CoreInstance
            (Def.Item (Item.CoreInstantiate «module» arguments)) (option_now debug.entry) }
        ensures instance { IfOk result (λ index. IsInstanceOf self.new.defs index «module») }
    {
        self.component.core_instantiate(debug, module, arguments)
    }

    /// Adds an inline core instance with these entries.
    pub fn inline_instance(
        &mut self,
        debug: Option<&str>,
        entries: Seq<CoreInlineExport>,
    ) -> Result<u32, BuildFault>
        ensures adds { Adds self.old self.new result Space.CoreInstance
            (Def.Item (Item.CoreExports entries)) (option_now debug.entry) }
        ensures at { IfOk result (λ index. IsAt self.new.defs Space.CoreInstance index
            (Def.Item (Item.CoreExports entries))) }
    {
        self.component.core_instantiate_exports(debug, entries)
    }

    /// The alias of what a core instance exports that was added before, if there is one.
    fn earlier_alias(&self, key: &AliasKey) -> Option<u32>
        ensures { (index : ℕ)
            → result ≡ Some index
            → IsAt self.now.defs (kind_space key.now.kind) index (Def.Item
            (Item.Alias (Alias.CoreExport key.now.kind key.now.instance key.now.name))) }
    {
        self.aliases.get(key).copied()
    }

    /// Adds an alias of what a core instance exports.
    fn add_alias(&mut self, debug: &str, key: AliasKey) -> Result<u32, BuildFault>
        ensures extends { Extends self.old self.new }
        ensures adds { OnOk result (MayAdd self.old.defs self.new.defs
            (Def.Item (Item.Alias (Alias.CoreExport key.kind key.instance key.name)))) }
        ensures at { IfOk result (λ index. IsAt self.new.defs (kind_space key.kind) index
            (Def.Item (Item.Alias (Alias.CoreExport key.kind key.instance key.name)))) }
        ensures cause { IfErr result (Full (kind_space key.kind) self.old.defs) }
    {
        let name = key.name.as_str();
        let index = self
            .component
            .core_alias_export(Some(debug), key.instance, name, key.kind)?;
        self.aliases.insert_if_absent(key, index)?;
        Ok(index)
    }

    /// The item of this kind that a core instance exports under this name: an alias that was added
    /// before, or a new one with this debug name.
    fn named_export(
        &mut self,
        debug: &str,
        instance: u32,
        kind: ExportKind,
        name: &str,
    ) -> Result<u32, BuildFault>
        ensures extends { Extends self.old self.new }
        ensures adds { OnOk result (MayAdd self.old.defs self.new.defs
            (Def.Item (Item.Alias (Alias.CoreExport kind instance name.now)))) }
        ensures exported { IfOk result (λ index. (number : ℕ)
            → IsInstanceOf self.old.defs instance number
            → IsExported self.new.defs index
            (record { of = number; kind = kind; name = name.now })) }
        ensures cause { IfErr result (Full (kind_space kind) self.old.defs) }
    {
        let name = Text::from_str(self.alloc, name)?;
        let key = AliasKey {
            instance,
            kind,
            name,
        };
        match self.earlier_alias(&key) {
            Some(index) => Ok(index),
            None => self.add_alias(debug, key),
        }
    }

    /// The item of this kind that a core instance exports under this name: an alias that was added
    /// before, or a new one.
    ///
    /// The debug name of a new one is the name of the export.
    pub fn core_export(
        &mut self,
        instance: u32,
        kind: ExportKind,
        name: &str,
    ) -> Result<u32, BuildFault>
        ensures extends { Extends self.old self.new }
        ensures adds { OnOk result (MayAdd self.old.defs self.new.defs
            (Def.Item (Item.Alias (Alias.CoreExport kind instance name.now)))) }
        ensures exported { IfOk result (λ index. (number : ℕ)
            → IsInstanceOf self.old.defs instance number
            → IsExported self.new.defs index
            (record { of = number; kind = kind; name = name.now })) }
        ensures cause { IfErr result (Full (kind_space kind) self.old.defs) }
    {
        self.named_export(name, instance, kind, name)
    }

    /// The function that a core instance exports under this name: an alias that was added before,
    /// or a new one with this debug name.
    pub fn named_function(
        &mut self,
        debug: &str,
        instance: u32,
        name: &str,
    ) -> Result<u32, BuildFault>
        ensures extends { Extends self.old self.new }
        ensures adds { OnOk result (MayAdd self.old.defs self.new.defs
            (Def.Item (Item.Alias (Alias.CoreExport ExportKind.Func instance name.now)))) }
        ensures exported { IfOk result (λ index. (number : ℕ)
            → IsInstanceOf self.old.defs instance number
            → IsExported self.new.defs index
            (record { of = number; kind = ExportKind.Func; name = name.now })) }
        ensures cause { IfErr result (Full Space.CoreFunc self.old.defs) }
    {
        self.named_export(debug, instance, ExportKind::Func, name)
    }

    /// The function that a core instance exports under this name: an alias that was added before, or a new one.
    ///
    /// The debug name of a new one is the name of the export.
    pub fn core_function(&mut self, instance: u32, name: &str) -> Result<u32, BuildFault>
        ensures extends { Extends self.old self.new }
        ensures adds { OnOk result (MayAdd self.old.defs self.new.defs
            (Def.Item (Item.Alias (Alias.CoreExport ExportKind.Func instance name.now)))) }
        ensures exported { IfOk result (λ index. (number : ℕ)
            → IsInstanceOf self.old.defs instance number
            → IsExported self.new.defs index
            (record { of = number; kind = ExportKind.Func; name = name.now })) }
        ensures cause { IfErr result (Full Space.CoreFunc self.old.defs) }
    {
        self.named_function(name, instance, name)
    }

    /// The memory that a core instance exports under this name: an alias that was added before, or a new one.
    ///
    /// The debug name of a new one is `memory`.
    pub fn core_memory(&mut self, instance: u32, name: &str) -> Result<u32, BuildFault>
        ensures extends { Extends self.old self.new }
        ensures adds { OnOk result (MayAdd self.old.defs self.new.defs
            (Def.Item (Item.Alias (Alias.CoreExport ExportKind.Memory instance name.now)))) }
        ensures exported { IfOk result (λ index. (number : ℕ)
            → IsInstanceOf self.old.defs instance number
            → IsExported self.new.defs index
            (record { of = number; kind = ExportKind.Memory; name = name.now })) }
        ensures cause { IfErr result (Full Space.CoreMemory self.old.defs) }
    {
        self.named_export("memory", instance, ExportKind::Memory, name)
    }
}
