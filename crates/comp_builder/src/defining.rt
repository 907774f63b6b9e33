//! The calls of [`ComponentBuilder`] that add a definition, one for each form of definition of the component
//! model's binary format, whose words are in parentheses.
//!
//! Each returns the index of the item that it makes, and fails with [`BuildFault::TooMany`] exactly
//! where that item's space would have more than 2^32 - 1 items, and with [`BuildFault::Memory`] when
//! out of memory; then the builder is unchanged. `debug` is the item's debug name.

ghost use Rattle.std.specs.Prelude.{◌≡◌, IfOk, None};
ghost use Rattle.comp_bytes.specs.Spaces.{kind_space, export_space, sort_space, description_space};
ghost use Rattle.comp_builder.specs.Built.{Adds};
ghost use Rattle.comp_bytes.specs.ItemIndices.{IsAt};
ghost use Rattle.core_types.specs.Core.{IsCoreModule};
ghost use Rattle.comp_builder.specs.Optional.{option_now};

use crate::builder::ComponentBuilder;
use byte_encoding::BuildFault;
use comp_bytes::{
    Alias, Argument, CanonicalOption, ComponentExportKind, CoreArgument, CoreInlineExport,
    CoreModule, Def, DefinedType, Description, ExternName, FuncTypeDef, InstanceType, Intrinsic,
    Item, Sort, Space, TypeDef, space_of_kind,
};
use comp_lists::{Seq, SharedBytes, Text};
use standard_kinds::ExportKind;

impl ComponentBuilder {
    /// A core module, by its bytes, which begin with the core preamble and are shared (`core:module`).
    pub fn core_module_raw(
        &mut self,
        debug: Option<&str>,
        bytes: &SharedBytes,
    ) -> Result<u32, BuildFault>
        requires { IsCoreModule bytes.now }
        ensures adds { Adds self.old self.new result Space.CoreModule
            (Def.Item (Item.CoreModule bytes.now)) (option_now debug.entry) }
        ensures at { IfOk result (λ answer. IsAt self.new.defs Space.CoreModule answer
            (Def.Item (Item.CoreModule bytes.now))) }
    {
        let Some(module) = CoreModule::from_bytes(bytes.share()?) else {
            unreachable!()
        };
        self.define(
            debug,
            Space::CoreModule,
            Def::Item(Item::CoreModule(module)),
        )
    }

    /// An instance of the core module with this index, given a core instance for each name that it
    /// imports from (`core:instance`, `00`).
    pub fn core_instantiate(
        &mut self,
        debug: Option<&str>,
        module: u32,
        args: Seq<CoreArgument>,
    ) -> Result<u32, BuildFault>
        ensures adds { Adds self.old self.new result Space.CoreInstance
            (Def.Item (Item.CoreInstantiate «module» args)) (option_now debug.entry) }
        ensures at { IfOk result (λ answer. IsAt self.new.defs Space.CoreInstance answer
            (Def.Item (Item.CoreInstantiate «module» args))) }
    {
        self.define(
            debug,
            Space::CoreInstance,
            Def::Item(Item::CoreInstantiate { module, args }),
        )
    }

    /// An inline core instance of earlier core items, each under a name (`core:instance`, `01`).
    pub fn core_instantiate_exports(
        &mut self,
        debug: Option<&str>,
        exports: Seq<CoreInlineExport>,
    ) -> Result<u32, BuildFault>
        ensures adds { Adds self.old self.new result Space.CoreInstance
            (Def.Item (Item.CoreExports exports)) (option_now debug.entry) }
        ensures at { IfOk result (λ answer. IsAt self.new.defs Space.CoreInstance answer
            (Def.Item (Item.CoreExports exports))) }
    {
        self.define(
            debug,
            Space::CoreInstance,
            Def::Item(Item::CoreExports(exports)),
        )
    }

    /// The item of this kind that a core instance exports under this name (`alias`, target `01`).
    pub fn core_alias_export(
        &mut self,
        debug: Option<&str>,
        instance: u32,
        name: &str,
        kind: ExportKind,
    ) -> Result<u32, BuildFault>
        ensures adds { Adds self.old self.new result (kind_space kind)
            (Def.Item (Item.Alias (Alias.CoreExport kind instance name.now)))
            (option_now debug.entry) }
        ensures at { IfOk result (λ answer. IsAt self.new.defs (kind_space kind) answer
            (Def.Item (Item.Alias (Alias.CoreExport kind instance name.now)))) }
    {
        let name = Text::from_str(self.allocator(), name)?;
        let alias = Alias::CoreExport {
            kind,
            instance,
            name,
        };
        self.define(debug, space_of_kind(kind), Def::Item(Item::Alias(alias)))
    }

    /// The item of this kind that an instance exports under this name (`alias`, target `00`).
    pub fn alias_export(
        &mut self,
        instance: u32,
        name: &str,
        kind: ComponentExportKind,
    ) -> Result<u32, BuildFault>
        ensures adds { Adds self.old self.new result (export_space kind)
            (Def.Item (Item.Alias (Alias.Export kind instance name.now))) None }
        ensures at { IfOk result (λ answer. IsAt self.new.defs (export_space kind) answer
            (Def.Item (Item.Alias (Alias.Export kind instance name.now)))) }
    {
        let name = Text::from_str(self.allocator(), name)?;
        let alias = Alias::Export {
            kind,
            instance,
            name,
        };
        self.define(None, kind.space(), Def::Item(Item::Alias(alias)))
    }

    /// A nested component, by its definitions, which have no debug names (`component`).
    pub fn component(&mut self, debug: Option<&str>, items: Seq<Item>) -> Result<u32, BuildFault>
        ensures adds { Adds self.old self.new result Space.Component (Def.Component items)
            (option_now debug.entry) }
        ensures at { IfOk result
            (λ answer. IsAt self.new.defs Space.Component answer (Def.Component items)) }
    {
        self.define(debug, Space::Component, Def::Component(items))
    }

    /// An instance of the component with this index, given an item for each name that it imports
    /// (`instance`).
    pub fn instantiate(
        &mut self,
        debug: Option<&str>,
        component: u32,
        args: Seq<Argument>,
    ) -> Result<u32, BuildFault>
        ensures adds { Adds self.old self.new result Space.Instance
            (Def.Item (Item.Instantiate component args)) (option_now debug.entry) }
        ensures at { IfOk result (λ answer. IsAt self.new.defs Space.Instance answer
            (Def.Item (Item.Instantiate component args))) }
    {
        self.define(
            debug,
            Space::Instance,
            Def::Item(Item::Instantiate { component, args }),
        )
    }

    /// A type of functions (`functype`).
    pub fn type_function(&mut self, debug: Option<&str>, ty: FuncTypeDef) -> Result<u32, BuildFault>
        ensures adds { Adds self.old self.new result Space.Type
            (Def.Item (Item.Type (TypeDef.Func ty))) (option_now debug.entry) }
        ensures at { IfOk result (λ answer. IsAt self.new.defs Space.Type answer
            (Def.Item (Item.Type (TypeDef.Func ty)))) }
    {
        self.define(debug, Space::Type, Def::Item(Item::Type(TypeDef::Func(ty))))
    }

    /// A type of values (`defvaltype`).
    pub fn type_defined(&mut self, debug: Option<&str>, ty: DefinedType) -> Result<u32, BuildFault>
        ensures adds { Adds self.old self.new result Space.Type
            (Def.Item (Item.Type (TypeDef.Defined ty))) (option_now debug.entry) }
        ensures at { IfOk result (λ answer. IsAt self.new.defs Space.Type answer
            (Def.Item (Item.Type (TypeDef.Defined ty)))) }
    {
        self.define(
            debug,
            Space::Type,
            Def::Item(Item::Type(TypeDef::Defined(ty))),
        )
    }

    /// A type of instances (`instancetype`).
    pub fn type_instance(
        &mut self,
        debug: Option<&str>,
        ty: InstanceType,
    ) -> Result<u32, BuildFault>
        ensures adds { Adds self.old self.new result Space.Type (Def.Item (Item.InstanceType ty))
            (option_now debug.entry) }
        ensures at { IfOk result
            (λ answer. IsAt self.new.defs Space.Type answer (Def.Item (Item.InstanceType ty))) }
    {
        self.define(debug, Space::Type, Def::Item(Item::InstanceType(ty)))
    }

    /// A type of resources, with the core function that is its destructor (`resourcetype`).
    pub fn type_resource(
        &mut self,
        debug: Option<&str>,
        destructor: Option<u32>,
    ) -> Result<u32, BuildFault>
        ensures adds { Adds self.old self.new result Space.Type
            (Def.Item (Item.Type (TypeDef.Resource destructor))) (option_now debug.entry) }
        ensures at { IfOk result (λ answer. IsAt self.new.defs Space.Type answer
            (Def.Item (Item.Type (TypeDef.Resource destructor)))) }
    {
        self.define(
            debug,
            Space::Type,
            Def::Item(Item::Type(TypeDef::Resource(destructor))),
        )
    }

    /// An import, which makes an item as described (`import`).
    pub fn import(&mut self, name: ExternName, description: Description) -> Result<u32, BuildFault>
        ensures adds { Adds self.old self.new result (description_space description)
            (Def.Item (Item.Import name description)) None }
        ensures at { IfOk result (λ answer. IsAt self.new.defs (description_space description)
            answer (Def.Item (Item.Import name description))) }
    {
        self.define(
            None,
            description.space(),
            Def::Item(Item::Import { name, description }),
        )
    }

    /// An export of the item with this sort and index. It makes an item too, as described, or of the type of
    /// what it exports (`export`).
    pub fn export(
        &mut self,
        name: ExternName,
        sort: Sort,
        index: u32,
        description: Option<Description>,
    ) -> Result<u32, BuildFault>
        ensures adds { Adds self.old self.new result (sort_space sort)
            (Def.Item (Item.Export name sort index description)) None }
        ensures at { IfOk result (λ answer. IsAt self.new.defs (sort_space sort) answer
            (Def.Item (Item.Export name sort index description))) }
    {
        self.define(
            None,
            sort.space(),
            Def::Item(Item::Export {
                name,
                sort,
                index,
                description,
            }),
        )
    }

    /// A core function that calls the function with this index (`canon lower`).
    pub fn lower_func(
        &mut self,
        debug: Option<&str>,
        func: u32,
        options: Seq<CanonicalOption>,
    ) -> Result<u32, BuildFault>
        ensures adds { Adds self.old self.new result Space.CoreFunc
            (Def.Item (Item.Lower func options)) (option_now debug.entry) }
        ensures at { IfOk result (λ answer. IsAt self.new.defs Space.CoreFunc answer
            (Def.Item (Item.Lower func options))) }
    {
        self.define(
            debug,
            Space::CoreFunc,
            Def::Item(Item::Lower { func, options }),
        )
    }

    /// A function of this type that calls the core function with this index (`canon lift`).
    pub fn lift_func(
        &mut self,
        debug: Option<&str>,
        func: u32,
        ty: u32,
        options: Seq<CanonicalOption>,
    ) -> Result<u32, BuildFault>
        ensures adds { Adds self.old self.new result Space.Func
            (Def.Item (Item.Lift func options ty)) (option_now debug.entry) }
        ensures at { IfOk result (λ answer. IsAt self.new.defs Space.Func answer
            (Def.Item (Item.Lift func options ty))) }
    {
        self.define(
            debug,
            Space::Func,
            Def::Item(Item::Lift { func, options, ty }),
        )
    }

    /// A core function of the runtime (`canon`, all other forms).
    pub fn intrinsic(&mut self, intrinsic: Intrinsic) -> Result<u32, BuildFault>
        ensures adds { Adds self.old self.new result Space.CoreFunc
            (Def.Item (Item.Intrinsic intrinsic)) None }
        ensures at { IfOk result (λ answer. IsAt self.new.defs Space.CoreFunc answer
            (Def.Item (Item.Intrinsic intrinsic))) }
    {
        self.define(None, Space::CoreFunc, Def::Item(Item::Intrinsic(intrinsic)))
    }
}
