//! The tables that follow from a world's parts: an interface `i` is imported, with types `r` and
//! `s` and functions `f` and `g`, which main imports; `k` and `j` are exported, and `j` has a
//! function that takes a type of `k`.
//!
//! The query is one of these:
//!
//! - `met` and the name of a function of `i`: how its import is satisfied (`Direct`, or `Indirect` through a table), the bits of its
//!   options, and after `Indirect` how many core parameters and results it has;
//! - `live`: how many types of `i` are live, and the first;
//! - `needed` and `k` or `j`: how many other exported interfaces it needs, and the first.

ghost use Rattle.std.specs.Prelude.{◌≡◌, [], IfOk, OnOk};
ghost use Rattle.tests_of_worlds.specs.CoreImports.{role_of, fields_of, with_module, core_imports};

use bitflags::Flags;
use comp_lists::{Keyed, Seq, SharedBytes, Text};
use comp_worlds::{
    ComponentWorld, ExportMap, Import, ImportInstance, ImportMap, Lowering, LoweringKey,
    ModuleMetadata, ValidatedModule, WorldParts,
};
use std::alloc::{AllocError, Global};
use test_cases::word_and_rest;
use wit_data::{
    AbiVariant, Function, Interface, InterfaceId, Resolve, TypeDef, TypeId, TypeOwner, World,
    WorldId, WorldItem, WorldKey,
};
use wit_texts::{kind, named_function_of, push_type};
use world_tables::world_of_parts;

const fn interface(index: usize) -> InterfaceId
    ensures { result ≡ record { index = index } }
{
    InterfaceId { index }
}

/// Adds a type of an interface, by its name.
fn push_named(
    alloc: Global,
    types: &mut Seq<TypeDef>,
    name: &str,
    index: usize,
    text: &str,
) -> Result<(), AllocError> {
    let name = Text::from_str(alloc, name)?;
    let kind = kind(alloc, text)?;
    types.push(TypeDef {
        name: Some(name),
        kind,
        owner: TypeOwner::Interface(interface(index)),
    })?;
    Ok(())
}

/// A list of bytes; a record of it and an enumeration of the first interface; a record of the second.
fn types(alloc: Global) -> Result<Seq<TypeDef>, AllocError> {
    let mut types = Seq::new(alloc);
    push_type(alloc, &mut types, "list u8")?;
    push_named(alloc, &mut types, "r", 0, "record 0")?;
    push_named(alloc, &mut types, "s", 0, "enum 1")?;
    push_named(alloc, &mut types, "t", 1, "record u32")?;
    Ok(types)
}

/// Adds a function by its name.
fn add_function(
    alloc: Global,
    functions: &mut Keyed<Text, Function>,
    name: &str,
    text: &str,
) -> Result<(), AllocError> {
    let key = Text::from_str(alloc, name)?;
    let function = named_function_of(alloc, name, text)?;
    functions.insert_if_absent(key, function)
}

fn functions_of(
    alloc: Global,
    functions: &[(&str, &str)],
) -> Result<Keyed<Text, Function>, AllocError> {
    let mut all = Keyed::new(alloc);
    for (name, text) in functions {
        add_function(alloc, &mut all, name, text)?;
    }
    Ok(all)
}

fn named_types(alloc: Global, named: &[(&str, usize)]) -> Result<Keyed<Text, TypeId>, AllocError> {
    let mut types = Keyed::new(alloc);
    for (name, index) in named {
        let name = Text::from_str(alloc, name)?;
        types.insert_if_absent(name, TypeId { index: *index })?;
    }
    Ok(types)
}

fn interface_of(types: Keyed<Text, TypeId>, functions: Keyed<Text, Function>) -> Interface {
    Interface {
        id: None,
        types,
        functions,
    }
}

/// Adds an interface with these types and functions.
fn push_interface(
    alloc: Global,
    interfaces: &mut Seq<Interface>,
    named: &[(&str, usize)],
    functions: &[(&str, &str)],
) -> Result<(), AllocError> {
    let types = named_types(alloc, named)?;
    let functions = functions_of(alloc, functions)?;
    interfaces.push(interface_of(types, functions))?;
    Ok(())
}

/// The types of `i`, and its functions: `f: func(p: r)` and `g: func()`.
const TYPES_OF_I: &[(&str, usize)] = &[("r", 1), ("s", 2)];

const FUNCTIONS_OF_I: &[(&str, &str)] = &[("f", "1 ->"), ("g", "->")];

/// The types of `k`.
const TYPES_OF_K: &[(&str, usize)] = &[("t", 3)];

/// The functions of `j`: `h: func(p: t)`.
const FUNCTIONS_OF_J: &[(&str, &str)] = &[("h", "3 ->")];

/// `i`, `k` and `j`.
fn interfaces(alloc: Global) -> Result<Seq<Interface>, AllocError> {
    let mut all = Seq::new(alloc);
    push_interface(alloc, &mut all, TYPES_OF_I, FUNCTIONS_OF_I)?;
    push_interface(alloc, &mut all, TYPES_OF_K, &[])?;
    push_interface(alloc, &mut all, &[], FUNCTIONS_OF_J)?;
    Ok(all)
}

/// Adds an interface to the imports or the exports of a world.
fn add_item(items: &mut Keyed<WorldKey, WorldItem>, id: InterfaceId) -> Result<(), AllocError> {
    items.insert_if_absent(WorldKey::Interface(id), WorldItem::Interface(id))
}

/// The world imports `i`, and exports `k` and `j`.
fn world(alloc: Global) -> Result<World, AllocError> {
    let mut imports = Keyed::new(alloc);
    add_item(&mut imports, interface(0))?;
    let mut exports = Keyed::new(alloc);
    add_item(&mut exports, interface(1))?;
    add_item(&mut exports, interface(2))?;
    Ok(World { imports, exports })
}

fn worlds(alloc: Global) -> Result<Seq<World>, AllocError> {
    let world = world(alloc)?;
    let mut worlds = Seq::new(alloc);
    worlds.push(world)?;
    Ok(worlds)
}

fn resolve(alloc: Global) -> Result<Resolve, AllocError> {
    let interfaces = interfaces(alloc)?;
    let types = types(alloc)?;
    let worlds = worlds(alloc)?;
    Ok(Resolve {
        interfaces,
        types,
        worlds,
    })
}

/// A core import of this name, whose role is the function of `i` of the same name.
fn role(alloc: Global, name: &str) -> Result<Import, AllocError>
    ensures { IfOk result (λ r. r ≡ role_of name.now) }
{
    let key = WorldKey::Interface(interface(0));
    let name = Text::from_str(alloc, name)?;
    Ok(Import::InterfaceFunc(key, interface(0), name, AbiVariant::GuestImport))
}

fn fields(alloc: Global, name: &str) -> Result<Keyed<Text, Import>, AllocError>
    ensures { IfOk result (λ t. t ≡ fields_of name.now) }
{
    let field = Text::from_str(alloc, name)?;
    let role = role(alloc, name)?;
    let mut fields = Keyed::new(alloc);
    fields.insert_if_absent(field, role)?;
    Ok(fields)
}

/// Adds a module of which this field is imported.
fn add_module(
    alloc: Global,
    modules: &mut Keyed<Text, ImportInstance>,
    name: &str,
    field: &str,
) -> Result<(), AllocError>
    ensures { OnOk result (modules.new ≡ with_module modules.old name.now field.now) }
{
    let name = Text::from_str(alloc, name)?;
    let fields = fields(alloc, field)?;
    modules.insert_if_absent(name, ImportInstance::Names(fields))
}

/// The core imports of main: `f` of `a`, and `g` of `b`.
fn imports(alloc: Global) -> Result<ImportMap, AllocError>
    ensures { IfOk result (λ m. m ≡ core_imports) }
{
    let mut modules = Keyed::new(alloc);
    add_module(alloc, &mut modules, "a", "f")?;
    add_module(alloc, &mut modules, "b", "g")?;
    Ok(ImportMap { modules })
}

fn main_module(alloc: Global, bytes: SharedBytes, imports: ImportMap) -> ValidatedModule
    ensures { result.imports ≡ imports }
{
    ValidatedModule {
        bytes,
        imports,
        exports: ExportMap {
            exports: Keyed::new(alloc),
        },
        imported: Seq::new(alloc),
        offered: Keyed::new(alloc),
        metadata: ModuleMetadata {
            import_encodings: Keyed::new(alloc),
            export_encodings: Keyed::new(alloc),
        },
    }
}

fn parts_with(alloc: Global, resolve: Resolve, bytes: SharedBytes, imports: ImportMap) -> WorldParts
    ensures imports { result.main.imports ≡ imports }
    ensures alone { result.adapters ≡ [] }
{
    WorldParts {
        resolve,
        world: WorldId { index: 0 },
        main: main_module(alloc, bytes, imports),
        main_exports: Seq::new(alloc),
        adapters: Keyed::new(alloc),
        can_use_context_slot_1: false,
    }
}

fn parts(alloc: Global) -> Result<WorldParts, AllocError>
    ensures imports { IfOk result (λ p. p.main.imports ≡ core_imports) }
    ensures alone { IfOk result (λ p. p.adapters ≡ []) }
{
    let bytes = SharedBytes::from_vec(Vec::new(alloc))?;
    let imports = imports(alloc)?;
    let resolve = resolve(alloc)?;
    Ok(parts_with(alloc, resolve, bytes, imports))
}

/// The world of these parts, where they are sound.
#[tactic(auto, using(crate::proofs::PresentRoles::roles_present))]
fn whole(alloc: Global, parts: WorldParts) -> Result<Option<ComponentWorld>, AllocError>
    requires imports { parts.main.imports ≡ core_imports }
    requires alone { parts.adapters ≡ [] }
{
    if !parts.resolve.is_sound() || parts.resolve.worlds.is_empty() || parts.world.index != 0 {
        drop(parts);
        return Ok(None);
    }
    let world = world_of_parts(alloc, parts)?;
    Ok(Some(world))
}

/// A function of `i`, as it is imported.
fn called(alloc: Global, name: &str) -> Result<LoweringKey, AllocError> {
    Ok(LoweringKey {
        name: Text::from_str(alloc, name)?,
        abi: AbiVariant::GuestImport,
    })
}

fn print_lowering(alloc: Global, lowering: &Lowering) -> Result<String, AllocError> {
    match lowering {
        Lowering::Direct { options } => format!(in alloc; "Direct {}", options.bits()),
        Lowering::Indirect { sig, options } => {
            let (params, results) = (sig.params.len(), sig.results.len());
            format!(in alloc; "Indirect {} {params} {results}", options.bits())
        }
        Lowering::ResourceDrop(_) => String::from_str(alloc, "ResourceDrop"),
    }
}

/// How the import of a function of `i` is satisfied, where it is.
fn met<'a>(world: &'a ComponentWorld, called: &LoweringKey) -> Option<&'a Lowering> {
    let key = Some(WorldKey::Interface(interface(0)));
    world.import_map.get(&key)?.lowerings.get(called)
}

fn print_met(alloc: Global, world: &ComponentWorld, name: &str) -> Result<String, AllocError> {
    let called = called(alloc, name)?;
    match met(world, &called) {
        Some(lowering) => print_lowering(alloc, lowering),
        None => String::from_str(alloc, "none"),
    }
}

/// How many there are, and the first.
fn print_list(alloc: Global, count: usize, first: Option<usize>) -> Result<String, AllocError> {
    match first {
        Some(first) => format!(in alloc; "{count} {first}"),
        None => format!(in alloc; "{count}"),
    }
}

fn print_live(alloc: Global, world: &ComponentWorld) -> Result<String, AllocError> {
    match world.live_type_imports.get(&interface(0)) {
        Some(live) => {
            let first = live.as_slice().first().map(|id| id.index);
            print_list(alloc, live.len(), first)
        }
        None => String::from_str(alloc, "none"),
    }
}

fn print_needed(alloc: Global, world: &ComponentWorld, index: usize) -> Result<String, AllocError> {
    match world.exports_used.get(&interface(index)) {
        Some(needed) => {
            let first = needed.as_slice().first().map(|id| id.index);
            print_list(alloc, needed.len(), first)
        }
        None => String::from_str(alloc, "none"),
    }
}

fn print_asked(alloc: Global, world: &ComponentWorld, asked: &str) -> Result<String, AllocError> {
    let (question, rest) = word_and_rest(asked);
    match question {
        "met" => print_met(alloc, world, rest),
        "live" => print_live(alloc, world),
        "needed" => print_needed(alloc, world, if rest == "k" { 1 } else { 2 }),
        _ => String::from_str(alloc, "no question"),
    }
}

pub(crate) fn answer(alloc: Global, asked: &str) -> Result<String, AllocError> {
    let parts = parts(alloc)?;
    match whole(alloc, parts)? {
        Some(world) => {
            let printed = print_asked(alloc, &world, asked);
            drop(world);
            printed
        }
        None => String::from_str(alloc, "unsound"),
    }
}
