//! The whole fixup module.

ghost use Rattle.std.specs.Prelude.{◌≡◌, ◌∷◌, ◌++◌, [], ◌<◌, ◌^◌, length, IfOk, OnOk, IfErr};
ghost use Rattle.std.specs.Option.{option_map};
ghost use Rattle.standard_kinds.specs.declared.kinds.ExportKind.TheVariants as kinds;
ghost use Rattle.core_bytes.specs.declared.section.Section.TheVariants as sections;
ghost use Rattle.fixup_modules.specs.Imports.{count_of};
ghost use Rattle.fixup_modules.specs.Fixups.{Fixup};
ghost use Rattle.fixup_modules.specs.Sections.{all_imported, table_of, fill_segment, own_type, types_of, start_function, calling, names_of, optional, fixup_sections, module_with_instances, encoded_fixup, MayEncode, EncodeCause};

use crate::fault::ShimFault;
use crate::fixup::{FixupModule, thunk_type};
use crate::imports::ImportTable;
use crate::instances::ImportedInstance;
use crate::sections::{calling_section, element_section, function_section};
use crate::tables::InstanceTable;
use core_bytes::{EntityType, Module, Section};
use core_runs::table_of_shims;
use interned_types::CoreTypes;
use std::alloc::{AllocError, Global};

/// A fixup module, and the instances that are its arguments, by the names of the arguments.
#[derive(Drop)]
pub struct EncodedFixup {
    pub module: Module,
    pub instances: InstanceTable,
}

/// Imports the table of the shims, where there is a slot to fill, and returns its index.
fn import_table(imports: &mut ImportTable, fills: &[u32]) -> Result<Option<u32>, ShimFault>
    requires { length fills.now < 2 ^ 32 }
    ensures imports { let f : Fixup = record
        { types = []; imported = imports.old; fills = fills.now; calls = [] } in OnOk result
        (imports.new ≡ all_imported f) }
    ensures index { let f : Fixup = record
        { types = []; imported = imports.old; fills = fills.now; calls = [] } in IfOk result
        (λ table. table ≡ table_of f) }
    ensures refused { let f : Fixup = record
        { types = []; imported = imports.old; fills = fills.now; calls = [] } in OnOk result
        (MayEncode f) }
    ensures cause { let f : Fixup = record
        { types = []; imported = imports.old; fills = fills.now; calls = [] } in IfErr result
        (EncodeCause f) }
{
    if fills.is_empty() {
        return Ok(None);
    }
    let table = table_of_shims(fills.len() as u32);
    let index = imports.import(
        &ImportedInstance::Shim,
        "$imports",
        EntityType::Table(table),
    )?;
    Ok(Some(index))
}

/// The index of the type of the function that makes the calls, where a function of the module does.
/// The type is interned.
fn own_type(alloc: Global, types: &mut CoreTypes, calls: &[u32]) -> Result<Option<u32>, ShimFault>
    ensures types { let f : Fixup = record {
      types = types.old;
      imported = record { instances = []; entries = [] };
      fills = [];
      calls = calls.now;
    } in
        OnOk result (types.new ≡ types_of f) }
    ensures index { let f : Fixup = record {
      types = types.old;
      imported = record { instances = []; entries = [] };
      fills = [];
      calls = calls.now;
    } in
        IfOk result (λ index. index ≡ own_type f) }
    ensures cause { let f : Fixup = record {
      types = types.old;
      imported = record { instances = []; entries = [] };
      fills = [];
      calls = calls.now;
    } in
        IfErr result (EncodeCause f) }
{
    if calls.len() < 2 {
        return Ok(None);
    }
    let index = types.intern(thunk_type(alloc))?;
    Ok(Some(index))
}

/// The start function, where there is one: the only function that is called, or the one that calls them.
fn start_function(imports: &ImportTable, calls: &[u32]) -> Option<u32>
    ensures { (f : Fixup)
        → f.calls ≡ calls.now
        → all_imported f ≡ imports.now
        → result ≡ start_function f }
{
    let (first, others) = calls.split_first()?;
    if others.is_empty() {
        Some(*first)
    } else {
        Some(imports.functions())
    }
}

/// Adds the function that makes the calls, where there is one, and says which one is the start function.
fn put_start(
    out: &mut Module,
    alloc: Global,
    own_type: Option<u32>,
    start: Option<u32>,
) -> Result<(), AllocError>
    ensures { OnOk result (out.new
        ≡ out.old ++ (optional (λ type. sections.Functions (type ∷ [])) own_type
        ++ optional (λ function. sections.Start function) start)) }
{
    if let Some(ty) = own_type {
        out.section(function_section(alloc, ty)?)?;
    }
    if let Some(function) = start {
        out.section(Section::Start(function))?;
    }
    Ok(())
}

/// Adds the segment that fills the table, where there is one.
fn put_segment(
    out: &mut Module,
    alloc: Global,
    table: Option<u32>,
    fills: &[u32],
) -> Result<(), AllocError>
    ensures { OnOk result (out.new
        ≡ out.old ++ optional (λ t. sections.Elements (fill_segment t fills.now ∷ [])) table) }
{
    if let Some(table) = table {
        out.section(element_section(alloc, table, fills)?)?;
    }
    Ok(())
}

/// Adds the body of the function that makes the calls, where there is one.
fn put_code(
    out: &mut Module,
    alloc: Global,
    own_type: Option<u32>,
    calls: &[u32],
) -> Result<(), AllocError>
    ensures { OnOk result
        (out.new ≡ out.old ++ optional (λ type. sections.Code (calling calls.now ∷ [])) own_type) }
{
    if own_type.is_some() {
        out.section(calling_section(alloc, calls)?)?;
    }
    Ok(())
}

/// Adds the names, where it is asked for.
fn put_names(
    out: &mut Module,
    alloc: Global,
    imports: &ImportTable,
    own_type: Option<u32>,
    debug_names: bool,
) -> Result<(), AllocError>
    ensures { OnOk result (out.new
        ≡ out.old ++ names_of debug_names imports.now.entries
        (option_map (λ type. count_of kinds.Func imports.now.entries) own_type)) }
{
    if debug_names {
        let own = own_function(imports, own_type);
        out.section(imports.names(alloc, own)?)?;
    }
    Ok(())
}

/// The index of the function that makes the calls, where there is one.
fn own_function(imports: &ImportTable, own_type: Option<u32>) -> Option<u32>
    ensures { result ≡ option_map (λ type. count_of kinds.Func imports.now.entries) own_type }
{
    match own_type {
        Some(_) => Some(imports.functions()),
        None => None,
    }
}

/// The module with these types and imports, which has the table of shims at this index, where there
/// is a slot to fill, and a function of this type that makes the calls, where there is one.
fn fixup_module(
    alloc: Global,
    types: &CoreTypes,
    imports: &ImportTable,
    table: Option<u32>,
    own: Option<u32>,
    fills: &[u32],
    calls: &[u32],
    debug_names: bool,
) -> Result<Module, AllocError>
    ensures { (f : Fixup)
        → types_of f ≡ types.now
        → all_imported f ≡ imports.now
        → table_of f ≡ table
        → own_type f ≡ own
        → f.fills ≡ fills.now
        → f.calls ≡ calls.now
        → IfOk result (λ made. made ≡ fixup_sections f debug_names) }
{
    let mut module = Module::new(alloc);
    module.section(Section::Types(types.section(alloc)?))?;
    module.section(Section::Imports(imports.section(alloc)?))?;
    put_start(&mut module, alloc, own, start_function(imports, calls))?;
    put_segment(&mut module, alloc, table, fills)?;
    put_code(&mut module, alloc, own, calls)?;
    put_names(&mut module, alloc, imports, own, debug_names)?;
    Ok(module)
}

/// The module that fills these slots and calls these functions, and its arguments.
fn encode_tasks(
    alloc: Global,
    mut types: CoreTypes,
    mut imports: ImportTable,
    fills: &[u32],
    calls: &[u32],
    debug_names: bool,
) -> Result<EncodedFixup, ShimFault>
    requires { length fills.now < 2 ^ 32 }
    ensures ok { let f : Fixup = record
        { types = types; imported = imports; fills = fills.now; calls = calls.now } in IfOk result
        (λ encoded. encoded ≡ module_with_instances f debug_names) }
    ensures refused { let f : Fixup = record
        { types = types; imported = imports; fills = fills.now; calls = calls.now } in OnOk result
        (MayEncode f) }
    ensures cause { let f : Fixup = record
        { types = types; imported = imports; fills = fills.now; calls = calls.now } in IfErr result
        (EncodeCause f) }
{
    let table = import_table(&mut imports, fills)?;
    let own_type = own_type(alloc, &mut types, calls)?;
    let module = fixup_module(
        alloc,
        &types,
        &imports,
        table,
        own_type,
        fills,
        calls,
        debug_names,
    )?;
    Ok(EncodedFixup {
        module,
        instances: imports.into_instances(),
    })
}

impl FixupModule {
    /// The module, or `None` where no slot is to be filled and nothing is to be called: the types;
    /// the imports in the order of the calls, and last the table of the shims, of as many slots as
    /// there were shims, where there were any; the start function; the segment that fills the
    /// table; and, where it is asked for, the names of the module and of its items. Where one
    /// function is called, it is the start function; where more are called, a function of the
    /// module calls them in order.
    ///
    /// It fails as [`FixupModule::import`] of the table does, and as [`FixupModule::type_thunk`]
    /// where more than one function is called.
    ///
    /// Core standard, structure: modules, start function.
    pub fn encode(self, debug_names: bool) -> Result<Option<EncodedFixup>, ShimFault>
        ensures ok { IfOk result (λ encoded. encoded ≡ encoded_fixup self debug_names) }
        ensures refused { OnOk result (MayEncode self) }
        ensures cause { IfErr result (EncodeCause self) }
    {
        let FixupModule {
            alloc,
            types,
            imports,
            fills,
            calls,
        } = self;
        if fills.is_empty() && calls.is_empty() {
            return Ok(None);
        }
        match encode_tasks(
            alloc,
            types,
            imports,
            fills.as_slice(),
            calls.as_slice(),
            debug_names,
        ) {
            Ok(encoded) => Ok(Some(encoded)),
            Err(fault) => Err(fault),
        }
    }
}
