//! The world that the stub returns.

ghost use Rattle.std.specs.Prelude.{◌≡◌, IfOk, take};
ghost use Rattle.tests_of_encoder.specs.Stub.{stub_role, stub_fields, stub_imports, stub_imported, stub_items, stub_resolve, stub_parts, stub_world};
ghost use Rattle.core_types.specs.Core.{core_preamble};
ghost use Rattle.comp_worlds.specs.Encodable.{IsEncodable};
ghost use Rattle.comp_worlds.specs.WorldTables.{HasTables};

use comp_lists::{Keyed, Seq, SharedBytes, Text};
use comp_roles::ImportType;
use comp_worlds::{
    ComponentWorld, ExportMap, ExternType, Import, ImportInstance, ImportMap, ModuleMetadata,
    ValidatedModule, WorldParts,
};
use core_types::FuncType;
use std::alloc::{AllocError, Global};
use wit_data::{AbiVariant, Function, FunctionKind, Resolve, World, WorldId, WorldItem, WorldKey};
use world_tables::world_of_parts;

/// The role of main's import: the root function `f`.
fn role(alloc: Global) -> Result<Import, AllocError>
    ensures { IfOk result (λ r. r ≡ stub_role) }
{
    let key = WorldKey::Name(Text::from_str(alloc, "f")?);
    let name = Text::from_str(alloc, "f")?;
    Ok(Import::WorldFunc(key, name, AbiVariant::GuestImport))
}

/// The imports from one module: the field `f`, with that role.
fn fields(alloc: Global) -> Result<Keyed<Text, Import>, AllocError>
    ensures { IfOk result (λ t. t ≡ stub_fields) }
{
    let name = Text::from_str(alloc, "f")?;
    let role = role(alloc)?;
    let mut fields = Keyed::new(alloc);
    fields.insert_if_absent(name, role)?;
    Ok(fields)
}

/// Main imports that field of `$root`.
fn imports(alloc: Global) -> Result<ImportMap, AllocError>
    ensures { IfOk result (λ m. m ≡ stub_imports) }
{
    let name = Text::from_str(alloc, "$root")?;
    let fields = fields(alloc)?;
    let mut modules = Keyed::new(alloc);
    modules.insert_if_absent(name, ImportInstance::Names(fields))?;
    Ok(ImportMap { modules })
}

/// That field is a function with no parameter and no result.
fn imported(alloc: Global) -> Result<Seq<ImportType>, AllocError>
    ensures { IfOk result (λ l. l ≡ stub_imported) }
{
    let module_name = Text::from_str(alloc, "$root")?;
    let field = Text::from_str(alloc, "f")?;
    let function = FuncType {
        params: Seq::new(alloc),
        results: Seq::new(alloc),
    };
    let ty = ExternType::Func(function);
    let mut imported = Seq::new(alloc);
    imported.push(ImportType {
        module_name,
        field,
        ty,
    })?;
    Ok(imported)
}

/// The world imports the root function `f`, and exports nothing.
fn items(alloc: Global) -> Result<World, AllocError>
    ensures { IfOk result (λ w. w ≡ stub_items) }
{
    let key = WorldKey::Name(Text::from_str(alloc, "f")?);
    let function = Function {
        name: Text::from_str(alloc, "f")?,
        kind: FunctionKind::Freestanding,
        params: Seq::new(alloc),
        result: None,
    };
    let mut imports = Keyed::new(alloc);
    imports.insert_if_absent(key, WorldItem::Function(function))?;
    Ok(World {
        imports,
        exports: Keyed::new(alloc),
    })
}

/// A resolve of that world alone.
fn resolve(alloc: Global) -> Result<Resolve, AllocError>
    ensures { IfOk result (λ r. r ≡ stub_resolve) }
{
    let mut worlds = Seq::new(alloc);
    worlds.push(items(alloc)?)?;
    Ok(Resolve {
        interfaces: Seq::new(alloc),
        types: Seq::new(alloc),
        worlds,
    })
}

/// The parts of the world of a main module.
#[tactic(auto, unfolding(crate::specs::Stub::stub_parts))]
fn parts_of(alloc: Global, bytes: &[u8]) -> Result<WorldParts, AllocError>
    ensures { IfOk result (λ p. p ≡ stub_parts bytes.now) }
{
    let bytes = SharedBytes::from_vec(Vec::from_slice(alloc, bytes)?)?;
    Ok(WorldParts {
        resolve: resolve(alloc)?,
        world: WorldId { index: 0 },
        main: ValidatedModule {
            bytes,
            imports: imports(alloc)?,
            exports: ExportMap {
                exports: Keyed::new(alloc),
            },
            imported: imported(alloc)?,
            offered: Keyed::new(alloc),
            metadata: ModuleMetadata {
                import_encodings: Keyed::new(alloc),
                export_encodings: Keyed::new(alloc),
            },
        },
        main_exports: Seq::new(alloc),
        adapters: Keyed::new(alloc),
        can_use_context_slot_1: false,
    })
}

#[tactic(auto, using(crate::proofs::Stubs::parts_exist, crate::proofs::Stubs::parts_roles), unfolding(crate::specs::Stub::stub_world))]
fn world_of(alloc: Global, bytes: &[u8]) -> Result<ComponentWorld, AllocError>
    ensures { IfOk result (λ w. w ≡ stub_world bytes.now) }
{
    let parts = parts_of(alloc, bytes)?;
    let world = world_of_parts(alloc, parts)?;
    Ok(world)
}

/// The world of a main module.
pub(crate) fn world(alloc: Global, bytes: &[u8]) -> Result<ComponentWorld, AllocError>
    requires { take 8 bytes.now ≡ core_preamble }
    ensures ok { IfOk result (λ w. w ≡ stub_world bytes.now) }
    ensures valid { IfOk result IsEncodable }
    ensures tables { IfOk result HasTables }
{
    world_of(alloc, bytes)
}
