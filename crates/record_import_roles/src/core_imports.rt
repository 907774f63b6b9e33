//! The roles of all core imports.

ghost use Rattle.std.specs.Prelude.{◌≡◌, option_map};
ghost use Rattle.std.specs.Fmt.{decimal};
ghost use Rattle.serde_json.specs.View.{view, items_view};
ghost use Rattle.json_paths.specs.Faults.{Gives};
ghost use Rattle.json_paths.specs.Reading.{under, items_from};
ghost use Rattle.record_import_roles.specs.Payloads.{all_met};
ghost use Rattle.record_import_roles.specs.CoreImports.{import_role_at, core_import_of, core_imports_of, core_imports_if};

use crate::import_roles::read_import_role;
use crate::met_world::MetWorld;
use comp_lists::Seq;
use json_paths::{Failure, check_members, fault_here, required, text_member, under, under_index};
use record_sides::RecordWorld;
use record_values::{Assigned, ImportName, ImportRole};
use serde_json::Value;
use std::alloc::Global;

fn import_role_member(
    alloc: Global,
    met: &mut MetWorld<'_>,
    value: &Value,
) -> Result<ImportRole, Failure>
    ensures exact { Gives (λ r. r) result
        (import_role_at met.old.world met.old.types (view value.now)) }
    ensures same { met.new ≡ met.old }
{
    let member = required(alloc, value, "role")?;
    under(alloc, "role", read_import_role(alloc, met, member))
}

#[tactic(auto, unfolding(crate::specs::CoreImports::core_import_of))]
fn read_core_import(
    alloc: Global,
    met: &mut MetWorld<'_>,
    value: &Value,
) -> Result<Assigned<ImportName, ImportRole>, Failure>
    ensures exact { Gives (λ a. a) result
        (core_import_of met.old.world met.old.types (view value.now)) }
    ensures same { met.new ≡ met.old }
{
    check_members(alloc, value, &["module", "field", "role"])?;
    let module = text_member(alloc, value, "module")?;
    let field = text_member(alloc, value, "field")?;
    let role = import_role_member(alloc, met, value)?;
    Ok(Assigned {
        key: ImportName { module, field },
        role,
    })
}

/// The core import at an index.
fn import_at(
    alloc: Global,
    met: &mut MetWorld<'_>,
    index: usize,
    value: &Value,
) -> Result<Assigned<ImportName, ImportRole>, Failure>
    ensures exact { Gives (λ a. a) result
        (under (decimal index) (core_import_of met.old.world met.old.types (view value.now))) }
    ensures same { met.new ≡ met.old }
{
    let import = read_core_import(alloc, met, value);
    under_index(alloc, index, import)
}

/// The roles of these core imports; a refusal has the import's index in its path.
fn read_imports(
    alloc: Global,
    met: &mut MetWorld<'_>,
    values: &[Value],
) -> Result<Seq<Assigned<ImportName, ImportRole>>, Failure>
    ensures exact { Gives (λ x. x) result
        (items_from (core_import_of met.old.world met.old.types) 0 (items_view values.now)) }
    ensures same { met.new ≡ met.old }
{
    let mut items = Seq::new(alloc);
    for (index, value) in values.iter().enumerate() {
        let item = import_at(alloc, met, index, value)?;
        items.push(item)?;
    }
    Ok(items)
}

#[tactic(auto, unfolding(crate::specs::CoreImports::core_imports_of))]
fn read_array(
    alloc: Global,
    met: &mut MetWorld<'_>,
    value: &Value,
) -> Result<Seq<Assigned<ImportName, ImportRole>>, Failure>
    ensures exact { Gives (λ x. x) result
        (core_imports_of met.old.world met.old.types (view value.now)) }
    ensures same { met.new ≡ met.old }
{
    match value.as_array() {
        Some(values) => read_imports(alloc, met, values),
        None => Err(fault_here(alloc)),
    }
}

fn core_imports_member(
    alloc: Global,
    met: &mut MetWorld<'_>,
    member: Option<Value>,
) -> Result<Seq<Assigned<ImportName, ImportRole>>, Failure>
    ensures exact { Gives (λ x. x) result
        (core_imports_if met.old.world met.old.types (option_map view member)) }
    ensures same { met.new ≡ met.old }
{
    match member {
        None => Ok(Seq::new(alloc)),
        Some(member) => {
            let imports = read_array(alloc, met, &member);
            under(alloc, "core-imports", imports)
        }
    }
}

/// The role of each core import, from the member `core-imports` of a record of this world, if it is there.
pub fn read_core_imports(
    alloc: Global,
    world: &RecordWorld,
    member: Option<Value>,
) -> Result<Seq<Assigned<ImportName, ImportRole>>, Failure>
    ensures { Gives (λ x. x) result
        (core_imports_if world.now (all_met world.now.wit) (option_map view member)) }
{
    let mut met = MetWorld::of(alloc, world)?;
    core_imports_member(alloc, &mut met, member)
}
