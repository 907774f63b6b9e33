//! The roles of core imports and core exports, from all records of one module.

ghost use Rattle.std.specs.Prelude.{◌≡◌, [], ◌∷◌, ◌++◌, IfOk, OnOk};
ghost use Rattle.std.specs.List.{flat_map};
ghost use Rattle.json_paths.specs.Faults.{Gives};
ghost use Rattle.record_merge.specs.Tables.{with_entry, apart};
ghost use Rattle.record_merge.specs.ModuleRecords.{RoleTests, roles_after, without_abi, one_field_each, role_tables};

use crate::tables::Key;
use comp_lists::{Keyed, Seq, Text, TryClone};
use json_paths::{Failure, Refusal};
use record_values::{Assigned, ExportRole, ImportName, ImportRole, Record};
use std::alloc::{AllocError, Global};
use wit_data::AbiVariant;

/// The roles of several records, in order.
#[derive(Drop)]
pub(crate) struct AssignedRoles {
    pub(crate) imports: Seq<Assigned<ImportName, ImportRole>>,
    pub(crate) exports: Seq<Assigned<Text, ExportRole>>,
}

/// The role of each core import and of each field.
#[derive(Drop)]
pub(crate) struct RoleTables {
    pub(crate) imports: Keyed<ImportName, ImportRole>,
    pub(crate) exports: Keyed<Text, ExportRole>,
}

/// The roles of a record.
fn roles_in(one: Record) -> AssignedRoles
    ensures { result ≡ record { imports = one.import_roles; exports = one.export_roles } }
{
    let (imports, exports) = one.into_roles();
    AssignedRoles { imports, exports }
}

/// Adds more roles.
fn add_roles(assigned: &mut AssignedRoles, more: AssignedRoles) -> Result<(), AllocError>
    ensures imports { OnOk result (assigned.new.imports ≡ assigned.old.imports ++ more.imports) }
    ensures exports { OnOk result (assigned.new.exports ≡ assigned.old.exports ++ more.exports) }
{
    assigned.imports.append(more.imports)?;
    assigned.exports.append(more.exports)
}

/// Takes the roles out of records.
pub(crate) fn take_roles(alloc: Global, records: Seq<Record>) -> Result<AssignedRoles, AllocError>
    ensures imports { IfOk result (λ a. a.imports ≡ flat_map (λ r. r.import_roles) records) }
    ensures exports { IfOk result (λ a. a.exports ≡ flat_map (λ r. r.export_roles) records) }
{
    let mut assigned = AssignedRoles {
        imports: Seq::new(alloc),
        exports: Seq::new(alloc),
    };
    for one in records.into_vec() {
        add_roles(&mut assigned, roles_in(one))?;
    }
    Ok(assigned)
}

/// Adds a role; a name that has one must have the same.
fn add_role<K: Key, R: PartialEq + Drop>(
    alloc: Global,
    table: &mut Keyed<K, R>,
    assigned: Assigned<K, R>,
) -> Result<(), Failure>
    ensures { Gives (λ _. table.new) result
        (with_entry K.eq R.eq K.name table.old assigned.key assigned.role) }
{
    let Assigned { key, role } = assigned;
    match table.get(&key) {
        Some(said) => {
            if *said == role {
                return Ok(());
            }
        }
        None => {
            table.insert(key, role)?;
            return Ok(());
        }
    }
    Err(Failure::Refused(Refusal::MergeConflict {
        name: key.to_text(alloc)?,
    }))
}

/// The role of each name.
fn merge_roles<K: Key, R: PartialEq + Drop>(
    alloc: Global,
    assigned: Seq<Assigned<K, R>>,
) -> Result<Keyed<K, R>, Failure>
    ensures { Gives (λ t. t) result (roles_after K.eq R.eq K.name [] assigned) }
{
    let mut table = Keyed::new(alloc);
    for one in assigned.into_vec() {
        add_role(alloc, &mut table, one)?;
    }
    Ok(table)
}

/// A copy of a role, except for its form of calls.
fn copy_without_abi(alloc: Global, role: &ExportRole) -> Result<ExportRole, AllocError>
    ensures { IfOk result (λ r. r ≡ without_abi role.now) }
{
    match role {
        ExportRole::Function { owner, name, .. } => Ok(ExportRole::Function {
            owner: owner.try_clone(alloc)?,
            name: name.clone(alloc)?,
            abi: AbiVariant::GuestExport,
        }),
        ExportRole::PostReturn { owner, function } => Ok(ExportRole::PostReturn {
            owner: owner.try_clone(alloc)?,
            function: function.clone(alloc)?,
        }),
        ExportRole::Callback { owner, function } => Ok(ExportRole::Callback {
            owner: owner.try_clone(alloc)?,
            function: function.clone(alloc)?,
        }),
        ExportRole::Destructor(named) => Ok(ExportRole::Destructor(named.try_clone(alloc)?)),
        ExportRole::Plain(plain) => Ok(ExportRole::Plain(*plain)),
    }
}

/// Adds the field of a role, which must be new.
fn put_field(
    fields: &mut Keyed<ExportRole, Text>,
    role: ExportRole,
    field: Text,
) -> Result<(), Failure>
    ensures { Gives (λ _. fields.new) result
        (apart ⟦<ExportRole as PartialEq>⟧.eq (λ e. e.1) fields.old ((role, field) ∷ [])) }
{
    if fields.contains_key(&role) {
        return Err(Failure::Refused(Refusal::MergeConflict { name: field }));
    }
    Ok(fields.insert(role, field)?)
}

/// Adds the field of a role, except for the role's form of calls.
fn add_field(
    alloc: Global,
    fields: &mut Keyed<ExportRole, Text>,
    field: &Text,
    role: &ExportRole,
) -> Result<(), Failure>
    ensures { Gives (λ _. fields.new) result (apart ⟦<ExportRole as PartialEq>⟧.eq (λ e. e.1)
        fields.old ((without_abi role.now, field.now) ∷ [])) }
{
    let field = field.clone(alloc)?;
    let role = copy_without_abi(alloc, role)?;
    put_field(fields, role, field)
}

/// Checks that each role, except for its form of calls, is that of one field. Returns the field of each.
#[tactic(auto, using(crate::proofs::Apart::continues, crate::proofs::Apart::stops))]
fn check_fields(
    alloc: Global,
    roles: &Keyed<Text, ExportRole>,
) -> Result<Keyed<ExportRole, Text>, Failure>
    ensures { Gives (λ t. t) result (one_field_each ⟦<ExportRole as PartialEq>⟧.eq roles.now) }
{
    let mut fields: Keyed<ExportRole, Text> = Keyed::new(alloc);
    for (field, role) in roles.iter() {
        add_field(alloc, &mut fields, field, role)?;
    }
    Ok(fields)
}

/// The role of each core import and of each field; each role is that of one field.
#[tactic(auto, unfolding(crate::specs::ModuleRecords::role_tables))]
pub(crate) fn merge_tables(alloc: Global, assigned: AssignedRoles) -> Result<RoleTables, Failure>
    ensures { Gives (λ r. r) result (role_tables (record {
      import_role = ⟦<ImportRole as PartialEq>⟧.eq;
      export_role = ⟦<ExportRole as PartialEq>⟧.eq;
    }) assigned.imports assigned.exports) }
{
    let imports: Keyed<ImportName, ImportRole> = merge_roles(alloc, assigned.imports)?;
    let exports: Keyed<Text, ExportRole> = merge_roles(alloc, assigned.exports)?;
    check_fields(alloc, &exports)?;
    Ok(RoleTables { imports, exports })
}
