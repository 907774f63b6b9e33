//! What the records of one module say together.

ghost use Rattle.std.specs.Prelude.{◌≡◌, ◌≢◌, ℕ, List, IfErr, IsOk};
ghost use Rattle.json_paths.specs.declared.fault.Failure.TheVariants as failures;
ghost use Rattle.std.specs.List.{flat_map, list_any};
ghost use Rattle.json_paths.specs.Faults.{Gives};
ghost use Rattle.record_merge.specs.Said.{no_wit};
ghost use Rattle.record_merge.specs.Merging.{Tests};
ghost use Rattle.record_merge.specs.Causes.{Named, Unless, TwoWorlds, RecordsConflict};
ghost use Rattle.record_merge.specs.Tables.{conflict};
ghost use Rattle.record_merge.specs.ModuleRecords.{RoleTests, worlds_after, role_tables, roles_of, bindgen_of};

use crate::assigning::{RoleTables, merge_tables, take_roles};
use crate::bindgen::{Bindgen, Roles, empty_wit};
use crate::encodings::both_encodings;
use crate::merging::add_wit;
use comp_lists::Seq;
use json_paths::Failure;
use record_values::{ExportRole, ImportRole, Interface, Item, Record, Wit};
use std::alloc::Global;

/// The worlds of the records, merged.
#[tactic(auto, using(crate::proofs::Records::start, crate::proofs::Records::step, crate::proofs::Records::worlds_caused))]
fn merge_worlds(alloc: Global, records: &[Record]) -> Result<Wit, Failure>
    ensures exact { Gives (λ w. w) result (worlds_after (record {
      interface = ⟦<Interface as PartialEq>⟧.eq;
      item = ⟦<Item as PartialEq>⟧.eq;
    }) no_wit records.now) }
    ensures cause { IfErr result (Unless (Named (TwoWorlds records.now))) }
{
    let mut combined = empty_wit(alloc);
    for one in records {
        combined = add_wit(alloc, combined, &one.wit)?;
    }
    Ok(combined)
}

/// Whether a record says that the second slot of storage is free.
fn has_slot(records: &[Record]) -> bool
    ensures { result ≡ list_any (λ r. r.context_slot_1) records.now }
{
    for one in records {
        if one.context_slot_1 {
            return true;
        }
    }
    false
}

/// The roles of the core imports and fields of these records.
fn merge_all_roles(alloc: Global, records: Seq<Record>) -> Result<RoleTables, Failure>
    ensures { Gives (λ t. t) result (role_tables (record {
      import_role = ⟦<ImportRole as PartialEq>⟧.eq;
      export_role = ⟦<ExportRole as PartialEq>⟧.eq;
    }) (flat_map (λ r. r.import_roles) records) (flat_map (λ r. r.export_roles) records)) }
{
    let assigned = take_roles(alloc, records)?;
    merge_tables(alloc, assigned)
}

/// What the records say besides their worlds.
#[tactic(auto, unfolding(crate::specs::ModuleRecords::roles_of))]
fn bind_roles(alloc: Global, records: Seq<Record>) -> Result<Roles, Failure>
    ensures { Gives (λ r. r) result (roles_of (record {
      import_role = ⟦<ImportRole as PartialEq>⟧.eq;
      export_role = ⟦<ExportRole as PartialEq>⟧.eq;
    }) records) }
{
    let encodings = both_encodings(alloc, records.as_slice())?;
    let context_slot_1 = has_slot(records.as_slice());
    let tables = merge_all_roles(alloc, records)?;
    Ok(Roles {
        import_roles: tables.imports,
        export_roles: tables.exports,
        import_encodings: encodings.imports,
        export_encodings: encodings.exports,
        context_slot_1,
    })
}

/// What the records of one module say together, in order. Their worlds are merged as
/// [`merge_wit`](crate::merge_wit) merges two. The refusal is `MergeConflict` with the field of the
/// later one of two: of a core import, or a field, that has two roles, or of two fields that have the
/// same role, except for the form of calls.
#[tactic(auto, unfolding(crate::specs::ModuleRecords::bindgen_of), using(crate::proofs::Bindgens::of_worlds))]
pub fn bindgen_of(alloc: Global, records: Seq<Record>) -> Result<Bindgen, Failure>
    ensures exact { Gives (λ b. b) result (bindgen_of
        (record { interface = ⟦<Interface as PartialEq>⟧.eq; item = ⟦<Item as PartialEq>⟧.eq })
        (record { import_role = ⟦<ImportRole as PartialEq>⟧.eq; export_role = ⟦<ExportRole as PartialEq>⟧.eq })
        records) }
    ensures cause { IfErr result (λ e. e ≢ failures.Memory
        → (name : List ℕ) × (e ≡ conflict name) × RecordsConflict records name) }
    ensures refused { IsOk result → (name : List ℕ) → ¬ RecordsConflict records name }
{
    let wit = merge_worlds(alloc, records.as_slice())?;
    let roles = bind_roles(alloc, records)?;
    Ok(Bindgen { wit, roles })
}
