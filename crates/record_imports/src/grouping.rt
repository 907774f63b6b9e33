//! The core imports in groups, by module.

ghost use Rattle.std.specs.Prelude.{◌≡◌, ◌<◌, [], ◌∷◌, ◌++◌, IfOk, Err, None, Some, is_some, slice_get, slice_set, length};
ghost use Rattle.std.specs.Map.{keys_of};
ghost use Rattle.std.specs.List.{IsDistinct};
ghost use Rattle.std.specs.Str.{bytes_eq};
ghost use Rattle.comp_lists.specs.Found.{found};
ghost use Rattle.wit_data.specs.Sound.{IsSound};
ghost use Rattle.record_faults.specs.Faults.{Gives};
ghost use Rattle.record_imports.specs.declared.grouping.Group.{Group as GroupRecord};
ghost use Rattle.record_imports.specs.Grouping.{positions_of, fields_in, with_field, imported_twice, group_after, groups_after, names_of};
ghost use Rattle.record_imports.specs.Guarantees.{AreGood};

use crate::arguments::Arguments;
use crate::meaning::import_of;
use crate::others::OtherModules;
use comp_lists::{Keyed, Text};
use comp_roles::Import;
use core_sections::{CoreImport, CoreModule};
use record_faults::{Failure, Refusal};
use record_resolve::Resolved;
use record_role_targets::ImportTargets;
use record_values::{ImportName, ImportRole};
use std::alloc::{AllocError, Global};

/// The fields of one module that are imported.
#[derive(Drop)]
pub(crate) struct Group {
    pub name: Text,
    pub fields: Keyed<Text, Import>,
}

/// Groups of imports, in the order in which their modules first occur, and the position of the group of
/// each module.
#[derive(Drop)]
struct Grouping {
    positions: Keyed<Text, usize>,
    groups: Vec<Group>,
}

/// The position of a module's group, if there is one.
fn position_of(grouping: &Grouping, name: &Text) -> Option<usize>
    ensures { result ≡ found name.now grouping.now.positions }
{
    grouping.positions.get(name).copied()
}

/// Whether a module's group, if there is one, has a field.
#[tactic(auto, using(crate::proofs::Groups::has_none))]
fn has_field(grouping: &Grouping, name: &Text, field: &Text) -> bool
    requires { grouping.now.positions ≡ positions_of 0 grouping.now.groups.items }
    ensures { result ≡ is_some (found field.now (fields_in grouping.now.groups.items name.now)) }
{
    match position_of(grouping, name) {
        Some(position) => grouping.groups[position].fields.contains_key(field),
        None => false,
    }
}

/// Adds a field, which is new, to the group at a position.
fn add_field(
    grouping: Grouping,
    position: usize,
    field: Text,
    role: Import,
) -> Result<Grouping, AllocError>
    requires below { position < length grouping.groups.items }
    requires absent { (g : GroupRecord)
        → slice_get grouping.groups.items position ≡ Some g
        → found field g.fields ≡ None }
    ensures positions { IfOk result (λ x. x.positions ≡ grouping.positions) }
    ensures groups { IfOk result (λ x. (g : GroupRecord) → slice_get grouping.groups.items position ≡ Some g
        → x.groups.items ≡ slice_set grouping.groups.items position (record { name = g.name; fields = g.fields ++ (field, role) ∷ [] })) }
{
    let Grouping {
        positions,
        mut groups,
    } = grouping;
    groups[position].fields.insert(field, role)?;
    Ok(Grouping { positions, groups })
}

/// A group of one field.
fn group_of(alloc: Global, name: Text, field: Text, role: Import) -> Result<Group, AllocError>
    ensures { IfOk result (λ g. g ≡ record { name = name; fields = (field, role) ∷ [] }) }
{
    let mut fields = Keyed::new(alloc);
    fields.insert(field, role)?;
    Ok(Group { name, fields })
}

/// Adds a group, whose module is given as a name of its own and has no group yet. Kept apart for the
/// prover.
fn push_group(grouping: Grouping, name: Text, group: Group) -> Result<Grouping, AllocError>
    requires { found name grouping.positions ≡ None }
    ensures positions { IfOk result
        (λ g. g.positions ≡ grouping.positions ++ (name, length grouping.groups.items) ∷ []) }
    ensures groups { IfOk result (λ g. g.groups.items ≡ grouping.groups.items ++ group ∷ []) }
{
    let Grouping {
        mut positions,
        mut groups,
    } = grouping;
    positions.insert(name, groups.len())?;
    groups.push(group)?;
    Ok(Grouping { positions, groups })
}

/// Adds a group of one field, of a module that has no group yet.
fn add_group(
    alloc: Global,
    grouping: Grouping,
    name: Text,
    field: Text,
    role: Import,
) -> Result<Grouping, AllocError>
    requires { found name grouping.positions ≡ None }
    ensures positions { IfOk result
        (λ g. g.positions ≡ grouping.positions ++ (name, length grouping.groups.items) ∷ []) }
    ensures groups { IfOk result (λ g. g.groups.items
        ≡ grouping.groups.items ++ record { name = name; fields = (field, role) ∷ [] } ∷ []) }
{
    let group = group_of(alloc, name, field, role)?;
    let name = group.name.clone(alloc)?;
    push_group(grouping, name, group)
}

/// Adds a field, which is new, to its module's group.
fn put_field(
    alloc: Global,
    grouping: Grouping,
    module: Text,
    field: Text,
    role: Import,
) -> Result<Grouping, AllocError>
    requires indexed { grouping.positions ≡ positions_of 0 grouping.groups.items }
    requires absent { found field (fields_in grouping.groups.items «module») ≡ None }
    ensures put { IfOk result
        (λ g. g.groups.items ≡ with_field grouping.groups.items «module» field role) }
    ensures indexed { IfOk result (λ g. g.positions ≡ positions_of 0 g.groups.items) }
{
    match position_of(&grouping, &module) {
        Some(position) => add_field(grouping, position, field, role),
        None => add_group(alloc, grouping, module, field, role),
    }
}

/// The refusal of an import whose module and field were imported before.
fn imported_twice<T>(alloc: Global, import: &CoreImport) -> Result<T, Failure>
    ensures { Gives (λ x. x) result (Err (imported_twice import.now)) }
{
    Err(Failure::Refused(Refusal::ImportTwice {
        module: import.module.clone(alloc)?,
        field: import.field.clone(alloc)?,
    }))
}

/// The groups with one core import more.
#[tactic(auto, unfolding(crate::specs::Grouping::group_after), using(crate::proofs::Fields::remains_good))]
fn add_import(
    alloc: Global,
    targets: &ImportTargets<'_>,
    others: &OtherModules,
    arguments: &Arguments<'_>,
    core: &CoreModule,
    grouping: Grouping,
    import: &CoreImport,
) -> Result<Grouping, Failure>
    requires sound { IsSound targets.now.resolved.resolve }
    requires indexed { grouping.positions ≡ positions_of 0 grouping.groups.items }
    requires good { AreGood targets.now.resolved.resolve grouping.groups.items }
    ensures exact { Gives (λ g. g.groups.items) result (group_after targets.now.resolved others.now
        arguments.now targets.now.table core.now grouping.groups.items import.now) }
    ensures indexed { IfOk result (λ g. g.positions ≡ positions_of 0 g.groups.items) }
    ensures good { IfOk result (λ g. AreGood targets.now.resolved.resolve g.groups.items) }
{
    if has_field(&grouping, &import.module, &import.field) {
        return imported_twice(alloc, import);
    }
    let module = import.module.clone(alloc)?;
    let field = import.field.clone(alloc)?;
    let role = import_of(alloc, targets, others, arguments, core, import)?;
    Ok(put_field(alloc, grouping, module, field, role)?)
}

/// The core imports in groups, by module.
fn group_imports(
    alloc: Global,
    targets: &ImportTargets<'_>,
    others: &OtherModules,
    arguments: &Arguments<'_>,
    core: &CoreModule,
) -> Result<Grouping, Failure>
    requires { IsSound targets.now.resolved.resolve }
    ensures exact { Gives (λ g. g.groups.items) result (groups_after targets.now.resolved others.now
        arguments.now targets.now.table core.now [] core.now.imports) }
    ensures indexed { IfOk result (λ g. g.positions ≡ positions_of 0 g.groups.items) }
    ensures good { IfOk result (λ g. AreGood targets.now.resolved.resolve g.groups.items) }
{
    let mut grouping = Grouping {
        positions: Keyed::new(alloc),
        groups: Vec::new(alloc),
    };
    for import in core.imports.as_slice() {
        grouping = add_import(alloc, targets, others, arguments, core, grouping, import)?;
    }
    Ok(grouping)
}

/// The positions are those of different modules. Kept apart for the prover.
fn positions_are_apart(positions: &Keyed<Text, usize>)
    ensures { IsDistinct bytes_eq (keys_of positions.now) }
{
    let _entries = positions.iter();
}

/// The groups without the positions.
#[tactic(auto, using(crate::proofs::Groups::groups_apart))]
fn into_groups(grouping: Grouping) -> Vec<Group>
    requires { grouping.positions ≡ positions_of 0 grouping.groups.items }
    ensures same { result ≡ grouping.groups }
    ensures apart { IsDistinct bytes_eq (names_of result.items) }
{
    positions_are_apart(&grouping.positions);
    grouping.groups
}

/// The roles of the core imports, in groups of one module each.
pub(crate) fn read_groups(
    alloc: Global,
    resolved: &Resolved,
    others: &OtherModules,
    arguments: &Arguments<'_>,
    roles: &Keyed<ImportName, ImportRole>,
    core: &CoreModule,
) -> Result<Vec<Group>, Failure>
    requires { IsSound resolved.now.resolve }
    ensures exact { Gives (λ g. g.items) result (groups_after resolved.now others.now arguments.now
        roles.now core.now [] core.now.imports) }
    ensures apart { IfOk result (λ g. IsDistinct bytes_eq (names_of g.items)) }
    ensures good { IfOk result (λ g. AreGood resolved.now.resolve g.items) }
{
    let targets = ImportTargets::of(alloc, resolved, roles)?;
    let grouping = group_imports(alloc, &targets, others, arguments, core)?;
    Ok(into_groups(grouping))
}
