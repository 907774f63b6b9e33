//! What the core imports of a module resolve to, by their roles.

ghost use Rattle.std.specs.Prelude.{◌≡◌, IfOk};
ghost use Rattle.std.specs.Option.{option_copied, IfSome};
ghost use Rattle.wit_data.specs.Sound.{IsSound};
ghost use Rattle.record_role_targets.specs.Known.{AreKnown};
ghost use Rattle.record_role_targets.specs.Named.{HasNamed};
ghost use Rattle.record_role_targets.specs.Targets.{role_of, resolved_role};

use crate::imports::resolved_import;
use crate::known::{Tables, known_types};
use comp_lists::Keyed;
use comp_roles::{ExternType, Import};
use record_resolve::Resolved;
use record_values::{ImportName, ImportRole};
use std::alloc::{AllocError, Global};
use std::marker::Model;

/// The roles of the core imports of a module in a resolved world, which contracts see as these two.
///
/// It is made once of them, with tables of the streams and futures that the roles name. Then no
/// role takes a walk through the types of its function.
#[derive(Drop)]
pub struct ImportTargets<'a> {
    resolved: &'a Resolved,
    roles: &'a Keyed<ImportName, ImportRole>,
    tables: Tables<'a>,
}

impl<'a> Model for ImportTargets<'a> {
    ghost use Rattle.record_role_targets.specs.Known.{AreKnown};
    ghost use Rattle.record_role_targets.specs.Targets.{WorldRoles};

    ghost Value = { WorldRoles };

    ghost view = { λ t. record { resolved = t.resolved.now; table = t.roles.now } };

    ghost invariant = { λ t. AreKnown t.resolved.now t.tables t.roles.now };
}

/// The role of an import, if it has one.
fn role_of<'a>(
    roles: &'a Keyed<ImportName, ImportRole>,
    name: &ImportName,
) -> Option<&'a ImportRole>
    ensures { option_copied result ≡ role_of roles.now name.now }
{
    roles.get(name)
}

/// What the import of a name resolves to, where the tables have what the roles name of streams and futures.
#[tactic(auto, using(crate::proofs::Knowing::role_known))]
fn resolved_role(
    alloc: Global,
    resolved: &Resolved,
    roles: &Keyed<ImportName, ImportRole>,
    tables: &Tables<'_>,
    name: &ImportName,
    ty: Option<&ExternType>,
) -> Result<Option<Import>, AllocError>
    requires sound { IsSound resolved.now.resolve }
    requires known { AreKnown resolved.now tables.now roles.now }
    ensures exact { IfOk result (λ i. i
        ≡ resolved_role (record { resolved = resolved.now; table = roles.now }) name.now
        (option_copied ty.entry)) }
    ensures present { IfOk result (λ i. IfSome i (HasNamed resolved.now.resolve)) }
{
    match role_of(roles, name) {
        Some(role) => resolved_import(alloc, resolved, tables, &name.field, role, ty),
        None => Ok(None),
    }
}

impl<'a> ImportTargets<'a> {
    /// These roles in a resolved world. Each function of which roles name a stream or a future is
    /// walked through once. The only error is out of memory.
    pub fn of(
        alloc: Global,
        resolved: &'a Resolved,
        roles: &'a Keyed<ImportName, ImportRole>,
    ) -> Result<ImportTargets<'a>, AllocError>
        requires { IsSound resolved.now.resolve }
        ensures { IfOk result (λ t. t ≡ record { resolved = resolved.now; table = roles.now }) }
    {
        let tables = known_types(alloc, resolved, roles)?;
        Ok(ImportTargets {
            resolved,
            roles,
            tables,
        })
    }

    /// The resolved world.
    pub fn resolved(&self) -> &Resolved
        ensures { result.now ≡ self.now.resolved }
    {
        self.resolved
    }

    /// The role of an import, if it has one.
    pub fn role(&self, name: &ImportName) -> Option<&ImportRole>
        ensures { option_copied result ≡ role_of self.now.table name.now }
    {
        self.roles.get(name)
    }

    /// The resolved role of a core import with this name and this type, where functions, types and interfaces have
    /// numbers.
    ///
    /// Functions and resources of imports are looked up on the world's imported side, those of exports on
    /// its exported side. A memory has the import's type, an adapter's export the import's function type.
    ///
    /// It is none where the import has no role, where the role names something that this side does
    /// not have (an interface, a function, a type, or a stream or future by its number), or where
    /// the import is not a memory or function as the role requires. The only refusal is out of
    /// memory.
    ///
    /// What the result names exists in the resolve.
    pub fn resolve(
        &self,
        alloc: Global,
        name: &ImportName,
        ty: Option<&ExternType>,
    ) -> Result<Option<Import>, AllocError>
        requires { IsSound self.now.resolved.resolve }
        ensures exact { IfOk result
            (λ i. i ≡ resolved_role self.now name.now (option_copied ty.entry)) }
        ensures present { IfOk result (λ i. IfSome i (HasNamed self.now.resolved.resolve)) }
    {
        resolved_role(alloc, self.resolved, self.roles, &self.tables, name, ty)
    }
}
