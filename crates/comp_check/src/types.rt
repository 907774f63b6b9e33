//! The items that types, aliases and members of instance types name.

ghost use Rattle.std.specs.Prelude.{◌≡◌, ◌∷◌, ◌++◌, [], List};
ghost use Rattle.std.specs.List.{flat_map};
ghost use Rattle.comp_bytes.specs.References.{where_some, value_references, defined_references, type_references, alias_references, member_references, type_at, core_func_at};
ghost use Rattle.comp_check.specs.Lacking.{lacking, Finds};

use crate::refers::{Refers, check_each, check_optional};
use crate::scope::{Lack, Scopes};
use comp_bytes::{Alias, ComponentValType, DefinedType, FuncTypeDef, Member, Space, TypeDef};

#[tactic(auto, using(crate::proofs::Lacks::chained))]
fn check_result(
    scopes: &Scopes,
    ok: &Option<ComponentValType>,
    err: &Option<ComponentValType>,
) -> Result<(), Lack>
    ensures { Finds result (lacking scopes.now
        (where_some value_references ok.now ++ where_some value_references err.now)) }
{
    check_optional(scopes, ok)?;
    check_optional(scopes, err)
}

#[tactic(auto, unfolding(crate::specs::Lacking::lacking))]
fn check_defined(scopes: &Scopes, ty: &DefinedType) -> Result<(), Lack>
    ensures { Finds result (lacking scopes.now (defined_references ty.now)) }
{
    match ty {
        DefinedType::Primitive(_) | DefinedType::Flags(_) | DefinedType::Enum(_) => Ok(()),
        DefinedType::Record(fields) => check_each(scopes, fields.as_slice()),
        DefinedType::Variant(cases) => check_each(scopes, cases.as_slice()),
        DefinedType::List(element) => element.check(scopes),
        DefinedType::Tuple(members) => check_each(scopes, members.as_slice()),
        DefinedType::Option(some) => some.check(scopes),
        DefinedType::Result { ok, err } => check_result(scopes, ok, err),
        DefinedType::Own(resource) => scopes.check(Space::Type, *resource),
        DefinedType::Borrow(resource) => scopes.check(Space::Type, *resource),
        DefinedType::Stream(element) => check_optional(scopes, element),
        DefinedType::Future(value) => check_optional(scopes, value),
    }
}

#[tactic(auto, using(crate::proofs::Lacks::chained))]
fn check_func(scopes: &Scopes, func: &FuncTypeDef) -> Result<(), Lack>
    ensures { Finds result (lacking scopes.now (flat_map (λ f. value_references f.ty)
        func.now.params ++ where_some value_references func.now.result)) }
{
    check_each(scopes, func.params.as_slice())?;
    check_optional(scopes, &func.result)
}

#[tactic(auto, unfolding(crate::specs::Lacking::lacking))]
pub(crate) fn check_type(scopes: &Scopes, ty: &TypeDef) -> Result<(), Lack>
    ensures { Finds result (lacking scopes.now (type_references ty.now)) }
{
    match ty {
        TypeDef::Func(func) => check_func(scopes, func),
        TypeDef::Resource(None) => Ok(()),
        TypeDef::Resource(Some(destructor)) => scopes.check(Space::CoreFunc, *destructor),
        TypeDef::Defined(ty) => check_defined(scopes, ty),
    }
}

pub(crate) fn check_alias(scopes: &Scopes, alias: &Alias) -> Result<(), Lack>
    ensures { Finds result (lacking scopes.now (alias_references alias.now)) }
{
    match alias {
        Alias::Export { instance, .. } => scopes.check(Space::Instance, *instance),
        Alias::CoreExport { instance, .. } => scopes.check(Space::CoreInstance, *instance),
        Alias::Outer { count, index } => scopes.check_outward(*count, Space::Type, *index),
    }
}

/// Whether the items that a member of an instance type names exist.
pub(crate) fn check_member(scopes: &Scopes, member: &Member) -> Result<(), Lack>
    ensures { Finds result (lacking scopes.now (member_references member.now)) }
{
    match member {
        Member::Type(ty) => check_type(scopes, ty),
        Member::Alias(alias) => check_alias(scopes, alias),
        Member::Export { description, .. } => description.check(scopes),
    }
}
