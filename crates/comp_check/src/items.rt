//! The items that a definition names, and the space in which it makes one.

ghost use Rattle.std.specs.Prelude.{◌≡◌, ◌∷◌, ◌++◌, [], List, Option};
ghost use Rattle.std.specs.List.{flat_map};
ghost use Rattle.comp_bytes.specs.Spaces.{sort_space, alias_space, member_space, item_space, space_of};
ghost use Rattle.comp_bytes.specs.References.{own, where_some, description_references, options_references, type_at, core_func_at, item_references};
ghost use Rattle.comp_bytes.specs.declared.space.Space.TheVariants as spaces;
ghost use Rattle.comp_check.specs.Lacking.{lacking, Finds};

use crate::canon::check_intrinsic;
use crate::refers::{Refers, check_each, check_optional};
use crate::scope::{Lack, Scopes};
use crate::types::{check_alias, check_type};
use comp_bytes::{
    Alias, Argument, CanonicalOption, CoreArgument, Def, Description, Item, Member, Sort, Space,
    space_of_kind,
};

fn alias_space(alias: &Alias) -> Space
    ensures { result ≡ alias_space alias.now }
{
    match alias {
        Alias::Export { kind, .. } => kind.space(),
        Alias::CoreExport { kind, .. } => space_of_kind(*kind),
        Alias::Outer { .. } => Space::Type,
    }
}

/// The space in which a member of an instance type makes an item.
pub(crate) fn member_space(member: &Member) -> Option<Space>
    ensures { result ≡ member_space member.now }
{
    match member {
        Member::Type(_) => Some(Space::Type),
        Member::Alias(alias) => Some(alias_space(alias)),
        Member::Export { description, .. } => Some(description.space()),
    }
}

/// The space in which an item is made.
pub(crate) fn item_space(item: &Item) -> Option<Space>
    ensures { result ≡ item_space item.now }
{
    match item {
        Item::CoreModule(_) => Some(Space::CoreModule),
        Item::CoreInstantiate { .. } | Item::CoreExports(_) => Some(Space::CoreInstance),
        Item::Instantiate { .. } => Some(Space::Instance),
        Item::Alias(alias) => Some(alias_space(alias)),
        Item::Type(_) | Item::InstanceType(_) => Some(Space::Type),
        Item::Lift { .. } => Some(Space::Func),
        Item::Lower { .. } | Item::Intrinsic(_) => Some(Space::CoreFunc),
        Item::Import { description, .. } => Some(description.space()),
        Item::Export { sort, .. } => Some(sort.space()),
        Item::Custom { .. } => None,
    }
}

/// The space in which a definition makes an item.
pub(crate) fn space_of(def: &Def) -> Option<Space>
    ensures { result ≡ space_of def.now }
{
    match def {
        Def::Item(item) => item_space(item),
        Def::Component(_) => Some(Space::Component),
    }
}

#[tactic(auto, using(crate::proofs::Lacks::chained))]
fn check_core_instantiate(scopes: &Scopes, made: u32, args: &[CoreArgument]) -> Result<(), Lack>
    ensures { Finds result (lacking scopes.now (own spaces.CoreModule made
        ∷ flat_map (λ a. own spaces.CoreInstance a.instance ∷ []) args.now)) }
{
    scopes.check(Space::CoreModule, made)?;
    check_each(scopes, args)
}

#[tactic(auto, using(crate::proofs::Lacks::chained))]
fn check_instantiate(scopes: &Scopes, component: u32, args: &[Argument]) -> Result<(), Lack>
    ensures { Finds result (lacking scopes.now (own spaces.Component component
        ∷ flat_map (λ a. own (sort_space a.sort) a.index ∷ []) args.now)) }
{
    scopes.check(Space::Component, component)?;
    check_each(scopes, args)
}

#[tactic(auto, using(crate::proofs::Lacks::chained))]
fn check_lift(scopes: &Scopes, func: u32, options: &[CanonicalOption], ty: u32) -> Result<(), Lack>
    ensures { Finds result
        (lacking scopes.now (core_func_at func ++ options_references options.now ++ type_at ty)) }
{
    scopes.check(Space::CoreFunc, func)?;
    check_each(scopes, options)?;
    scopes.check(Space::Type, ty)
}

#[tactic(auto, using(crate::proofs::Lacks::chained))]
fn check_lower(scopes: &Scopes, func: u32, options: &[CanonicalOption]) -> Result<(), Lack>
    ensures { Finds result
        (lacking scopes.now (own spaces.Func func ∷ options_references options.now)) }
{
    scopes.check(Space::Func, func)?;
    check_each(scopes, options)
}

#[tactic(auto, using(crate::proofs::Lacks::chained))]
fn check_export(
    scopes: &Scopes,
    sort: Sort,
    index: u32,
    description: &Option<Description>,
) -> Result<(), Lack>
    ensures { Finds result (lacking scopes.now
        (own (sort_space sort) index ∷ where_some description_references description.now)) }
{
    scopes.check(sort.space(), index)?;
    check_optional(scopes, description)
}

/// Whether the items that an item names exist; the members of an instance type are not checked here.
#[tactic(auto, unfolding(crate::specs::Lacking::lacking))]
pub(crate) fn check_named(scopes: &Scopes, item: &Item) -> Result<(), Lack>
    ensures { Finds result (lacking scopes.now (item_references item.now)) }
{
    match item {
        Item::CoreModule(_) | Item::InstanceType(_) | Item::Custom { .. } => Ok(()),
        Item::CoreInstantiate { module, args } => {
            check_core_instantiate(scopes, *module, args.as_slice())
        }
        Item::CoreExports(exports) => check_each(scopes, exports.as_slice()),
        Item::Instantiate { component, args } => {
            check_instantiate(scopes, *component, args.as_slice())
        }
        Item::Alias(alias) => check_alias(scopes, alias),
        Item::Type(ty) => check_type(scopes, ty),
        Item::Lift { func, options, ty } => check_lift(scopes, *func, options.as_slice(), *ty),
        Item::Lower { func, options } => check_lower(scopes, *func, options.as_slice()),
        Item::Intrinsic(intrinsic) => check_intrinsic(scopes, intrinsic),
        Item::Import { description, .. } => description.check(scopes),
        Item::Export {
            sort,
            index,
            description,
            ..
        } => check_export(scopes, *sort, *index, description),
    }
}
