//! Streams and futures that occur in functions.
//!
//! One walk through a function notes all that roles name: it counts the streams and futures, an
//! inner type before the outer one, and ends at the greatest number that is wanted. A type is
//! entered each time that it occurs, which is cheap since types are small.

ghost use Rattle.std.specs.Prelude.{◌≡◌, ◌<◌, [], ◌∷◌, Some, length, get_or, OnOk, IfOk};
ghost use Rattle.std.specs.List.{AllByRecursion, flat_map};
ghost use Rattle.wit_data.specs.Parts.{RefersBack, IsBelow};
ghost use Rattle.wit_data.specs.Sound.{IsSound, HasFunction};
ghost use Rattle.wit_data.specs.Values.{values, part_values, kind_at};
ghost use Rattle.record_role_targets.specs.Payloads.{itself, is_handle, meeting, met_in, met_in_function};
ghost use Rattle.record_role_targets.specs.Walks.{next_after, noted, passed, walked, FindsNumbers};

use crate::wanted::Wanted;
use comp_lists::Keyed;
use std::alloc::{AllocError, Global};
use wit_data::{
    Function, Param, Resolve, Type, TypeDef, TypeDefKind, TypeId, kind_of, part_count_of, part_of,
};

/// The state of a walk: the number of the next stream or future, unless it is past all that are
/// wanted, and what was noted.
#[derive(Drop)]
pub(crate) struct Walk {
    pub next: Option<u32>,
    pub found: Keyed<u32, TypeId>,
}

fn is_handle(kind: &TypeDefKind) -> bool
    ensures { result ≡ is_handle kind.now }
{
    match kind {
        TypeDefKind::Own(_) => true,
        TypeDefKind::Borrow(_) => true,
        _ => false,
    }
}

/// The number after one, unless that is the last.
fn next_after(wanted: &Wanted, number: u32) -> Option<u32>
    ensures { result ≡ next_after wanted.now number }
{
    if number < wanted.last {
        Some(number + 1)
    } else {
        None
    }
}

/// Notes the stream or future with a number, if that is wanted.
fn note(
    wanted: &Wanted,
    found: &mut Keyed<u32, TypeId>,
    number: u32,
    id: usize,
) -> Result<(), AllocError>
    ensures { OnOk result (found.new ≡ noted wanted.now found.old number (record { index = id })) }
{
    if wanted.numbers.contains_key(&number) {
        found.insert_if_absent(number, TypeId { index: id })
    } else {
        Ok(())
    }
}

/// A walk over one stream or future more.
fn pass(wanted: &Wanted, walk: &mut Walk, id: usize) -> Result<(), AllocError>
    ensures { OnOk result (walk.new ≡ passed wanted.now walk.old (record { index = id })) }
{
    match walk.next {
        Some(number) => {
            walk.next = next_after(wanted, number);
            note(wanted, &mut walk.found, number, id)
        }
        None => Ok(()),
    }
}

/// A walk over the type of a number itself, after its parts.
fn pass_itself(
    kind: &TypeDefKind,
    id: usize,
    wanted: &Wanted,
    walk: &mut Walk,
) -> Result<(), AllocError>
    ensures { OnOk result (walk.new ≡ walked wanted.now walk.old (itself id kind.now)) }
{
    match kind {
        TypeDefKind::Stream(_) => pass(wanted, walk, id),
        TypeDefKind::Future(_) => pass(wanted, walk, id),
        _ => Ok(()),
    }
}

/// A walk over a type, if there is one.
#[cycle(walking)]
fn walk_part(
    types: &[TypeDef],
    part: Option<Type>,
    wanted: &Wanted,
    walk: &mut Walk,
) -> Result<(), AllocError>
    requires back { RefersBack types.now }
    requires present { IsBelow (length types.now) part }
    ensures { OnOk result (walk.new ≡ walked wanted.now walk.old (met_in types.now part)) }
{
    match part {
        None => Ok(()),
        Some(Type::Primitive(_)) => Ok(()),
        Some(Type::Id(id)) => walk_type(types, id.index, wanted, walk),
    }
}

/// A walk over the type of a number.
#[cycle(walking)]
fn walk_type(
    types: &[TypeDef],
    id: usize,
    wanted: &Wanted,
    walk: &mut Walk,
) -> Result<(), AllocError>
    requires back { RefersBack types.now }
    requires present { id < length types.now }
    ensures { OnOk result
        (walk.new ≡ walked wanted.now walk.old (get_or (values meeting types.now) id [])) }
{
    if walk.next.is_none() {
        return Ok(());
    }
    let kind = kind_of(types, id);
    if is_handle(kind) {
        return Ok(());
    }
    walk_parts(types, id, wanted, walk)?;
    pass_itself(kind, id, wanted, walk)?;
    Ok(())
}

/// A walk over the parts of the type of a number.
#[cycle(walking)]
fn walk_parts(
    types: &[TypeDef],
    id: usize,
    wanted: &Wanted,
    walk: &mut Walk,
) -> Result<(), AllocError>
    requires back { RefersBack types.now }
    requires present { id < length types.now }
    ensures { OnOk result (walk.new
        ≡ walked wanted.now walk.old (flat_map (λ f. f) (part_values meeting types.now id))) }
{
    for part_index in 0..part_count_of(types, id) {
        walk_part(types, part_of(types, id, part_index), wanted, walk)?;
    }
    Ok(())
}

/// A walk over the types of parameters.
fn walk_params(
    types: &[TypeDef],
    params: &[Param],
    wanted: &Wanted,
    walk: &mut Walk,
) -> Result<(), AllocError>
    requires back { RefersBack types.now }
    requires present { AllByRecursion (λ p. IsBelow (length types.now) (Some p.ty)) params.now }
    ensures { OnOk result (walk.new
        ≡ walked wanted.now walk.old
        (flat_map (λ p. met_in types.now (Some p.ty)) params.now)) }
{
    for param in params {
        walk_part(types, Some(param.ty), wanted, walk)?;
    }
    Ok(())
}

/// The streams and futures of a function that are wanted, by their numbers, from 0, in the
/// parameters and then the result.
pub(crate) fn numbers_met(
    alloc: Global,
    resolve: &Resolve,
    function: &Function,
    wanted: &Wanted,
) -> Result<Keyed<u32, TypeId>, AllocError>
    requires sound { IsSound resolve.now }
    requires present { HasFunction resolve.now function.now }
    ensures { IfOk result
        (FindsNumbers (met_in_function resolve.now.types function.now) wanted.now) }
{
    let types = resolve.types.as_slice();
    let mut walk = Walk {
        next: Some(0),
        found: Keyed::new(alloc),
    };
    walk_params(types, function.params.as_slice(), wanted, &mut walk)?;
    walk_part(types, function.result, wanted, &mut walk)?;
    Ok(walk.found)
}
