//! The types that others reach.

ghost use Rattle.std.specs.Prelude.{◌≡◌, ◌<◌, ◌+◌, length, map, filter, get_or, replicate, Some, false, IfOk};
ghost use Rattle.std.specs.List.{AllByRecursion};
ghost use Rattle.wit_data.specs.Parts.{RefersBack, IsBelow};
ghost use Rattle.wit_data.specs.Sound.{IsSound, HasInterface, HasType};
ghost use Rattle.wit_data.specs.Values.{value, part_values};
ghost use Rattle.wit_data.specs.Live.{reaching, named_types, live_types};
ghost use Rattle.wit_data.specs.Marks.{with_mark, Spreads, PassesOn, AreLive};

use crate::ids::{InterfaceId, TypeId};
use crate::parts::{part_count_of, part_of};
use crate::resolve::Resolve;
use crate::types::{Type, TypeDef};
use comp_lists::{Keyed, Text};
use std::alloc::{AllocError, Global};

impl Resolve {
    /// Those of an interface's types that the given types reach, in the interface's order: a type
    /// reaches itself, what it names, and what that reaches (component model, binary format: an instance
    /// type declares each type that its functions name). The time is linear in the number of the resolve's
    /// types and of their parts. The only error is out of memory.
    pub fn live_types(
        &self,
        alloc: Global,
        id: InterfaceId,
        given: &[Type],
    ) -> Result<Vec<TypeId>, AllocError>
        requires sound { IsSound self.now }
        requires present { HasInterface self.now id }
        requires given { AllByRecursion (λ t. HasType self.now (Some t)) given.now }
        ensures { IfOk result
            (λ v. v.items ≡ live_types self.now.types given.now (named_types self.now id)) }
    {
        let marks = live_marks(alloc, self.types.as_slice(), given)?;
        marked_of(
            alloc,
            marks.as_slice(),
            &self.interfaces.as_slice()[id.index].types,
        )
    }
}

/// For each type, whether the given types reach it. The time is linear in the number of the types and of their parts,
/// however many are given. The only error is out of memory.
pub fn live_marks(alloc: Global, types: &[TypeDef], given: &[Type]) -> Result<Vec<bool>, AllocError>
    requires sound { RefersBack types.now }
    requires given { AllByRecursion (λ t. IsBelow (length types.now) (Some t)) given.now }
    ensures { IfOk result (λ marks. AreLive types.now given.now marks.items) }
{
    let mut marks = vec![in alloc; false; types.len()]?;
    mark_live(types, marks.as_mut_slice(), given);
    Ok(marks)
}

/// Marks what the given types reach, where nothing is marked.
fn mark_live(types: &[TypeDef], marks: &mut [bool], given: &[Type])
    requires sound { RefersBack types.now }
    requires given { AllByRecursion (λ t. IsBelow (length types.now) (Some t)) given.now }
    requires none { marks.old ≡ replicate (length types.now) false }
    ensures { AreLive types.now given.now marks.new }
{
    mark_given(types, marks, given);
    pass_all_on(types, marks);
}

/// Marks the given types.
fn mark_given(types: &[TypeDef], marks: &mut [bool], given: &[Type])
    requires sound { RefersBack types.now }
    requires long { length marks.old ≡ length types.now }
    requires given { AllByRecursion (λ t. IsBelow (length types.now) (Some t)) given.now }
    ensures { Spreads types.now marks.old marks.new (length types.now)
        (λ target. map (λ t. value (reaching target) types.now (Some t)) given.now) }
{
    for n in 0..given.len() {
        mark(marks, Some(given[n]));
    }
}

/// Visits the types from the last to the first, and marks what each marked one names. Types name
/// earlier types alone, so this marks all that they reach.
fn pass_all_on(types: &[TypeDef], marks: &mut [bool])
    requires sound { RefersBack types.now }
    requires long { length marks.old ≡ length types.now }
    ensures { PassesOn types.now marks.old (length types.now) marks.new 0 }
{
    let mut n = types.len();
    while n > 0 {
        n -= 1;
        pass_on(types, marks, n);
    }
}

/// Marks what the type with this index names, if it is marked.
fn pass_on(types: &[TypeDef], marks: &mut [bool], n: usize)
    requires sound { RefersBack types.now }
    requires long { length marks.old ≡ length types.now }
    requires present { n < length types.now }
    ensures { PassesOn types.now marks.old (n + 1) marks.new n }
{
    if marks[n] {
        mark_parts(types, marks, n);
    }
}

/// Marks what the type with this index names.
fn mark_parts(types: &[TypeDef], marks: &mut [bool], id: usize)
    requires sound { RefersBack types.now }
    requires long { length marks.old ≡ length types.now }
    requires present { id < length types.now }
    ensures { Spreads types.now marks.old marks.new id
        (λ target. part_values (reaching target) types.now id) }
{
    for n in 0..part_count_of(types, id) {
        mark(marks, part_of(types, id, n));
    }
}

/// Marks a type, if it has an index.
fn mark(marks: &mut [bool], part: Option<Type>)
    requires { IsBelow (length marks.old) part }
    ensures { marks.new ≡ with_mark marks.old part }
{
    if let Some(Type::Id(id)) = part {
        marks[id.index] = true;
    }
}

/// The marked ones of the types by name, in their order. The only error is out of memory.
pub fn marked_of(
    alloc: Global,
    marks: &[bool],
    named: &Keyed<Text, TypeId>,
) -> Result<Vec<TypeId>, AllocError>
    requires { AllByRecursion (λ entry. entry.1.index < length marks.now) named.now }
    ensures { IfOk result (λ v. v.items
        ≡ filter (λ id. get_or marks.now id.index false) (map (λ entry. entry.1) named.now)) }
{
    let mut found = Vec::new(alloc);
    for (_, id) in named.iter() {
        if marks[id.index] {
            found.push(*id)?;
        }
    }
    Ok(found)
}
