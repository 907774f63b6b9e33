//! How large types are, and whether they are within the limits.

ghost use Rattle.std.specs.Prelude.{◌≡◌, ◌<◌, ◌≤◌, ◌↔◌, IsTrue, length, get_or, min, ◌+◌};
ghost use Rattle.std.specs.List.{AllByRecursion};
ghost use Rattle.wit_data.specs.Values.{values, part_values, value};
ghost use Rattle.wit_data.specs.Parts.{RefersBack, IsBelow, height};
ghost use Rattle.wit_data.specs.Sizes as sizes;

use crate::parts::{part_count_of, part_of};
use crate::types::{Type, TypeDef, TypeDefKind};

/// The least count of nodes that is over the limit.
const MANY_NODES: usize = 10_001;

/// The least count of levels that is over the limit.
const MANY_LEVELS: usize = 101;

/// Whether no flags have more than 32 labels, no type has more than 10,000 nodes, and none more than
/// 100 levels.
pub(crate) fn are_small(types: &[TypeDef]) -> bool
    requires { RefersBack types.now }
    ensures { IsTrue result ↔ sizes.AreSmall types.now }
{
    have_few_labels(types) && are_within(types)
}

fn have_few_labels(types: &[TypeDef]) -> bool
    ensures { IsTrue result ↔ AllByRecursion (λ t. sizes.HasFewLabels t.kind) types.now }
{
    for id in 0..types.len() {
        if !has_few_labels(&types[id].kind) {
            return false;
        }
    }
    true
}

fn has_few_labels(kind: &TypeDefKind) -> bool
    ensures { IsTrue result ↔ sizes.HasFewLabels kind.now }
{
    match kind {
        TypeDefKind::Flags(names) => names.len() <= 32,
        _ => true,
    }
}

/// Whether all types are within the limits of nodes and levels. Each type is tested when those before
/// it are known to be small, so that no walk is long or deep.
fn are_within(types: &[TypeDef]) -> bool
    requires { RefersBack types.now }
    ensures { IsTrue result
        ↔ (AllByRecursion (λ n. n ≤ 10000) (values sizes.counting_nodes types.now)
        × AllByRecursion (λ n. n ≤ 100) (values sizes.counting_levels types.now)) }
{
    for id in 0..types.len() {
        if node_count_of(types, id) >= MANY_NODES {
            return false;
        }
        if level_count_of(types, id) >= MANY_LEVELS {
            return false;
        }
    }
    true
}

/// How many nodes a type has, or 10,001 if there are more.
#[cycle(node_counting)]
fn node_count(types: &[TypeDef], part: Option<Type>) -> usize
    requires back { RefersBack types.now }
    requires present { IsBelow (length types.now) part }
    ensures count { result ≡ min (value sizes.counting_nodes types.now part) 10001 }
    ensures small { result ≤ 10001 }
{
    match part {
        None => 1,
        Some(Type::Primitive(_)) => 1,
        Some(Type::Id(id)) => node_count_of(types, id.index),
    }
}

#[cycle(node_counting)]
fn node_count_of(types: &[TypeDef], id: usize) -> usize
    requires back { RefersBack types.now }
    requires present { id < length types.now }
    ensures { result ≡ min (get_or (values sizes.counting_nodes types.now) id 1) 10001 }
{
    let total = nodes_together(types, id);
    MANY_NODES.min(1 + total)
}

/// The nodes of all parts together.
#[cycle(node_counting)]
fn nodes_together(types: &[TypeDef], id: usize) -> usize
    requires back { RefersBack types.now }
    requires present { id < length types.now }
    ensures { result ≡ min (sizes.sum (part_values sizes.counting_nodes types.now id)) 10001 }
{
    let mut total: usize = 0;
    for index in 0..part_count_of(types, id) {
        total += node_count(types, part_of(types, id, index));
        if total >= MANY_NODES {
            return MANY_NODES;
        }
    }
    total
}

/// How many levels a type has, or 101 if there are more.
#[cycle(level_counting)]
fn level_count(types: &[TypeDef], part: Option<Type>) -> usize
    requires back { RefersBack types.now }
    requires present { IsBelow (length types.now) part }
    ensures count { result ≡ min (value sizes.counting_levels types.now part) 101 }
    ensures small { result ≤ 101 }
{
    match part {
        None => 0,
        Some(Type::Primitive(_)) => 1,
        Some(Type::Id(id)) => level_count_of(types, id.index),
    }
}

#[cycle(level_counting)]
fn level_count_of(types: &[TypeDef], id: usize) -> usize
    requires back { RefersBack types.now }
    requires present { id < length types.now }
    ensures { result ≡ min (get_or (values sizes.counting_levels types.now) id 0) 101 }
{
    let most = most_levels(types, id);
    MANY_LEVELS.min(1 + most)
}

/// The levels of the part that has most.
#[cycle(level_counting)]
fn most_levels(types: &[TypeDef], id: usize) -> usize
    requires back { RefersBack types.now }
    requires present { id < length types.now }
    ensures { result ≡ min (sizes.greatest (part_values sizes.counting_levels types.now id)) 101 }
{
    let mut most: usize = 0;
    for index in 0..part_count_of(types, id) {
        let count = level_count(types, part_of(types, id, index));
        if count >= MANY_LEVELS {
            return MANY_LEVELS;
        }
        most = most.max(count);
    }
    most
}
