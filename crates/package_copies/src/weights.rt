//! The weights of types of values and of functions: how much a use of one copies.
//!
//! Component model, binary format: `valtype`, `defvaltype`, `functype`.

ghost use Rattle.std.specs.Prelude.{◌≡◌, ◌+◌, ℕ, min, slice_get};
ghost use Rattle.package_copies.specs.Weights.{sum, text_weight, entry_weight, value_weight, optional_weight, types_weight, fields_weight, cases_weight, labels_weight, defined_weight, function_weight, type_weight};

use comp_bytes::{Case, ComponentValType, DefinedType, Field, FuncTypeDef, TypeDef};
use comp_lists::Text;

/// A sum, up to 10,000,000,000.
#[tactic(auto, using(crate::proofs::Sums::least))]
pub(crate) fn sum(one: usize, other: usize) -> usize
    ensures { result ≡ sum one other }
{
    one.saturating_add(other).min(10_000_000_000)
}

/// That of a node with a text.
pub(crate) fn text_weight(text: &Text) -> usize
    ensures { result ≡ text_weight text.now }
{
    sum(1, text.len())
}

/// That of the type at an index of a scope.
pub(crate) fn entry_weight(scope: &[usize], index: u32) -> usize
    ensures { result ≡ entry_weight (slice_get scope.now index) }
{
    match scope.get(index as usize) {
        Some(weight) => *weight,
        None => 0,
    }
}

fn value_weight(scope: &[usize], ty: ComponentValType) -> usize
    ensures { result ≡ value_weight scope.now ty }
{
    match ty {
        ComponentValType::Primitive(_) => 1,
        ComponentValType::Defined(index) => entry_weight(scope, index),
    }
}

fn optional_weight(scope: &[usize], ty: Option<ComponentValType>) -> usize
    ensures { result ≡ optional_weight scope.now ty }
{
    match ty {
        Some(ty) => value_weight(scope, ty),
        None => 0,
    }
}

fn types_weight(scope: &[usize], types: &[ComponentValType]) -> usize
    ensures { result ≡ types_weight scope.now types.now 1 }
{
    let mut weight = 1;
    for ty in types {
        weight = sum(weight, value_weight(scope, *ty));
    }
    weight
}

fn fields_weight(scope: &[usize], fields: &[Field]) -> usize
    ensures { result ≡ fields_weight scope.now fields.now 1 }
{
    let mut weight = 1;
    for field in fields {
        let part = sum(text_weight(&field.name), value_weight(scope, field.ty));
        weight = sum(weight, part);
    }
    weight
}

fn cases_weight(scope: &[usize], cases: &[Case]) -> usize
    ensures { result ≡ cases_weight scope.now cases.now 1 }
{
    let mut weight = 1;
    for case in cases {
        let part = sum(text_weight(&case.name), optional_weight(scope, case.ty));
        weight = sum(weight, part);
    }
    weight
}

fn labels_weight(labels: &[Text]) -> usize
    ensures { result ≡ labels_weight labels.now 1 }
{
    let mut weight = 1;
    for label in labels {
        weight = sum(weight, text_weight(label));
    }
    weight
}

/// A type with one part.
fn holding(part: usize) -> usize
    ensures { result ≡ sum 1 part }
{
    sum(1, part)
}

fn defined_weight(scope: &[usize], ty: &DefinedType) -> usize
    ensures { result ≡ defined_weight scope.now ty.now }
{
    match ty {
        DefinedType::Primitive(_) => 1,
        DefinedType::Record(fields) => fields_weight(scope, fields.as_slice()),
        DefinedType::Variant(cases) => cases_weight(scope, cases.as_slice()),
        DefinedType::List(ty) => holding(value_weight(scope, *ty)),
        DefinedType::Tuple(types) => types_weight(scope, types.as_slice()),
        DefinedType::Flags(labels) => labels_weight(labels.as_slice()),
        DefinedType::Enum(labels) => labels_weight(labels.as_slice()),
        DefinedType::Option(ty) => holding(value_weight(scope, *ty)),
        DefinedType::Result { ok, err } => {
            holding(sum(optional_weight(scope, *ok), optional_weight(scope, *err)))
        }
        DefinedType::Own(index) => holding(entry_weight(scope, *index)),
        DefinedType::Borrow(index) => holding(entry_weight(scope, *index)),
        DefinedType::Stream(ty) => holding(optional_weight(scope, *ty)),
        DefinedType::Future(ty) => holding(optional_weight(scope, *ty)),
    }
}

fn function_weight(scope: &[usize], ty: &FuncTypeDef) -> usize
    ensures { result ≡ function_weight scope.now ty.now }
{
    let params = fields_weight(scope, ty.params.as_slice());
    sum(params, optional_weight(scope, ty.result))
}

/// The weight of a declared type.
pub(crate) fn type_weight(scope: &[usize], ty: &TypeDef) -> usize
    ensures { result ≡ type_weight scope.now ty.now }
{
    match ty {
        TypeDef::Func(ty) => function_weight(scope, ty),
        TypeDef::Resource(_) => 0,
        TypeDef::Defined(ty) => defined_weight(scope, ty),
    }
}
