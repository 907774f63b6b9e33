//! Arrays and objects of a few values.

ghost use Rattle.std.specs.Prelude.{◌≡◌, ◌∷◌, [], ◌++◌, map, IfOk, OnOk};
ghost use Rattle.serde_json.specs.Data.{string, array, item, no_items};
ghost use Rattle.serde_json.specs.View.{view, items_of};
ghost use Rattle.record_texts.specs.Names.{pair, triple, quadruple, only};
ghost use Rattle.record_texts.specs.ImportRoles.{alone};
ghost use Rattle.record_texts.specs.Types.{texts};

use comp_lists::Text;
use serde_json::{Value, json};
use std::alloc::{AllocError, Global};

/// An array of one text. The only error, here and below, is out of memory.
pub(crate) fn alone(alloc: Global, kind: &str) -> Result<Value, AllocError>
    ensures { IfOk result (λ v. view v ≡ alone kind.now) }
{
    json!(in alloc; [kind])
}

pub(crate) fn pair(alloc: Global, first: Value, second: Value) -> Result<Value, AllocError>
    ensures { IfOk result (λ v. view v ≡ pair (view first) (view second)) }
{
    json!(in alloc; [first, second])
}

/// An array of a text and a value.
pub(crate) fn named(alloc: Global, name: &str, value: Value) -> Result<Value, AllocError>
    ensures { IfOk result (λ v. view v ≡ pair (string name.now) (view value)) }
{
    json!(in alloc; [name, value])
}

/// An array of a text and two values.
pub(crate) fn named_pair(
    alloc: Global,
    name: &str,
    first: Value,
    second: Value,
) -> Result<Value, AllocError>
    ensures { IfOk result (λ v. view v ≡ triple (string name.now) (view first) (view second)) }
{
    json!(in alloc; [name, first, second])
}

/// An array of three texts.
pub(crate) fn three_texts(
    alloc: Global,
    first: &str,
    second: &str,
    third: &str,
) -> Result<Value, AllocError>
    ensures { IfOk result (λ v. view v
        ≡ triple (string first.now) (string second.now) (string third.now)) }
{
    json!(in alloc; [first, second, third])
}

/// An object of one member.
pub(crate) fn only(alloc: Global, key: &str, value: Value) -> Result<Value, AllocError>
    ensures { IfOk result (λ v. view v ≡ only key.now (view value)) }
{
    json!(in alloc; {key: value})
}

/// Appends a value.
pub(crate) fn append(values: &mut Vec<Value>, value: Value) -> Result<(), AllocError>
    ensures { OnOk result (map view values.new.items
        ≡ map view values.old.items ++ view value ∷ []) }
{
    Ok(values.push(value)?)
}

/// An array of texts.
pub(crate) fn texts(alloc: Global, labels: &[Text]) -> Result<Value, AllocError>
    ensures { IfOk result (λ v. view v ≡ texts labels.now) }
{
    let mut values = Vec::new(alloc);
    for label in labels {
        append(&mut values, Value::try_from_str(alloc, label.as_str())?)?;
    }
    Ok(Value::Array(values))
}
