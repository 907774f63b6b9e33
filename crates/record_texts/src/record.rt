//! All that a module says of its component.

ghost use Rattle.std.specs.Prelude.{◌≡◌, ◌≢◌, true, false, map, IfOk, IfErr, IsOk};
ghost use Rattle.std.specs.List.{list_all};
ghost use Rattle.serde_json.specs.View.{view};
ghost use Rattle.record_texts.specs.declared.fault.RecordTextFault.TheVariants as faults;
ghost use Rattle.record_texts.specs.ExportRoles.{core_export_data};
ghost use Rattle.record_texts.specs.ImportRoles.{core_import_data};
ghost use Rattle.record_texts.specs.Records.{first_if, is_encoding, encodings_of, encoding_of, has_one_encoding, record_of, record_data, IsTextOf};
ghost use Rattle.record_texts.specs.Worlds.{items_data};

use crate::export_roles::core_export_values;
use crate::fault::RecordTextFault;
use crate::import_roles::{core_import_values, encoding_name};
use crate::interfaces::{WrittenInterfaces, write_interfaces};
use crate::items::item_values;
use comp_lists::Keyed;
use record_merge::{Bindgen, FunctionOf, Roles};
use serde_json::{Value, json};
use standard_kinds::StringEncoding;
use std::alloc::{AllocError, Global};

/// The first string encoding of a table.
fn first_encoding(encodings: &Keyed<FunctionOf, StringEncoding>) -> Option<StringEncoding>
    ensures { result ≡ first_if (map (λ e. e.1) encodings.now) }
{
    for (_, encoding) in encodings.iter() {
        return Some(*encoding);
    }
    None
}

/// The first string encoding of a module's functions, or UTF-8 where there are none.
fn encoding_of(roles: &Roles) -> StringEncoding
    ensures { result ≡ encoding_of (encodings_of roles.now) }
{
    match first_encoding(&roles.import_encodings) {
        Some(encoding) => encoding,
        None => first_encoding(&roles.export_encodings).unwrap_or(StringEncoding::UTF8),
    }
}

/// Whether all string encodings of a table are this one.
fn are_all(encodings: &Keyed<FunctionOf, StringEncoding>, wanted: StringEncoding) -> bool
    ensures { result ≡ list_all (is_encoding wanted) (map (λ e. e.1) encodings.now) }
{
    for (_, encoding) in encodings.iter() {
        if wanted != *encoding {
            return false;
        }
    }
    true
}

/// Whether the functions of a module have one string encoding, this one.
fn have_all(roles: &Roles, wanted: StringEncoding) -> bool
    ensures { result ≡ list_all (is_encoding wanted) (encodings_of roles.now) }
{
    are_all(&roles.import_encodings, wanted) && are_all(&roles.export_encodings, wanted)
}

/// The lists of a record, as JSON.
#[derive(Drop)]
struct Lists {
    core_exports: Vec<Value>,
    core_imports: Vec<Value>,
    exports: Vec<Value>,
    imports: Vec<Value>,
}

fn lists_of(alloc: Global, said: &Bindgen, written: &WrittenInterfaces) -> Result<Lists, AllocError>
    ensures core_exports { IfOk result (λ l. map view l.core_exports.items
        ≡ map (core_export_data written.now.indices) said.now.roles.export_roles) }
    ensures core_imports { IfOk result (λ l. map view l.core_imports.items
        ≡ map (core_import_data written.now.indices) said.now.roles.import_roles) }
    ensures exports { IfOk result (λ l. map view l.exports.items
        ≡ items_data written.now.indices said.now.wit.exports) }
    ensures imports { IfOk result (λ l. map view l.imports.items
        ≡ items_data written.now.indices said.now.wit.imports) }
{
    let indices = &written.indices;
    Ok(Lists {
        core_exports: core_export_values(alloc, indices, &said.roles.export_roles)?,
        core_imports: core_import_values(alloc, indices, &said.roles.import_roles)?,
        exports: item_values(alloc, indices, &said.wit.exports)?,
        imports: item_values(alloc, indices, &said.wit.imports)?,
    })
}

/// The record of these lists.
fn object_of(
    alloc: Global,
    slot: bool,
    encoding: StringEncoding,
    lists: Lists,
    interfaces: Vec<Value>,
) -> Result<Value, AllocError>
    ensures { IfOk result (λ v. view v ≡ record_of slot (map view lists.core_exports.items)
        (map view lists.core_imports.items) encoding (map view lists.exports.items)
        (map view lists.imports.items) (map view interfaces.items)) }
{
    let Lists {
        core_exports,
        core_imports,
        exports,
        imports,
    } = lists;
    let encoding = encoding_name(encoding);
    json!(in alloc; {
        "context-slot-1": slot,
        "core-exports": core_exports,
        "core-imports": core_imports,
        "encoding": encoding,
        "exports": exports,
        "imports": imports,
        "interfaces": interfaces,
        "version": 1u64
    })
}

fn record_value(
    alloc: Global,
    said: &Bindgen,
    encoding: StringEncoding,
) -> Result<Value, AllocError>
    ensures { IfOk result (λ v. view v ≡ record_data said.now encoding) }
{
    let written = write_interfaces(alloc, &said.wit.interfaces)?;
    let lists = lists_of(alloc, said, &written)?;
    let WrittenInterfaces { indices: _, values } = written;
    object_of(alloc, said.roles.context_slot_1, encoding, lists, values)
}

/// The text of a value, over several lines.
fn text_of(alloc: Global, value: &Value) -> Result<Vec<u8>, AllocError>
    ensures { IfOk result (λ text. IsTextOf text.items (view value.now)) }
{
    value.to_vec_pretty(alloc)
}

/// The JSON record that says what a module says of its component (docs/RECORD.md), over several lines.
///
/// It refuses with
/// - `Memory` when out of memory,
/// - `SeveralEncodings` where the module's functions have more than one string encoding.
pub fn record_text(alloc: Global, said: &Bindgen) -> Result<Vec<u8>, RecordTextFault>
    ensures ok { IfOk result (λ text. IsTextOf text.items
        (record_data said.now (encoding_of (encodings_of said.now.roles)))) }
    ensures cause { IfErr result (λ e. e ≢ faults.Memory → e ≡ faults.SeveralEncodings
        × (has_one_encoding said.now.roles ≡ false)) }
    ensures refused { IsOk result → has_one_encoding said.now.roles ≡ true }
{
    let encoding = encoding_of(&said.roles);
    if !have_all(&said.roles, encoding) {
        return Err(RecordTextFault::SeveralEncodings);
    }
    let value = record_value(alloc, said, encoding)?;
    Ok(text_of(alloc, &value)?)
}
