//! The string encodings of functions.

ghost use Rattle.std.specs.Prelude.{◌≡◌, [], IfOk, OnOk};
ghost use Rattle.record_merge.specs.Encodings.{with_functions, with_item, with_items, encodings_after};

use crate::bindgen::FunctionOf;
use comp_lists::{Keyed, TryClone};
use record_values::{Func, Interface, InterfaceName, Item, ItemKey, Record};
use standard_kinds::StringEncoding;
use std::alloc::{AllocError, Global};

/// Functions with their encodings.
type Encodings = Keyed<FunctionOf, StringEncoding>;

/// The encodings of imported and of exported functions.
#[derive(Drop)]
pub(crate) struct BothEncodings {
    pub(crate) imports: Encodings,
    pub(crate) exports: Encodings,
}

/// Adds functions of an import or export that the table does not have.
fn add_functions(
    alloc: Global,
    table: &mut Encodings,
    key: &ItemKey,
    functions: &[Func],
    encoding: StringEncoding,
) -> Result<(), AllocError>
    ensures { OnOk result (table.new ≡ with_functions encoding key.now table.old functions.now) }
{
    for function in functions {
        let named = FunctionOf {
            key: key.try_clone(alloc)?,
            function: function.name.clone(alloc)?,
        };
        table.insert_if_absent(named, encoding)?;
    }
    Ok(())
}

/// Adds the functions of an import or export: itself where it is one, and those of its interface.
fn add_item(
    alloc: Global,
    table: &mut Encodings,
    interfaces: &Keyed<InterfaceName, Interface>,
    key: &ItemKey,
    item: &Item,
    encoding: StringEncoding,
) -> Result<(), AllocError>
    ensures { OnOk result
        (table.new ≡ with_item interfaces.now encoding table.old key.now item.now) }
{
    match item {
        Item::Interface(name) => match interfaces.get(name) {
            Some(interface) => {
                add_functions(alloc, table, key, interface.functions.as_slice(), encoding)
            }
            None => Ok(()),
        },
        Item::Function(function) => {
            let named = FunctionOf {
                key: key.try_clone(alloc)?,
                function: function.name.clone(alloc)?,
            };
            table.insert_if_absent(named, encoding)
        }
        Item::Type(_) => Ok(()),
    }
}

/// Adds the functions of imports or exports.
fn add_items(
    alloc: Global,
    table: &mut Encodings,
    interfaces: &Keyed<InterfaceName, Interface>,
    all: &Keyed<ItemKey, Item>,
    encoding: StringEncoding,
) -> Result<(), AllocError>
    ensures { OnOk result (table.new ≡ with_items interfaces.now encoding table.old all.now) }
{
    for (key, item) in all.iter() {
        add_item(alloc, table, interfaces, key, item, encoding)?;
    }
    Ok(())
}

/// The encodings of the functions that records import.
fn import_encodings(alloc: Global, records: &[Record]) -> Result<Encodings, AllocError>
    ensures { IfOk result (λ t. t ≡ encodings_after (λ w. w.imports) [] records.now) }
{
    let mut table = Keyed::new(alloc);
    for one in records {
        let wit = &one.wit;
        add_items(
            alloc,
            &mut table,
            &wit.interfaces,
            &wit.imports,
            one.encoding,
        )?;
    }
    Ok(table)
}

/// The encodings of the functions that records export.
fn export_encodings(alloc: Global, records: &[Record]) -> Result<Encodings, AllocError>
    ensures { IfOk result (λ t. t ≡ encodings_after (λ w. w.exports) [] records.now) }
{
    let mut table = Keyed::new(alloc);
    for one in records {
        let world = &one.wit;
        add_items(
            alloc,
            &mut table,
            &world.interfaces,
            &world.exports,
            one.encoding,
        )?;
    }
    Ok(table)
}

/// The encodings of the functions that records import and export.
pub(crate) fn both_encodings(alloc: Global, records: &[Record]) -> Result<BothEncodings, AllocError>
    ensures imports { IfOk result
        (λ e. e.imports ≡ encodings_after (λ w. w.imports) [] records.now) }
    ensures exports { IfOk result
        (λ e. e.exports ≡ encodings_after (λ w. w.exports) [] records.now) }
{
    let imports = import_encodings(alloc, records)?;
    let exports = export_encodings(alloc, records)?;
    Ok(BothEncodings { imports, exports })
}
