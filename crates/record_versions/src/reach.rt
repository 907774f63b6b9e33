//! Whether exported interfaces reach exported ones through imported ones.

ghost use Rattle.std.specs.Prelude.{◌≡◌, [], IfOk, OnOk};
ghost use Rattle.json_paths.specs.Faults.{Gives};
ghost use Rattle.record_versions.specs.Reach.{leads_any, with_named, with_leading, leading_after, none_leads, item_leads_not, items_lead_not, no_reach};

use crate::containment::conflict_of;
use crate::uses::uses;
use comp_lists::{Keyed, TryClone};
use json_paths::Failure;
use record_values::{Interface, InterfaceName, Interfaces, Item, ItemKey, Wit, interfaces_among};
use std::alloc::{AllocError, Global};

fn leads_any(exported: &Interfaces, leading: &Interfaces, names: &[InterfaceName]) -> bool
    ensures { result ≡ leads_any exported.now leading.now names.now }
{
    for name in names {
        if exported.contains_key(name) || leading.contains_key(name) {
            return true;
        }
    }
    false
}

fn add_named(
    alloc: Global,
    interfaces: &Keyed<InterfaceName, Interface>,
    exported: &Interfaces,
    leading: &mut Interfaces,
    name: &InterfaceName,
) -> Result<(), AllocError>
    ensures { OnOk result
        (leading.new ≡ with_named interfaces.now exported.now leading.old name.now) }
{
    let names = uses(alloc, interfaces, name)?;
    if leads_any(exported, leading, names.as_slice()) {
        leading.insert_if_absent(name.try_clone(alloc)?, ())
    } else {
        Ok(())
    }
}

fn add_leading(
    alloc: Global,
    interfaces: &Keyed<InterfaceName, Interface>,
    exported: &Interfaces,
    leading: &mut Interfaces,
    item: &Item,
) -> Result<(), AllocError>
    ensures { OnOk result
        (leading.new ≡ with_leading interfaces.now exported.now leading.old item.now) }
{
    match item {
        Item::Interface(name) => add_named(alloc, interfaces, exported, leading, name),
        Item::Function(_) => Ok(()),
        Item::Type(_) => Ok(()),
    }
}

/// The imported interfaces that lead to an exported one.
fn leading(
    alloc: Global,
    interfaces: &Keyed<InterfaceName, Interface>,
    exported: &Interfaces,
    imports: &Keyed<ItemKey, Item>,
) -> Result<Interfaces, AllocError>
    ensures { IfOk result (λ is. is ≡ leading_after interfaces.now exported.now [] imports.now) }
{
    let mut leading = Keyed::new(alloc);
    for (_key, item) in imports.iter() {
        add_leading(alloc, interfaces, exported, &mut leading, item)?;
    }
    Ok(leading)
}

fn check_names(
    alloc: Global,
    exported: &Interfaces,
    leading: &Interfaces,
    names: &[InterfaceName],
) -> Result<(), Failure>
    ensures { Gives (λ _. tt) result (none_leads exported.now leading.now names.now) }
{
    for name in names {
        if !exported.contains_key(name) && leading.contains_key(name) {
            return Err(conflict_of(alloc, name));
        }
    }
    Ok(())
}

fn check_item(
    alloc: Global,
    interfaces: &Keyed<InterfaceName, Interface>,
    exported: &Interfaces,
    leading: &Interfaces,
    item: &Item,
) -> Result<(), Failure>
    ensures { Gives (λ _. tt) result
        (item_leads_not interfaces.now exported.now leading.now item.now) }
{
    match item {
        Item::Interface(name) => {
            let names = uses(alloc, interfaces, name)?;
            check_names(alloc, exported, leading, names.as_slice())
        }
        Item::Function(_) => Ok(()),
        Item::Type(_) => Ok(()),
    }
}

fn check_items(
    alloc: Global,
    interfaces: &Keyed<InterfaceName, Interface>,
    exported: &Interfaces,
    leading: &Interfaces,
    exports: &Keyed<ItemKey, Item>,
) -> Result<(), Failure>
    ensures { Gives (λ _. tt) result
        (items_lead_not interfaces.now exported.now leading.now exports.now) }
{
    for (_key, item) in exports.iter() {
        check_item(alloc, interfaces, exported, leading, item)?;
    }
    Ok(())
}

/// Refuses an exported interface that reaches an exported one through one that is only imported.
#[tactic(auto, unfolding(crate::specs::Reach::no_reach))]
pub fn check_reach(alloc: Global, wit: &Wit) -> Result<(), Failure>
    ensures { Gives (λ _. tt) result (no_reach wit.now) }
{
    let exported = interfaces_among(alloc, &wit.exports)?;
    let leading = leading(alloc, &wit.interfaces, &exported, &wit.imports)?;
    check_items(alloc, &wit.interfaces, &exported, &leading, &wit.exports)
}
