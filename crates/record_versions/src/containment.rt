//! Whether an interface that becomes another is contained in it.

ghost use Rattle.std.specs.Prelude.{◌≡◌, ◌≢◌, [], IfOk, OnOk};
ghost use Rattle.std.specs.Option.{option_copied};
ghost use Rattle.comp_lists.specs.Tables.{with_first};
ghost use Rattle.std.specs.Str.{bytes_eq};
ghost use Rattle.json_paths.specs.Faults.{Gives};
ghost use Rattle.json_paths.specs.declared.fault.Failure.TheVariants as failures;
ghost use Rattle.record_values.specs.Names.{name_text};
ghost use Rattle.record_versions.specs.Containment.{by_name_after, has_equal, has_all_equal, are_among, is_contained_in, is_contained, rename_is_valid, renames_are_valid, conflict};

use crate::groups::Renames;
use comp_lists::{Keyed, Text, TryClone};
use json_paths::{Failure, Refusal};
use record_values::{Func, Interface, InterfaceName, Typed, rename_interface};
use std::alloc::{AllocError, Global};

/// Something with a name.
trait HasName {
    ghost use Rattle.std.specs.Prelude.{◌≡◌, List, ℕ};

    ghost name: { Self → List ℕ };

    fn name_of(&self) -> &Text
        ensures { result.now ≡ name self.now };
}

impl HasName for Typed {
    ghost name = { λ t. t.name };

    fn name_of(&self) -> &Text {
        &self.name
    }
}

impl HasName for Func {
    ghost name = { λ f. f.name };

    fn name_of(&self) -> &Text {
        &self.name
    }
}

fn add_named<T: HasName + TryClone + Drop>(
    alloc: Global,
    table: &mut Keyed<Text, T>,
    item: &T,
) -> Result<(), AllocError>
    ensures { OnOk result (table.new ≡ with_first bytes_eq table.old (T.name item.now) item.now) }
{
    let name = item.name_of().clone(alloc)?;
    table.insert_if_absent(name, item.try_clone(alloc)?)
}

fn by_name<T: HasName + TryClone + Drop>(
    alloc: Global,
    items: &[T],
) -> Result<Keyed<Text, T>, AllocError>
    ensures { IfOk result (λ t. t ≡ by_name_after T.name [] items.now) }
{
    let mut table = Keyed::new(alloc);
    for item in items {
        add_named(alloc, &mut table, item)?;
    }
    Ok(table)
}

fn has_equal<T: HasName + PartialEq>(table: &Keyed<Text, T>, item: &T) -> bool
    ensures { result ≡ has_equal T.name T.eq table.now item.now }
{
    match table.get(item.name_of()) {
        Some(other) => *item == *other,
        None => false,
    }
}

fn has_all_equal<T: HasName + PartialEq>(table: &Keyed<Text, T>, items: &[T]) -> bool
    ensures { result ≡ has_all_equal T.name T.eq table.now items.now }
{
    for item in items {
        if !has_equal(table, item) {
            return false;
        }
    }
    true
}

fn are_among<T: HasName + TryClone + PartialEq + Drop>(
    alloc: Global,
    items: &[T],
    others: &[T],
) -> Result<bool, AllocError>
    ensures { IfOk result (λ b. b ≡ are_among T.name T.eq items.now others.now) }
{
    let table = by_name(alloc, items)?;
    Ok(has_all_equal(&table, others))
}

fn is_contained_in(
    alloc: Global,
    greatest: &Interface,
    lesser: &Interface,
) -> Result<bool, AllocError>
    ensures { IfOk result (λ b. b ≡ is_contained_in greatest.now lesser.now) }
{
    let types = are_among(alloc, greatest.types.as_slice(), lesser.types.as_slice())?;
    let functions = are_among(
        alloc,
        greatest.functions.as_slice(),
        lesser.functions.as_slice(),
    )?;
    Ok(types && functions)
}

fn is_contained(
    alloc: Global,
    renames: &Renames,
    lesser: Option<&Interface>,
    greatest: Option<&Interface>,
) -> Result<bool, AllocError>
    ensures { IfOk result (λ b. b
        ≡ is_contained renames.now (option_copied lesser.entry)
        (option_copied greatest.entry)) }
{
    let Some(lesser) = lesser else {
        return Ok(true);
    };
    let Some(greatest) = greatest else {
        return Ok(false);
    };
    let greatest = rename_interface(alloc, renames, greatest)?;
    let lesser = rename_interface(alloc, renames, lesser)?;
    is_contained_in(alloc, &greatest, &lesser)
}

fn rename_is_valid(
    alloc: Global,
    renames: &Renames,
    interfaces: &Keyed<InterfaceName, Interface>,
    lesser: &InterfaceName,
    greatest: &InterfaceName,
) -> Result<bool, AllocError>
    ensures { IfOk result
        (λ b. b ≡ rename_is_valid renames.now interfaces.now lesser.now greatest.now) }
{
    is_contained(
        alloc,
        renames,
        interfaces.get(lesser),
        interfaces.get(greatest),
    )
}

/// The refusal that what is said of this interface contradicts itself, or out of memory.
pub(crate) fn conflict_of(alloc: Global, name: &InterfaceName) -> Failure
    ensures { result ≢ failures.Memory → result ≡ conflict (name_text name.now) }
{
    match Text::from_str(alloc, name.text()) {
        Ok(name) => Failure::Refused(Refusal::MergeConflict { name }),
        Err(_) => Failure::Memory,
    }
}

/// Refuses an interface that becomes another without being contained in it.
pub(crate) fn check_renames(
    alloc: Global,
    renames: &Renames,
    interfaces: &Keyed<InterfaceName, Interface>,
) -> Result<(), Failure>
    ensures { Gives (λ _. tt) result (renames_are_valid renames.now interfaces.now renames.now) }
{
    for (lesser, greatest) in renames.iter() {
        if !rename_is_valid(alloc, renames, interfaces, lesser, greatest)? {
            return Err(conflict_of(alloc, lesser));
        }
    }
    Ok(())
}
