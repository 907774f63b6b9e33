//! Merging two tables.

ghost use Rattle.std.specs.Prelude.{◌≡◌, [], ◌∷◌, ◌++◌, None, IfOk, IfErr, OnOk};
ghost use Rattle.std.specs.Map.{lookup};
ghost use Rattle.json_paths.specs.Faults.{Gives};
ghost use Rattle.record_merge.specs.Tables.{with_entry, merged_entries, apart};
ghost use Rattle.record_merge.specs.Causes.{Differs, IsInBoth, Named, Unless};

use comp_lists::{Keyed, Text, TryClone};
use json_paths::{Failure, Refusal};
use record_values::{ImportName, InterfaceName, ItemKey};
use std::alloc::{AllocError, Global};
use std::hash::Hash;

/// A key with a name for messages.
pub(crate) trait Key: Eq + Hash + Drop {
    ghost use Rattle.std.specs.Prelude.{◌≡◌, List, ℕ, IfOk};

    ghost name: { Self → List ℕ };

    /// The name. The only refusal is out of memory.
    fn to_text(&self, alloc: Global) -> Result<Text, AllocError>
        ensures { IfOk result (λ t. t ≡ name self.now) };
}

impl Key for InterfaceName {
    ghost use Rattle.record_values.specs.Names.{name_text};

    ghost name = { name_text };

    fn to_text(&self, alloc: Global) -> Result<Text, AllocError> {
        Text::from_str(alloc, self.text())
    }
}

impl Key for ItemKey {
    ghost use Rattle.record_values.specs.Names.{key_text};

    ghost name = { key_text };

    fn to_text(&self, alloc: Global) -> Result<Text, AllocError> {
        self.text().clone(alloc)
    }
}

impl Key for ImportName {
    ghost name = { λ n. n.field };

    fn to_text(&self, alloc: Global) -> Result<Text, AllocError> {
        self.field.clone(alloc)
    }
}

impl Key for Text {
    ghost name = { λ t. t };

    fn to_text(&self, alloc: Global) -> Result<Text, AllocError> {
        self.clone(alloc)
    }
}

/// Adds a copy of an entry whose key is new.
fn add_copy<K: TryClone + Eq + Hash + Drop, X: TryClone>(
    alloc: Global,
    table: &mut Keyed<K, X>,
    key: &K,
    value: &X,
) -> Result<(), AllocError>
    requires { lookup (K.eq key.now) table.old ≡ None }
    ensures { OnOk result (table.new ≡ table.old ++ (key.now, value.now) ∷ []) }
{
    let key = key.try_clone(alloc)?;
    let value = value.try_clone(alloc)?;
    table.insert(key, value)
}

/// Adds an entry; a key that the table has must have the same value.
fn put<K: Key + TryClone, X: TryClone + PartialEq>(
    alloc: Global,
    table: &mut Keyed<K, X>,
    key: &K,
    value: &X,
) -> Result<(), Failure>
    ensures { Gives (λ _. table.new) result
        (with_entry K.eq X.eq K.name table.old key.now value.now) }
{
    match table.get(key) {
        Some(said) => {
            if *said == *value {
                Ok(())
            } else {
                Err(Failure::Refused(Refusal::MergeConflict {
                    name: key.to_text(alloc)?,
                }))
            }
        }
        None => Ok(add_copy(alloc, table, key, value)?),
    }
}

/// Adds the entries of another table; a key that both have must have the same value in both.
#[tactic(auto, using(crate::proofs::Conflicts::entries_cause))]
pub(crate) fn add_all<K: Key + TryClone, X: TryClone + Eq>(
    alloc: Global,
    table: &mut Keyed<K, X>,
    more: &Keyed<K, X>,
) -> Result<(), Failure>
    ensures exact { Gives (λ _. table.new) result
        (merged_entries K.eq X.eq K.name table.old more.now) }
    ensures cause { IfErr result (Unless (Named (Differs K.eq K.name table.old more.now))) }
{
    for (key, value) in more.iter() {
        put(alloc, table, key, value)?;
    }
    Ok(())
}

/// Adds the entries of a table that has no key of this one.
#[tactic(auto, using(crate::proofs::Conflicts::apart_cause))]
pub(crate) fn add_apart<K: Key + TryClone, X: TryClone>(
    alloc: Global,
    table: &mut Keyed<K, X>,
    more: &Keyed<K, X>,
) -> Result<(), Failure>
    ensures exact { Gives (λ _. table.new) result
        (apart K.eq (λ e. K.name e.0) table.old more.now) }
    ensures cause { IfErr result (Unless (Named (IsInBoth K.eq K.name table.old more.now))) }
{
    for (key, value) in more.iter() {
        if table.contains_key(key) {
            return Err(Failure::Refused(Refusal::MergeConflict {
                name: key.to_text(alloc)?,
            }));
        }
        add_copy(alloc, table, key, value)?;
    }
    Ok(())
}

/// A copy of a table.
#[tactic(auto, using(comp_lists::proofs::TableLemmas::absent))]
pub(crate) fn copy<K: TryClone + Eq + Hash, X: TryClone>(
    alloc: Global,
    table: &Keyed<K, X>,
) -> Result<Keyed<K, X>, AllocError>
    ensures { IfOk result (λ t. t ≡ table.now) }
{
    let mut copied = Keyed::new(alloc);
    for (key, value) in table.iter() {
        add_copy(alloc, &mut copied, key, value)?;
    }
    Ok(copied)
}
