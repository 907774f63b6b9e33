//! The streams and futures that roles name: of each function, those of some numbers.

ghost use Rattle.std.specs.Prelude.{◌≡◌, [], cond, false, max, Some, OnOk, IfOk};
ghost use Rattle.std.specs.List.{IsDistinct};
ghost use Rattle.std.specs.Map.{lookup, keys_of};
ghost use Rattle.std.specs.Map.Iter.{ShowsInOrder, deref_pair};
ghost use Rattle.record_role_targets.specs.declared.wanted.Wanted.{Wanted as WantedValue};
ghost use Rattle.record_role_targets.specs.Wanted.{NamedFunction, is_same_function, wanted_if, AddsNumber, HasNumber, Keeps, IsPayloadWanted, IsWanted, AreWanted};

use comp_lists::{Keyed, Text};
use indexmap::IndexMap;
use indexmap::map::Iter;
use record_values::{ImportName, ImportRole, Owner, Payload};
use std::alloc::{AllocError, Global};
use std::hash::{Hash, Hasher};
use std::marker::Model;

// ---- functions by name

/// A function as a role names it: of the world's imports or of its exports, by its owner and its name.
#[derive(Drop)]
pub(crate) struct FunctionName<'a> {
    pub imported: bool,
    pub owner: &'a Owner,
    pub name: &'a Text,
}

impl<'a> Model for FunctionName<'a> {
    ghost use Rattle.record_role_targets.specs.declared.wanted.Wanted.{Wanted as WantedValue};
    ghost use Rattle.record_role_targets.specs.Wanted.{NamedFunction, named_function};

    ghost Value = { NamedFunction };

    ghost view = { λ f. named_function f.imported f.owner.now f.name.now };
}

impl<'a> FunctionName<'a> {
    /// The same name.
    pub(crate) fn copied(&self) -> FunctionName<'a>
        ensures { result ≡ self.now }
    {
        FunctionName {
            imported: self.imported,
            owner: self.owner,
            name: self.name,
        }
    }
}

impl<'a> PartialEq for FunctionName<'a> {
    ghost use Rattle.std.proofs.Common.{rules};
    ghost use Rattle.std.specs.Cmp.Rules.{comparing};
    ghost use Rattle.record_role_targets.specs.Wanted.{is_same_function};

    ghost eq = { is_same_function };

    ghost laws = { Prim.search (comparing, rules) depth 12 };

    fn eq(&self, other: &Self) -> bool {
        self.imported == other.imported && self.owner == other.owner && self.name == other.name
    }
}

impl<'a> Eq for FunctionName<'a> {
    ghost use Rattle.std.proofs.Common.{rules};
    ghost use Rattle.std.specs.Cmp.Rules.{comparing};

    ghost laws = { Prim.search (comparing, rules) depth 12 };
}

impl<'a> Hash for FunctionName<'a> {
    ghost use Rattle.std.proofs.Common.{rules};
    ghost use Rattle.std.specs.Prelude.{◌++◌};
    ghost use Rattle.std.specs.Cmp.Rules.{hashing};
    ghost use Rattle.record_values.specs.Names.{owner_kind, owner_text};
    ghost use Rattle.std.specs.Hash as fed;

    ghost hash_input = { λ f. (fed.bool f.imported ++ (fed.str (owner_text f.owner) ++ fed.u64 (owner_kind f.owner))) ++ fed.str f.name };

    ghost respects_eq = { Prim.search (hashing, rules) depth 12 };

    fn hash<H: Hasher>(&self, state: &mut H) {
        self.imported.hash(state);
        self.owner.hash(state);
        self.name.hash(state);
    }
}

// ---- what is wanted of a function

/// The numbers of a function's streams and futures that roles name, and the greatest of them.
#[derive(Drop)]
pub(crate) struct Wanted {
    pub last: u32,
    pub numbers: Keyed<u32, ()>,
}

fn greater(first: u32, second: u32) -> u32
    ensures { result ≡ max first second }
{
    if first < second { second } else { first }
}

/// Adds a number.
#[tactic(auto, using(crate::proofs::Wanting::number_added))]
fn add_number(wanted: &mut Wanted, number: u32) -> Result<(), AllocError>
    ensures { OnOk result (AddsNumber wanted.old wanted.new number) }
{
    wanted.last = greater(wanted.last, number);
    wanted.numbers.insert_if_absent(number, ())?;
    Ok(())
}

/// Functions, each with what is wanted of it. Contracts see them as a list.
#[derive(Drop)]
pub(crate) struct Functions<'a> {
    map: IndexMap<FunctionName<'a>, Wanted>,
}

impl<'a> Model for Functions<'a> {
    ghost use Rattle.record_role_targets.specs.Wanted as wanting;

    ghost Value = { wanting.Functions };

    ghost view = { λ f. f.map.entries };
}

impl<'a> Functions<'a> {
    fn new(alloc: Global) -> Functions<'a>
        ensures { result ≡ [] }
    {
        Functions {
            map: IndexMap::new(alloc),
        }
    }

    /// Takes out what is wanted of a function.
    fn take(&mut self, alloc: Global, name: &FunctionName<'a>) -> Wanted
        ensures wanted { result ≡ wanted_if (lookup (is_same_function name.now) self.old) }
        ensures others { (f : NamedFunction)
            → is_same_function name.now f ≡ false
            → lookup (is_same_function f) self.new ≡ lookup (is_same_function f) self.old }
    {
        match self.map.swap_remove(name) {
            Some(wanted) => wanted,
            None => Wanted {
                last: 0,
                numbers: Keyed::new(alloc),
            },
        }
    }

    /// Puts in what is wanted of a function.
    fn put(&mut self, name: FunctionName<'a>, wanted: Wanted) -> Result<(), AllocError>
        ensures { OnOk result ((f : NamedFunction)
            → lookup (is_same_function f) self.new
            ≡ cond (is_same_function name.entry f) (Some wanted)
            (lookup (is_same_function f) self.old)) }
    {
        self.map.insert(name, wanted)?;
        Ok(())
    }

    /// The functions, in some order.
    pub(crate) fn iter(&self) -> Iter<'_, FunctionName<'a>, Wanted>
        ensures rest { result ≡ self.now }
        ensures runs { ShowsInOrder (deref_pair {K = NamedFunction} {X = WantedValue}) }
        ensures unique { IsDistinct is_same_function (keys_of self.now) }
    {
        self.map.iter()
    }
}

// ---- what roles name

/// Adds the stream or future of a number in a function.
#[tactic(auto, using(crate::proofs::Wanting::function_added, crate::proofs::Wanting::functions_kept))]
fn add_wanted<'a>(
    alloc: Global,
    functions: &mut Functions<'a>,
    name: FunctionName<'a>,
    number: u32,
) -> Result<(), AllocError>
    ensures added { OnOk result (HasNumber functions.new name.entry number) }
    ensures kept { OnOk result (Keeps functions.old functions.new) }
{
    let mut wanted = functions.take(alloc, &name);
    add_number(&mut wanted, number)?;
    functions.put(name, wanted)?;
    Ok(())
}

/// Adds the stream or future of a role.
fn add_payload<'a>(
    alloc: Global,
    functions: &mut Functions<'a>,
    payload: &'a Payload,
) -> Result<(), AllocError>
    ensures added { OnOk result (IsPayloadWanted functions.new payload.now) }
    ensures kept { OnOk result (Keeps functions.old functions.new) }
{
    match payload {
        Payload::Unit => Ok(()),
        Payload::Met {
            imported,
            owner,
            function,
            index,
        } => {
            let name = FunctionName {
                imported: *imported,
                owner,
                name: function,
            };
            add_wanted(alloc, functions, name, *index)
        }
    }
}

/// Adds what a role names.
fn add_role<'a>(
    alloc: Global,
    functions: &mut Functions<'a>,
    role: &'a ImportRole,
) -> Result<(), AllocError>
    ensures added { OnOk result (IsWanted functions.new role.now) }
    ensures kept { OnOk result (Keeps functions.old functions.new) }
{
    match role {
        ImportRole::Payload { payload, .. } => add_payload(alloc, functions, payload),
        _ => Ok(()),
    }
}

/// The streams and futures that these roles name.
pub(crate) fn wanted_functions<'a>(
    alloc: Global,
    roles: &'a Keyed<ImportName, ImportRole>,
) -> Result<Functions<'a>, AllocError>
    ensures { IfOk result (λ f. AreWanted f roles.now) }
{
    let mut functions = Functions::new(alloc);
    for (_name, role) in roles.iter() {
        add_role(alloc, &mut functions, role)?;
    }
    Ok(functions)
}
