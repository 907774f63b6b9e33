//! The streams and futures of a world: those of its named types, and those of the functions that roles name.

ghost use Rattle.std.specs.Prelude.{◌≡◌, [], ◌∷◌, ◌++◌, Some, IfOk, OnOk};
ghost use Rattle.std.specs.Map.{lookup};
ghost use Rattle.record_import_roles.specs.ImportRoles.{side_of, is_kind, is_met};
ghost use Rattle.record_import_roles.specs.Payloads.{all_met};
ghost use Rattle.record_import_roles.specs.FunctionNames.{is_same_function};
ghost use Rattle.record_import_roles.specs.Listed.{kinds_of, is_among, AreListed};

use crate::payloads::{Met, all_met, met_in_function};
use comp_lists::{Keyed, Seq, Text};
use record_sides::{RecordWorld, Side, function_at};
use record_values::PayloadKind;
use std::alloc::{AllocError, Global};
use std::hash::{Hash, Hasher};
use std::marker::Model;

/// A function as a role names it: of the world's imports or of its exports, by the index of its owner and by its name.
#[derive(Drop)]
pub(crate) struct FunctionName {
    pub imported: bool,
    pub owner_index: Option<usize>,
    pub name: Text,
}

impl PartialEq for FunctionName {
    ghost use Rattle.std.proofs.Common.{rules};
    ghost use Rattle.std.specs.Cmp.Rules.{comparing};
    ghost use Rattle.record_import_roles.specs.FunctionNames.{is_same_function};

    ghost eq = { is_same_function };

    ghost laws = { Prim.search (comparing, rules) depth 12 };

    fn eq(&self, other: &Self) -> bool {
        self.imported == other.imported
            && self.owner_index == other.owner_index
            && self.name == other.name
    }
}

impl Eq for FunctionName {
    ghost use Rattle.std.proofs.Common.{rules};
    ghost use Rattle.std.specs.Cmp.Rules.{comparing};

    ghost laws = { Prim.search (comparing, rules) depth 12 };
}

impl Hash for FunctionName {
    ghost use Rattle.std.proofs.Common.{rules};
    ghost use Rattle.std.specs.Prelude.{◌++◌};
    ghost use Rattle.std.specs.Cmp.Rules.{hashing};
    ghost use Rattle.std.specs.Hash as fed;

    ghost hash_input = { λ f. (fed.bool f.imported ++ fed.option fed.usize f.owner_index) ++ fed.str f.name };

    ghost respects_eq = { Prim.search (hashing, rules) depth 12 };

    fn hash<H: Hasher>(&self, state: &mut H) {
        self.imported.hash(state);
        self.owner_index.hash(state);
        self.name.hash(state);
    }
}

/// The streams and futures that occur in functions.
type Lists = Keyed<FunctionName, Seq<PayloadKind>>;

pub(crate) fn side_of(imported: bool) -> Side
    ensures { result ≡ side_of imported }
{
    if imported { Side::Import } else { Side::Export }
}

fn is_kind(kind: PayloadKind, other: PayloadKind) -> bool
    ensures { result ≡ is_kind kind other }
{
    match (kind, other) {
        (PayloadKind::Stream, PayloadKind::Stream) => true,
        (PayloadKind::Future, PayloadKind::Future) => true,
        _ => false,
    }
}

impl FunctionName {
    /// An equal name, memory allowing.
    fn clone(&self, alloc: Global) -> Result<FunctionName, AllocError>
        ensures { IfOk result (λ f. f ≡ self.now) }
    {
        let name = self.name.clone(alloc)?;
        Ok(FunctionName {
            imported: self.imported,
            owner_index: self.owner_index,
            name,
        })
    }
}

/// The streams and futures that occur in a function, if the world has it.
fn kinds_of(
    alloc: Global,
    world: &RecordWorld,
    types: &Met,
    function: &FunctionName,
) -> Result<Seq<PayloadKind>, AllocError>
    ensures { IfOk result (λ ks. ks ≡ kinds_of world.now types.now function.now) }
{
    let side = side_of(function.imported);
    match function_at(alloc, world, side, function.owner_index, &function.name)? {
        Some(function) => met_in_function(alloc, types, function),
        None => Ok(Seq::new(alloc)),
    }
}

/// Adds the list of a function that has none yet.
#[tactic(auto, using(crate::proofs::Listing::found_listed, crate::proofs::Listing::found_added, crate::proofs::Listing::still_listed))]
fn add_list(
    alloc: Global,
    world: &RecordWorld,
    types: &Met,
    lists: &mut Lists,
    function: &FunctionName,
) -> Result<(), AllocError>
    requires { AreListed world.now types.now lists.old }
    ensures kept { AreListed world.now types.now lists.new }
    ensures added { OnOk result (lookup (is_same_function function.now) lists.new
        ≡ Some (kinds_of world.now types.now function.now)) }
{
    if lists.contains_key(function) {
        return Ok(());
    }
    let kinds = kinds_of(alloc, world, types, function)?;
    let name = function.clone(alloc)?;
    lists.insert(name, kinds)
}

/// Whether what the list of a function has at an index is of this kind.
fn is_among(lists: &Lists, kind: PayloadKind, function: &FunctionName, index: usize) -> bool
    ensures { result ≡ is_among kind (lookup (is_same_function function.now) lists.now) index }
{
    let Some(kinds) = lists.get(function) else {
        return false;
    };
    match kinds.as_slice().get(index) {
        Some(other) => is_kind(kind, *other),
        None => false,
    }
}

/// Whether what occurs at an index in a function is of this kind. The list of the function is made
/// where there is none yet.
#[tactic(auto, using(crate::proofs::Listing::met_by_list))]
fn is_met(
    alloc: Global,
    world: &RecordWorld,
    types: &Met,
    lists: &mut Lists,
    kind: PayloadKind,
    function: &FunctionName,
    index: usize,
) -> Result<bool, AllocError>
    requires { AreListed world.now types.now lists.old }
    ensures kept { AreListed world.now types.now lists.new }
    ensures exact { IfOk result (λ b. b
        ≡ is_met world.now types.now kind (side_of function.now.imported)
        function.now.owner_index function.now.name index) }
{
    add_list(alloc, world, types, lists, function)?;
    Ok(is_among(lists, kind, function, index))
}

/// A world, and the streams and futures that occur in its named types, which contracts see as these two.
///
/// It has the list of each function that was asked for, so that each list is made once.
#[derive(Drop)]
pub(crate) struct MetWorld<'w> {
    world: &'w RecordWorld,
    types: Met,
    lists: Lists,
}

impl<'w> Model for MetWorld<'w> {
    ghost use Rattle.record_import_roles.specs.Listed.{WorldMet, AreListed};

    ghost Value = { WorldMet };

    ghost view = { λ m. record { world = m.world.now; types = m.types } };

    ghost invariant = { λ m. AreListed m.world.now m.types m.lists };
}

impl<'w> MetWorld<'w> {
    /// A world, of which no function was asked for yet.
    pub(crate) fn of(alloc: Global, world: &'w RecordWorld) -> Result<MetWorld<'w>, AllocError>
        ensures { IfOk result
            (λ m. m ≡ record { world = world.now; types = all_met world.now.wit }) }
    {
        let types = all_met(alloc, &world.wit)?;
        Ok(MetWorld {
            world,
            types,
            lists: Keyed::new(alloc),
        })
    }

    pub(crate) fn world(&self) -> &'w RecordWorld
        ensures { result.now ≡ self.now.world }
    {
        self.world
    }

    /// Whether what occurs at an index in a function is of this kind.
    pub(crate) fn is_met(
        &mut self,
        alloc: Global,
        kind: PayloadKind,
        function: &FunctionName,
        index: usize,
    ) -> Result<bool, AllocError>
        ensures exact { IfOk result (λ b. b
            ≡ is_met self.old.world self.old.types kind (side_of function.now.imported)
            function.now.owner_index function.now.name index) }
        ensures same { self.new ≡ self.old }
    {
        is_met(
            alloc,
            self.world,
            &self.types,
            &mut self.lists,
            kind,
            function,
            index,
        )
    }
}
