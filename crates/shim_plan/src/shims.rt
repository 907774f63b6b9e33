//! Shims in order, by their kinds.

ghost use Rattle.std.specs.Prelude.{◌≡◌, [], ◌∷◌, length, ◌==◌, take, map, IsOk, IfErr, OnOk, OnErr};
ghost use Rattle.std.specs.Fmt.{decimal};
ghost use Rattle.std.specs.List.{IsDistinct};
ghost use Rattle.std.specs.Map.Iter.{ShowsInOrder, deref};
ghost use Rattle.std.specs.Option.{option_copied};
ghost use Rattle.comp_lists.specs.Tables.{with_first};
ghost use Rattle.comp_worlds.specs.Lookups.{module_name};
ghost use Rattle.shim_plan.specs.Encodings.{Explains, unencoded};
ghost use Rattle.wit_data.specs.Sound.{IsSound};
ghost use Rattle.shim_plan.specs.Needed.{module_of_name, needed, AreAllReturned};
ghost use Rattle.shim_plan.specs.Plans.{same_kind, kinds_of, shim_of, AreNumbered, shim_at, with_shim, with_needed};

use crate::fault::ShimFault;
use crate::kinds::ShimKind;
use crate::modules::owned_module;
use crate::needs::NeededShim;
use crate::plan::needed_shims;
use comp_lists::Text;
use comp_options::RequiredOptions;
use comp_worlds::{ComponentWorld, CustomModule};
use indexmap::IndexMap;
use indexmap::map::Values;
use std::alloc::{AllocError, Global};
use std::marker::Model;
use wit_data::WasmSignature;

/// A shim: a generated core function that a module imports in the place of one that is made later.
pub struct Shim {
    /// The options of the function that it stands for.
    pub options: RequiredOptions,
    /// The decimal digits of its place.
    pub name: Text,
    pub debug_name: Text,
    /// What it stands for.
    pub kind: ShimKind,
    /// Its core signature.
    pub sig: WasmSignature,
}

impl Drop for Shim {
    fn drop(self) {
        let Shim {
            options: _,
            name: _,
            debug_name: _,
            kind: _,
            sig: _,
        } = self;
    }
}

/// Shims in order, which contracts see as their list. No two are of one kind, and each is named by
/// the decimal digits of its place.
pub struct Shims {
    alloc: Global,
    shims: IndexMap<ShimKind, Shim>,
}

impl Drop for Shims {
    fn drop(self) {
        let Shims { alloc: _, shims: _ } = self;
    }
}

impl Model for Shims {
    ghost use Rattle.std.specs.Prelude.{List, map};
    ghost use Rattle.shim_plan.specs.Tables.{IsPlan};
    ghost use Rattle.shim_plan.specs.declared.shims.Shim.{Shim};

    ghost Value = { List Shim };

    ghost view = { λ s. map (λ e. e.1) s.shims.entries };

    ghost invariant = { λ s. IsPlan s.shims.entries };
}

/// Adds a shim under its kind, unless there is one.
#[tactic(auto, using(comp_lists::proofs::TableLemmas::grows))]
fn insert_if_absent(
    shims: &mut IndexMap<ShimKind, Shim>,
    kind: ShimKind,
    shim: Shim,
) -> Result<(), AllocError>
    ensures ok { OnOk result
        (shims.new.entries ≡ with_first same_kind shims.old.entries kind shim) }
    ensures err { OnErr result (shims.new.entries ≡ shims.old.entries) }
{
    if shims.contains_key(&kind) {
        return Ok(());
    }
    shims.insert(kind, shim)?;
    Ok(())
}

impl Shims {
    /// No shims. It takes no memory.
    pub fn new(alloc: Global) -> Shims
        ensures { result ≡ [] }
    {
        Shims {
            alloc,
            shims: IndexMap::new(alloc),
        }
    }

    /// The number of shims.
    #[tactic(auto, using(crate::proofs::Entries::apart_as_list))]
    pub fn len(&self) -> usize
        ensures count { result ≡ length self.now }
        ensures apart { IsDistinct same_kind (kinds_of self.now) }
    {
        self.shims.len()
    }

    pub fn is_empty(&self) -> bool
        ensures { result ≡ (length self.now == 0) }
    {
        self.len() == 0
    }

    /// The shim of a kind.
    pub fn get(&self, kind: &ShimKind) -> Option<&Shim>
        ensures { option_copied result ≡ shim_of kind.now self.now }
    {
        self.shims.get(kind)
    }

    /// The shims, in order.
    pub fn iter(&self) -> Values<'_, ShimKind, Shim>
        ensures rest { result ≡ self.now }
        ensures runs { ShowsInOrder (deref {X = Shim}) }
        ensures numbered { AreNumbered 0 self.now }
    {
        self.shims.values()
    }

    /// Appends a shim, unless there is one of its kind, which is kept then. Where memory is
    /// refused, the shims are as they were.
    pub fn push(&mut self, shim: Shim) -> Result<(), AllocError>
        requires { shim.name ≡ decimal (length self.old) }
        ensures ok { OnOk result (self.new ≡ with_shim self.old shim) }
        ensures err { OnErr result (self.new ≡ self.old) }
    {
        let kind = shim.kind.clone(self.alloc)?;
        insert_if_absent(&mut self.shims, kind, shim)?;
        Ok(())
    }

    /// Appends the shims that a module of the world needs and that are not there, each once, in
    /// order: for each import that is called through a table its own, and where
    /// [`realloc_needs_shim`](crate::realloc_needs_shim) one for the realloc of the call; for each
    /// `task.return` with options, wait, poll and making of an error context, where main imports no
    /// memory; for each reading of the debug message of one; for each read from a stream or a future
    /// and each write to it, where it has a realloc or main imports no memory; for each function that
    /// an adapter exports; and one for each destructor that the module exports. A name that is no
    /// adapter's needs none.
    ///
    /// `NoEncoding` for the first import that needs such a shim and has no string encoding. After a refusal the
    /// shims are as they were.
    pub fn append_indirect(
        &mut self,
        world: &ComponentWorld,
        which: CustomModule<'_>,
    ) -> Result<(), ShimFault>
        requires sound { IsSound world.now.resolve }
        requires returned { AreAllReturned world.now }
        ensures ok { OnOk result (self.new
            ≡ with_needed self.old
            (needed world.now (module_of_name (module_name which.entry)))) }
        ensures err { OnErr result (self.new ≡ self.old) }
        ensures encoded { OnOk result
            (unencoded world.now (module_of_name (module_name which.entry)) ≡ []) }
        ensures cause { IfErr result
            (Explains (unencoded world.now (module_of_name (module_name which.entry)))) }
    {
        let which = owned_module(self.alloc, which)?;
        let needs = needed_shims(self.alloc, world, &which)?;
        self.append(needs)?;
        Ok(())
    }

    /// Appends the shims of which there is none of the kind. Where memory is refused, the shims are as they were.
    fn append(&mut self, needs: Vec<NeededShim>) -> Result<(), AllocError>
        ensures ok { OnOk result (self.new ≡ with_needed self.old needs.items) }
        ensures err { OnErr result (self.new ≡ self.old) }
    {
        let len = self.len();
        match self.add_all(needs) {
            Ok(()) => Ok(()),
            Err(fault) => {
                self.truncate(len);
                Err(fault)
            }
        }
    }

    /// Adds shims one by one. Where memory is refused, those that were there still are, and are the first.
    fn add_all(&mut self, needs: Vec<NeededShim>) -> Result<(), AllocError>
        ensures ok { OnOk result (self.new ≡ with_needed self.old needs.items) }
        ensures err { OnErr result (take (length self.old) self.new ≡ self.old) }
    {
        for need in needs {
            self.add(need)?;
        }
        Ok(())
    }

    /// Adds a shim at the next place, unless there is one of its kind.
    fn add(&mut self, need: NeededShim) -> Result<(), AllocError>
        ensures ok { OnOk result (self.new ≡ with_shim self.old (shim_at (length self.old) need)) }
        ensures err { OnErr result (self.new ≡ self.old) }
    {
        if self.get(&need.kind).is_some() {
            return Ok(());
        }
        let place = self.len();
        let name = Text::from_string(format!(in self.alloc; "{place}")?);
        self.push(need.named(name))
    }

    /// Keeps the first shims alone.
    #[tactic(auto, using(crate::proofs::Entries::kept_values))]
    fn truncate(&mut self, len: usize)
        ensures { self.new ≡ take len self.old }
    {
        self.shims.truncate(len);
    }
}
