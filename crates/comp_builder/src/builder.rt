//! A component that is being built: its definitions, the debug names of its items, and how many
//! items each index space has.

ghost use Rattle.std.specs.Prelude.{◌≡◌, ◌+◌, ◌<◌, ◌≤◌, ◌^◌, ◌++◌, ◌∷◌, [], List, ℕ, length, IfOk, IfErr, OnOk, OnErr, MatchResult, Some, None, Option, option_to_list};
ghost use Rattle.comp_bytes.specs.Spaces.{ordinal, items_in, space_of};
ghost use Rattle.comp_builder.specs.Built.{Built, nothing_built, and_then, name_of, Passes, IsNext, Pushes, Counts, Full, Adds};
ghost use Rattle.comp_bytes.specs.ItemIndices.{IsAt};
ghost use Rattle.comp_bytes.specs.Grammar.{Encodes, encoding_of};
ghost use Rattle.byte_encoding.specs.Written.{Refused};
ghost use Rattle.comp_builder.specs.Measured.{Measures};
ghost use Rattle.comp_builder.specs.Naming.{AddsNames};
ghost use Rattle.comp_builder.specs.Optional.{option_now};

use byte_encoding::{BuildFault, next_count};
use comp_bytes::{Def, Defs, Item, Name, Space, component_bytes, component_size, names_bytes};
use comp_lists::{Seq, Text};
use std::alloc::{AllocError, Global};
use std::marker::Model;

/// A component that is being built, definition by definition.
///
/// Each call that adds a definition returns the index of the item that it makes: the number of items
/// of its space before it. An error leaves the builder unchanged. The caller has to make sure that an index
/// in a definition names an earlier item: definitions are added without a check.
#[derive(Drop)]
pub struct ComponentBuilder {
    defs: Defs,
    names: Vec<Name>,
    counts: [u32; 10],
}

impl Model for ComponentBuilder {
    ghost use Rattle.comp_builder.specs.Built.{Built, Counts};

    ghost Value = { Built };

    ghost view = { λ b. record { defs = b.defs; names = b.names.items } };

    ghost invariant = { λ b. Counts b.counts b.defs };
}

/// Adds to both lists, or to neither.
fn push_both<T: Drop, N: Drop>(
    items: &mut Seq<T>,
    names: &mut Vec<N>,
    item: T,
    name: Option<N>,
) -> Result<(), AllocError>
    ensures ok { OnOk result ((items.new ≡ items.old ++ item ∷ [])
        × (names.new.items ≡ names.old.items ++ option_to_list name)) }
    ensures err { OnErr result ((items.new ≡ items.old) × (names.new.items ≡ names.old.items)) }
{
    match name {
        None => {
            items.push(item)?;
            Ok(())
        }
        Some(name) => {
            names.push(name)?;
            if items.push(item).is_err() {
                let _ = names.pop();
                return Err(AllocError);
            }
            Ok(())
        }
    }
}

/// The debug name of an item, if it gets one.
fn named_item(
    alloc: Global,
    space: Space,
    index: u32,
    debug: Option<&str>,
) -> Result<Option<Name>, AllocError>
    ensures { IfOk result (λ n. option_to_list n ≡ name_of space index (option_now debug.entry)) }
{
    match debug {
        None => Ok(None),
        Some(text) => Ok(Some(Name {
            space,
            index,
            text: Text::from_str(alloc, text)?,
        })),
    }
}

/// The count of a space after the item with this index, and the item's debug name.
fn next_item(
    alloc: Global,
    space: Space,
    index: u32,
    debug: Option<&str>,
) -> Result<(u32, Option<Name>), BuildFault>
    ensures { IsNext space index (option_now debug.entry) result }
{
    let count = next_count(index)?;
    let name = named_item(alloc, space, index, debug)?;
    Ok((count, name))
}

/// Adds an item and its name, once their count is known, and returns the count after it.
fn push_next<T: Drop, N: Drop>(
    items: &mut Seq<T>,
    names: &mut Vec<N>,
    item: T,
    next: Result<(u32, Option<N>), BuildFault>,
) -> Result<u32, BuildFault>
    ensures { Pushes items.old items.new names.old.items names.new.items item next result }
{
    let (count, name) = next?;
    push_both(items, names, item, name)?;
    Ok(count)
}

/// Adds a definition that makes the item of a space with this index, with its debug name, and returns
/// the count after it.
fn push_item(
    defs: &mut Defs,
    names: &mut Vec<Name>,
    def: Def,
    space: Space,
    index: u32,
    debug: Option<&str>,
) -> Result<u32, BuildFault>
    ensures ok { OnOk result ((defs.new ≡ defs.old ++ def ∷ [])
        × (names.new.items ≡ names.old.items ++ name_of space index (option_now debug.entry))) }
    ensures count { IfOk result (λ count. count ≡ index + 1) }
    ensures err { OnErr result ((defs.new ≡ defs.old) × (names.new.items ≡ names.old.items)) }
    ensures full { IfErr result (Passes (index + 1)) }
{
    let next = next_item(*names.allocator(), space, index, debug);
    push_next(defs, names, def, next)
}

impl ComponentBuilder {
    /// A component with no definition. It allocates nothing.
    pub fn new(alloc: Global) -> ComponentBuilder
        ensures { result ≡ nothing_built }
    {
        ComponentBuilder {
            defs: Seq::new(alloc),
            names: Vec::new(alloc),
            counts: [0; 10],
        }
    }

    /// The allocator that the component grows in.
    pub(crate) fn allocator(&self) -> Global {
        *self.names.allocator()
    }

    /// Adds a definition that makes an item of this space, with its debug name.
    pub(crate) fn define(
        &mut self,
        debug: Option<&str>,
        space: Space,
        def: Def,
    ) -> Result<u32, BuildFault>
        requires { space_of def ≡ Some space }
        ensures adds { Adds self.old self.new result space def (option_now debug.entry) }
        ensures at { IfOk result (λ index. IsAt self.new.defs space index def) }
    {
        let index = self.counts[space.ordinal()];
        let next = push_item(&mut self.defs, &mut self.names, def, space, index, debug)?;
        self.counts[space.ordinal()] = next;
        Ok(index)
    }

    /// The definitions that were added, in order.
    pub fn definitions(&self) -> &Defs
        ensures { result.now ≡ self.now.defs }
    {
        &self.defs
    }

    /// Appends the custom section `component-name` with the debug names, if there are any: for each
    /// space with names, in the order of the bytes of their sorts, the names by index. It fails with
    /// [`BuildFault::TooMany`] only where a count or a size in that section would pass 2^32 - 1; then
    /// the builder is unchanged.
    pub fn append_names(&mut self) -> Result<(), BuildFault>
        ensures { AddsNames self.old self.new result }
    {
        if self.names.is_empty() {
            return Ok(());
        }
        let contents = names_bytes(self.allocator(), self.names.as_slice())?;
        let name = Text::from_str(self.allocator(), "component-name")?;
        let contents = Seq::from_vec(contents);
        self.defs.push(Def::Item(Item::Custom { name, contents }))?;
        Ok(())
    }

    /// How many bytes [`ComponentBuilder::finish`] gives. It takes no memory, and fails with
    /// [`BuildFault::TooMany`] exactly where a count or a size that would be written, or that number, passes
    /// 2^32 - 1. It reports the first of these, or 2^128 - 1 where that is more.
    pub fn measure(&self) -> Result<u32, BuildFault>
        ensures { Measures (encoding_of self.now.defs) result }
    {
        let size = component_size(self.allocator(), self.defs.as_slice())?;
        Ok(size)
    }

    /// The bytes of the component: its preamble and its sections. They are measured first, and written to one buffer
    /// of that size. It fails with
    /// [`BuildFault::TooMany`] only where a count or a size that would be written passes 2^32 - 1, and
    /// reports that one.
    pub fn finish(self) -> Result<Vec<u8>, BuildFault>
        ensures ok { IfOk result (λ v. Encodes v.items self.defs) }
        ensures err { IfErr result (Refused (encoding_of self.defs).counts) }
    {
        component_bytes(self.allocator(), self.defs.as_slice())
    }
}
