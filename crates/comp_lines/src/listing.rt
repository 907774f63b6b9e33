//! The lines of a component.

ghost use Rattle.std.specs.Prelude.{◌≡◌, ◌+◌, ◌-◌, ◌^◌, ◌<◌, [], ◌∷◌, ◌++◌, IfErr, IfOk, OnOk, string_bytes, map, length, get_or, List, ℕ, Option, Some, None, if◌then◌else◌};
ghost use Rattle.std.specs.List.{flat_map};
ghost use Rattle.comp_bytes.specs.Spaces.{ordinal, is_space, item_space, space_of};
ghost use Rattle.byte_encoding.specs.Encoding.{Fits};
ghost use Rattle.comp_bytes.specs.Grammar.{Encodes};
ghost use Rattle.byte_encoding.specs.Written.{Refused};
ghost use Rattle.comp_bytes.specs.declared.space.Space.{Space};
ghost use Rattle.comp_bytes.specs.declared.def.Def.TheVariants as defs;
ghost use Rattle.comp_lines.specs.Lines.{item_line, shown, scope_lines, nested_lines, definition_lines, lines, shown_counts};

use crate::items::{put_component_line, put_item_line, space_of_item};
use byte_encoding::BuildFault;
use comp_bytes::{Def, Defs, Item, Space};
use std::alloc::Global;

/// How many items each space has, in the order of [`Space`].
type Counters = [u64; 10];

/// The index of a space in that order.
fn space_index(space: Space) -> usize
    ensures { result ≡ ordinal space }
{
    space as usize
}

/// The count of a space, which is then incremented; 0 for none.
fn count(counters: &mut Counters, space: Option<Space>) -> u64
    requires { (s : Space) → get_or counters.old (ordinal s) 0 < 2 ^ 64 - 1 }
    ensures result { result ≡ elim space [ None ↦ 0 | Some s ↦ get_or counters.old (ordinal s) 0 ] }
    ensures counted { (s : Space)
        → get_or counters.new (ordinal s) 0
        ≡ get_or counters.old (ordinal s) 0 + (if is_space s space then 1 else 0) }
{
    match space {
        None => 0,
        Some(space) => {
            let index = counters[space_index(space)];
            counters[space_index(space)] = index + 1;
            index
        }
    }
}

/// A definition of a scope, which is printed as one line or more.
trait Listed {
    ghost space: { Self → Option Space };

    ghost lines: { ℕ → Self → List (List ℕ) };

    ghost counts: { Self → List ℕ };

    /// The space in which it makes an item.
    fn space(&self) -> Option<Space>
        ensures { result ≡ space self.now };

    /// Adds its lines, given the index of its item.
    fn put_lines(&self, alloc: Global, index: u64, out: &mut Vec<String>) -> Result<(), BuildFault>
        ensures ok { OnOk result (map string_bytes out.new.items
            ≡ map string_bytes out.old.items ++ lines index self.now) }
        ensures fits { OnOk result (Fits (counts self.now)) }
        ensures refused { IfErr result (Refused (counts self.now)) };
}

/// Adds the lines of a scope's definitions.
fn put_scope<T: Listed>(alloc: Global, items: &[T], out: &mut Vec<String>) -> Result<(), BuildFault>
    ensures ok { OnOk result (map string_bytes out.new.items
        ≡ map string_bytes out.old.items ++ scope_lines T.space T.lines [] items.now) }
    ensures fits { OnOk result (Fits (flat_map T.counts items.now)) }
    ensures refused { IfErr result (Refused (flat_map T.counts items.now)) }
{
    let mut counters: Counters = [0; 10];
    for item in items {
        let index = count(&mut counters, item.space());
        item.put_lines(alloc, index, out)?;
    }
    Ok(())
}

/// Adds the line of an item, with this indentation.
fn put_line(
    alloc: Global,
    margin: &str,
    index: u64,
    item: &Item,
    out: &mut Vec<String>,
) -> Result<(), BuildFault>
    ensures ok { OnOk result (map string_bytes out.new.items
        ≡ map string_bytes out.old.items ++ (margin.now ++ item_line index item.now) ∷ []) }
    ensures fits { OnOk result (Fits (shown item.now).counts) }
    ensures refused { IfErr result (Refused (shown item.now).counts) }
{
    let mut line = String::from_str(alloc, margin)?;
    put_item_line(alloc, &mut line, index, item)?;
    out.push(line)?;
    Ok(())
}

impl Listed for Item {
    ghost space = { item_space };

    ghost lines = { nested_lines };

    ghost counts = { λ i. (shown i).counts };

    fn space(&self) -> Option<Space> {
        space_of_item(self)
    }

    fn put_lines(
        &self,
        alloc: Global,
        index: u64,
        out: &mut Vec<String>,
    ) -> Result<(), BuildFault> {
        put_line(alloc, "  ", index, self, out)
    }
}

/// Adds the line of a nested component, and those of its definitions.
fn put_component(
    alloc: Global,
    index: u64,
    inner: &[Item],
    out: &mut Vec<String>,
) -> Result<(), BuildFault>
    ensures ok { OnOk result (map string_bytes out.new.items
        ≡ map string_bytes out.old.items ++ definition_lines index (defs.Component inner.now)) }
    ensures fits { OnOk result (Fits (shown_counts (defs.Component inner.now))) }
    ensures refused { IfErr result (Refused (shown_counts (defs.Component inner.now))) }
{
    let mut line = String::new(alloc);
    put_component_line(&mut line, index, inner.len())?;
    out.push(line)?;
    put_scope(alloc, inner, out)
}

impl Listed for Def {
    ghost space = { space_of };

    ghost lines = { definition_lines };

    ghost counts = { shown_counts };

    fn space(&self) -> Option<Space> {
        match self {
            Def::Item(item) => space_of_item(item),
            Def::Component(_) => Some(Space::Component),
        }
    }

    fn put_lines(
        &self,
        alloc: Global,
        index: u64,
        out: &mut Vec<String>,
    ) -> Result<(), BuildFault> {
        match self {
            Def::Item(item) => put_line(alloc, "", index, item, out),
            Def::Component(inner) => put_component(alloc, index, inner.as_slice(), out),
        }
    }
}

/// The lines of a component's definitions: one for each definition, and those of a nested component's
/// definitions after its own, indented by two spaces.
///
/// A line is `SPACE INDEX = ` and what the item is made of; the index is the number of items that the
/// scope's definitions before it make in that space. A custom section makes none, and its line has
/// no such beginning. Names are in quotes; types, descriptions and intrinsics are the hexadecimal
/// digits of their bytes (component model, binary format: `deftype`, `externdesc`, `canon`).
///
/// Nothing is checked: an index may name no item.
///
/// # Errors
///
/// [`BuildFault::Memory`] when out of memory. [`BuildFault::TooMany`] exactly where memory
/// suffices and a count or a size in the bytes that are shown passes 2^32 - 1; it reports such a one.
/// The only error of definitions that some bytes encode, as those that were read, is out of memory.
pub fn describe(alloc: Global, definitions: &Defs) -> Result<Vec<String>, BuildFault>
    ensures ok { IfOk result (λ found. map string_bytes found.items ≡ lines definitions.now) }
    ensures fits { OnOk result (Fits (flat_map shown_counts definitions.now)) }
    ensures refused { IfErr result (Refused (flat_map shown_counts definitions.now)) }
    ensures memory { IfErr result
        (λ e. (bytes : List ℕ) → Encodes bytes definitions.now → e ≡ BuildFault.Memory) }
{
    let mut out = Vec::new(alloc);
    put_scope(alloc, definitions.as_slice(), &mut out)?;
    Ok(out)
}
