//! A component, with the components nested in it.
//!
//! Component model, binary format: `component`, `section`.

ghost use Rattle.std.specs.Prelude.{◌≡◌, List, length, map, IfOk, IfErr};
ghost use Rattle.comp_bytes.specs.declared.def.Def.TheVariants as defs;
ghost use Rattle.comp_bytes.specs.Grammar.{Encodes};
ghost use Rattle.comp_read.specs.Causes.{IsRefusal};
ghost use Rattle.comp_read.specs.ItemReaders.{contents_at};
ghost use Rattle.comp_read.specs.SectionReaders.{GivesAt, ok_or_at};

use crate::fault::ReadFault;
use crate::items;
use crate::sections::{SectionItem, component};
use comp_bytes::{Def, Defs, Item};
use comp_lists::Seq;
use part_readers::PartFault;
use std::alloc::{AllocError, Global};

fn item_contents(alloc: Global, offset: usize, id: u8, inner: &[u8]) -> Result<Seq<Item>, ReadFault>
    ensures { GivesAt (λ x. x) result (ok_or_at offset (contents_at id inner.now)) }
{
    match items::contents(alloc, id, inner) {
        Ok(items) => Ok(items),
        Err(PartFault::Memory) => Err(ReadFault::Memory),
        Err(PartFault::Malformed) => Err(ReadFault::Grammar { place: offset }),
    }
}

impl SectionItem for Item {
    ghost use Rattle.comp_read.specs.SectionReaders.{item_contents_at};

    ghost contents_at = { item_contents_at };

    fn contents(
        alloc: Global,
        offset: usize,
        _start: usize,
        id: u8,
        inner: &[u8],
    ) -> Result<Seq<Item>, ReadFault> {
        item_contents(alloc, offset, id, inner)
    }
}

fn wrapped(alloc: Global, items: Seq<Item>) -> Result<Seq<Def>, AllocError>
    ensures { IfOk result (λ ds. ds ≡ map (λ i. defs.Item i) items) }
{
    let definitions = items
        .into_vec()
        .into_iter()
        .map(|item| Def::Item(item))
        .collect(alloc)?;
    Ok(Seq::from_vec(definitions))
}

impl SectionItem for Def {
    ghost use Rattle.comp_read.specs.SectionReaders.{definition_contents_at};

    ghost contents_at = { definition_contents_at };

    fn contents(
        alloc: Global,
        offset: usize,
        start: usize,
        id: u8,
        inner: &[u8],
    ) -> Result<Seq<Def>, ReadFault> {
        if id == 4 {
            let items = component::<Item>(alloc, offset, start, inner)?;
            let mut found = Seq::new(alloc);
            found.push(Def::Component(items))?;
            return Ok(found);
        }
        let items = item_contents(alloc, offset, id, inner)?;
        Ok(wrapped(alloc, items)?)
    }
}

/// The definitions of a component, read from its binary format.
pub fn read_component(alloc: Global, bytes: &[u8]) -> Result<Defs, ReadFault>
    ensures ok { IfOk result (λ defs. Encodes bytes.now defs) }
    ensures cause { IfErr result (λ e. IsRefusal bytes.now e) }
{
    component::<Def>(alloc, 0, 0, bytes)
}
