//! The definitions that made the items which links go through.

ghost use Rattle.std.specs.Prelude.{◌≡◌, IfOk, map, option_map, option_and_then, slice_get};
ghost use Rattle.comp_bytes.specs.Spaces.{is_space, space_of};
ghost use Rattle.comp_bytes.specs.ItemIndices.{in_space};
ghost use Rattle.found_links.specs.Items.{found_in, of_space, as_item, item};

use comp_bytes::{Def, Item, Space};
use comp_lines::space_of_item;
use std::alloc::{AllocError, Global};
use std::marker::Model;

/// Whether a definition makes an item of a space.
fn makes(definition: &Def, space: Space) -> bool
    ensures { result ≡ is_space space (space_of definition.now) }
{
    let made = match definition {
        Def::Item(item) => space_of_item(item),
        Def::Component(_) => Some(Space::Component),
    };
    match made {
        Some(made) => made.ordinal() == space.ordinal(),
        None => false,
    }
}

/// The definitions that make an item of a space, in order.
fn made_in<'a>(
    alloc: Global,
    definitions: &'a [Def],
    space: Space,
) -> Result<Vec<&'a Def>, AllocError>
    ensures { IfOk result (λ v. map (λ d. d.now) v.items ≡ in_space space definitions.now) }
{
    let mut found = Vec::new(alloc);
    for definition in definitions {
        if makes(definition, space) {
            found.push(definition)?;
        }
    }
    Ok(found)
}

/// The definitions that made the items of the spaces that links go through, by their indices.
#[derive(Drop)]
pub(crate) struct Items<'a> {
    core_funcs: Vec<&'a Def>,
    core_tables: Vec<&'a Def>,
    core_memories: Vec<&'a Def>,
    core_globals: Vec<&'a Def>,
    core_instances: Vec<&'a Def>,
    funcs: Vec<&'a Def>,
    instances: Vec<&'a Def>,
}

impl<'a> Model for Items<'a> {
    ghost use Rattle.std.specs.Prelude.{map};
    ghost use Rattle.found_links.specs.Items.{Found};

    ghost Value = { Found };

    ghost view = { λ t. record {
      core_funcs = map (λ d. d.now) t.core_funcs.items;
      core_tables = map (λ d. d.now) t.core_tables.items;
      core_memories = map (λ d. d.now) t.core_memories.items;
      core_globals = map (λ d. d.now) t.core_globals.items;
      core_instances = map (λ d. d.now) t.core_instances.items;
      funcs = map (λ d. d.now) t.funcs.items;
      instances = map (λ d. d.now) t.instances.items;
    } };
}

fn item_of(definition: &Def) -> Option<&Item>
    ensures { option_map (λ i. i.now) result ≡ as_item definition.now }
{
    match definition {
        Def::Item(item) => Some(item),
        Def::Component(_) => None,
    }
}

/// What is at an index of these definitions.
#[tactic(auto, using(crate::proofs::Getting::get_mapped))]
fn item_in<'a>(definitions: &[&'a Def], index: u32) -> Option<&'a Item>
    ensures { option_map (λ i. i.now) result
        ≡ option_and_then as_item (slice_get (map (λ d. d.now) definitions.now) index) }
{
    match definitions.get(index as usize) {
        Some(definition) => item_of(definition),
        None => None,
    }
}

impl<'a> Items<'a> {
    pub(crate) fn of(alloc: Global, definitions: &'a [Def]) -> Result<Items<'a>, AllocError>
        ensures { IfOk result (λ f. f ≡ found_in definitions.now) }
    {
        let core_funcs = made_in(alloc, definitions, Space::CoreFunc)?;
        let core_tables = made_in(alloc, definitions, Space::CoreTable)?;
        let core_memories = made_in(alloc, definitions, Space::CoreMemory)?;
        let core_globals = made_in(alloc, definitions, Space::CoreGlobal)?;
        let core_instances = made_in(alloc, definitions, Space::CoreInstance)?;
        let funcs = made_in(alloc, definitions, Space::Func)?;
        let instances = made_in(alloc, definitions, Space::Instance)?;
        Ok(Items {
            core_funcs,
            core_tables,
            core_memories,
            core_globals,
            core_instances,
            funcs,
            instances,
        })
    }

    fn of_space(&self, space: Space) -> &[&'a Def]
        ensures { map (λ d. d.now) result.now ≡ of_space self.now space }
    {
        match space {
            Space::CoreFunc => self.core_funcs.as_slice(),
            Space::CoreTable => self.core_tables.as_slice(),
            Space::CoreMemory => self.core_memories.as_slice(),
            Space::CoreGlobal => self.core_globals.as_slice(),
            Space::CoreModule => &[],
            Space::CoreInstance => self.core_instances.as_slice(),
            Space::Func => self.funcs.as_slice(),
            Space::Type => &[],
            Space::Component => &[],
            Space::Instance => self.instances.as_slice(),
        }
    }

    /// What made the item of this index in a space.
    pub(crate) fn item(&self, space: Space, index: u32) -> Option<&'a Item>
        ensures { option_map (λ i. i.now) result ≡ item self.now space index }
    {
        item_in(self.of_space(space), index)
    }
}
