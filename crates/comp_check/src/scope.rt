//! Scopes: how many items each index space has, and whether an item exists.
//!
//! Component model, binary format: index spaces. A component and an instance type open a scope each.

ghost use Rattle.std.specs.Prelude.{◌≡◌, ◌∷◌, ◌+◌, ◌<◌, ◌^◌, [], List, length, Some};
ghost use Rattle.comp_bytes.specs.Scopes.{no_items};
ghost use Rattle.comp_bytes.specs.References.{own};
ghost use Rattle.comp_bytes.specs.declared.space.Space.{Space};
ghost use Rattle.comp_check.specs.Lacking.{counted, and_made, lack_in, lacking, Finds};

use comp_bytes::Space;
use std::marker::Model;

/// How many items each space of a scope has, by its index in the order of spaces.
#[derive(Clone, Copy)]
pub(crate) struct Counts {
    counts: [usize; 10],
}

impl Counts {
    /// A scope with no item.
    pub(crate) fn new() -> Counts
        ensures { counted result ≡ no_items }
    {
        Counts { counts: [0; 10] }
    }

    /// How many items the space has.
    fn get(&self, space: Space) -> usize
        ensures { result ≡ counted self.now space }
    {
        self.counts[space.ordinal()]
    }

    /// Counts the item that is made, if one is.
    pub(crate) fn count(&mut self, made: Option<Space>)
        requires { (space : Space) → counted self.old space + 1 < 2 ^ 64 }
        ensures { counted self.new ≡ and_made (counted self.old) made }
    {
        if let Some(space) = made {
            self.counts[space.ordinal()] += 1;
        }
    }
}

/// A missing item: a space, and an index in it that no item has.
#[derive(Clone, Copy, Debug, PartialEq, Eq)]
pub(crate) struct Lack {
    pub(crate) space: Space,
    pub(crate) index: u32,
}

/// The scopes around a definition: its own, and the outer ones, the innermost first.
#[derive(Drop)]
pub(crate) struct Scopes<'a> {
    own: &'a Counts,
    outer: &'a [Counts],
}

impl<'a> Model for Scopes<'a> {
    ghost use Rattle.std.specs.Prelude.{List, ◌∷◌};
    ghost use Rattle.comp_check.specs.declared.scope.Counts.{Counts};

    ghost Value = { List Counts };

    ghost view = { λ s. s.own.now ∷ s.outer.now };
}

impl<'a> Scopes<'a> {
    pub(crate) fn new(own: &'a Counts, outer: &'a [Counts]) -> Scopes<'a>
        ensures { result ≡ own.now ∷ outer.now }
    {
        Scopes { own, outer }
    }

    /// The own scope, and the outer ones.
    pub(crate) fn parts(&self) -> (&Counts, &[Counts])
        ensures { self.now ≡ result.0.now ∷ result.1.now }
    {
        (self.own, self.outer)
    }

    /// An index of the own scope.
    #[tactic(auto, unfolding(crate::specs::Lacking::lacking))]
    pub(crate) fn check(&self, space: Space, index: u32) -> Result<(), Lack>
        ensures { Finds result (lacking self.now (own space index ∷ [])) }
    {
        check_in(self.own, space, index)
    }

    /// An index of the scope that is so many scopes outward.
    #[tactic(auto, unfolding(crate::specs::Lacking::lacking))]
    pub(crate) fn check_outward(&self, outward: u32, space: Space, index: u32) -> Result<(), Lack>
        ensures { Finds result
            (lacking self.now (record { outward = outward; space = space; index = index } ∷ [])) }
    {
        if outward == 0 {
            return check_in(self.own, space, index);
        }
        match self.outer.get(outward as usize - 1) {
            Some(scope) => check_in(scope, space, index),
            None => Err(Lack {
                space: Space::Component,
                index: outward,
            }),
        }
    }
}

fn check_in(scope: &Counts, space: Space, index: u32) -> Result<(), Lack>
    ensures { Finds result (lack_in (Some scope.now) (own space index)) }
{
    if (index as usize) < scope.get(space) {
        Ok(())
    } else {
        Err(Lack { space, index })
    }
}
