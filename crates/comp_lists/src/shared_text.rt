//! Texts that have several owners: a copy of one takes no memory.
//!
//! Contracts see a shared text as they see a text, as its UTF-8 bytes.
ghost use Rattle.std.specs.Prelude.{◌≡◌, nat_eq, IfOk};
ghost use Rattle.std.proofs.Common.{rules};
ghost use Rattle.std.specs.Cmp.Rules.{comparing, hashing};
ghost use Rattle.std.specs.Cmp.Lexicographic.{pointwise};
ghost use Rattle.std.specs.Hash as fed;

use crate::text::Text;
use crate::try_clone::TryClone;
use std::alloc::{AllocError, Global};
use std::hash::{Hash, Hasher};
use std::marker::Model;
use std::rc::Rc;

/// A text that has any number of owners, which contracts see as its UTF-8 bytes.
#[derive(Debug)]
pub struct SharedText {
    text: Rc<Text, Global>,
}

impl Drop for SharedText {
    fn drop(self) {
        let SharedText { text: _ } = self;
    }
}

impl Model for SharedText {
    ghost use Rattle.std.specs.Prelude.{List, ℕ};

    ghost Value = { List ℕ };

    ghost view = { λ t. t.text.value };
}

impl SharedText {
    /// A text with these bytes, which has one owner. The only error is out of memory.
    pub fn from_str(alloc: Global, text: &str) -> Result<SharedText, AllocError>
        ensures { IfOk result (λ t. t ≡ text.now) }
    {
        let text = Text::from_str(alloc, text)?;
        Ok(SharedText {
            text: Rc::new(alloc, text)?,
        })
    }

    pub fn as_text(&self) -> &Text
        ensures { result.now ≡ self.now }
    {
        self.text.as_ref()
    }

    pub fn as_str(&self) -> &str
        ensures { result.now ≡ self.now }
    {
        self.as_text().as_str()
    }
}

impl TryClone for SharedText {
    /// The same text, with one owner more. It takes no memory; the error is for a count of owners that is full.
    fn try_clone(&self, _alloc: Global) -> Result<SharedText, AllocError> {
        Ok(SharedText {
            text: self.text.clone()?,
        })
    }
}

impl PartialEq for SharedText {
    ghost eq = { pointwise nat_eq };

    ghost laws = { Prim.search (comparing, rules) };

    fn eq(&self, other: &Self) -> bool {
        self.as_text() == other.as_text()
    }
}

impl Eq for SharedText {
    ghost laws = { Prim.search (comparing, rules) };
}

impl Hash for SharedText {
    ghost hash_input = { λ t. fed.str t };

    ghost respects_eq = { Prim.search (hashing, rules) };

    fn hash<H: Hasher>(&self, state: &mut H) {
        self.as_text().hash(state);
    }
}
