//! Bytes that are held once.

ghost use Rattle.std.specs.Prelude.{◌≡◌, nat_eq, length, ◌==◌, IfOk};
ghost use Rattle.std.proofs.Common.{rules};
ghost use Rattle.std.specs.Cmp.Rules.{comparing};
ghost use Rattle.std.specs.Cmp.Lexicographic.{pointwise};

use std::alloc::AllocError;
use std::marker::Model;
use std::rc::Rc;

/// Bytes that don't change, which contracts see as their list. All that share them are equal
/// values, and hold them in one buffer, which is given back with the last of these.
#[derive(Debug, Drop)]
pub struct SharedBytes {
    bytes: Rc<Vec<u8>>,
}

impl Model for SharedBytes {
    ghost use Rattle.std.specs.Prelude.{List, ℕ};

    ghost Value = { List ℕ };

    ghost view = { λ b. b.bytes.value.items };
}

impl SharedBytes {
    /// The bytes of a vector, which are not copied. The only error is out of memory.
    pub fn from_vec(bytes: Vec<u8>) -> Result<SharedBytes, AllocError>
        ensures { IfOk result (λ b. b ≡ bytes.items) }
    {
        let bytes = Rc::new(*bytes.allocator(), bytes)?;
        Ok(SharedBytes { bytes })
    }

    /// The same bytes, for one more owner. It copies none of them. The only error is out of memory,
    /// where there are too many owners to count.
    pub fn share(&self) -> Result<SharedBytes, AllocError>
        ensures { IfOk result (λ b. b ≡ self.now) }
    {
        let bytes = self.bytes.clone()?;
        Ok(SharedBytes { bytes })
    }

    pub fn as_slice(&self) -> &[u8]
        ensures { result.now ≡ self.now }
    {
        self.bytes.as_slice()
    }

    pub fn len(&self) -> usize
        ensures { result ≡ length self.now }
    {
        self.as_slice().len()
    }

    pub fn is_empty(&self) -> bool
        ensures { result ≡ (length self.now == 0) }
    {
        self.as_slice().is_empty()
    }
}

impl PartialEq for SharedBytes {
    ghost eq = { pointwise nat_eq };

    ghost laws = { Prim.search (comparing, rules) };

    fn eq(&self, other: &Self) -> bool {
        self.as_slice() == other.as_slice()
    }
}

impl Eq for SharedBytes {
    ghost laws = { Prim.search (comparing, rules) };
}
