//! An output: it counts all that is written to it, and keeps what it has room for.

ghost use Rattle.std.specs.Prelude.{ℕ, ◌≡◌, ◌↔◌, IsTrue, ◌+◌, ◌<◌, ◌≤◌, ◌^◌, [], take, length, IfOk};
ghost use Rattle.byte_encoding.specs.Encoding.{Encoding, raw, number, quantity, signed_leb, leb128};
ghost use Rattle.measured_bytes.specs.Outputs.{Measured, Puts, nothing_put, capped};

use byte_encoding::Excess;
use std::alloc::{AllocError, Global};
use std::marker::Model;

/// What was written: how many bytes these are, the first count among them that passes 2^32 - 1, and the first bytes,
/// as many as there is room for.
///
/// An output with no room measures what is written to it, and takes no memory. One with room for that
/// many bytes has them all. Writing never fails: the room is there before, and what it can't
/// hold is counted alone.
#[derive(Drop)]
pub struct Output {
    bytes: Vec<u8>,
    room: usize,
    size: u128,
    excess: Option<Excess>,
}

impl Model for Output {
    ghost use Rattle.std.specs.Prelude.{◌≤◌};
    ghost use Rattle.std.specs.Vec.{vec_len, vec_capacity};
    ghost use Rattle.measured_bytes.specs.Outputs.{Measured};

    ghost Value = { Measured };

    ghost view = { λ o. record { room = o.room; kept = o.bytes.items; size = o.size; excess = o.excess } };

    ghost invariant = { λ o. (vec_len o.bytes ≤ o.room) × (o.room ≤ vec_capacity o.bytes) };
}

impl Output {
    /// An output with no room. It takes no memory.
    pub fn new(alloc: Global) -> Output
        ensures { result ≡ nothing_put 0 }
    {
        Output {
            bytes: Vec::new(alloc),
            room: 0,
            size: 0,
            excess: None,
        }
    }

    /// An output with room for so many bytes.
    pub fn with_room(alloc: Global, room: usize) -> Result<Output, AllocError>
        ensures { IfOk result (λ o. (o ≡ nothing_put room) × (room < 2 ^ 63)) }
    {
        let bytes = Vec::with_capacity(alloc, room)?;
        Ok(Output {
            bytes,
            room,
            size: 0,
            excess: None,
        })
    }

    /// Writes bytes as they are.
    pub fn put_bytes(&mut self, bytes: &[u8])
        ensures { Puts self.old self.new (raw bytes.now) }
    {
        let left = self.room - self.bytes.len();
        let kept = if bytes.len() <= left {
            bytes
        } else {
            &bytes[..left]
        };
        self.size = self.size.saturating_add(bytes.len() as u128);
        if self.bytes.extend_from_slice(kept).is_err() {
            unreachable!()
        }
    }

    /// Counts a count or a size that passes 2^32 - 1. What it is written as doesn't matter.
    pub(crate) fn put_excess(&mut self, excess: Excess)
        requires { 2 ^ 32 ≤ excess }
        ensures { (n : ℕ) → excess ≡ capped n → Puts self.old self.new (quantity n) }
    {
        self.size = self.size.saturating_add(5);
        if self.excess.is_none() {
            self.excess = Some(excess);
        }
    }

    /// Whether there is no room left.
    pub(crate) fn is_full(&self) -> bool
        ensures { IsTrue result ↔ (self.now.room ≤ length self.now.kept) }
    {
        self.room <= self.bytes.len()
    }

    /// Counts what an output with no room has measured. There is no room left for it here.
    pub(crate) fn put_measured(&mut self, measured: &Output)
        requires { self.old.room ≤ length self.old.kept }
        ensures { (s : Encoding) → Puts (nothing_put 0) measured.now s → Puts self.old self.new s }
    {
        self.size = self.size.saturating_add(measured.size());
        if self.excess.is_none() {
            self.excess = measured.excess();
        }
    }

    /// The size of all that was written, capped at 2^128 - 1.
    pub(crate) fn size(&self) -> u128
        ensures { result ≡ self.now.size }
    {
        self.size
    }

    /// The first count or size that passes 2^32 - 1, capped at 2^128 - 1.
    pub(crate) fn excess(&self) -> Option<Excess>
        ensures { result ≡ self.now.excess }
    {
        self.excess
    }

    /// The allocator that the output has its bytes from.
    pub(crate) fn allocator(&self) -> Global {
        *self.bytes.allocator()
    }

    /// The bytes that there was room for.
    pub fn into_bytes(self) -> Vec<u8>
        ensures { result.items ≡ take self.room self.kept }
    {
        let Output {
            bytes,
            room: _,
            size: _,
            excess: _,
        } = self;
        bytes
    }
}
