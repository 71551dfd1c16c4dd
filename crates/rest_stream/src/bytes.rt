// Bytes that contracts see as a list.
ghost use Rattle.std.specs.Prelude.{◌≡◌, ◌≤◌, IfOk, drop, length};

use std::alloc::{AllocError, Global};
use std::marker::Model;

/// Bytes.
#[derive(Drop)]
pub struct Bytes {
    items: Vec<u8>,
    // Where they begin in `items`.
    start: usize,
}

impl Model for Bytes {
    ghost use Rattle.std.specs.Prelude.{List, ℕ, ◌≤◌, drop, length};

    ghost Value = { List ℕ };

    ghost view = { λ b. drop b.start b.items.items };

    ghost invariant = { λ b. b.start ≤ length b.items.items };
}

impl Bytes {
    /// These bytes.
    pub fn new(items: Vec<u8>) -> Self
        ensures { result ≡ items.items }
    {
        Bytes { items, start: 0 }
    }

    /// The bytes from a place on, without a copy.
    pub fn behind(items: Vec<u8>, start: usize) -> Self
        requires { start ≤ length items.items }
        ensures { result ≡ drop start items.items }
    {
        Bytes { items, start }
    }

    /// A copy of these bytes.
    pub fn of(alloc: Global, bytes: &[u8]) -> Result<Self, AllocError>
        ensures { IfOk result (λ b. b ≡ bytes.now) }
    {
        Ok(Bytes::new(bytes.to_vec(alloc)?))
    }

    /// The bytes.
    pub fn as_slice(&self) -> &[u8]
        ensures { result.now ≡ self.now }
    {
        &self.items[self.start..]
    }
}
