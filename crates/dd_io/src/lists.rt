//! Lists of bytes and of numbers, which a contract sees as lists.
ghost use Rattle.std.specs.Prelude.{◌≡◌, ◌↔◌, [], length, IsTrue};

use std::marker::Model;

/// A list of bytes.
#[derive(Debug, Drop)]
pub struct Bytes {
    items: Vec<u8>,
}

impl Model for Bytes {
    ghost use Rattle.std.specs.Prelude.{ℕ, List};

    ghost Value = { List ℕ };

    ghost view = { λ b. b.items.items };
}

impl Bytes {
    /// The bytes of a vector, which keeps its allocator.
    pub fn from_vec(items: Vec<u8>) -> Self
        ensures { result ≡ items.items }
    {
        Bytes { items }
    }

    /// The vector of the bytes.
    pub fn into_vec(self) -> Vec<u8>
        ensures { result.items ≡ self }
    {
        let Bytes { items } = self;
        items
    }

    pub fn as_slice(&self) -> &[u8]
        ensures { result.now ≡ self.now }
    {
        &self.items
    }

    pub fn len(&self) -> usize
        ensures { result ≡ length self.now }
    {
        self.items.len()
    }

    pub fn is_empty(&self) -> bool
        ensures { IsTrue result ↔ (self.now ≡ []) }
    {
        self.items.is_empty()
    }
}

/// A list of numbers of 64 bits.
#[derive(Debug, Drop)]
pub struct Numbers {
    items: Vec<u64>,
}

impl Model for Numbers {
    ghost use Rattle.std.specs.Prelude.{ℕ, List};

    ghost Value = { List ℕ };

    ghost view = { λ n. n.items.items };
}

impl Numbers {
    /// The numbers of a vector, which keeps its allocator.
    pub fn from_vec(items: Vec<u64>) -> Self
        ensures { result ≡ items.items }
    {
        Numbers { items }
    }

    /// The vector of the numbers.
    pub fn into_vec(self) -> Vec<u64>
        ensures { result.items ≡ self }
    {
        let Numbers { items } = self;
        items
    }

    pub fn as_slice(&self) -> &[u64]
        ensures { result.now ≡ self.now }
    {
        &self.items
    }

    pub fn len(&self) -> usize
        ensures { result ≡ length self.now }
    {
        self.items.len()
    }

    pub fn is_empty(&self) -> bool
        ensures { IsTrue result ↔ (self.now ≡ []) }
    {
        self.items.is_empty()
    }
}
