//! Bytes that came and aren't read yet.

ghost use Rattle.std.specs.Prelude.{◌≡◌, ◌≤◌, ◌++◌, [], length, drop, OnOk, OnErr};

use std::alloc::{AllocError, Global};
use std::marker::Model;

/// Bytes in a buffer, behind some that were read already.
#[derive(Debug, Drop)]
pub(crate) struct Pending {
    bytes: Vec<u8>,
    start: usize,
}

impl Model for Pending {
    ghost use Rattle.std.specs.Prelude.{ℕ, List, ◌≤◌, drop, vec_len};

    ghost Value = { List ℕ };

    ghost view = { λ p. drop p.start p.bytes.items };

    ghost invariant = { λ p. p.start ≤ vec_len p.bytes };
}

/// Moves the bytes from a place on to the front, and forgets those before it.
fn keep_from(bytes: &mut Vec<u8>, start: usize)
    requires { start ≤ length bytes.old.items }
    ensures { bytes.new.items ≡ drop start bytes.old.items }
{
    if start == 0 {
        return;
    }
    let count = bytes.len() - start;
    bytes.copy_within(start.., 0);
    bytes.truncate(count);
}

impl Pending {
    pub fn new(alloc: Global) -> Pending
        ensures { result ≡ [] }
    {
        Pending {
            bytes: Vec::new(alloc),
            start: 0,
        }
    }

    pub fn as_slice(&self) -> &[u8]
        ensures { result.now ≡ self.now }
    {
        &self.bytes[self.start..]
    }

    pub fn len(&self) -> usize
        ensures { result ≡ length self.now }
    {
        self.bytes.len() - self.start
    }

    /// Adds bytes behind those that there are. Those that were read make room first.
    pub fn append(&mut self, piece: &[u8]) -> Result<(), AllocError>
        ensures ok { OnOk result (self.new ≡ self.old ++ piece.now) }
        ensures err { OnErr result (self.new ≡ self.old) }
    {
        keep_from(&mut self.bytes, self.start);
        self.start = 0;
        self.bytes.extend_from_slice(piece)
    }

    /// Counts so many bytes as read.
    pub fn skip(&mut self, count: usize)
        requires { count ≤ length self.old }
        ensures { self.new ≡ drop count self.old }
    {
        self.start += count;
    }

    pub fn clear(&mut self)
        ensures { self.new ≡ [] }
    {
        self.bytes.clear();
        self.start = 0;
    }
}
