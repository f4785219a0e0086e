//! Lists of operations and of colours, which contracts see as lists.

ghost use Rattle.std.specs.Prelude.{◌≡◌, ◌<◌, ◌≤◌, ◌+◌, ◌↔◌, ◌++◌, ◌∷◌, [], length, OnOk, OnErr, IfOk, IfErr, IsErrOf, MatchResult};
ghost use Rattle.dd_ops.specs.declared.lists.OpsFault.TheVariants.{TooMany, OutOfMemory};
ghost use Rattle.dd_ops.specs.declared.lists.TheConstants.{MAX_OPS};

use crate::operations::Op;
use std::alloc::{AllocError, AllocFailed, Global};
use std::marker::Model;
use thiserror::Error;

/// The most operations of a present.
pub const MAX_OPS: usize = 64;

/// Why an operation wasn't added to a list.
#[derive(Clone, Copy, Debug, PartialEq, Eq, Error)]
pub enum OpsFault {
    #[error("a present has at most 64 operations")]
    TooMany,
    #[error("out of memory")]
    OutOfMemory,
}

impl<T: Drop> From<AllocFailed<T>> for OpsFault {
    ghost from_gives = { λ _ e. e ≡ OutOfMemory };

    fn from(_e: AllocFailed<T>) -> OpsFault {
        OpsFault::OutOfMemory
    }
}

/// Equal operations, in their order.
fn copies(alloc: Global, ops: &[Op]) -> Result<Vec<Op>, AllocError>
    ensures { IfOk result (λ v. v.items ≡ ops.now) }
{
    let mut items = Vec::with_capacity(alloc, ops.len())?;
    for op in ops {
        items.push(op.copy()?)?;
    }
    Ok(items)
}

/// The operations of one present, in their order: at most 64.
#[derive(Debug, Drop)]
pub struct Ops {
    items: Vec<Op>,
}

impl Model for Ops {
    ghost use Rattle.std.specs.Prelude.{List, ◌≤◌, vec_len};
    ghost use Rattle.dd_ops.specs.declared.operations.Op.{Op};

    ghost Value = { List Op };

    ghost use Rattle.dd_ops.specs.declared.lists.TheConstants.{MAX_OPS};

    ghost view = { λ o. o.items.items };

    ghost invariant = { λ o. vec_len o.items ≤ MAX_OPS };
}

impl Ops {
    /// No operations.
    pub fn new(alloc: Global) -> Ops
        ensures { result ≡ [] }
    {
        Ops {
            items: Vec::new(alloc),
        }
    }

    /// Adds an operation at the end. A refusal leaves the list as it was.
    pub fn push(&mut self, op: Op) -> Result<(), OpsFault>
        ensures ok { OnOk result (self.new ≡ self.old ++ op ∷ []) }
        ensures many { IsErrOf result TooMany ↔ (length self.old ≡ MAX_OPS) }
        ensures err { OnErr result (self.new ≡ self.old) }
    {
        if self.items.len() == MAX_OPS {
            return Err(OpsFault::TooMany);
        }
        self.items.push(op)?;
        Ok(())
    }

    /// An equal list, on memory of its own.
    pub fn copy(&self) -> Result<Ops, AllocError>
        ensures { IfOk result (λ ops. ops ≡ self.now) }
    {
        let items = copies(*self.items.allocator(), self.as_slice())?;
        Ok(Ops { items })
    }

    pub fn as_slice(&self) -> &[Op]
        ensures value { result.now ≡ self.now }
        ensures few { length self.now ≤ MAX_OPS }
    {
        self.items.as_slice()
    }
}

/// A list of colours.
#[derive(Debug, Drop)]
pub struct Colours {
    items: Vec<u32>,
}

impl Model for Colours {
    ghost use Rattle.std.specs.Prelude.{List, ℕ};

    ghost Value = { List ℕ };

    ghost view = { λ c. c.items.items };
}

impl Colours {
    /// The colours of a vector, in its order and on its memory.
    pub fn from_vec(items: Vec<u32>) -> Colours
        ensures { result ≡ items.items }
    {
        Colours { items }
    }

    /// The vector itself.
    pub fn into_vec(self) -> Vec<u32>
        ensures { result.items ≡ self }
    {
        let Colours { items } = self;
        items
    }

    pub fn as_slice(&self) -> &[u32]
        ensures { result.now ≡ self.now }
    {
        self.items.as_slice()
    }

    /// An equal list, on memory of its own.
    pub fn copy(&self) -> Result<Colours, AllocError>
        ensures { IfOk result (λ colours. colours ≡ self.now) }
    {
        let items = Vec::from_slice(*self.items.allocator(), self.as_slice())?;
        Ok(Colours { items })
    }
}
