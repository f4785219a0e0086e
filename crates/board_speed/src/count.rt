//! What was counted, the same however the threads run.

use std::alloc::AllocError;
use std::fmt;

/// What a thread counted, or all of them.
#[derive(Clone, Copy, Debug, PartialEq, Eq)]
pub struct Count {
    /// How many looks were made.
    pub looks: u64,
    /// How many clients got a frame.
    pub seen: u64,
    /// How many looks weren't let in, or drawings were refused.
    pub refused: u64,
    /// How many entries the longest list had.
    pub front: u64,
}

impl Count {
    /// Of nobody.
    pub const NONE: Count = Count {
        looks: 0,
        seen: 0,
        refused: 0,
        front: 0,
    };

    /// Of one drawing.
    pub fn of_drawing(is_refused: bool, front: u64) -> Count {
        Count {
            refused: u64::from(is_refused),
            front,
            ..Count::NONE
        }
    }

    /// Of so many looks.
    pub fn of_looks(looks: u32) -> Count {
        Count {
            looks: u64::from(looks),
            ..Count::NONE
        }
    }

    /// Of both.
    pub fn with(self, other: Count) -> Count {
        Count {
            looks: self.looks.saturating_add(other.looks),
            seen: self.seen.saturating_add(other.seen),
            refused: self.refused.saturating_add(other.refused),
            front: self.front.max(other.front),
        }
    }
}

/// Of all, where each had memory.
pub fn total(counts: Vec<Result<Count, AllocError>>) -> Result<Count, AllocError> {
    let mut all = Count::NONE;
    for count in counts {
        all = all.with(count?);
    }
    Ok(all)
}

impl fmt::Display for Count {
    fn fmt<W: fmt::Write>(&self, f: &mut fmt::Formatter<W>) -> fmt::Result {
        write!(f, "{} looks, {} saw a frame, ", self.looks, self.seen)?;
        write!(f, "{} refused, {} entries", self.refused, self.front)
    }
}
