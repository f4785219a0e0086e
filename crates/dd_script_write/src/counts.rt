//! The counts of a run as a line.

ghost use Rattle.std.specs.Prelude.{◌≡◌, IfOk};
ghost use Rattle.serde_json.specs.View.{view};
ghost use Rattle.dd_script_write.specs.Texts.{counts_tree, counts_line};

use crate::text::Text;
use dd_calls::Counts;
use serde_json::{Value, json};
use std::alloc::{AllocError, Global};

#[tactic(auto, unfolding(crate::specs::Texts::counts_tree))]
fn counts_tree(alloc: Global, counts: &Counts) -> Result<Value, AllocError>
    ensures { IfOk result (λ v. view v ≡ counts_tree counts.now) }
{
    json!(in alloc; {
        "acquired": counts.acquired,
        "coalesced": counts.coalesced,
        "entries": counts.entries,
        "frames": counts.frames,
        "moves": counts.moves,
        "rects": counts.rects,
        "refused": counts.refused,
        "steps": counts.steps
    })
}

/// The counts of a run, in one line: each under its name, and a line feed.
#[tactic(auto, unfolding(crate::specs::Texts::counts_line), using(crate::proofs::WholeNumbers::counts_have_no_float))]
pub fn counts_text(alloc: Global, counts: &Counts) -> Result<Text, AllocError>
    ensures { IfOk result (λ t. t ≡ counts_line counts.now) }
{
    let mut text = counts_tree(alloc, counts)?.to_string(alloc)?;
    text.push_str("\n")?;
    Ok(Text::from_string(text))
}
