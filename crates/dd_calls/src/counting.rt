//! What answers count up to.

ghost use Rattle.std.specs.Prelude.{◌≡◌, ◌∷◌, ◌++◌, [], List};
ghost use Rattle.dd_calls.specs.declared.answers.Answer as answers;
ghost use Rattle.dd_calls.specs.Counting.{counts_of, counted, CountsFit};

use crate::answers::Answer;

/// Counts over the answers of a run.
#[derive(Clone, Copy, Debug, PartialEq, Eq)]
pub struct Counts {
    /// The frames: the acquires that were granted.
    pub acquired: u64,
    /// The frames whose dirty rectangles were rounded.
    pub coalesced: u64,
    /// The entries of the list: drawings, openings and closings that were made.
    pub entries: u64,
    /// The presents that the frames tell of, added up.
    pub frames: u64,
    /// The moves of the frames.
    pub moves: u64,
    /// The dirty rectangles of the frames.
    pub rects: u64,
    /// The answers that are refusals.
    pub refused: u64,
    /// All answers: each step has one.
    pub steps: u64,
}

impl Counts {
    /// The counts of no answers.
    #[tactic(auto, unfolding(crate::specs::Counting::counts_of))]
    pub fn new() -> Counts
        ensures { result ≡ counts_of [] }
    {
        Counts {
            acquired: 0,
            coalesced: 0,
            entries: 0,
            frames: 0,
            moves: 0,
            rects: 0,
            refused: 0,
            steps: 0,
        }
    }

    /// Counts one answer more.
    #[tactic(auto, unfolding(crate::specs::Counting::counted), using(crate::proofs::Counted::counts_go_on))]
    pub fn count(&mut self, answer: &Answer)
        requires { CountsFit (counted self.old answer.now) }
        ensures counted { self.new ≡ counted self.old answer.now }
        ensures all { (told : List answers.Answer) → self.old ≡ counts_of told
            → self.new ≡ counts_of (told ++ answer.now ∷ []) }
    {
        self.steps += 1;
        match answer {
            Answer::Entered { .. } | Answer::Opened { .. } | Answer::Closed { .. } => {
                self.entries += 1;
            }
            Answer::Frame { info, moves, dirt } => {
                self.acquired += 1;
                self.coalesced += u64::from(info.coalesced);
                self.frames += u64::from(info.accumulated);
                self.moves += moves.as_slice().len() as u64;
                self.rects += dirt.as_slice().len() as u64;
            }
            Answer::NotDrawn(_)
            | Answer::NotOpened(_)
            | Answer::NotClosed(_)
            | Answer::Refused { .. }
            | Answer::NoDuplicator => self.refused += 1,
            Answer::Released
            | Answer::Surface(_)
            | Answer::Desc(_)
            | Answer::Buffer { .. }
            | Answer::ShapeBuffer { .. } => {}
        }
    }
}
